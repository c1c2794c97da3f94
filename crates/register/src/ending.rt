// What ends a transaction: what its rows say to a decision, and what a settlement writes into the cells of a store.

ghost use Rattle.std.specs.Prelude.{◌≡◌, Some, cond, filter};
ghost use Rattle.lines.specs.declared.transaction.Decision.TheVariants.{Aborted};
ghost use Rattle.protocol.specs.Checks.{is_own};
ghost use Rattle.protocol.specs.Decisions.{decision_in, cell_after_read, cell_after_write};
ghost use Rattle.register.specs.Tallies.{told_with, tally_of};
ghost use Rattle.register.specs.Settling.{with_change, cells_after_reads, cells_after_writes};
ghost use Rattle.store.specs.Stores.{Puts};

use crate::access::is_at;
use crate::range::Range;
use base::{Stamp, TOP};
use lines::access::{ReadLine, WriteLine};
use lines::row::{Row, RowKey, State};
use lines::transaction::Decision;
use store::{Cell, Store};

/// What the rows of a transaction say to a decision: whether one is Running, whether one is Aborted, and the stamps that suit all.
#[derive(Clone, Copy)]
pub struct Tally {
    pub running: bool,
    pub aborted: bool,
    pub range: Range,
}

impl Tally {
    // With one more row, if it is the transaction's.
    fn with(self, transaction: u32, row: &Row) -> Tally
        ensures { result ≡ cond (is_own transaction row.now) (told_with self row.now) self }
    {
        if row.transaction != transaction {
            return self;
        }
        Tally {
            running: self.running || matches!(row.state, State::Running),
            aborted: self.aborted || matches!(row.state, State::Aborted),
            range: self.range.within(row),
        }
    }

    /// What the rows of the transaction say.
    pub fn of_rows(transaction: u32, rows: &[Row]) -> Tally
        ensures { result ≡ tally_of (filter (is_own transaction) rows.now) }
    {
        let mut tally = Tally {
            running: false,
            aborted: false,
            range: Range {
                lower: 0,
                upper: TOP as i32,
            },
        };
        for row in rows {
            tally = tally.with(transaction, row);
        }
        tally
    }

    /// The decision: a row that is Aborted aborts the transaction, else it is committed at the lowest stamp that suits all, if one does.
    pub fn decision(self) -> Decision
        ensures { result ≡ cond self.aborted Aborted (decision_in self.range.lower self.range.upper) }
    {
        if self.aborted || self.range.is_empty() {
            return Decision::Aborted;
        }
        match Stamp::from_bound(self.range.lower) {
            Some(stamp) => Decision::Committed(stamp),
            None => Decision::Aborted,
        }
    }
}

// Raises the read stamp of a read line's cell to a stamp, where it lies below it. A store without the key stays as it is.
#[tactic(auto, using(store::specs::Stores::none))]
fn settle_read<S: Store>(store: &mut S, line: &ReadLine, stamp: Stamp)
    ensures cells { S.cells store.new ≡ with_change (S.cells store.old) line.now.key (cell_after_read (Some line.now) stamp) }
    ensures puts { Puts S.beside store.old store.new }
{
    if let Some(cell) = store.fetch(line.key) {
        if cell.read.number() < stamp.number() {
            let read = Cell {
                read: stamp,
                ..cell
            };
            // The key is one of the store's, so the cell is put.
            let _ = store.put(line.key, read);
        }
    }
}

// Writes a write line's value into its cell, where the cell's write stamp lies below a stamp. A store without the key stays as it is.
#[tactic(auto, using(store::specs::Stores::none))]
fn settle_write<S: Store>(store: &mut S, line: &WriteLine, stamp: Stamp)
    ensures cells { S.cells store.new ≡ with_change (S.cells store.old) line.now.key (cell_after_write (Some line.now) stamp) }
    ensures puts { Puts S.beside store.old store.new }
{
    if let Some(cell) = store.fetch(line.key) {
        if cell.write.number() < stamp.number() {
            let written = Cell {
                value: line.value,
                write: stamp,
                ..cell
            };
            // The key is one of the store's, so the cell is put.
            let _ = store.put(line.key, written);
        }
    }
}

/// Raises the read stamps of the cells that a transaction read at a ground.
pub fn settle_reads<S: Store>(store: &mut S, own: RowKey, reads: &[ReadLine], stamp: Stamp)
    ensures cells { S.cells store.new ≡ cells_after_reads own.transaction own.ground stamp (S.cells store.old) reads.now }
    ensures puts { Puts S.beside store.old store.new }
{
    for line in reads {
        if line.transaction == own.transaction && is_at(line.key, own.ground) {
            settle_read(store, line, stamp);
        }
    }
}

/// Writes what a transaction prewrote at a ground.
pub fn settle_writes<S: Store>(store: &mut S, own: RowKey, writes: &[WriteLine], stamp: Stamp)
    ensures cells { S.cells store.new ≡ cells_after_writes own.transaction own.ground stamp (S.cells store.old) writes.now }
    ensures puts { Puts S.beside store.old store.new }
{
    for line in writes {
        if line.transaction == own.transaction && is_at(line.key, own.ground) {
            settle_write(store, line, stamp);
        }
    }
}
