ghost use Rattle.std.specs.Prelude.{◌≤◌};
ghost use Rattle.book.specs.Books.{room, lines_of};
ghost use Rattle.register.specs.Sound.{SoundRows};

use crate::access::add_line;
use crate::slots::Relations;
use base::Refusal;
use book::{Book, Line};
use lines::access::AccessKey;
use lines::row::{Event, ROWS, Row, RowKey};

/// The rows of a register. Their book has no more room than a call has for their bounds; those are within their limits, and a
/// transaction has one row at a ground. That is a fact by recursion over the rows, so it is truncated to have one proof, as a ghost field
/// wants it.
#[derive(Drop)]
pub struct RowBook<'a> {
    book: Book<'a, Row>,
    ghost few: { room book ≤ 256 },
    ghost sound: { ∥ SoundRows (lines_of book) ∥₁ },
}

impl<'a> RowBook<'a> {
    ghost use Rattle.std.specs.Prelude.{◌≡◌, ◌+◌, true, cond, min, [], map, length, is_none, IfOk, OnErr};
    ghost use Rattle.std.specs.List.{AllByRecursion};
    ghost use Rattle.book.specs.Books.{room, memory, Stays};
    ghost use Rattle.lines.specs.LineKeys.{row_key};
    ghost use Rattle.lines.specs.Locks.{row_of, lock_stands};
    ghost use Rattle.lines.specs.Rows.{moved_row, FitsEvent, IsBounded};
    ghost use Rattle.protocol.specs.Checks.{has_room};
    ghost use Rattle.protocol.specs.Noting.{row_needed};
    ghost use Rattle.protocol.specs.Validation.{row_moved};
    ghost use Rattle.register.specs.Registers.{IsOfStamps};
    ghost use Rattle.register.specs.Relations.{pushed_beside};
    ghost use Rattle.register.specs.Room.{Extended};
    ghost use Rattle.register.specs.Lookups.{relation_in};
    ghost use Rattle.register.specs.Sound.{PlacedAt, Located};

    /// No rows. The memory stays as it is.
    pub fn new(lines: &'a mut [Row]) -> RowBook<'a>
        ensures empty { lines_of result.book ≡ [] }
        ensures room { room result.book ≡ min 256 (length lines.old) }
        ensures memory { memory result.book ≡ lines.old }
        ensures named { result.book.lines.ghost_name ≡ lines.entry.ghost_name }
    {
        RowBook {
            book: Book::new(lines, ROWS),
        }
    }

    /// The rows, in the order written.
    #[tactic(auto, using(crate::proofs::Sound::rows_sound))]
    pub fn lines(&self) -> &[Row]
        ensures rows { result.now ≡ lines_of self.now.book }
        ensures few { length result.now ≤ 256 }
        ensures bounded { AllByRecursion IsBounded result.now }
    {
        self.book.lines()
    }

    /// How many rows can still be added.
    pub fn free(&self) -> usize
        ensures { result + length (lines_of self.now.book) ≡ room self.now.book }
    {
        self.book.free()
    }

    /// The row of a transaction at a ground, or nothing.
    pub fn find(&self, key: RowKey) -> Option<Row>
        ensures { result ≡ row_of (lines_of self.now.book) key.transaction key.ground }
    {
        self.book.find_last(key)
    }

    /// That row with its place in the book, or nothing.
    pub fn locate(&self, key: RowKey) -> Option<(usize, Row)>
        ensures { Located (lines_of self.now.book) key result }
    {
        let place = self.book.search_last(key)?;
        let row = self.book.get(place)?;
        Some((place, row))
    }

    /// Whether a read or write line stands as a soft lock: its transaction's row at the key's ground is Running or Validated.
    pub fn lock_stands(&self, access: AccessKey) -> bool
        ensures { result ≡ lock_stands (lines_of self.now.book) access.transaction access.key }
    {
        self.find(access.row_key())
            .is_some_and(|row| row.holds_lock())
    }

    /// Adds the row that a transaction needs at a ground, where it has none. There is room for it.
    pub fn add_needed(&mut self, key: RowKey, needed: bool)
        requires needed { needed ≡ is_none (row_of (lines_of self.old.book) key.transaction key.ground) }
        requires room { has_room (lines_of self.old.book) (room self.old.book) (cond needed 1 0) ≡ true }
        ensures { Extended (row_needed (row_of (lines_of self.old.book) key.transaction key.ground) key.transaction key.ground)
            self.old.book self.new.book }
    {
        if needed {
            add_line(&mut self.book, Row::new(key));
        }
    }

    /// Moves the row at a place by an event. An event that is refused changes nothing.
    pub fn move_row(&mut self, place: usize, row: Row, event: Event) -> Result<(), Refusal>
        requires placed { PlacedAt (lines_of self.old.book) (row_key row) place }
        requires bounded { IsBounded row }
        requires fits { FitsEvent event }
        ensures answer { result ≡ (moved_row row event).1 }
        ensures refused { OnErr result (self.new ≡ self.old) }
        ensures lines { IfOk result (λ _. lines_of self.new.book ≡ row_moved row.transaction row.ground row event (lines_of self.old.book)) }
        ensures stays { Stays self.old.book self.new.book }
    {
        let mut moved = row;
        moved.meet(event)?;
        self.book.set(place, moved);
        Ok(())
    }

    /// Makes way for a range that a transaction takes at its ground: each Running row that goes before stays below it, each that goes
    /// after or is apart stays above.
    pub fn make_way(&mut self, relations: &Relations, taken: (i32, i32))
        requires limits { IsOfStamps taken }
        ensures lines { lines_of self.new.book ≡ map (pushed_beside (relation_in relations.now) taken) (lines_of self.old.book) }
        ensures stays { Stays self.old.book self.new.book }
    {
        // By number: a row is read and written in its place.
        for place in 0..self.book.len() {
            if let Some(row) = self.book.get(place) {
                let lists = relations.to(&row).lists(&row);
                self.book.set(place, lists.push(row, taken));
            }
        }
    }
}
