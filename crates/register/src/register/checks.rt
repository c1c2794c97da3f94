// The checks of the calls, each with its refusal.

ghost use Rattle.std.specs.Prelude.{◌≡◌, ◌+◌, cond, filter, length, is_none, IfOk, Ok, Err};
ghost use Rattle.std.specs.Option.{ok_or};
ghost use Rattle.std.specs.List.{list_any};
ghost use Rattle.base.specs.Keys.{ground_of};
ghost use Rattle.base.specs.Refusals.{refusal};
ghost use Rattle.book.specs.Books.{lines_of};
ghost use Rattle.lines.specs.Locks.{row_of};
ghost use Rattle.lines.specs.Rows.{FitsEvent};
ghost use Rattle.protocol.specs.Checks.{
  is_own,
  is_write_of,
  last_begun,
  check_number,
  check_open,
  check_running,
  check_not_stopped,
  check_alone,
  check_unwritten,
  check_none_running,
  check_room,
  event_decided,
};
ghost use Rattle.protocol.specs.Noting.{new_rows, notes_of_prewrite, write_locks, others};
ghost use Rattle.register.specs.Registers.{model, BegunAt, LineAt};
ghost use Rattle.register.specs.Tallies.{tally_of};

use crate::access::notes_fit;
use crate::ending::Tally;
use crate::register::Register;
use base::Refusal;
use lines::access::{AccessKey, WriteLine};
use lines::row::{Event, Row, State};
use lines::transaction::{Decision, LAST_NUMBER, Transaction};
use policy::Policy;
use store::{Cell, Store};

// Refuses where something stands against the call.
fn refused_if(stands: bool, refusal: Refusal) -> Result<(), Refusal>
    ensures { result ≡ cond stands (Err refusal) (Ok tt) }
{
    if stands { Err(refusal) } else { Ok(()) }
}

// Whether a transaction has a write line.
fn any_write(writes: &[WriteLine], transaction: u32) -> bool
    ensures { result ≡ list_any (is_write_of transaction) writes.now }
{
    // From the end, where the lines of the transaction at hand lie.
    writes
        .iter()
        .rev()
        .any(|line| line.transaction == transaction)
}

// That a row is Running.
pub(super) fn check_running(row: &Row) -> Result<(), Refusal>
    ensures { result ≡ check_running row.now }
{
    match row.state {
        State::Running => Ok(()),
        _ => Err(Refusal::NotRunning),
    }
}

impl<'a, S: Store, P: Policy> Register<'a, S, P> {
    // The largest number that was begun, 0 where none was: that of the last line, since numbers rise.
    fn last_begun(&self) -> u32
        ensures { result ≡ last_begun (model S.cells self.now) }
    {
        match self.transactions.last() {
            Some(line) => line.number,
            None => 0,
        }
    }

    // A number above all that were begun, and at most the last there is.
    pub(super) fn check_number(&self, transaction: u32) -> Result<(), Refusal>
        ensures { result ≡ check_number (model S.cells self.now) transaction }
    {
        let stands = transaction <= self.last_begun() || transaction > LAST_NUMBER;
        refused_if(stands, Refusal::BadNumber)
    }

    // The line of a transaction with its place, or nothing.
    fn locate(&self, transaction: u32) -> Option<(usize, Transaction)>
        ensures { LineAt self.now transaction result }
    {
        let place = self.transactions.search_last(transaction)?;
        let line = self.transactions.get(place)?;
        Some((place, line))
    }

    // That a transaction was begun and is not decided; answers the place of its line.
    pub(super) fn check_open(&self, transaction: u32) -> Result<usize, Refusal>
        ensures check { check_alone result ≡ check_open (model S.cells self.now) transaction }
        ensures place { IfOk result (BegunAt self.now transaction) }
    {
        let Some((place, line)) = self.locate(transaction) else {
            return Err(Refusal::NeverBegun);
        };
        match line.decision {
            None => Ok(place),
            Some(_) => Err(Refusal::AlreadyDecided),
        }
    }

    // That a transaction was begun and is decided; answers what its decision means for its rows.
    pub(super) fn check_decided(&self, transaction: u32) -> Result<Event, Refusal>
        ensures event { result ≡ event_decided (model S.cells self.now) transaction }
        ensures fits { IfOk result FitsEvent }
    {
        let Some((_, line)) = self.locate(transaction) else {
            return Err(Refusal::NeverBegun);
        };
        match line.decision {
            None => Err(Refusal::NotDecided),
            Some(Decision::Committed(stamp)) => Ok(Event::Commit { stamp }),
            Some(Decision::Aborted) => Ok(Event::Abort),
        }
    }

    // That no row of a transaction, at any ground, is Running; answers what its rows say to a decision.
    #[tactic(auto, using(crate::proofs::Tallying::any_own))]
    pub(super) fn check_none_running(&self, transaction: u32) -> Result<Tally, Refusal>
        ensures check { check_alone result ≡ check_none_running (model S.cells self.now) transaction }
        ensures tally { IfOk result (λ tally. tally ≡ tally_of (filter (is_own transaction) (lines_of self.now.rows.book))) }
    {
        let tally = Tally::of_rows(transaction, self.rows.lines());
        if tally.running {
            return Err(Refusal::StillRunning);
        }
        Ok(tally)
    }

    // The cell of a key.
    pub(super) fn check_key(&self, key: u16) -> Result<Cell, Refusal>
        ensures { result ≡ ok_or (S.cells self.now.store key) (refusal 11) }
    {
        self.store.fetch(key).ok_or(Refusal::NoSuchKey)
    }

    // That a transaction has no row at the ground of the key, or one that is Running; answers whether it needs one.
    pub(super) fn check_not_stopped(&self, access: AccessKey) -> Result<bool, Refusal>
        ensures check { check_alone result
            ≡ check_not_stopped (row_of (lines_of self.now.rows.book) access.transaction (ground_of access.key)) }
        ensures needed { IfOk result (λ needed. needed ≡ is_none (row_of (lines_of self.now.rows.book) access.transaction (ground_of access.key))) }
    {
        let Some(row) = self.rows.find(access.row_key()) else {
            return Ok(true);
        };
        check_running(&row)?;
        Ok(false)
    }

    // That the transaction has prewritten nothing, at any ground.
    pub(super) fn check_unwritten(&self, transaction: u32) -> Result<(), Refusal>
        ensures { result ≡ check_unwritten (model S.cells self.now) transaction }
    {
        let written = any_write(self.writes.lines(), transaction);
        refused_if(written, Refusal::ReadAfterPrewrite)
    }

    // Room for a read line, for a row where one is needed, and for a note for each lock of another that the read meets.
    pub(super) fn check_read_room(&self, access: AccessKey, needs_row: bool) -> Result<(), Refusal>
        requires { needs_row ≡ is_none (row_of (lines_of self.now.rows.book) access.transaction (ground_of access.key)) }
        ensures { result ≡ check_room (model S.cells self.now) (length (new_rows (model S.cells self.now) access.transaction access.key)) 1 0
            (length (others access.transaction (write_locks (model S.cells self.now) access.key))) }
    {
        let fits = !(needs_row && self.rows.free() == 0)
            && self.reads.free() > 0
            && notes_fit(&self.notes, &[], self.writes.lines(), &self.rows, access);
        refused_if(!fits, Refusal::NoRoom)
    }

    // The same for a prewrite, whose line is a write line.
    pub(super) fn check_prewrite_room(
        &self,
        access: AccessKey,
        needs_row: bool,
    ) -> Result<(), Refusal>
        requires { needs_row ≡ is_none (row_of (lines_of self.now.rows.book) access.transaction (ground_of access.key)) }
        ensures { result ≡ check_room (model S.cells self.now) (length (new_rows (model S.cells self.now) access.transaction access.key)) 0 1
            (length (notes_of_prewrite (model S.cells self.now) access.transaction access.key)) }
    {
        let fits = !(needs_row && self.rows.free() == 0)
            && self.writes.free() > 0
            && notes_fit(
                &self.notes,
                self.reads.lines(),
                self.writes.lines(),
                &self.rows,
                access,
            );
        refused_if(!fits, Refusal::NoRoom)
    }
}
