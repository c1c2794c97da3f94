ghost use Rattle.std.specs.Prelude.{◌≡◌, IfOk, IfSome, OnErr};
ghost use Rattle.protocol.specs.Calls.{validate};
ghost use Rattle.register.specs.Ranges.{above_all, line_floors, range_of};
ghost use Rattle.register.specs.Registers.{model, Keeps, KeepsButRows, IsOfStamps};

use super::checks::check_running;
use crate::floors::{above_reads, above_writes};
use crate::range::Range;
use crate::register::Register;
use crate::validation::{event_of, take};
use base::Refusal;
use lines::row::{Row, RowKey};
use policy::Policy;
use store::Store;

impl<'a, S: Store, P: Policy> Register<'a, S, P> {
    // What the reads and the writes of a transaction at a ground leave of its row's range.
    fn left_by_lines(&self, own: RowKey, row: &Row) -> Range
        ensures { result ≡ above_all (range_of row.now) (line_floors (model S.cells self.now) own.transaction own.ground) }
    {
        let range = above_reads(Range::of_row(row), own, self.reads.lines());
        above_writes(range, own, self.writes.lines(), &self.store)
    }

    /// Validates a transaction at a ground, 0 to 7 (above it has no row): answers the range of stamps that it keeps there, both bounds
    /// from 0 to TOP, or nothing where none is left and its row is Aborted. Refused with 3, 4, 6 and 5, in this order.
    pub fn validate(&mut self, transaction: u32, ground: u16) -> Result<Option<(i32, i32)>, Refusal>
        ensures model { ◌≡◌ (model S.cells self.new, result)
            (validate (P.chosen self.old.policy) (model S.cells self.old) transaction ground) }
        ensures refused { OnErr result (self.new ≡ self.old) }
        ensures keeps { Keeps self.old self.new }
        ensures rest { KeepsButRows self.old self.new }
        ensures stamps { IfOk result (λ taken. IfSome taken IsOfStamps) }
    {
        self.check_open(transaction)?;
        let own = RowKey {
            transaction,
            ground,
        };
        let Some((place, row)) = self.rows.locate(own) else {
            return Err(Refusal::NoRow);
        };
        check_running(&row)?;
        let left = self.left_by_lines(own, &row);
        let taken = take(&self.policy, left, self.notes.lines(), own, &mut self.rows);
        // The row is Running, so it moves.
        let _ = self.rows.move_row(place, row, event_of(taken));
        Ok(taken)
    }
}
