ghost use Rattle.std.specs.Prelude.{◌≡◌};
ghost use Rattle.lines.specs.LineKeys.{row_key};
ghost use Rattle.lines.specs.Rows.{new_row, FitsEvent, moved_row, IsBounded};

use base::{Refusal, Stamp, TOP};
use book::Line;

/// The most row lines.
pub const ROWS: usize = 256;

/// How far a transaction has come at a ground.
#[derive(Clone, Copy, PartialEq, Eq, Debug)]
pub enum State {
    Running,
    Validated,
    Committed,
    Aborted,
}

/// What a row goes by: a transaction has one row at a ground.
#[derive(Clone, Copy, PartialEq, Eq, PartialOrd, Ord, Debug)]
pub struct RowKey {
    pub transaction: u32,
    pub ground: u16,
}

/// What one ground knows of one transaction: its state, and the stamps that still suit it, from `lower` to `upper`, both inside.
/// `lower` goes from 0 to TOP + 1, `upper` from -1 to TOP.
#[derive(Clone, Copy, PartialEq, Eq, Debug)]
pub struct Row {
    pub transaction: u32,
    pub ground: u16,
    pub state: State,
    pub lower: i32,
    pub upper: i32,
}

/// What can come to a row: its validation passes with a range, or fails; it is settled as aborted, or as committed at a stamp.
#[derive(Clone, Copy, PartialEq, Eq, Debug)]
pub enum Event {
    Pass { lower: i32, upper: i32 },
    Fail,
    Abort,
    Commit { stamp: Stamp },
}

impl Line for Row {
    type Key = RowKey;

    ghost keyed = { row_key };

    fn key(&self) -> RowKey {
        RowKey {
            transaction: self.transaction,
            ground: self.ground,
        }
    }
}

impl Row {
    /// A row as a transaction's first read or prewrite at a ground writes it: Running, and every stamp suits.
    pub fn new(key: RowKey) -> Row
        ensures { result ≡ new_row key.transaction key.ground }
    {
        Row {
            transaction: key.transaction,
            ground: key.ground,
            state: State::Running,
            lower: 0,
            upper: TOP as i32,
        }
    }

    /// The row's next state and bounds by its state and the event together; an event that does not fit the state is refused
    /// with 5, 8 or 10 and changes nothing.
    pub fn meet(&mut self, event: Event) -> Result<(), Refusal>
        ensures value { ◌≡◌ (self.new, result) (moved_row self.old event) }
        ensures bounded { IsBounded self.old → FitsEvent event → IsBounded self.new }
    {
        match (self.state, event) {
            (State::Running, Event::Pass { lower, upper }) => {
                self.state = State::Validated;
                self.lower = lower;
                self.upper = upper;
            }
            (State::Running, Event::Fail) => self.state = State::Aborted,
            (State::Running | State::Validated, Event::Abort) => self.state = State::Aborted,
            (State::Validated, Event::Commit { stamp }) => {
                let bound = stamp.bound();
                self.state = State::Committed;
                self.lower = bound;
                self.upper = bound;
            }
            (State::Running, Event::Commit { .. }) => return Err(Refusal::StillRunning),
            (_, Event::Pass { .. } | Event::Fail) => return Err(Refusal::NotRunning),
            (_, Event::Abort | Event::Commit { .. }) => return Err(Refusal::AlreadySettled),
        }
        Ok(())
    }
}
