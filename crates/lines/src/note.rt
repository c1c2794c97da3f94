ghost use Rattle.std.specs.Prelude.{◌≡◌};
ghost use Rattle.lines.specs.Notes.{side_of, effect_by, effect_of};

use crate::row::{Row, State};

/// The most notes.
pub const NOTES: usize = 4096;

/// How the two transactions of a note are ordered: the first before the second, or apart in either order.
#[derive(Clone, Copy, PartialEq, Eq, Debug)]
pub enum Order {
    Before,
    Apart,
}

/// A constraint on the order of two transactions that met at a key.
#[derive(Clone, Copy, PartialEq, Eq, Debug)]
pub struct Note {
    pub key: u16,
    pub first: u32,
    pub second: u32,
    pub order: Order,
}

/// What a note says of a transaction and the other party.
#[derive(Clone, Copy, PartialEq, Eq, Debug)]
pub enum Side {
    Earlier,
    Later,
    Apart,
}

/// What follows from one note for a transaction that is validated: its upper bound goes below a bound, or its lower bound above one;
/// or the other party's row joins a list of rows to be narrowed.
#[derive(Clone, Copy, PartialEq, Eq, Debug)]
pub enum Effect {
    LowerBelow(i32),
    RaiseAbove(i32),
    JoinBefore,
    JoinAfter,
}

impl Side {
    /// What follows for a transaction on this side of a note, given the other party's row; nothing from an Aborted one.
    pub fn effect(self, other: &Row) -> Option<Effect>
        ensures { result ≡ effect_by self other.now.state other.now }
    {
        match (self, other.state) {
            (_, State::Aborted) => None,
            (Side::Earlier, State::Running) => Some(Effect::JoinAfter),
            (Side::Earlier, _) => Some(Effect::LowerBelow(other.lower)),
            (Side::Later, State::Running) => Some(Effect::JoinBefore),
            (Side::Later, _) => Some(Effect::RaiseAbove(other.upper)),
            (Side::Apart, State::Running) => Some(Effect::JoinAfter),
            (Side::Apart, _) => Some(Effect::RaiseAbove(other.upper)),
        }
    }
}

impl Note {
    /// What the note says of a transaction: that it comes earlier than the other party, later, or apart from it. A note of two others
    /// says nothing of it, nor does one of a transaction with itself.
    pub fn side(&self, transaction: u32) -> Option<Side>
        ensures { result ≡ side_of self.now transaction }
    {
        if self.first == self.second {
            return None;
        }
        match self.order {
            Order::Before if self.first == transaction => Some(Side::Earlier),
            Order::Before if self.second == transaction => Some(Side::Later),
            Order::Apart if self.first == transaction || self.second == transaction => {
                Some(Side::Apart)
            }
            _ => None,
        }
    }

    /// What follows from the note for the transaction that is validated, given the other party's row at the note's ground.
    pub fn effect(&self, transaction: u32, other: &Row) -> Option<Effect>
        ensures { result ≡ effect_of self.now transaction other.now }
    {
        self.side(transaction)?.effect(other)
    }
}
