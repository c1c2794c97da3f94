// Two transactions at a ground: what the notes say of them, and what follows for the first from the row of the other.

ghost use Rattle.std.specs.Prelude.{◌≡◌};
ghost use Rattle.lines.specs.Rows.{IsBounded, is_past};
ghost use Rattle.protocol.specs.Among.{other_party, pushed_by};
ghost use Rattle.register.specs.Ranges.{above_all, below_all};
ghost use Rattle.register.specs.Registers.{IsOfStamps};
ghost use Rattle.register.specs.Relations.{said, unrelated, with_side, relation_of, floors_by, ceilings_by, lists_by};
ghost use Rattle.register.specs.Slots.{names, side_at};

use crate::access::is_at;
use crate::range::Range;
use lines::note::{Note, Side};
use lines::row::{Row, RowKey, State};

/// What the notes of a ground say of a transaction and another: that it goes earlier than the other, that it goes later, that the two are
/// apart. Several may hold.
#[derive(Clone, Copy)]
pub struct Relation {
    pub earlier: bool,
    pub later: bool,
    pub apart: bool,
}

/// Whether a transaction is one of the two parties of a note.
pub fn names(note: &Note, transaction: u32) -> bool
    ensures { result ≡ names transaction note.now }
{
    note.first == transaction || note.second == transaction
}

/// The other party of a note.
pub fn other_party(note: &Note, transaction: u32) -> u32
    ensures { result ≡ other_party note.now transaction }
{
    if note.first == transaction {
        note.second
    } else {
        note.first
    }
}

/// What a note says of a transaction at a ground, whoever the other is.
pub fn side_at(note: &Note, own: RowKey) -> Option<Side>
    ensures { result ≡ side_at note.now own.transaction own.ground }
{
    // The parties first, since most notes are of others.
    if !names(note, own.transaction) || !is_at(note.key, own.ground) {
        return None;
    }
    note.side(own.transaction)
}

// What a note says of a transaction at a ground and of the one whose row the other is.
fn said(note: &Note, own: RowKey, other: &Row) -> Option<Side>
    ensures { result ≡ said own.transaction own.ground other.now note.now }
{
    if other.transaction != other_party(note, own.transaction) || other.ground != own.ground {
        return None;
    }
    side_at(note, own)
}

// Whether a row passed its validation and was not aborted since.
fn has_passed(row: &Row) -> bool
    ensures { result ≡ is_past row.now.state }
{
    matches!(row.state, State::Validated | State::Committed)
}

impl Relation {
    /// Two transactions of which no note speaks.
    pub fn none() -> Relation
        ensures { result ≡ unrelated }
    {
        Relation {
            earlier: false,
            later: false,
            apart: false,
        }
    }

    /// What one more note says beside what others say.
    pub fn with(self, side: Option<Side>) -> Relation
        ensures { result ≡ with_side side self }
    {
        match side {
            None => self,
            Some(Side::Earlier) => Relation {
                earlier: true,
                ..self
            },
            Some(Side::Later) => Relation {
                later: true,
                ..self
            },
            Some(Side::Apart) => Relation {
                apart: true,
                ..self
            },
        }
    }

    /// What the notes say of a transaction at its ground and of the one whose row the other is: nothing where that row is its own, or of
    /// another ground.
    pub fn between(notes: &[Note], own: RowKey, other: &Row) -> Relation
        ensures { result ≡ relation_of notes.now own.transaction own.ground other.now }
    {
        if other.ground != own.ground || other.transaction == own.transaction {
            return Relation::none();
        }
        let mut relation = Relation::none();
        for note in notes {
            relation = relation.with(said(note, own, other));
        }
        relation
    }

    // What is left of a range above the other's row: it passed, and goes before or is apart.
    fn above(self, range: Range, other: &Row) -> Range
        requires { IsBounded other.now }
        ensures { result ≡ above_all range (floors_by self other.now) }
    {
        if has_passed(other) && (self.later || self.apart) {
            range.above(other.upper)
        } else {
            range
        }
    }

    // What is left of it below: it passed, and goes after.
    fn below(self, range: Range, other: &Row) -> Range
        requires { IsBounded other.now }
        ensures { result ≡ below_all range (ceilings_by self other.now) }
    {
        if has_passed(other) && self.earlier {
            range.below(other.lower)
        } else {
            range
        }
    }

    /// The stamps of a range that the other's row leaves. One that passed its validation bounds it, no other does.
    pub fn narrow(self, range: Range, other: &Row) -> Range
        requires { IsBounded other.now }
        ensures { result ≡ below_all (above_all range (floors_by self other.now)) (ceilings_by self other.now) }
    {
        self.below(self.above(range, other), other)
    }

    /// Which of the two lists the other's row is on: a Running row that goes before has to stay below the range that is taken; one that
    /// goes after, or is apart, above it.
    pub fn lists(self, other: &Row) -> Lists
        ensures { result ≡ lists_by self other.now }
    {
        let running = matches!(other.state, State::Running);
        Lists {
            before: running && self.later,
            after: running && (self.earlier || self.apart),
        }
    }
}

/// Which of its lists a validation puts a row on: that of the rows before the transaction, and that of the rows after.
#[derive(Clone, Copy)]
pub struct Lists {
    pub before: bool,
    pub after: bool,
}

impl Lists {
    /// The row after a range was taken.
    pub fn push(self, row: Row, taken: (i32, i32)) -> Row
        requires { IsOfStamps taken }
        ensures { result ≡ pushed_by self.before self.after taken row }
    {
        let (lower, upper) = taken;
        let mut left = Range::of_row(&row);
        if self.after {
            left = left.above(upper);
        }
        if self.before {
            left = left.below(lower);
        }
        Row {
            lower: left.lower,
            upper: left.upper,
            ..row
        }
    }
}
