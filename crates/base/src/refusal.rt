ghost use Rattle.std.specs.Prelude.{◌≡◌, ◌≤◌, length, Some};
ghost use Rattle.base.specs.declared.refusal.Refusal.{Refusal};
ghost use Rattle.base.specs.Refusals.{number_of, refusal, refusal_text};

use std::error::Error;
use std::fmt;

/// Why a call is refused, and the number that says so in a word. A refused call leaves books and cells as they stood.
#[derive(Clone, Copy, PartialEq, Eq, Debug)]
pub enum Refusal {
    BadNumber = 1,
    NoRoom = 2,
    NeverBegun = 3,
    AlreadyDecided = 4,
    NotRunning = 5,
    NoRow = 6,
    ReadAfterPrewrite = 7,
    StillRunning = 8,
    NotDecided = 9,
    AlreadySettled = 10,
    NoSuchKey = 11,
    Malformed = 12,
    BadStore = 13,
}

/// The refusal's number, 1 to 13.
impl From<Refusal> for u16 {
    ghost from_gives = { λ refusal number. number ≡ number_of refusal };

    fn from(refusal: Refusal) -> u16 {
        refusal as u16
    }
}

impl Refusal {
    /// The cause as a text of at most 73 bytes.
    pub fn text(self) -> &'static str
        ensures text { result.now ≡ refusal_text self }
        ensures short { length result.now ≤ 73 }
    {
        match self {
            Refusal::BadNumber =>
                "the number is not from 1 to 4,095, or not above every number begun before",
            Refusal::NoRoom => "a book cannot take all the lines that the call would write",
            Refusal::NeverBegun => "the transaction was never begun",
            Refusal::AlreadyDecided => "the transaction is decided already",
            Refusal::NotRunning => "the transaction has a row at this ground that is not Running",
            Refusal::NoRow => "the transaction has no row at this ground",
            Refusal::ReadAfterPrewrite => "the transaction has prewritten before",
            Refusal::StillRunning => "a row of the transaction is still Running",
            Refusal::NotDecided => "the transaction is not decided yet",
            Refusal::AlreadySettled => "the row is Committed or Aborted already",
            Refusal::NoSuchKey => "the store has no such key",
            Refusal::Malformed => "the words begin with no message",
            Refusal::BadStore => "this makes no good store",
        }
    }
}

impl fmt::Display for Refusal {
    ghost output = { λ r. Some (refusal_text r) };

    fn fmt<W: fmt::Write>(&self, f: &mut fmt::Formatter<W>) -> fmt::Result {
        f.write_str(self.text())
    }
}

impl Error for Refusal {}

/// Each refusal is the one of its number, so that a promise may name it by that.
pub fn numbers_name_refusals()
    ensures { (r : Refusal) → refusal (number_of r) ≡ r }
{}
