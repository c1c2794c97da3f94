ghost use Rattle.std.specs.Prelude.{◌≡◌, ◌≤◌, length, Some};
ghost use Rattle.image.specs.Faults.{cause_text, cause_of, fault_text, refusal_of, whole_fault};

use arrayvec::ArrayString;
use base::Refusal;
use itoa::Buffer;
use std::fmt;
use wire::word::WordFault;

/// Room for the text of any fault, in bytes.
pub const FAULT_TEXT: usize = 71;

/// Why no store can be made of some memory.
#[derive(Clone, Copy, PartialEq, Eq, Debug)]
pub enum Cause {
    PartLine,
    TooMany,
    GroundAbove7,
    WrongKind,
    StrayBits,
    KeysNotRising,
    BoundaryAbove8,
}

/// What a store's check found: the cause, and the number of the line that has it, counted from 0, where it lies in one line.
#[derive(Clone, Copy, PartialEq, Eq, Debug)]
pub struct Fault {
    pub cause: Cause,
    pub line: Option<usize>,
}

impl Cause {
    /// The cause as a text of at most 27 bytes.
    pub fn text(self) -> &'static str
        ensures text { result.now ≡ cause_text self }
        ensures short { length result.now ≤ 27 }
    {
        match self {
            Cause::PartLine => "the words end within a line",
            Cause::TooMany => "there are too many lines",
            Cause::GroundAbove7 => "the ground is above 7",
            Cause::WrongKind => "a word is of a wrong kind",
            Cause::StrayBits => "a word has stray bits",
            Cause::KeysNotRising => "the keys do not rise",
            Cause::BoundaryAbove8 => "the boundary is above 8",
        }
    }
}

impl fmt::Display for Cause {
    ghost output = { λ c. Some (cause_text c) };

    fn fmt<W: fmt::Write>(&self, f: &mut fmt::Formatter<W>) -> fmt::Result {
        f.write_str(self.text())
    }
}

/// What is wrong with a word is wrong with its store.
impl From<WordFault> for Cause {
    ghost from_gives = { λ f c. c ≡ cause_of f };

    fn from(fault: WordFault) -> Cause {
        match fault {
            WordFault::WrongKind => Cause::WrongKind,
            WordFault::StrayBits => Cause::StrayBits,
        }
    }
}

/// A cause that lies in no one line.
impl From<Cause> for Fault {
    ghost from_gives = { λ c f. f ≡ whole_fault c };

    fn from(cause: Cause) -> Fault {
        Fault { cause, line: None }
    }
}

/// Every fault is refused with 13.
impl From<Fault> for Refusal {
    ghost from_gives = { λ f r. r ≡ refusal_of f };

    fn from(_fault: Fault) -> Refusal {
        Refusal::BadStore
    }
}

impl Fault {
    /// The cause as a text, and the line's number where it lies in one line.
    pub fn text(self) -> ArrayString<{ FAULT_TEXT }>
        ensures { result.bytes ≡ fault_text self }
    {
        let mut text = ArrayString::new();
        text.push_str(self.cause.text());
        if let Some(line) = self.line {
            text.push_str(", line ");
            text.push_str(Buffer::new().format(line));
            text.push_str(" (the first is 0)");
        }
        text
    }
}

impl fmt::Display for Fault {
    ghost output = { λ f. Some (fault_text f) };

    fn fmt<W: fmt::Write>(&self, f: &mut fmt::Formatter<W>) -> fmt::Result {
        f.write_str(self.text().as_str())
    }
}
