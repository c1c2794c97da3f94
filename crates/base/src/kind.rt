ghost use Rattle.std.specs.Prelude.{◌≡◌};
ghost use Rattle.base.specs.Kinds.{kind_number};

/// What a word is, by the number in its top four bits, 1 to 15. Number 0 is no kind.
#[derive(Clone, Copy, PartialEq, Eq, Debug)]
pub enum Kind {
    // The heads of messages.
    Begin = 1,
    Read = 2,
    Prewrite = 3,
    Validate = 4,
    Decide = 5,
    Withdraw = 6,
    Settle = 7,
    // A prewrite's pairs and a store's lines. A value answers a read, too.
    Key = 8,
    Value = 9,
    // Answers.
    Done = 10,
    Stamp = 11,
    Aborted = 12,
    Refusal = 13,
    // A store's lines.
    WriteStamp = 14,
    ReadStamp = 15,
}

/// The number of a kind, 1 to 15.
impl From<Kind> for u32 {
    ghost from_gives = { λ kind number. number ≡ kind_number kind };

    fn from(kind: Kind) -> u32 {
        kind as u32
    }
}
