use base::Stamp;

/// A call on a register, with any numbers. Each is refused by the first of its checks that fails, in the order in which their numbers
/// stand here, and then changes nothing.
#[derive(Clone, Copy, PartialEq, Eq, Debug)]
pub enum Call {
    /// Begins a transaction by a number above all begun so far, 1 to 4,095. Refused with 1, 2.
    Begin {
        transaction: u32,
    },
    /// Reads the cell of a key: its value and write stamp. Refused with 3, 4, 11, 5, 7, 2.
    Read {
        transaction: u32,
        key: u16,
    },
    /// Notes a value that the transaction will write at a key, once it is settled there as committed. Refused with 3, 4, 11, 5, 2.
    Prewrite {
        transaction: u32,
        key: u16,
        value: i16,
    },
    /// Narrows the transaction's range of stamps at a ground, or aborts its row there. A ground above 7 has no rows. Refused with
    /// 3, 4, 6, 5.
    Validate {
        transaction: u32,
        ground: u16,
    },
    /// Commits the transaction at the lowest stamp that suits all its rows, or aborts it. Refused with 3, 4, 8.
    Decide {
        transaction: u32,
    },
    /// Aborts the transaction, whatever its rows are. Refused with 3, 4.
    Withdraw {
        transaction: u32,
    },
    /// Carries out the decision at a ground: stamps and values go into its cells, and locks fall. Refused with 3, 9, 6, 10; and with 8
    /// where a committed transaction's row is Running, which no day brings about.
    Settle {
        transaction: u32,
        ground: u16,
    },
}

/// What a call is answered that is not refused. Its words are given case by case by one definition.
#[derive(Clone, Copy, PartialEq, Eq, Debug)]
pub enum Reply {
    /// A begin, a prewrite or a settlement was done.
    Done,
    /// What was read: a value, -32,768 to 32,767, and the write stamp that it had when it was read first.
    Value { value: i16, stamp: Stamp },
    /// The range that a validation leaves. Both bounds are stamps, 0 to TOP, and the lower is not above the upper.
    Range { lower: i32, upper: i32 },
    /// A decision to commit at a stamp.
    Committed { stamp: Stamp },
    /// A validation that left no stamp, a decision to abort, or a withdrawal.
    Aborted,
}
