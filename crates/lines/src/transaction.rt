use base::Stamp;
use book::Line;

/// The most transaction lines.
pub const TRANSACTIONS: usize = 64;

/// The largest number that a transaction can have; the least is 1.
pub const LAST_NUMBER: u32 = 4095;

/// What is decided of a transaction.
#[derive(Clone, Copy, PartialEq, Eq, Debug)]
pub enum Decision {
    Committed(Stamp),
    Aborted,
}

/// A transaction that was begun, and what was decided of it: nothing while it is open.
#[derive(Clone, Copy, PartialEq, Eq, Debug)]
pub struct Transaction {
    pub number: u32,
    pub decision: Option<Decision>,
}

impl Line for Transaction {
    type Key = u32;

    ghost keyed = { λ x. x.number };

    fn key(&self) -> u32 {
        self.number
    }
}
