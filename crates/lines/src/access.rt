ghost use Rattle.std.specs.Prelude.{◌≡◌};
ghost use Rattle.base.specs.Keys.{ground_of};
ghost use Rattle.lines.specs.LineKeys.{row_key_at, read_key, write_key};

use crate::row::RowKey;
use base::{Place, Stamp};
use book::Line;

/// The most read lines.
pub const READS: usize = 512;

/// The most write lines.
pub const WRITES: usize = 512;

/// What a read or write line goes by: a transaction has one line of each kind for a key.
#[derive(Clone, Copy, PartialEq, Eq, PartialOrd, Ord, Debug)]
pub struct AccessKey {
    pub transaction: u32,
    pub key: u16,
}

impl AccessKey {
    /// The key of the transaction's row at the key's ground.
    pub fn row_key(self) -> RowKey
        ensures { result ≡ row_key_at self.transaction (ground_of self.key) }
    {
        RowKey {
            transaction: self.transaction,
            ground: Place::from(self.key).burial_ground,
        }
    }
}

/// A cell that a transaction read: the value and the write stamp that it saw.
#[derive(Clone, Copy, PartialEq, Eq, Debug)]
pub struct ReadLine {
    pub transaction: u32,
    pub key: u16,
    pub value: i16,
    pub seen: Stamp,
}

/// A cell that a transaction will write, with the value.
#[derive(Clone, Copy, PartialEq, Eq, Debug)]
pub struct WriteLine {
    pub transaction: u32,
    pub key: u16,
    pub value: i16,
}

/// A read line goes by its transaction and key.
impl Line for ReadLine {
    type Key = AccessKey;

    ghost keyed = { read_key };

    fn key(&self) -> AccessKey {
        AccessKey {
            transaction: self.transaction,
            key: self.key,
        }
    }
}

/// A write line too.
impl Line for WriteLine {
    type Key = AccessKey;

    ghost keyed = { write_key };

    fn key(&self) -> AccessKey {
        AccessKey {
            transaction: self.transaction,
            key: self.key,
        }
    }
}
