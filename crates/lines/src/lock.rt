ghost use Rattle.std.specs.Prelude.{◌≡◌};
ghost use Rattle.book.specs.Books.{lines_of};
ghost use Rattle.lines.specs.Locks.{holds_lock, lock_stands};

use crate::access::AccessKey;
use crate::row::{Row, State};
use book::Book;

impl Row {
    /// Whether the row lets its transaction's reads and writes at its ground stand as soft locks.
    pub fn holds_lock(&self) -> bool
        ensures { result ≡ holds_lock self.now }
    {
        matches!(self.state, State::Running | State::Validated)
    }
}

/// Whether a read or write line stands as a soft lock: its transaction's row at the key's ground is Running or Validated.
pub fn lock_stands(rows: &Book<Row>, access: AccessKey) -> bool
    ensures { result ≡ lock_stands (lines_of rows.now) access.transaction access.key }
{
    rows.find(access.row_key())
        .is_some_and(|row| row.holds_lock())
}
