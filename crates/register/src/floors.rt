// What the read and write lines of a transaction at a ground leave of its range.

ghost use Rattle.std.specs.Prelude.{◌≡◌, pos, fold};
ghost use Rattle.protocol.specs.Validation.{read_floor, write_floor};
ghost use Rattle.register.specs.Ranges.{above, above_all};

use crate::access::is_at;
use crate::range::Range;
use base::Stamp;
use lines::access::{ReadLine, WriteLine};
use lines::row::RowKey;
use store::Store;

// What is left of a range above a stamp.
fn above_stamp(range: Range, stamp: Stamp) -> Range
    ensures { result ≡ above range (pos stamp.number) }
{
    range.above(stamp.bound())
}

// What a read line leaves of a range, if it is the transaction's at the ground: what lies above the write stamp that was seen.
fn above_read(range: Range, own: RowKey, line: &ReadLine) -> Range
    ensures { result ≡ above_all range (read_floor own.transaction own.ground line.now) }
{
    if line.transaction == own.transaction && is_at(line.key, own.ground) {
        above_stamp(range, line.seen)
    } else {
        range
    }
}

// What a write line leaves of it: what lies above both stamps that its cell has now.
fn above_write<S: Store>(range: Range, own: RowKey, line: &WriteLine, store: &S) -> Range
    ensures { result ≡ above_all range (write_floor (S.cells store.now) own.transaction own.ground line.now) }
{
    if line.transaction == own.transaction
        && is_at(line.key, own.ground)
        && let Some(cell) = store.fetch(line.key)
    {
        above_stamp(above_stamp(range, cell.read), cell.write)
    } else {
        range
    }
}

/// What is left of a range above the write stamps that the transaction saw at the ground.
pub fn above_reads(range: Range, own: RowKey, reads: &[ReadLine]) -> Range
    ensures { result ≡ fold (λ left line. above_all left (read_floor own.transaction own.ground line)) range reads.now }
{
    reads
        .iter()
        .fold(range, |left, line| above_read(left, own, line))
}

/// What is left of a range above the stamps of the cells that the transaction writes at the ground.
pub fn above_writes<S: Store>(range: Range, own: RowKey, writes: &[WriteLine], store: &S) -> Range
    ensures { result ≡ fold (λ left line. above_all left (write_floor (S.cells store.now) own.transaction own.ground line)) range writes.now }
{
    writes
        .iter()
        .fold(range, |left, line| above_write(left, own, line, store))
}
