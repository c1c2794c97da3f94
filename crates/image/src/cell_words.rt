ghost use Rattle.std.specs.Prelude.{◌≡◌};
ghost use Rattle.image.specs.Memory.{cell_at, checked_cell, IsWordsOf};

use crate::fault::Cause;
use base::Stamp;
use base::value::value_of;
use store::Cell;
use wire::word::{StampKind, low_of, stamp_in, stamp_word, value_in, value_word};

// The cell in its three words, whatever else they say: a store reads only memory that it found good.
pub(crate) fn cell_in(words: [u32; 3]) -> Cell
    ensures { result ≡ cell_at words 0 }
{
    let [value, write, read] = words;
    Cell {
        value: value_of(low_of(value)),
        write: Stamp::in_word(write),
        read: Stamp::in_word(read),
    }
}

// The cell that three words hold, or what is wrong with the first that is wrong.
pub(crate) fn checked_cell(words: [u32; 3]) -> Result<Cell, Cause>
    ensures { result ≡ checked_cell words }
{
    let [value, write, read] = words;
    Ok(Cell {
        value: value_in(value)?,
        write: stamp_in(StampKind::Write, write)?,
        read: stamp_in(StampKind::Read, read)?,
    })
}

// The three words of a cell, which hold it.
pub(crate) fn cell_words(cell: Cell) -> [u32; 3]
    ensures { IsWordsOf cell result }
{
    [
        value_word(cell.value),
        stamp_word(StampKind::Write, cell.write),
        stamp_word(StampKind::Read, cell.read),
    ]
}
