ghost use Rattle.std.specs.Prelude.{◌≡◌, ℕ, ◌+◌, ◌<◌, List, Option, length, None};
ghost use Rattle.store.specs.declared.cell.Cell.{Cell};
ghost use Rattle.image.specs.declared.fault.Cause.{Cause};
ghost use Rattle.image.specs.declared.stored_line.TheConstants.{FLAT_LINES, SPARSE_LINES};
ghost use Rattle.image.specs.Faults.{check_result};
ghost use Rattle.image.specs.Memory.{cell_at, cell_cause, with_cell_at};
ghost use Rattle.image.specs.Lines.{bare_cause, keyed_cause, first_fault, shape_cause};

use crate::cell_words::{cell_in, cell_words, checked_cell};
use crate::fault::{Cause, Fault};
use store::Cell;
use wire::word::{key_in, low_of};

/// How many lines a flat store has at most: one for each key of a ground.
pub const FLAT_LINES: usize = 8192;

/// How many lines a sparse store has at most.
pub const SPARSE_LINES: usize = 4096;

/// Both limits as numbers: what is said of stores goes by the constants, which this holds. A law: it does nothing.
pub fn limits_are_numbers()
    ensures flat { FLAT_LINES ≡ 8192 }
    ensures sparse { SPARSE_LINES ≡ 4096 }
{}

// A line of a store, as an array of its words.
pub(crate) trait StoredLine: Copy {
    // What is wrong first with a line that comes after another, if any.
    ghost cause: { Option Self → Self → Option Cause };

    // The most lines of a store.
    ghost MOST: { ℕ };

    const MOST: usize;

    // The cell of a good line.
    ghost cell_of: { Self → Cell };

    // That nothing is wrong, or what is wrong first.
    fn check(self, before: Option<Self>) -> Result<(), Cause>
        ensures { result ≡ check_result (cause before self) };

    // The cell, whatever else the line's words say.
    fn cell(self) -> Cell
        ensures { result ≡ cell_of self };
}

/// Three words are a cell alone.
impl StoredLine for [u32; 3] {
    ghost cause = { bare_cause };

    ghost MOST = { FLAT_LINES };

    ghost cell_of = { λ x. cell_at x 0 };

    const MOST: usize = FLAT_LINES;

    fn check(self, _before: Option<Self>) -> Result<(), Cause>
        ensures { result ≡ check_result (bare_cause _before self) }
    {
        checked_cell(self)?;
        Ok(())
    }

    fn cell(self) -> Cell {
        cell_in(self)
    }
}

/// Four words are a key and its cell, and keys rise.
impl StoredLine for [u32; 4] {
    ghost cause = { keyed_cause };

    ghost MOST = { SPARSE_LINES };

    ghost cell_of = { λ x. cell_at x 1 };

    const MOST: usize = SPARSE_LINES;

    fn check(self, before: Option<Self>) -> Result<(), Cause>
        ensures { result ≡ check_result (keyed_cause before self) }
    {
        let [key, value, write, read] = self;
        let key = key_in(key)?;
        checked_cell([value, write, read])?;
        if let Some(last) = before
            && key <= low_of(last[0])
        {
            return Err(Cause::KeysNotRising);
        }
        Ok(())
    }

    fn cell(self) -> Cell {
        let [_, value, write, read] = self;
        cell_in([value, write, read])
    }
}

// That memory of these lines and this rest has a good length, or what is wrong with it.
pub(crate) fn check_shape<L: StoredLine>(lines: &[L], rest: &[u32]) -> Result<(), Cause>
    ensures { result ≡ check_result (shape_cause L.MOST (length lines.now) (length rest.now)) }
{
    if !rest.is_empty() {
        Err(Cause::PartLine)
    } else if lines.len() > L::MOST {
        Err(Cause::TooMany)
    } else {
        Ok(())
    }
}

// That all lines are good, or the first fault.
pub(crate) fn check_lines<L: StoredLine>(lines: &[L]) -> Result<(), Fault>
    ensures { result ≡ check_result (first_fault L.cause 0 None lines.now) }
{
    let mut before = None;
    for (i, line) in lines.iter().enumerate() {
        line.check(before).map_err(|cause| Fault {
            cause,
            line: Some(i),
        })?;
        before = Some(*line);
    }
    Ok(())
}

// Writes a cell over the three words from an index on.
pub(crate) fn put_cell(words: &mut [u32], at: usize, cell: Cell)
    requires { at + 2 < length words.old }
    ensures words { words.new ≡ with_cell_at words.old at cell }
    ensures cell { cell_at words.new at ≡ cell }
    ensures sound { cell_cause words.new at ≡ None }
{
    words[at..at + 3].copy_from_slice(&cell_words(cell));
}
