ghost use Rattle.std.specs.Prelude.{◌≡◌, ℕ, Option, Result};
ghost use Rattle.base.specs.declared.refusal.Refusal.{Refusal};
ghost use Rattle.store.specs.declared.cell.Cell.{Cell};
ghost use Rattle.store.specs.Stores.{Put};

use crate::cell::Cell;
use base::Refusal;

/// A store means a fixed set of keys with one cell for each. Whoever offers one shows what fetch and put do to its cells, and no more.
pub trait Store {
    // What it means: the cell of each of its keys, and nothing at any other key.
    ghost cells: { Self → (ℕ → Option Cell) };

    // What holds beside that of the store before a put, its answer and the store after it. A store need not say anything.
    ghost beside: { Self → Result Unit Refusal → Self → Type 0 } = { λ _ _ _. Unit {0} };

    /// The cell of a key, or nothing exactly where the key is not in the set. Nothing changes.
    fn fetch(&self, key: u16) -> Option<Cell>
        ensures { result ≡ cells self.now key };

    /// Replaces the cell of a key and no other; refused with 11 exactly where the key is not in the set, and then every cell stays.
    fn put(&mut self, key: u16, cell: Cell) -> Result<(), Refusal>
        ensures put { Put (cells self.old) (cells self.new) key cell result }
        ensures beside { beside self.old result self.new };
}
