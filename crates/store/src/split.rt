ghost use Rattle.std.specs.Prelude.{◌≡◌, Err};
ghost use Rattle.store.specs.Stores.{Put};
ghost use Rattle.store.specs.Splits.{goes_left, cells_of, OneSide, Sides};

use crate::cell::Cell;
use crate::lent::Lent;
use crate::store::Store;
use base::{Place, Refusal};

/// A store of two others: grounds below the boundary are the left one's, the others the right one's.
#[derive(Drop)]
pub struct Split<L, R> {
    boundary: u16,
    left: L,
    right: R,
}

impl<L, R> Split<L, R> {
    /// The two stores with a boundary between them, 0 to 8; a larger one sends all left.
    pub fn new(boundary: u16, left: L, right: R) -> Split<L, R>
        ensures boundary { result.boundary ≡ boundary }
        ensures left { result.left ≡ left }
        ensures right { result.right ≡ right }
    {
        Split {
            boundary,
            left,
            right,
        }
    }

    // Whether a key's ground is the left store's.
    fn goes_left(&self, key: u16) -> bool
        ensures { result ≡ goes_left self.now key }
    {
        Place::from(key).burial_ground < self.boundary
    }
}

impl<L: Store, R: Store> Store for Split<L, R> {
    ghost cells = { λ s. cells_of L.Store.cells R.Store.cells s };

    ghost beside = { λ s r t. OneSide L.Store.beside R.Store.beside s r t };

    fn fetch(&self, key: u16) -> Option<Cell> {
        if self.goes_left(key) {
            self.left.fetch(key)
        } else {
            self.right.fetch(key)
        }
    }

    /// As any store's, and only the store on the key's side changes.
    fn put(&mut self, key: u16, cell: Cell) -> Result<(), Refusal>
        ensures put { Put (cells_of L.Store.cells R.Store.cells self.old) (cells_of L.Store.cells R.Store.cells self.new) key cell result }
        ensures beside { OneSide L.Store.beside R.Store.beside self.old result self.new }
        ensures boundary { self.new.boundary ≡ self.old.boundary }
        ensures sides { Sides L.Store.cells R.Store.cells self.old self.new key cell result }
    {
        if self.goes_left(key) {
            self.left.put(key, cell)
        } else {
            self.right.put(key, cell)
        }
    }
}

impl<L: Lent, R: Lent> Lent for Split<L, R> {
    ghost use Rattle.store.specs.Splits.{both_lists, BothAre};
    ghost use Rattle.store.specs.SplitPuts.{both_stay, both_stay_sound};

    ghost lent = { λ s. both_lists L.Lent.lent R.Lent.lent s };

    ghost sound = { λ s. BothAre L.Lent.sound R.Lent.sound s };

    ghost words = { λ s. both_lists L.Lent.words R.Lent.words s };

    ghost lent_stays = { λ s t r. both_stay L.Lent.lent R.Lent.lent L.Store.beside R.Store.beside s t r
        (λ a b. L.Lent.lent_stays a b r) (λ a b. R.Lent.lent_stays a b r) };

    ghost sound_stays = { λ s t r. both_stay_sound L.Lent.sound R.Lent.sound L.Store.beside R.Store.beside s t r
        (λ a b. L.Lent.sound_stays a b r) (λ a b. R.Lent.sound_stays a b r) };

    ghost words_stay = { λ s t e. both_stay L.Lent.words R.Lent.words L.Store.beside R.Store.beside s t (Err e)
        (λ a b. L.Lent.words_stay a b e) (λ a b. R.Lent.words_stay a b e) };
}
