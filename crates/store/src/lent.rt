ghost use Rattle.std.specs.Prelude.{◌≡◌, ℕ, List, Err, Result};
ghost use Rattle.base.specs.declared.refusal.Refusal.{Refusal};

use crate::store::Store;

/// A store in memory that was lent to it, or on stores in such memory. No put changes which memory that is or makes good memory bad,
/// and one that is refused writes nothing.
pub trait Lent: Store {
    // The names of the memory that it was lent.
    ghost lent: { Self → List ℕ };

    // Its memory has no fault.
    ghost sound: { Self → Type 0 };

    // The words of its memory.
    ghost words: { Self → List ℕ };

    ghost lent_stays: { (s t : Self) (r : Result Unit Refusal) → Self.beside s r t → lent t ≡ lent s };

    ghost sound_stays: { (s t : Self) (r : Result Unit Refusal) → Self.beside s r t → sound s → sound t };

    ghost words_stay: { (s t : Self) (e : Refusal) → Self.beside s (Err e) t → words t ≡ words s };
}
