ghost use Rattle.std.specs.Prelude.{◌≡◌, ◌/◌, ◌<◌, is_none, [], ◌∷◌, length, IfSome, None};
ghost use Rattle.image.specs.Faults.{check_result, RefusedAs13};
ghost use Rattle.image.specs.Flats.{flat_fault, flat_line, flat_cells};

use crate::fault::{Cause, Fault};
use crate::stored_line::{FLAT_LINES, StoredLine, check_lines, check_shape, put_cell};
use base::{Place, Refusal};
use store::{Cell, Lent, Store};

/// A store of one ground's first keys, in lent memory of three words a cell: a value word, a write stamp word and a read stamp word. Whether
/// the memory is good is found once, when the store is made, and no call changes it.
#[derive(Drop)]
pub struct Flat<'a> {
    // That the memory has no fault.
    good: bool,
    burial_ground: u16,
    words: &'a mut [u32],
    ghost good_is: { good ≡ is_none (flat_fault burial_ground words.now) },
}

/// That memory is good as a flat store of a ground, 0 to 7, of at most 8,192 lines, or its first fault, which is refused with 13.
pub fn check_flat(ground: u16, words: &[u32]) -> Result<(), Fault>
    ensures fault { result ≡ check_result (flat_fault ground words.now) }
    ensures refused { RefusedAs13 result }
{
    let (lines, rest) = words.as_chunks::<3>();
    check_shape(lines, rest)?;
    if ground > 7 {
        return Err(Cause::GroundAbove7.into());
    }
    check_lines(lines)
}

impl<'a> Flat<'a> {
    ghost use Rattle.image.specs.FlatStores.{cells_of, fault_of};

    /// The store that the memory means for a ground; of memory with a fault, one without keys.
    pub fn new(ground: u16, words: &'a mut [u32]) -> Flat<'a>
        ensures cells { cells_of result ≡ flat_cells ground words.old }
        ensures fault { fault_of result ≡ flat_fault ground words.old }
        ensures words { result.words.now ≡ words.old }
        ensures lent { result.words.ghost_name ≡ words.entry.ghost_name }
    {
        let good = check_flat(ground, words).is_ok();
        Flat {
            good,
            burial_ground: ground,
            words,
        }
    }

    // The line of a key, where it is one of the store's: its low 13 bits number it among its ground's keys.
    fn line(&self, key: u16) -> Option<usize>
        ensures value { result ≡ flat_line self.now.good self.now.burial_ground self.now.words.now key }
        ensures bound { IfSome result (λ i. i < length self.now.words.now / 3) }
    {
        let i = usize::from(key) % FLAT_LINES;
        let has = self.good
            && Place::from(key).burial_ground == self.burial_ground
            && i < self.words.len() / 3;
        has.then_some(i)
    }
}

impl<'a> Store for Flat<'a> {
    ghost use Rattle.image.specs.Keeping.{Keeps};
    ghost use Rattle.image.specs.FlatStores.{cells_of, fault_of, name_of};

    ghost cells = { λ s. cells_of s };

    ghost beside = { λ s r t. Keeps name_of fault_of s r t };

    fn fetch(&self, key: u16) -> Option<Cell> {
        let i = self.line(key)?;
        let (lines, _) = self.words.as_chunks::<3>();
        Some(lines[i].cell())
    }

    fn put(&mut self, key: u16, cell: Cell) -> Result<(), Refusal> {
        let i = self.line(key).ok_or(Refusal::NoSuchKey)?;
        put_cell(self.words, 3 * i, cell);
        Ok(())
    }
}

impl<'a> Lent for Flat<'a> {
    ghost use Rattle.std.proofs.Common.{ap};
    ghost use Rattle.image.specs.FlatStores.{fault_of, name_of, words_of};

    ghost lent = { λ s. name_of s ∷ [] };

    ghost sound = { λ s. fault_of s ≡ None };

    ghost words = { λ s. words_of s };

    ghost lent_stays = { λ s t r h. ap (λ n. n ∷ []) h.lent };

    ghost sound_stays = { λ s t r h. h.sound };

    ghost words_stay = { λ s t e h. ap (λ x. words_of x) h.refused };
}
