ghost use Rattle.std.specs.Prelude.{◌≡◌, ◌/◌, ◌<◌, is_none, [], ◌∷◌, length, IfSome, None};
ghost use Rattle.image.specs.Faults.{check_result, RefusedAs13};
ghost use Rattle.image.specs.Sparses.{sparse_fault, sparse_cells, sparse_line};

use crate::fault::Fault;
use crate::stored_line::{StoredLine, check_lines, check_shape, put_cell};
use base::Refusal;
use store::{Cell, Lent, Store};
use wire::word::low_of;

/// A store of the keys that its lines name, in lent memory of four words a line: a key word, and then as in a flat store. Keys rise strictly
/// from line to line. Whether the memory is good is found once, when the store is made, and no call changes it.
#[derive(Drop)]
pub struct Sparse<'a> {
    // That the memory has no fault.
    good: bool,
    words: &'a mut [u32],
    ghost good_is: { good ≡ is_none (sparse_fault words.now) },
}

/// That memory is good as a sparse store of at most 4,096 lines, or its first fault, which is refused with 13.
pub fn check_sparse(words: &[u32]) -> Result<(), Fault>
    ensures fault { result ≡ check_result (sparse_fault words.now) }
    ensures refused { RefusedAs13 result }
{
    let (lines, rest) = words.as_chunks::<4>();
    check_shape(lines, rest)?;
    check_lines(lines)
}

impl<'a> Sparse<'a> {
    ghost use Rattle.image.specs.SparseStores.{cells_of, fault_of};

    /// The store that the memory means; of memory with a fault, one without keys.
    pub fn new(words: &'a mut [u32]) -> Sparse<'a>
        ensures cells { cells_of result ≡ sparse_cells words.old }
        ensures fault { fault_of result ≡ sparse_fault words.old }
        ensures words { result.words.now ≡ words.old }
        ensures lent { result.words.ghost_name ≡ words.entry.ghost_name }
    {
        let good = check_sparse(words).is_ok();
        Sparse { good, words }
    }

    // The line that names a key, where one does.
    fn line(&self, key: u16) -> Option<usize>
        ensures value { result ≡ sparse_line self.now.good self.now.words.now key }
        ensures bound { IfSome result (λ i. i < length self.now.words.now / 4) }
    {
        // A store without lines is seen before the search, which would ask at every key.
        if !self.good || self.words.is_empty() {
            return None;
        }
        let (lines, _) = self.words.as_chunks::<4>();
        lines
            .binary_search_by_key(&key, |line| low_of(line[0]))
            .ok()
    }
}

impl<'a> Store for Sparse<'a> {
    ghost use Rattle.image.specs.Keeping.{Keeps};
    ghost use Rattle.image.specs.SparseStores.{cells_of, fault_of, name_of};

    ghost cells = { λ s. cells_of s };

    ghost beside = { λ s r t. Keeps name_of fault_of s r t };

    fn fetch(&self, key: u16) -> Option<Cell> {
        let i = self.line(key)?;
        let (lines, _) = self.words.as_chunks::<4>();
        Some(lines[i].cell())
    }

    fn put(&mut self, key: u16, cell: Cell) -> Result<(), Refusal> {
        let i = self.line(key).ok_or(Refusal::NoSuchKey)?;
        put_cell(self.words, 4 * i + 1, cell);
        Ok(())
    }
}

impl<'a> Lent for Sparse<'a> {
    ghost use Rattle.std.proofs.Common.{ap};
    ghost use Rattle.image.specs.SparseStores.{fault_of, name_of, words_of};

    ghost lent = { λ s. name_of s ∷ [] };

    ghost sound = { λ s. fault_of s ≡ None };

    ghost words = { λ s. words_of s };

    ghost lent_stays = { λ s t r h. ap (λ n. n ∷ []) h.lent };

    ghost sound_stays = { λ s t r h. h.sound };

    ghost words_stay = { λ s t e h. ap (λ x. words_of x) h.refused };
}
