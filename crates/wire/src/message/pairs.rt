ghost use Rattle.std.specs.Prelude.{◌≡◌, ◌/◌, ◌&&◌, length, slice_index};
ghost use Rattle.wire.specs.Messages.{pair_in, pair_at, are_pairs, is_pair_count};

use crate::message::MAX_PAIRS;
use crate::word::{key_in, value_in};

// The pair of a key word and a value word, or nothing where one is no such word.
fn pair_in(words: &[u32; 2]) -> Option<(u16, i16)>
    ensures { result ≡ pair_in (slice_index words.now 0) (slice_index words.now 1) }
{
    let [key, value] = words;
    key_in(*key).ok().zip(value_in(*value).ok())
}

/// The pair number i of a prewrite's pairs, counted from 0, as (key, value); nothing past the end.
pub fn pair_at(pairs: &[u32], i: usize) -> Option<(u16, i16)>
    ensures { result ≡ pair_at pairs.now i }
{
    let (pairs, _) = pairs.as_chunks::<2>();
    let pair = pairs.get(i)?;
    pair_in(pair)
}

// Whether words are pairs, one after another.
fn are_pairs(words: &[u32]) -> bool
    ensures { result ≡ are_pairs words.now }
{
    let (pairs, rest) = words.as_chunks::<2>();
    rest.is_empty() && pairs.iter().all(|pair| pair_in(pair).is_some())
}

// Whether words are the pairs of a prewrite, 1 to MAX_PAIRS of them.
pub(crate) fn can_be_prewritten(words: &[u32]) -> bool
    ensures { result ≡ (is_pair_count (length words.now / 2) && are_pairs words.now) }
{
    (1..=MAX_PAIRS).contains(&(words.len() / 2)) && are_pairs(words)
}
