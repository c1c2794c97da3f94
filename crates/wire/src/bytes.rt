ghost use Rattle.std.specs.Prelude.{◌≡◌, ◌/◌, ◌%◌, ◌++◌, drop, length, take};
ghost use Rattle.wire.specs.Bytes.{words_in};

/// Writes the little-endian words of whole groups of four bytes over the front of `words`, as many as there is room for, and leaves what
/// lies behind them. Answers how many bytes are left over after the last whole group, 0 to 3.
pub fn fill_words(words: &mut [u32], bytes: &[u8]) -> usize
    ensures words { words.new ≡ take (length words.old) (words_in bytes.now) ++ drop (length (words_in bytes.now)) words.old }
    ensures all { length words.old ≡ length bytes.now / 4 → words.new ≡ words_in bytes.now }
    ensures left { result ≡ length bytes.now % 4 }
{
    let (groups, left) = bytes.as_chunks::<4>();
    let count = groups.len().min(words.len());
    for i in 0..count {
        words[i] = u32::from_le_bytes(groups[i]);
    }
    left.len()
}
