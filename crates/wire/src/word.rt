ghost use Rattle.std.specs.Prelude.{◌≡◌, ◌+◌, ◌*◌, ◌<◌, ◌^◌, ◌==◌, MatchOption, Ok};
ghost use Rattle.base.specs.Kinds.{kind_number};
ghost use Rattle.base.specs.Refusals.{number_of};
ghost use Rattle.base.specs.Words.{word_of, value_word, stamp_word};
ghost use Rattle.wire.specs.Words.{kind_of, key_word, key_in, value_in, stamp_in, low_half, stamp_kind, middle_of, low_of};

use base::value::{bits_of, value_of};
use base::{Kind, Refusal, Stamp};

/// What is wrong with a word that should be of a certain kind.
#[derive(Clone, Copy, PartialEq, Eq, Debug)]
pub enum WordFault {
    WrongKind,
    StrayBits,
}

/// What a word with a stamp tells: an answer's stamp, or a cell's write stamp or read stamp.
#[derive(Clone, Copy, PartialEq, Eq, Debug)]
pub enum StampKind {
    Answer,
    Write,
    Read,
}

/// The kind of a word, by its top four bits, or nothing where they are 0.
pub fn kind_of(word: u32) -> Option<Kind>
    ensures { MatchOption result (kind_of word ≡ 0) (λ kind. kind_number kind ≡ kind_of word) }
{
    match word / 0x1000_0000 {
        1 => Some(Kind::Begin),
        2 => Some(Kind::Read),
        3 => Some(Kind::Prewrite),
        4 => Some(Kind::Validate),
        5 => Some(Kind::Decide),
        6 => Some(Kind::Withdraw),
        7 => Some(Kind::Settle),
        8 => Some(Kind::Key),
        9 => Some(Kind::Value),
        10 => Some(Kind::Done),
        11 => Some(Kind::Stamp),
        12 => Some(Kind::Aborted),
        13 => Some(Kind::Refusal),
        14 => Some(Kind::WriteStamp),
        15 => Some(Kind::ReadStamp),
        _ => None,
    }
}

// Whether a word is of a kind.
fn is_of(word: u32, kind: Kind) -> bool
    ensures { result ≡ (kind_of word == kind_number kind) }
{
    word / 0x1000_0000 == u32::from(kind)
}

// The word of a kind with these in its other 28 bits.
pub(crate) fn word_of(kind: Kind, bits: u32) -> u32
    requires { bits < 2 ^ 28 }
    ensures { result ≡ word_of kind bits }
{
    u32::from(kind) * 0x1000_0000 + bits
}

/// The kind of such words.
impl From<StampKind> for Kind {
    ghost from_gives = { λ told kind. kind ≡ stamp_kind told };

    fn from(told: StampKind) -> Kind {
        match told {
            StampKind::Answer => Kind::Stamp,
            StampKind::Write => Kind::WriteStamp,
            StampKind::Read => Kind::ReadStamp,
        }
    }
}

// Bits 27 to 16 of a word: a head's transaction, say.
pub(crate) fn middle_of(word: u32) -> u32
    ensures { result ≡ middle_of word }
{
    word / 65536 % 4096
}

/// Bits 15 to 0 of a word: a head's argument, or the key or value that a word holds.
pub fn low_of(word: u32) -> u16
    ensures { result ≡ low_of word }
{
    (word % 65536) as u16
}

// The low sixteen bits of a word of this kind, whose bits 27 to 16 have to be zero.
fn low_half(kind: Kind, word: u32) -> Result<u16, WordFault>
    ensures { result ≡ low_half kind word }
{
    if !is_of(word, kind) {
        Err(WordFault::WrongKind)
    } else if middle_of(word) != 0 {
        Err(WordFault::StrayBits)
    } else {
        Ok(low_of(word))
    }
}

/// The key in a word of kind 8.
pub fn key_in(word: u32) -> Result<u16, WordFault>
    ensures { result ≡ key_in word }
{
    low_half(Kind::Key, word)
}

/// The value in a word of kind 9.
pub fn value_in(word: u32) -> Result<i16, WordFault>
    ensures { result ≡ value_in word }
{
    low_half(Kind::Value, word).map(value_of)
}

/// The stamp in a word of kind B, E or F.
pub fn stamp_in(kind: StampKind, word: u32) -> Result<Stamp, WordFault>
    ensures { result ≡ stamp_in (stamp_kind kind) word }
{
    if is_of(word, kind.into()) {
        Ok(Stamp::in_word(word))
    } else {
        Err(WordFault::WrongKind)
    }
}

/// The word of a key.
pub fn key_word(key: u16) -> u32
    ensures value { result ≡ key_word key }
    ensures back { key_in result ≡ Ok key }
{
    word_of(Kind::Key, u32::from(key))
}

/// The word of a value.
pub fn value_word(value: i16) -> u32
    ensures value { result ≡ value_word value }
    ensures back { value_in result ≡ Ok value }
{
    word_of(Kind::Value, u32::from(bits_of(value)))
}

/// The word of a stamp.
pub fn stamp_word(kind: StampKind, stamp: Stamp) -> u32
    ensures value { result ≡ stamp_word (stamp_kind kind) stamp }
    ensures back { stamp_in (stamp_kind kind) result ≡ Ok stamp }
{
    word_of(kind.into(), stamp.number())
}

/// The word of kind A, done: with how many pairs of a prewrite stood, else 0.
pub fn done_word(pairs: u8) -> u32
    ensures { result ≡ word_of Kind.Done pairs }
{
    word_of(Kind::Done, u32::from(pairs))
}

/// The word of kind C, Aborted.
pub fn aborted_word() -> u32
    ensures { result ≡ word_of Kind.Aborted 0 }
{
    word_of(Kind::Aborted, 0)
}

/// The word of kind D, a refusal: its number in bits 15 to 0, and in bits 27 to 16 how many pairs of a prewrite stood before it, else 0.
pub fn refusal_word(pairs: u8, refusal: Refusal) -> u32
    ensures { result ≡ word_of Kind.Refusal (pairs * 2 ^ 16 + number_of refusal) }
{
    let number = u32::from(u16::from(refusal));
    word_of(Kind::Refusal, 65536 * u32::from(pairs) + number)
}
