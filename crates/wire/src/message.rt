ghost use Rattle.std.specs.Prelude.{◌≡◌, ◌<◌, ◌≤◌, length, IfSome, if◌then◌else◌, Some, None, nat_le};
ghost use Rattle.std.specs.Option.{option_map};
ghost use Rattle.std.specs.Result.{result_map_both};
ghost use Rattle.wire.specs.Messages.{content_of, content_and_count, first_message, reading_of, prewrite_message};
ghost use Rattle.wire.specs.Messages.{head_word, head_of, pairs_of, word_list, has_words, message_words, ReadsBack, WritesBack};

mod pairs;

use crate::word::{kind_of, low_of, middle_of, word_of};
use base::{Kind, Refusal};
use pairs::can_be_prewritten;
pub use pairs::pair_at;

/// How many pairs a prewrite has at most.
pub const MAX_PAIRS: usize = 64;

/// The largest number of a transaction that a head has room for.
pub const MAX_TRANSACTION: u32 = 4095;

/// Both limits as numbers: what is said of messages goes by the constants, which this holds. A law: it does nothing.
pub fn limits_are_numbers()
    ensures pairs { MAX_PAIRS ≡ 64 }
    ensures transactions { MAX_TRANSACTION ≡ 4095 }
{}

/// A call as words say it: a transaction (0 to MAX_TRANSACTION where words say it), and a key, a ground (any sixteen bits), or the words of a
/// prewrite's pairs (1 to MAX_PAIRS), key and value in turn, which are a part of the words that the message was read from.
#[derive(Clone, Copy, PartialEq, Eq, Debug)]
pub enum Message<'w> {
    Begin { transaction: u32 },
    Read { transaction: u32, key: u16 },
    Prewrite { transaction: u32, pairs: &'w [u32] },
    Validate { transaction: u32, ground: u16 },
    Decide { transaction: u32 },
    Withdraw { transaction: u32 },
    Settle { transaction: u32, ground: u16 },
}

/// The words of a message: its head, and its pairs where it has any.
#[derive(Clone, Copy, PartialEq, Eq, Debug)]
pub struct MessageWords<'w> {
    pub head: u32,
    pub pairs: &'w [u32],
}

// A prewrite of `count` pairs, which the words begin with.
fn prewrite<'w>(transaction: u32, count: u16, words: &'w [u32]) -> Option<Message<'w>>
    ensures value { option_map content_and_count result ≡ prewrite_message transaction count words.now }
    ensures bound { IfSome result (λ m. length (pairs_of (content_of m)) ≤ length words.now) }
{
    let pairs = words.get(..2 * usize::from(count))?;
    can_be_prewritten(pairs).then_some(Message::Prewrite { transaction, pairs })
}

// The message that words begin with.
fn first_message<'w>(words: &'w [u32]) -> Option<Message<'w>>
    ensures value { option_map content_and_count result ≡ first_message words.now }
    ensures bound { IfSome result (λ m. length (pairs_of (content_of m)) < length words.now) }
{
    let (head, rest) = words.split_first()?;
    let transaction = middle_of(*head);
    let argument = low_of(*head);
    Some(match kind_of(*head)? {
        Kind::Begin if argument == 0 => Message::Begin { transaction },
        Kind::Read => Message::Read {
            transaction,
            key: argument,
        },
        Kind::Prewrite => prewrite(transaction, argument, rest)?,
        Kind::Validate => Message::Validate {
            transaction,
            ground: argument,
        },
        Kind::Decide if argument == 0 => Message::Decide { transaction },
        Kind::Withdraw if argument == 0 => Message::Withdraw { transaction },
        Kind::Settle => Message::Settle {
            transaction,
            ground: argument,
        },
        _ => return None,
    })
}

// A head word, or nothing for a transaction that its twelve bits cannot hold.
fn head_word(kind: Kind, transaction: u32, argument: u16) -> Option<u32>
    ensures { result ≡ (if nat_le transaction MAX_TRANSACTION then Some (head_word kind transaction argument) else None) }
{
    if transaction <= MAX_TRANSACTION {
        Some(word_of(kind, transaction * 65536 + u32::from(argument)))
    } else {
        None
    }
}

impl<'w> Message<'w> {
    /// The message that words begin with and how many words it takes. Where they begin with none it is refused with 12, and one word is
    /// passed over, if there is one.
    pub fn read(words: &'w [u32]) -> (Result<Message<'w>, Refusal>, usize)
        ensures value { ◌≡◌ (result_map_both content_of (λ e. e) result.0, result.1) (reading_of words.now) }
        ensures bound { result.1 ≤ length words.now }
        ensures advances { 0 < length words.now → 0 < result.1 }
    {
        match first_message(words) {
            Some(message) => (Ok(message), 1 + message.pairs().len()),
            None => (Err(Refusal::Malformed), words.len().min(1)),
        }
    }

    // The message's head word, or nothing where no words say the message.
    fn head(self) -> Option<u32>
        ensures { result ≡ (if has_words (content_of self.entry) then Some (head_of (content_of self.entry)) else None) }
    {
        match self {
            Message::Begin { transaction } => head_word(Kind::Begin, transaction, 0),
            Message::Read { transaction, key } => head_word(Kind::Read, transaction, key),
            Message::Prewrite { transaction, pairs } => {
                if !can_be_prewritten(pairs) {
                    return None;
                }
                head_word(Kind::Prewrite, transaction, (pairs.len() / 2) as u16)
            }
            Message::Validate {
                transaction,
                ground,
            } => head_word(Kind::Validate, transaction, ground),
            Message::Decide { transaction } => head_word(Kind::Decide, transaction, 0),
            Message::Withdraw { transaction } => head_word(Kind::Withdraw, transaction, 0),
            Message::Settle {
                transaction,
                ground,
            } => head_word(Kind::Settle, transaction, ground),
        }
    }

    // The words that follow the head.
    fn pairs(self) -> &'w [u32]
        ensures { result.now ≡ pairs_of (content_of self.entry) }
    {
        match self {
            Message::Prewrite { pairs, .. } => pairs,
            _ => &[],
        }
    }

    /// The words that say the message, or nothing where none do: a transaction above MAX_TRANSACTION, no pairs or more than MAX_PAIRS, or
    /// a bad pair.
    pub fn words(self) -> Option<MessageWords<'w>>
        ensures { option_map word_list result ≡ message_words (content_of self.entry) }
    {
        let head = self.head()?;
        Some(MessageWords {
            head,
            pairs: self.pairs(),
        })
    }
}

/// Reading and writing messages undo each other.
pub fn messages_come_back()
    ensures reads_back { ReadsBack }
    ensures writes_back { WritesBack }
{}
