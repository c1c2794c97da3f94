// The words of an answer.

ghost use Rattle.std.specs.Prelude.{◌≡◌, ◌∷◌};
ghost use Rattle.std.specs.Option.{option_to_list};
ghost use Rattle.base.specs.Stamps.{nearest_stamp};
ghost use Rattle.base.specs.Words.{stamp_word};
ghost use Rattle.base.specs.declared.kind.Kind.TheVariants as kind;
ghost use Rattle.protocol.specs.Replies.{response_words};

use base::{Refusal, Stamp};
use protocol::Reply;
use wire::word::{StampKind, aborted_word, done_word, refusal_word, stamp_word, value_word};

// The word of a stamp in an answer.
fn answer_stamp(stamp: Stamp) -> u32
    ensures { result ≡ stamp_word kind.Stamp stamp }
{
    stamp_word(StampKind::Answer, stamp)
}

// The word of a bound in an answer: that of the stamp that it is.
fn bound_word(bound: i32) -> u32
    ensures { result ≡ stamp_word kind.Stamp (nearest_stamp bound) }
{
    answer_stamp(Stamp::nearest(bound))
}

// The one or two words of a response, where so many pairs of a prewrite stood.
pub(crate) fn words_of(pairs: u8, response: Result<Reply, Refusal>) -> (u32, Option<u32>)
    ensures { result.0 ∷ option_to_list result.1 ≡ response_words pairs response }
{
    match response {
        Ok(Reply::Done) => (done_word(pairs), None),
        Ok(Reply::Value { value, stamp }) => (value_word(value), Some(answer_stamp(stamp))),
        Ok(Reply::Range { lower, upper }) => (bound_word(lower), Some(bound_word(upper))),
        Ok(Reply::Committed { stamp }) => (answer_stamp(stamp), None),
        Ok(Reply::Aborted) => (aborted_word(), None),
        Err(refusal) => (refusal_word(pairs, refusal), None),
    }
}
