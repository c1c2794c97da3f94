// What a message is answered: its calls are made, and the last response is told with the count of pairs that stood.

ghost use Rattle.std.specs.Prelude.{◌≡◌, length};
ghost use Rattle.std.specs.Result.{result_map_both};
ghost use Rattle.store.specs.Stores.{Cells, Puts};
ghost use Rattle.protocol.specs.Model.{Rooms};
ghost use Rattle.protocol.specs.declared.call.Call.TheVariants.{Prewrite};
ghost use Rattle.serial.specs.Ledger.{History};
ghost use Rattle.register.specs.Days.{LeadsTo};
ghost use Rattle.register.specs.Registers.{Keeps};
ghost use Rattle.wire.specs.Messages.{content_of};
ghost use Rattle.service.specs.Answered.{pairs_in, ArePrewrites, IsAnswer, IsOnce, IsReadAnswer};

use base::Refusal;
use policy::Policy;
use protocol::{Call, Reply};
use register::Register;
use store::Store;
use wire::message::{Message, pair_at};

// How many pairs of a prewrite stood, 0 after any other message, and a response.
pub(crate) type Answer = (u8, Result<Reply, Refusal>);

// Makes one call.
fn once<S: Store, P: Policy>(register: &mut Register<'_, S, P>, call: Call) -> Answer
    ensures keeps { Keeps register.old register.new }
    ensures store { Puts S.beside register.old.store register.new.store }
    ensures made { (first : Cells) (rooms : Rooms) (h : History) → LeadsTo S.cells P.chosen first rooms h register.old
        → (g : History) × LeadsTo S.cells P.chosen first rooms g register.new × IsOnce call h g result }
{
    (0, register.call(call))
}

// The prewrite of one pair.
fn prewrite_of(transaction: u32, key: u16, value: i16) -> Call
    ensures { result ≡ Prewrite transaction key value }
{
    Call::Prewrite {
        transaction,
        key,
        value,
    }
}

// Makes the calls of a prewrite's pairs, up to the first that is refused.
fn prewrites<S: Store, P: Policy>(
    register: &mut Register<'_, S, P>,
    transaction: u32,
    pairs: &[u32],
) -> Answer
    ensures keeps { Keeps register.old register.new }
    ensures store { Puts S.beside register.old.store register.new.store }
    ensures made { (first : Cells) (rooms : Rooms) (h : History) → LeadsTo S.cells P.chosen first rooms h register.old
        → (g : History) × LeadsTo S.cells P.chosen first rooms g register.new
        × ArePrewrites transaction (pairs_in pairs.now) 0 h g result }
{
    let mut stood = 0u8;
    for i in 0..pairs.len() / 2 {
        let Some((key, value)) = pair_at(pairs, i) else {
            continue;
        };
        let call = prewrite_of(transaction, key, value);
        if let Err(refusal) = register.call(call) {
            return (stood, Err(refusal));
        }
        stood = stood.saturating_add(1);
    }
    (stood, Ok(Reply::Done))
}

// Makes the calls of a message.
fn answer<S: Store, P: Policy>(register: &mut Register<'_, S, P>, message: Message) -> Answer
    ensures keeps { Keeps register.old register.new }
    ensures store { Puts S.beside register.old.store register.new.store }
    ensures made { (first : Cells) (rooms : Rooms) (h : History) → LeadsTo S.cells P.chosen first rooms h register.old
        → (g : History) × LeadsTo S.cells P.chosen first rooms g register.new × IsAnswer (content_of message.entry) h g result }
{
    match message {
        Message::Begin { transaction } => once(register, Call::Begin { transaction }),
        Message::Read { transaction, key } => once(register, Call::Read { transaction, key }),
        Message::Prewrite { transaction, pairs } => prewrites(register, transaction, pairs),
        Message::Validate {
            transaction,
            ground,
        } => once(
            register,
            Call::Validate {
                transaction,
                ground,
            },
        ),
        Message::Decide { transaction } => once(register, Call::Decide { transaction }),
        Message::Withdraw { transaction } => once(register, Call::Withdraw { transaction }),
        Message::Settle {
            transaction,
            ground,
        } => once(
            register,
            Call::Settle {
                transaction,
                ground,
            },
        ),
    }
}

// Makes the calls of what words were read as, which may be no message: then none is made.
#[tactic(auto, using(register::proofs::Kept::none_keeps, store::proofs::Putting::same_store))]
pub(crate) fn answer_to_reading<S: Store, P: Policy>(
    register: &mut Register<'_, S, P>,
    message: Result<Message, Refusal>,
) -> Answer
    ensures keeps { Keeps register.old register.new }
    ensures store { Puts S.beside register.old.store register.new.store }
    ensures made { (first : Cells) (rooms : Rooms) (h : History) → LeadsTo S.cells P.chosen first rooms h register.old
        → (g : History) × LeadsTo S.cells P.chosen first rooms g register.new
        × IsReadAnswer (result_map_both content_of (λ e. e) message.entry) h g result }
{
    match message {
        Ok(message) => answer(register, message),
        Err(refusal) => (0, Err(refusal)),
    }
}
