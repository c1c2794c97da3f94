ghost use Rattle.std.specs.Prelude.{◌≡◌, ◌∷◌, OnErr};
ghost use Rattle.store.specs.Stores.{Cells, Puts};
ghost use Rattle.protocol.specs.Calls.{step};
ghost use Rattle.protocol.specs.Model.{Rooms};
ghost use Rattle.serial.specs.Ledger.{History};
ghost use Rattle.register.specs.Days.{LeadsTo, KeepsPromise};
ghost use Rattle.register.specs.Registers.{model, Keeps};

use crate::register::Register;
use base::Refusal;
use lines::transaction::Decision;
use policy::Policy;
use protocol::{Call, Reply};
use store::Store;

impl<'a, S: Store, P: Policy> Register<'a, S, P> {
    // Makes a call, and tells its answer as a reply.
    #[tactic(auto, using(store::proofs::Putting::same_store))]
    fn made(&mut self, call: Call) -> Result<Reply, Refusal>
        ensures model { ◌≡◌ (model S.cells self.new, result) (step (P.chosen self.old.policy) (model S.cells self.old) call) }
        ensures refused { OnErr result (self.new ≡ self.old) }
        ensures keeps { Keeps self.old self.new }
        ensures store { Puts S.beside self.old.store self.new.store }
    {
        match call {
            Call::Begin { transaction } => {
                self.begin(transaction)?;
                Ok(Reply::Done)
            }
            Call::Read { transaction, key } => {
                let (value, stamp) = self.read(transaction, key)?;
                Ok(Reply::Value { value, stamp })
            }
            Call::Prewrite {
                transaction,
                key,
                value,
            } => {
                self.prewrite(transaction, key, value)?;
                Ok(Reply::Done)
            }
            Call::Validate {
                transaction,
                ground,
            } => match self.validate(transaction, ground)? {
                Some((lower, upper)) => Ok(Reply::Range { lower, upper }),
                None => Ok(Reply::Aborted),
            },
            Call::Decide { transaction } => match self.decide(transaction)? {
                Decision::Committed(stamp) => Ok(Reply::Committed { stamp }),
                Decision::Aborted => Ok(Reply::Aborted),
            },
            Call::Withdraw { transaction } => {
                self.withdraw(transaction)?;
                Ok(Reply::Aborted)
            }
            Call::Settle {
                transaction,
                ground,
            } => {
                self.settle(transaction, ground)?;
                Ok(Reply::Done)
            }
        }
    }

    /// Makes a call, any of the seven with any numbers: answers its reply, or one refusal by which everything stays as it stood.
    ///
    /// Whatever day led to the register as it was goes on with this call and this answer; and of each such day the whole promise holds,
    /// told by the calls with their answers, the cells that it began with, and the cells that the store has now.
    pub fn call(&mut self, call: Call) -> Result<Reply, Refusal>
        // What the definitions give.
        ensures model { ◌≡◌ (model S.cells self.new, result) (step (P.chosen self.old.policy) (model S.cells self.old) call) }
        ensures refused { OnErr result (self.new ≡ self.old) }
        ensures keeps { Keeps self.old self.new }
        ensures store { Puts S.beside self.old.store self.new.store }

        // What is promised of every day.
        ensures goes_on { (first : Cells) (rooms : Rooms) (h : History) → LeadsTo S.cells P.chosen first rooms h self.old
            → LeadsTo S.cells P.chosen first rooms ((call, result) ∷ h) self.new }
        ensures promised { (first : Cells) (rooms : Rooms) (h : History) → LeadsTo S.cells P.chosen first rooms h self.old
            → KeepsPromise S.cells P.chosen first rooms ((call, result) ∷ h) self.new }
    {
        self.made(call)
    }

    /// What is promised of the register as it is, by each day that led to it. Nothing is done.
    pub fn promised(&self)
        ensures { (first : Cells) (rooms : Rooms) (h : History) → LeadsTo S.cells P.chosen first rooms h self.now
            → KeepsPromise S.cells P.chosen first rooms h self.now }
    {}
}
