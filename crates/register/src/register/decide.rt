ghost use Rattle.std.specs.Prelude.{◌≡◌, OnErr};
ghost use Rattle.protocol.specs.Calls.{decide, withdraw};
ghost use Rattle.protocol.specs.Decisions.{with_decision};
ghost use Rattle.register.specs.Registers.{model, Keeps, KeepsButTransactions, BegunAt};

use crate::register::Register;
use base::Refusal;
use lines::transaction::{Decision, Transaction};
use policy::Policy;
use store::Store;

impl<'a, S: Store, P: Policy> Register<'a, S, P> {
    // Writes a decision into the line of a transaction, which has this place.
    fn set_decision(&mut self, place: usize, transaction: u32, decision: Decision)
        requires { BegunAt self.old transaction place }
        ensures model { model S.cells self.new ≡ with_decision (model S.cells self.old) transaction decision }
        ensures keeps { Keeps self.old self.new }
        ensures rest { KeepsButTransactions self.old self.new }
    {
        self.transactions.set(
            place,
            Transaction {
                number: transaction,
                decision: Some(decision),
            },
        );
    }

    /// Decides a transaction by its rows, none of which may be Running: it is committed at the least stamp that suits all of them, or
    /// Aborted. Refused with 3, 4 and 8, in this order.
    pub fn decide(&mut self, transaction: u32) -> Result<Decision, Refusal>
        ensures model { ◌≡◌ (model S.cells self.new, result) (decide (model S.cells self.old) transaction) }
        ensures refused { OnErr result (self.new ≡ self.old) }
        ensures keeps { Keeps self.old self.new }
        ensures rest { KeepsButTransactions self.old self.new }
    {
        let place = self.check_open(transaction)?;
        let tally = self.check_none_running(transaction)?;
        let decision = tally.decision();
        self.set_decision(place, transaction, decision);
        Ok(decision)
    }

    /// Aborts a transaction that is not decided. Refused with 3 and 4, in this order.
    pub fn withdraw(&mut self, transaction: u32) -> Result<(), Refusal>
        ensures model { ◌≡◌ (model S.cells self.new, result) (withdraw (model S.cells self.old) transaction) }
        ensures refused { OnErr result (self.new ≡ self.old) }
        ensures keeps { Keeps self.old self.new }
        ensures rest { KeepsButTransactions self.old self.new }
    {
        let place = self.check_open(transaction)?;
        self.set_decision(place, transaction, Decision::Aborted);
        Ok(())
    }
}
