ghost use Rattle.std.specs.Prelude.{◌≡◌, IfOk, IfErr, IfSome, OnErr};
ghost use Rattle.protocol.specs.Calls.{begin, read, prewrite, validate, decide, withdraw};
ghost use Rattle.register.specs.Registers.{model, Keeps, KeepsButRows, KeepsButTransactions, IsOfStamps};
ghost use Rattle.client.specs.Tickets.{begun, decided, withdrawn};

use crate::slip::Slip;
use base::{Refusal, Stamp};
use lines::transaction::Decision;
use policy::Policy;
use register::Register;
use store::Store;

/// An open transaction, as its begin gave it. It is used up by deciding or withdrawing, and may not be let go before.
pub struct Ticket {
    number: u32,
}

/// Begins a transaction, whose number has to be above all that were begun, 1 to 4,095. Refused with 1 and 2.
pub fn begin<S: Store, P: Policy>(
    register: &mut Register<'_, S, P>,
    number: u32,
) -> Result<Ticket, Refusal>
    ensures model { ◌≡◌ (model S.cells register.new, begun result) (begin (model S.cells register.old) number) }
    ensures refused { OnErr result (register.new ≡ register.old) }
    ensures keeps { Keeps register.old register.new }
    ensures rest { KeepsButTransactions register.old register.new }
    ensures ticket { IfOk result (λ ticket. ticket.number ≡ number) }
{
    register.begin(number)?;
    Ok(Ticket { number })
}

impl Ticket {
    /// Reads a cell, any key: its value, -32,768 to 32,767, and its write stamp, 0 to TOP. Refused with 3, 4, 11, 5, 7 and 2.
    pub fn read<S: Store, P: Policy>(
        &self,
        register: &mut Register<'_, S, P>,
        key: u16,
    ) -> Result<(i16, Stamp), Refusal>
        ensures model { ◌≡◌ (model S.cells register.new, result) (read (model S.cells register.old) self.now.number key) }
        ensures refused { OnErr result (register.new ≡ register.old) }
        ensures keeps { Keeps register.old register.new }
        ensures store { register.new.store ≡ register.old.store }
    {
        register.read(self.number, key)
    }

    /// Says what the transaction will write into a cell: any key, a value from -32,768 to 32,767. Refused with 3, 4, 11, 5 and 2.
    pub fn prewrite<S: Store, P: Policy>(
        &self,
        register: &mut Register<'_, S, P>,
        key: u16,
        value: i16,
    ) -> Result<(), Refusal>
        ensures model { ◌≡◌ (model S.cells register.new, result) (prewrite (model S.cells register.old) self.now.number key value) }
        ensures refused { OnErr result (register.new ≡ register.old) }
        ensures keeps { Keeps register.old register.new }
        ensures store { register.new.store ≡ register.old.store }
    {
        register.prewrite(self.number, key, value)
    }

    /// Validates the transaction at a ground, 0 to 7: the bounds of its range, two stamps, or nothing where its row is Aborted. Refused with 3, 4,
    /// 6 and 5.
    pub fn validate<S: Store, P: Policy>(
        &self,
        register: &mut Register<'_, S, P>,
        ground: u16,
    ) -> Result<Option<(i32, i32)>, Refusal>
        ensures model { ◌≡◌ (model S.cells register.new, result)
            (validate (P.chosen register.old.policy) (model S.cells register.old) self.now.number ground) }
        ensures refused { OnErr result (register.new ≡ register.old) }
        ensures keeps { Keeps register.old register.new }
        ensures rest { KeepsButRows register.old register.new }
        ensures stamps { IfOk result (λ taken. IfSome taken IsOfStamps) }
    {
        register.validate(self.number, ground)
    }

    /// Decides the transaction: the decision and a slip to settle by. Refused with 3, 4 and 8, it hands the ticket back.
    pub fn decide<S: Store, P: Policy>(
        self,
        register: &mut Register<'_, S, P>,
    ) -> Result<(Decision, Slip), (Ticket, Refusal)>
        ensures model { ◌≡◌ (model S.cells register.new, decided result) (decide (model S.cells register.old) self.number) }
        ensures refused { OnErr result (register.new ≡ register.old) }
        ensures keeps { Keeps register.old register.new }
        ensures rest { KeepsButTransactions register.old register.new }
        ensures slip { IfOk result (λ p. p.1.number ≡ self.number) }
        ensures ticket { IfErr result (λ p. p.0 ≡ self) }
    {
        match register.decide(self.number) {
            Ok(decision) => {
                let Ticket { number } = self;
                Ok((decision, Slip::new(number)))
            }
            Err(refusal) => Err((self, refusal)),
        }
    }

    /// Withdraws the transaction: a slip to settle by. Refused with 3 and 4, it hands the ticket back.
    pub fn withdraw<S: Store, P: Policy>(
        self,
        register: &mut Register<'_, S, P>,
    ) -> Result<Slip, (Ticket, Refusal)>
        ensures model { ◌≡◌ (model S.cells register.new, withdrawn result) (withdraw (model S.cells register.old) self.number) }
        ensures refused { OnErr result (register.new ≡ register.old) }
        ensures keeps { Keeps register.old register.new }
        ensures rest { KeepsButTransactions register.old register.new }
        ensures slip { IfOk result (λ slip. slip.number ≡ self.number) }
        ensures ticket { IfErr result (λ p. p.0 ≡ self) }
    {
        match register.withdraw(self.number) {
            Ok(()) => {
                let Ticket { number } = self;
                Ok(Slip::new(number))
            }
            Err(refusal) => Err((self, refusal)),
        }
    }
}
