ghost use Rattle.std.specs.Prelude.{◌≡◌, true, false};
ghost use Rattle.store.specs.Stores.{Puts};
ghost use Rattle.register.specs.Registers.{model, Keeps, KeepsButRowsAndCells};
ghost use Rattle.client.specs.Slips.{rest_settled};

use policy::Policy;
use register::Register;
use store::Store;

/// A decided transaction, whose rows are still to be settled. It is spent by settling the rest, and may not be let go before.
pub struct Slip {
    number: u32,
    spent: bool,
}

// Only a spent slip may be let go.
impl Drop for Slip {
    fn drop(self)
        requires { self.spent ≡ true }
    {
        let Slip {
            number: _,
            spent: _,
        } = self;
    }
}

impl Slip {
    // The slip of a transaction that was decided.
    pub(crate) fn new(number: u32) -> Slip
        ensures number { result.number ≡ number }
        ensures spent { result.spent ≡ false }
    {
        Slip {
            number,
            spent: false,
        }
    }

    /// Settles every row of the transaction that is still Running or Validated, by rising ground, and answers how many these were: 0 to 8,
    /// and 0 where the transaction is not decided in that register.
    pub fn settle_rest<S: Store, P: Policy>(mut self, register: &mut Register<'_, S, P>) -> usize
        ensures model { ◌≡◌ (model S.cells register.new, result) (rest_settled (model S.cells register.old) self.number) }
        ensures keeps { Keeps register.old register.new }
        ensures rest { KeepsButRowsAndCells register.old register.new }
        ensures store { Puts S.beside register.old.store register.new.store }
    {
        let mut settled = 0;
        for ground in 0..8_u16 {
            if register.settle(self.number, ground).is_ok() {
                settled += 1;
            }
        }
        self.spent = true;
        settled
    }
}
