ghost use Rattle.std.specs.Prelude.{◌≡◌, ◌<◌};
ghost use Rattle.protocol.specs.Calls.{validate};
ghost use Rattle.register.specs.Agreements.{AgreeOn, AnswerAlike};
ghost use Rattle.register.specs.Registers.{model};

use crate::register::Register;
use base::Refusal;
use policy::Policy;
use store::Store;

/// What a validation answers: a range of stamps, nothing where the row is Aborted, or a refusal.
pub type Verdict = Result<Option<(i32, i32)>, Refusal>;

/// Validates a transaction at a ground, 0 to 7, on two registers over any two stores and policies. Where the registers agree on the
/// ground, on the transaction's line and in policy, the verdicts are the same, and the registers agree on the ground still: whatever
/// calls each saw, and whatever their other grounds hold.
pub fn validate_both<S: Store, P: Policy, T: Store, Q: Policy>(
    one: &mut Register<'_, S, P>,
    other: &mut Register<'_, T, Q>,
    transaction: u32,
    ground: u16,
) -> (Verdict, Verdict)
    ensures one { ◌≡◌ (model S.cells one.new, result.0)
        (validate (P.chosen one.old.policy) (model S.cells one.old) transaction ground) }
    ensures other { ◌≡◌ (model T.cells other.new, result.1)
        (validate (Q.chosen other.old.policy) (model T.cells other.old) transaction ground) }
    ensures local { ground < 8
        → AgreeOn (P.chosen one.old.policy) (Q.chosen other.old.policy) (model S.cells one.old) (model T.cells other.old) transaction ground
        → AnswerAlike result (model S.cells one.new) (model T.cells other.new) ground }
{
    (
        one.validate(transaction, ground),
        other.validate(transaction, ground),
    )
}
