ghost use Rattle.policy.specs.Ranges.{whole_range};
ghost use Rattle.std.proofs.Common.{rules};

use crate::policy::Policy;

/// Takes the whole range.
#[derive(Clone, Copy)]
pub struct Whole;

impl Policy for Whole {
    ghost chosen = { λ _. whole_range };

    ghost means = { λ _. record { within = Prim.search rules; whole = Prim.search rules; empty = Prim.search rules } };

    fn choose(&self, lower: i32, upper: i32, _befores: &[i32], _afters: &[i32]) -> (i32, i32) {
        (lower, upper)
    }
}
