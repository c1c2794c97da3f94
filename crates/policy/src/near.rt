ghost use Rattle.policy.specs.Ranges.{near_range};
ghost use Rattle.std.proofs.Common.{rules};

use crate::policy::Policy;

/// How many stamps Near takes above the lowest, where a row is near.
pub const REACH: u32 = 1023;

/// Takes at most 1,024 stamps where a row is near, and leaves those above them to whoever has to come later.
#[derive(Clone, Copy)]
pub struct Near;

impl Policy for Near {
    ghost chosen = { λ _. near_range };

    ghost means = { λ _. record { within = Prim.search rules; whole = Prim.search rules; empty = Prim.search rules } };

    fn choose(&self, lower: i32, upper: i32, befores: &[i32], afters: &[i32]) -> (i32, i32) {
        if upper < lower || (befores.is_empty() && afters.is_empty()) {
            return (lower, upper);
        }
        (lower, upper.min(lower.saturating_add(REACH as i32)))
    }
}
