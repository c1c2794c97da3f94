ghost use Rattle.std.specs.Prelude.{◌≡◌, List, ℤ};
ghost use Rattle.policy.specs.Ranges.{Meaning};

/// A policy means a fixed answer: a lower and an upper bound inside those that it is given.
pub trait Policy {
    // The answer to a lower bound, an upper bound, the lowers of the before rows and the uppers of the after rows.
    ghost chosen: { Self → ℤ → ℤ → List ℤ → List ℤ → ℤ × ℤ };

    /// The lower and the upper bound that the policy takes, given a lower and an upper bound, the lower bounds of the before rows and
    /// the upper bounds of the after rows, each row once, in the order of the row book: the same two where both lists are empty or the
    /// lower lies above the upper, else a part of the range that is not empty. A validation gives bounds from 0 to TOP, lowers from 0 to
    /// TOP + 1 and uppers from -1 to TOP; a policy takes any.
    fn choose(&self, lower: i32, upper: i32, befores: &[i32], afters: &[i32]) -> (i32, i32)
        ensures { result ≡ chosen self.now lower upper befores.now afters.now };

    // What a policy means; whoever offers one shows it.
    ghost means: { (s : Self) → Meaning (chosen s) };
}
