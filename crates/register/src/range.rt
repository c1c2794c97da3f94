ghost use Rattle.std.specs.Prelude.{◌≡◌, pos, ◌≤ℤ◌, int_lt};
ghost use Rattle.base.specs.declared.stamp.TheConstants.{TOP};
ghost use Rattle.register.specs.Ranges.{above, below, range_of, within};

use lines::row::Row;

/// The stamps from `lower` to `upper`, both inside.
#[derive(Clone, Copy)]
pub struct Range {
    pub lower: i32,
    pub upper: i32,
}

impl Range {
    /// The stamps that a row leaves to its transaction.
    pub fn of_row(row: &Row) -> Range
        ensures { result ≡ range_of row.now }
    {
        Range {
            lower: row.lower,
            upper: row.upper,
        }
    }

    /// Whether no stamp is left.
    pub fn is_empty(self) -> bool
        ensures { result ≡ int_lt self.upper self.lower }
    {
        self.upper < self.lower
    }

    /// Those of them that lie above a number.
    pub fn above(mut self, number: i32) -> Range
        requires { number ≤ℤ pos TOP }
        ensures { result ≡ above self number }
    {
        self.lower = self.lower.max(number + 1);
        self
    }

    /// Those of them that lie below a number.
    pub fn below(mut self, number: i32) -> Range
        requires { pos 0 ≤ℤ number }
        ensures { result ≡ below self number }
    {
        self.upper = self.upper.min(number - 1);
        self
    }

    /// Those of them that a row allows too.
    pub fn within(self, row: &Row) -> Range
        ensures { result ≡ within self row.now }
    {
        Range {
            lower: self.lower.max(row.lower),
            upper: self.upper.min(row.upper),
        }
    }
}
