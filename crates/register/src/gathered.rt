ghost use Rattle.std.specs.Prelude.{◌≡◌, ◌<◌, ◌≤◌, List, [], ◌∷◌, ◌++◌, length, take, set};

use std::marker::Model;

/// A list of at most N values. What a call works out is gathered here.
/// It lies in an array, since no call may allocate, and is no library's list, since one more crate would have to be trusted.
#[derive(Drop)]
pub struct Gathered<T, const N: usize> {
    values: [T; N],
    count: usize,
}

/// Clauses see the values, in the order in which they were added.
impl<T, const N: usize> Model for Gathered<T, N> {
    ghost Value = { List T };

    ghost view = { λ g. take g.count g.values };

    ghost invariant = { λ g. g.count ≤ N };
}

impl<T: Copy, const N: usize> Gathered<T, N> {
    /// An empty list. The blank lies where no value is yet.
    pub fn new(blank: T) -> Gathered<T, N>
        ensures { result ≡ [] }
    {
        Gathered {
            values: [blank; N],
            count: 0,
        }
    }

    /// Adds a value at the end.
    pub fn push(&mut self, value: T)
        requires { length self.old < N }
        ensures { self.new ≡ self.old ++ value ∷ [] }
    {
        self.values[self.count] = value;
        self.count += 1;
    }

    /// Puts a value in the place of another.
    pub fn set(&mut self, place: usize, value: T)
        requires { place < length self.old }
        ensures { self.new ≡ set self.old place value }
    {
        self.values[..self.count][place] = value;
    }

    /// The values, in their order.
    pub fn as_slice(&self) -> &[T]
        ensures { result.now ≡ self.now }
    {
        &self.values[..self.count]
    }
}
