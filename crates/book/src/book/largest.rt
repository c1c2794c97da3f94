ghost use Rattle.std.specs.Prelude.{◌≡◌, map};
ghost use Rattle.book.specs.Books.{NoneAbove, lines_of, largest_key};

use crate::book::Book;
use crate::line::Line;

// The largest key of some lines, the first of equal ones, or nothing where there are none.
fn largest_of<L: Line>(lines: &[L]) -> Option<L::Key>
    ensures { result ≡ largest_key L.Key.cmp (map L.keyed lines.now) }
{
    let (first, rest) = lines.split_first()?;
    Some(
        rest.iter()
            .fold(first.key(), |top, line| line.key().max(top)),
    )
}

impl<'a, L: Line> Book<'a, L> {
    /// The largest key, or nothing in an empty book. No key is above it.
    pub fn largest(&self) -> Option<L::Key>
        ensures is { result ≡ largest_key L.Key.cmp (map L.keyed (lines_of self.now)) }
        ensures most { NoneAbove L.Key.cmp result (map L.keyed (lines_of self.now)) }
    {
        largest_of(self.lines())
    }
}
