ghost use Rattle.std.specs.Prelude.{◌≡◌, ◌<◌, ◌-◌, length, IfSome};
ghost use Rattle.std.specs.List.{slice_get};
ghost use Rattle.std.specs.Option.{option_and_then};
ghost use Rattle.book.specs.Books.{line_with, lines_of, position_of, last_position_of};

use crate::book::Book;
use crate::line::Line;

impl<'a, L: Line> Book<'a, L> {
    /// The number of the first line with the key, or nothing.
    pub fn search(&self, key: L::Key) -> Option<usize>
        ensures position { result ≡ position_of L.Key.eq L.keyed key (lines_of self.now) }
        ensures within { IfSome result (λ i. i < length (lines_of self.now)) }
    {
        self.lines().iter().position(|line| line.key() == key)
    }

    /// The first line with the key, or nothing.
    pub fn find(&self, key: L::Key) -> Option<L>
        ensures { result ≡ line_with L.Key.eq L.keyed key (lines_of self.now) }
    {
        self.lines().iter().copied().find(|line| line.key() == key)
    }

    /// The number of the last line with the key, or nothing. Where no two lines have the same key it is the first one too, and a line
    /// that was written lately is found sooner.
    pub fn search_last(&self, key: L::Key) -> Option<usize>
        ensures position { result ≡ last_position_of L.Key.eq L.keyed key (lines_of self.now) }
        ensures within { IfSome result (λ i. i < length (lines_of self.now)) }
    {
        self.lines().iter().rposition(|line| line.key() == key)
    }

    /// The last line with the key, or nothing.
    pub fn find_last(&self, key: L::Key) -> Option<L>
        ensures { result ≡ option_and_then (slice_get (lines_of self.now)) (last_position_of L.Key.eq L.keyed key (lines_of self.now)) }
    {
        self.get(self.search_last(key)?)
    }
}

impl<'a, L: Copy> Book<'a, L> {
    /// The last line, or nothing in an empty book.
    pub fn last(&self) -> Option<L>
        ensures { result ≡ slice_get (lines_of self.now) (length (lines_of self.now) - 1) }
    {
        self.lines().last().copied()
    }
}
