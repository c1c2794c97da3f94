ghost use Rattle.book.specs.Books.{Stays, AddsLine, ReplacesLine};

use crate::book::Book;
use base::Refusal;

impl<'a, L: Copy> Book<'a, L> {
    /// Adds a line at the end. A full book refuses with 2, and leaves the whole memory as it was.
    pub fn add(&mut self, line: L) -> Result<(), Refusal>
        ensures cases { AddsLine line self.old self.new result }
        ensures stays { Stays self.old self.new }
    {
        if self.free() == 0 {
            return Err(Refusal::NoRoom);
        }
        self.lines[self.count] = line;
        self.count += 1;
        Ok(())
    }

    /// Replaces the line number i and answers true; past the end it answers false and changes nothing.
    pub fn set(&mut self, i: usize, line: L) -> bool
        ensures cases { ReplacesLine i line self.old self.new result }
        ensures stays { Stays self.old self.new }
    {
        if i >= self.count {
            return false;
        }
        self.lines[i] = line;
        true
    }
}
