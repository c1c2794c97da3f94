ghost use Rattle.std.specs.Prelude.{◌≤◌, length};

mod change;
mod largest;
mod search;

/// Lines of one kind in the order written, in memory that the caller lends. A book has room for as many as its limit and that
/// memory allow, and its type says that its count is within both.
#[derive(Drop)]
pub struct Book<'a, L> {
    lines: &'a mut [L],
    limit: usize,
    count: usize,
    ghost within_limit: { count ≤ limit },
    ghost within_memory: { count ≤ length lines.now },
}

impl<'a, L: Copy> Book<'a, L> {
    ghost use Rattle.std.specs.Prelude.{◌≡◌, ◌↔◌, ◌+◌, ◌≤◌, min, [], IsTrue, length};
    ghost use Rattle.std.specs.List.{slice_get};
    ghost use Rattle.book.specs.Books.{memory, room, lines_of};

    /// An empty book. The memory stays as it is.
    pub fn new(lines: &'a mut [L], limit: usize) -> Book<'a, L>
        ensures empty { lines_of result ≡ [] }
        ensures room { room result ≡ min limit (length lines.old) }
        ensures limit { result.limit ≡ limit }
        ensures memory { memory result ≡ lines.old }
        ensures named { result.lines.ghost_name ≡ lines.entry.ghost_name }
    {
        Book {
            lines,
            limit,
            count: 0,
        }
    }

    // How many lines the book can hold.
    fn room(&self) -> usize
        ensures { result ≡ room self.now }
    {
        self.limit.min(self.lines.len())
    }

    /// How many lines the book holds.
    pub fn len(&self) -> usize
        ensures value { result ≡ length (lines_of self.now) }
        ensures bound { result ≤ room self.now }
    {
        self.count
    }

    /// Whether the book holds no line.
    pub fn is_empty(&self) -> bool
        ensures { IsTrue result ↔ (length (lines_of self.now) ≡ 0) }
    {
        self.lines().is_empty()
    }

    /// How many lines can still be added.
    pub fn free(&self) -> usize
        ensures { result + length (lines_of self.now) ≡ room self.now }
    {
        self.room() - self.len()
    }

    /// The lines that the book holds.
    pub fn lines(&self) -> &[L]
        ensures { result.now ≡ lines_of self.now }
    {
        &self.lines[..self.len()]
    }

    /// The line number i, counted from 0; nothing past the end.
    pub fn get(&self, i: usize) -> Option<L>
        ensures { result ≡ slice_get (lines_of self.now) i }
    {
        self.lines().get(i).copied()
    }
}
