// What a read or a prewrite adds for the soft locks that it meets.

ghost use Rattle.std.specs.Prelude.{◌≡◌, ◌==◌, ◌+◌, nat_le, true, [], ◌∷◌, map, length, count_by};
ghost use Rattle.base.specs.Keys.{ground_of};
ghost use Rattle.book.specs.Books.{room, lines_of};
ghost use Rattle.lines.specs.LineKeys.{read_key, write_key};
ghost use Rattle.protocol.specs.Checks.{has_room};
ghost use Rattle.register.specs.Meetings.{is_met, met, note_by};
ghost use Rattle.register.specs.Room.{Extended};

use crate::row_book::RowBook;
use base::Place;
use book::{Book, Line};
use lines::access::{AccessKey, ReadLine, WriteLine};
use lines::note::{Note, Order, Side};

/// Whether a key is of a ground.
pub fn is_at(key: u16, ground: u16) -> bool
    ensures { result ≡ (ground_of key == ground) }
{
    Place::from(key).burial_ground == ground
}

// The note that says this of a transaction and of the holder of a lock that it meets.
fn note(access: AccessKey, side: Side, holder: u32) -> Note
    ensures { result ≡ note_by side access.transaction access.key holder }
{
    let AccessKey { transaction, key } = access;
    match side {
        Side::Earlier => Note {
            key,
            first: transaction,
            second: holder,
            order: Order::Before,
        },
        Side::Later => Note {
            key,
            first: holder,
            second: transaction,
            order: Order::Before,
        },
        Side::Apart => Note {
            key,
            first: transaction,
            second: holder,
            order: Order::Apart,
        },
    }
}

// Whether a line stands as a soft lock of another transaction on the key.
fn is_met(line: AccessKey, rows: &RowBook, access: AccessKey) -> bool
    ensures { result ≡ is_met (lines_of rows.now.book) access.transaction access.key line }
{
    // The keys alone first, since few lines are of the key; whose line it is would be read of every line if it came next.
    line.key == access.key && rows.lock_stands(line) && line.transaction != access.transaction
}

// How many locks of others a transaction meets on a key, among some lines.
fn count_met<L: Line<Key = AccessKey>>(lines: &[L], rows: &RowBook, access: AccessKey) -> usize
    ensures { result ≡ count_by (λ line. is_met (lines_of rows.now.book) access.transaction access.key (L.keyed line)) lines.now }
{
    lines
        .iter()
        .filter(|line| is_met(line.key(), rows, access))
        .count()
}

// Whether two numbers together are no more than a third.
fn both_fit(free: usize, first: usize, second: usize) -> bool
    ensures { result ≡ nat_le (first + second) free }
{
    first <= free && second <= free - first
}

/// Whether the book has room for a note for each lock that is met among some read and some write lines. The locks are counted only where
/// it has less room than there are lines.
#[tactic(auto, using(crate::proofs::Meetings::met_counted, crate::proofs::Meetings::met_few))]
pub fn notes_fit(
    notes: &Book<Note>,
    reads: &[ReadLine],
    writes: &[WriteLine],
    rows: &RowBook,
    access: AccessKey,
) -> bool
    ensures { result ≡ has_room (lines_of notes.now) (room notes.now)
        (length (met (lines_of rows.now.book) access.transaction access.key (map read_key reads.now))
        + length (met (lines_of rows.now.book) access.transaction access.key (map write_key writes.now))) }
{
    let free = notes.free();
    both_fit(free, reads.len(), writes.len())
        || both_fit(
            free,
            count_met(reads, rows, access),
            count_met(writes, rows, access),
        )
}

/// Adds a line to a book that has room for it.
pub fn add_line<L: Copy>(book: &mut Book<L>, line: L)
    requires { has_room (lines_of book.old) (room book.old) 1 ≡ true }
    ensures { Extended (line ∷ []) book.old book.new }
{
    let _ = book.add(line);
}

/// Adds a note for each lock of another that a transaction meets on a key, among some lines. There is room for them.
pub fn add_notes<L: Line<Key = AccessKey>>(
    notes: &mut Book<Note>,
    lines: &[L],
    rows: &RowBook,
    access: AccessKey,
    side: Side,
)
    requires { has_room (lines_of notes.old) (room notes.old)
        (length (met (lines_of rows.now.book) access.transaction access.key (map L.keyed lines.now))) ≡ true }
    ensures { Extended (map (note_by side access.transaction access.key)
        (met (lines_of rows.now.book) access.transaction access.key (map L.keyed lines.now))) notes.old notes.new }
{
    for line in lines {
        let line = line.key();
        if is_met(line, rows, access) {
            // There is room, so the note is added.
            let _ = notes.add(note(access, side, line.transaction));
        }
    }
}
