ghost use Rattle.std.specs.Prelude.{◌≡◌, length, IfOk, OnOk};
ghost use Rattle.policy.specs.Ranges.{near_range};
ghost use Rattle.protocol.specs.Model.{Model};
ghost use Rattle.register.specs.Registers.{model, rooms_in};
ghost use Rattle.image.specs.Flats.{flat_cells};
ghost use Rattle.image.specs.Sparses.{sparse_cells};
ghost use Rattle.store.specs.Splits.{split_cells};
ghost use Rattle.service.specs.Counter.{counter_cells, counter_rooms, sparse_words, zero_line, zero_lines};
ghost use Rattle.service.specs.Streams.{IsStreamedDay};

use crate::serving::BookMemory;
use crate::streaming::serve_stream;
use base::Stamp;
use image::{Flat, Sparse};
use lines::access::{READS, ReadLine, WRITES, WriteLine};
use lines::note::{NOTES, Note, Order};
use lines::row::{ROWS, Row, State};
use lines::transaction::{TRANSACTIONS, Transaction};
use policy::{Near, Policy};
use register::Register;
use std::alloc::{AllocError, Global};
use std::io;
use std::io::{Read, Write};
use store::{Split, Store};
use wire::word::{StampKind, key_word, stamp_word, value_word};

// The words of a zero cell.
fn zero_line() -> [u32; 3]
    ensures { result ≡ zero_line }
{
    let stamp = Stamp::in_word(0);
    [
        value_word(0),
        stamp_word(StampKind::Write, stamp),
        stamp_word(StampKind::Read, stamp),
    ]
}

// The words of so many zero cells.
#[tactic(auto, unfolding(crate::specs::Counter::zero_lines))]
fn zero_lines(alloc: Global, count: usize) -> Result<Vec<u32>, AllocError>
    ensures { IfOk result (λ words. words.items ≡ zero_lines count) }
{
    let mut words = Vec::new(alloc);
    for line in 0..count {
        words.extend_from_slice(&zero_line())?;
    }
    Ok(words)
}

// The words of two zero cells, with their keys.
fn sparse_words() -> [u32; 8]
    ensures { result ≡ sparse_words }
{
    let [value, write, read] = zero_line();
    [
        key_word(8192),
        value,
        write,
        read,
        key_word(8204),
        value,
        write,
        read,
    ]
}

/// Serves an input on a new register over a store, as [`serve_stream`] does. The calls that were made are its whole day, of which the whole
/// promise holds.
pub fn stream_day<'a, S: Store + Drop, P: Policy + Drop, R: Read, W: Write>(
    alloc: Global,
    store: S,
    policy: P,
    books: BookMemory<'a>,
    input: &mut R,
    output: &mut W,
) -> io::Result<Register<'a, S, P>>
    ensures { IfOk result (λ register. IsStreamedDay (P.chosen policy) (S.cells store)
        (rooms_in (length books.entry.transactions.now) (length books.entry.rows.now) (length books.entry.reads.now)
        (length books.entry.writes.now) (length books.entry.notes.now))
        (model S.cells register) (R.remaining input.old) (W.contents output.old) (W.contents output.new)) }
{
    let mut register = Register::new(
        store,
        policy,
        books.transactions,
        books.rows,
        books.reads,
        books.writes,
        books.notes,
    );
    serve_stream(alloc, &mut register, input, output)?;
    Ok(register)
}

// The memory of the program's flat store and of its five books.
#[derive(Drop)]
struct CounterMemory {
    flat: Vec<u32>,
    transactions: Vec<Transaction>,
    rows: Vec<Row>,
    reads: Vec<ReadLine>,
    writes: Vec<WriteLine>,
    notes: Vec<Note>,
}

impl CounterMemory {
    ghost use Rattle.std.specs.Prelude.{vec_len};
    ghost use Rattle.service.specs.Counter.{flat_words};
    ghost use Rattle.lines.specs.declared.access.TheConstants.{READS, WRITES};
    ghost use Rattle.lines.specs.declared.note.TheConstants.{NOTES};
    ghost use Rattle.lines.specs.declared.row.TheConstants.{ROWS};
    ghost use Rattle.lines.specs.declared.transaction.TheConstants.{TRANSACTIONS};

    // Zero cells, and as many lines for each book as its limit allows. What they hold does not matter.
    fn new(alloc: Global) -> Result<CounterMemory, AllocError>
        ensures flat { IfOk result (λ memory. memory.flat.items ≡ flat_words) }
        ensures transactions { IfOk result (λ memory. vec_len memory.transactions ≡ TRANSACTIONS) }
        ensures rows { IfOk result (λ memory. vec_len memory.rows ≡ ROWS) }
        ensures reads { IfOk result (λ memory. vec_len memory.reads ≡ READS) }
        ensures writes { IfOk result (λ memory. vec_len memory.writes ≡ WRITES) }
        ensures notes { IfOk result (λ memory. vec_len memory.notes ≡ NOTES) }
    {
        let transaction = Transaction {
            number: 0,
            decision: None,
        };
        let row = Row {
            transaction: 0,
            ground: 0,
            state: State::Running,
            lower: 0,
            upper: 0,
        };
        let read = ReadLine {
            transaction: 0,
            key: 0,
            value: 0,
            seen: Stamp::in_word(0),
        };
        let write = WriteLine {
            transaction: 0,
            key: 0,
            value: 0,
        };
        let note = Note {
            key: 0,
            first: 0,
            second: 0,
            order: Order::Before,
        };
        Ok(CounterMemory {
            flat: zero_lines(alloc, 1024)?,
            transactions: vec![in alloc; transaction; TRANSACTIONS]?,
            rows: vec![in alloc; row; ROWS]?,
            reads: vec![in alloc; read; READS]?,
            writes: vec![in alloc; write; WRITES]?,
            notes: vec![in alloc; note; NOTES]?,
        })
    }
}

// The split at ground 1 of a flat store of ground 0 and a sparse one.
fn counter_store<'a>(flat: &'a mut [u32], sparse: &'a mut [u32]) -> Split<Flat<'a>, Sparse<'a>>
    ensures { ⟦<Split<Flat<'a>, Sparse<'a>> as Store>⟧.cells result ≡ split_cells 1 (flat_cells 0 flat.old) (sparse_cells sparse.old) }
{
    Split::new(1, Flat::new(0, flat), Sparse::new(sparse))
}

/// Serves an input on a new register under the policy Near, over 1,024 zero cells of ground 0 in a flat store and zero cells at the keys
/// 8,192 and 8,204 in a sparse one, with books at their full limits: at most 4,096 little-endian words are read, and each answer word is
/// written as eight capital hexadecimal digits on a line.
///
/// The calls that were made are a whole day, of which the whole promise holds. It fails only where reading or writing does, or where
/// memory is lacking before the first call is made.
pub fn count<R: Read, W: Write>(alloc: Global, input: &mut R, output: &mut W) -> io::Result<()>
    ensures { OnOk result ((m : Model) × IsStreamedDay near_range counter_cells counter_rooms m (R.remaining input.old)
        (W.contents output.old) (W.contents output.new)) }
{
    let mut memory = CounterMemory::new(alloc)?;
    let mut sparse = sparse_words();
    let store = counter_store(&mut memory.flat, &mut sparse);
    let books = BookMemory {
        transactions: &mut memory.transactions,
        rows: &mut memory.rows,
        reads: &mut memory.reads,
        writes: &mut memory.writes,
        notes: &mut memory.notes,
    };
    let _register = stream_day(alloc, store, Near, books, input, output)?;
    Ok(())
}
