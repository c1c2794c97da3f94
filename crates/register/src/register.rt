ghost use Rattle.std.specs.Prelude.{◌≤◌};
ghost use Rattle.book.specs.Books.{lines_of, room};
ghost use Rattle.register.specs.Sound.{SoundLines};

use crate::row_book::RowBook;
use base::Refusal;
use book::Book;
use lines::access::{READS, ReadLine, WRITES, WriteLine};
use lines::note::{NOTES, Note};
use lines::row::Row;
use lines::transaction::{TRANSACTIONS, Transaction};
use policy::Policy;
use store::Store;

mod call;
mod checks;
mod decide;
mod prewrite;
mod read;
mod settle;
mod validate;

/// A register: the cells of a store, and five books in memory that the caller lends. Its type says what its calls keep: numbers of
/// transactions rise, a transaction has one read line and one write line of a key, and one row at a ground; and no book of reads or writes
/// has room for more than 512 lines.
#[derive(Drop)]
pub struct Register<'a, S, P> {
    store: S,
    policy: P,
    transactions: Book<'a, Transaction>,
    rows: RowBook<'a>,
    reads: Book<'a, ReadLine>,
    writes: Book<'a, WriteLine>,
    notes: Book<'a, Note>,
    ghost sound: { ∥ SoundLines (lines_of transactions) (lines_of reads) (lines_of writes) ∥₁ },
    ghost limits: { (room reads ≤ 512) × (room writes ≤ 512) },
}

impl<'a, S: Store, P: Policy> Register<'a, S, P> {
    ghost use Rattle.std.specs.Prelude.{◌≡◌, [], length, OnErr};
    ghost use Rattle.protocol.specs.Calls.{begin};
    ghost use Rattle.protocol.specs.Model.{new};
    ghost use Rattle.register.specs.Days.{LeadsTo};
    ghost use Rattle.register.specs.Registers.{model, rooms_in, Lent, Keeps, KeepsButTransactions};

    /// A register over a store, with empty books, each with room for its limit or the memory lent, whichever is less: 64 transactions, 256
    /// rows, 512 read and 512 write lines, 4,096 notes. All memory stays as it is. The day of no calls leads to it.
    pub fn new(
        store: S,
        policy: P,
        transactions: &'a mut [Transaction],
        rows: &'a mut [Row],
        reads: &'a mut [ReadLine],
        writes: &'a mut [WriteLine],
        notes: &'a mut [Note],
    ) -> Register<'a, S, P>
        ensures model { model S.cells result ≡ new (S.cells store)
            (rooms_in (length transactions.old) (length rows.old) (length reads.old)
            (length writes.old) (length notes.old)) }
        ensures begins { LeadsTo S.cells P.chosen (S.cells store) (rooms_in (length transactions.old) (length rows.old) (length reads.old)
            (length writes.old) (length notes.old)) [] result }
        ensures store { result.store ≡ store }
        ensures policy { result.policy ≡ policy }
        ensures transactions { Lent result.transactions transactions.entry }
        ensures rows { Lent result.rows.book rows.entry }
        ensures reads { Lent result.reads reads.entry }
        ensures writes { Lent result.writes writes.entry }
        ensures notes { Lent result.notes notes.entry }
    {
        Register {
            store,
            policy,
            transactions: Book::new(transactions, TRANSACTIONS),
            rows: RowBook::new(rows),
            reads: Book::new(reads, READS),
            writes: Book::new(writes, WRITES),
            notes: Book::new(notes, NOTES),
        }
    }

    /// Begins a transaction, whose number has to be above all that were begun, 1 to 4,095. Refused with 1 and 2, looked for in this
    /// order; as after each of the calls, a refusal leaves everything as it stood.
    pub fn begin(&mut self, transaction: u32) -> Result<(), Refusal>
        ensures model { ◌≡◌ (model S.cells self.new, result) (begin (model S.cells self.old) transaction) }
        ensures refused { OnErr result (self.new ≡ self.old) }
        ensures keeps { Keeps self.old self.new }
        ensures rest { KeepsButTransactions self.old self.new }
    {
        self.check_number(transaction)?;
        self.transactions.add(Transaction {
            number: transaction,
            decision: None,
        })
    }
}
