ghost use Rattle.std.specs.Prelude.{◌≡◌, ℕ, ◌+◌, ◌*◌, ◌≤◌, ◌<◌, List, [], ◌++◌, drop, length, vec_len, vec_capacity, IsOk, OnErr, OnOk, IfOk};
ghost use Rattle.store.specs.Stores.{Cells, Puts};
ghost use Rattle.protocol.specs.Model.{Rooms};
ghost use Rattle.serial.specs.Ledger.{History};
ghost use Rattle.serial.specs.Promise.{Promised};
ghost use Rattle.register.specs.Days.{LeadsTo, KeepsPromise};
ghost use Rattle.register.specs.Registers.{model, rooms_in, Keeps};
ghost use Rattle.service.specs.Served.{Served, words_of};

use crate::answering::{Answer, answer_to_reading};
use crate::words::words_of;
use lines::access::{ReadLine, WriteLine};
use lines::note::Note;
use lines::row::Row;
use lines::transaction::Transaction;
use policy::Policy;
use register::Register;
use std::alloc::AllocError;
use store::Store;
use wire::message::Message;

// Writes the words of an answer where there is room for two.
fn write_answer(out: &mut Vec<u32>, answer: Answer)
    requires { vec_len out.old + 2 ≤ vec_capacity out.old }
    ensures items { out.new.items ≡ out.old.items ++ words_of answer }
    ensures len { vec_len out.new ≤ vec_len out.old + 2 }
    ensures capacity { vec_capacity out.old ≤ vec_capacity out.new }
{
    let (pairs, response) = answer;
    let (first, second) = words_of(pairs, response);
    let _ = out.push(first);
    if let Some(second) = second {
        let _ = out.push(second);
    }
}

// The words after the first so many.
fn past<'w>(words: &'w [u32], taken: usize) -> &'w [u32]
    requires { taken ≤ length words.now }
    ensures { result.now ≡ drop taken words.now }
{
    &words[taken..]
}

/// Answers words, message by message: a malformed message is answered D000000C and passes over one word, and each pair of a prewrite is a
/// call, in order up to the first that is refused. The answer words are added to `out`.
///
/// Whatever day led to the register goes on with the calls that were made, and of that day the whole promise holds. It fails only where
/// there is no memory for the answers, two words for each word, and before any call is made.
#[tactic(auto, using(register::proofs::Kept::none_keeps, store::proofs::Putting::same_store))]
pub fn serve<S: Store, P: Policy>(
    register: &mut Register<'_, S, P>,
    words: &[u32],
    out: &mut Vec<u32>,
) -> Result<(), AllocError>
    ensures served { OnOk result ((first : Cells) (rooms : Rooms) (h : History) → LeadsTo S.cells P.chosen first rooms h register.old
        → (g : History) × LeadsTo S.cells P.chosen first rooms g register.new × KeepsPromise S.cells P.chosen first rooms g register.new
        × ((bs : List ℕ) × Served words.now h g bs × (out.new.items ≡ out.old.items ++ bs))) }
    ensures keeps { Keeps register.old register.new }
    ensures store { Puts S.beside register.old.store register.new.store }
    ensures failed { OnErr result ((register.new ≡ register.old) × (out.new.items ≡ out.old.items)) }
    ensures succeeds { vec_len out.old + 2 * length words.now ≤ vec_capacity out.old → IsOk result }
{
    out.reserve(2 * words.len())?;
    let mut rest = words;
    'messages: while !rest.is_empty() {
        let (message, taken) = Message::read(rest);
        let answer = answer_to_reading(register, message);
        write_answer(out, answer);
        rest = past(rest, taken);
    }
    register.promised();
    Ok(())
}

/// Memory for the five books of a register. A book's room is its limit (64, 256, 512, 512, 4,096) or the memory lent for it, whichever is
/// less.
#[derive(Drop)]
pub struct BookMemory<'a> {
    pub transactions: &'a mut [Transaction],
    pub rows: &'a mut [Row],
    pub reads: &'a mut [ReadLine],
    pub writes: &'a mut [WriteLine],
    pub notes: &'a mut [Note],
}

/// A new register over a store, on which words were served. Of these calls, which are its whole day, the whole promise holds.
pub fn whole_day<'a, S: Store + Drop, P: Policy + Drop>(
    store: S,
    policy: P,
    books: BookMemory<'a>,
    words: &[u32],
    out: &mut Vec<u32>,
) -> Result<Register<'a, S, P>, AllocError>
    ensures served { IfOk result (λ register. (g : History) × (bs : List ℕ) × Served words.now [] g bs × (out.new.items ≡ out.old.items ++ bs)
        × Promised (P.chosen policy) (S.cells store) (rooms_in (length books.entry.transactions.now) (length books.entry.rows.now)
        (length books.entry.reads.now) (length books.entry.writes.now) (length books.entry.notes.now)) g (model S.cells register)) }
    ensures succeeds { vec_len out.old + 2 * length words.now ≤ vec_capacity out.old → IsOk result }
{
    let mut register = Register::new(
        store,
        policy,
        books.transactions,
        books.rows,
        books.reads,
        books.writes,
        books.notes,
    );
    serve(&mut register, words, out)?;
    Ok(register)
}
