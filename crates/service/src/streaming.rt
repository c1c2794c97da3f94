ghost use Rattle.std.specs.Prelude.{◌≡◌, ℕ, ◌/◌, ◌%◌, ◌<◌, List, length, vec_len, IfOk, OnOk};
ghost use Rattle.std.specs.Io.KnownBytes.{Appends};
ghost use Rattle.store.specs.Stores.{Cells, Puts};
ghost use Rattle.protocol.specs.Model.{Rooms};
ghost use Rattle.serial.specs.Ledger.{History};
ghost use Rattle.register.specs.Days.{LeadsTo, KeepsPromise};
ghost use Rattle.register.specs.Registers.{Keeps};
ghost use Rattle.wire.specs.Bytes.{words_in};
ghost use Rattle.service.specs.Streams.{answer_line, answer_text, hex_digit, leftover_answer, IsRead, Streamed};

use crate::serving::serve;
use base::Refusal;
use policy::Policy;
use register::Register;
use std::alloc::Global;
use std::io;
use std::io::{Read, Write};
use store::Store;
use wire::bytes::fill_words;
use wire::word::refusal_word;

/// The most words that are read of an input.
pub const MOST_WORDS: usize = 4096;

// A hexadecimal digit, capitals above 9.
fn hex_digit(digit: u32) -> u8
    requires { digit < 16 }
    ensures { result ≡ hex_digit digit }
{
    if digit < 10 {
        b'0' + digit as u8
    } else {
        b'A' + (digit - 10) as u8
    }
}

// An answer word as a line.
fn answer_line(word: u32) -> [u8; 9]
    ensures { result ≡ answer_line word }
{
    [
        hex_digit(word / 0x1000_0000),
        hex_digit(word / 0x100_0000 % 16),
        hex_digit(word / 0x10_0000 % 16),
        hex_digit(word / 0x1_0000 % 16),
        hex_digit(word / 0x1000 % 16),
        hex_digit(word / 0x100 % 16),
        hex_digit(word / 0x10 % 16),
        hex_digit(word % 16),
        b'\n',
    ]
}

// Writes a line for each word.
fn write_answers<W: Write>(output: &mut W, words: &[u32]) -> io::Result<()>
    ensures { OnOk result (Appends (W.contents output.old) (W.contents output.new) (answer_text words.now)) }
{
    for word in words {
        output.write_all(&answer_line(*word))?;
    }
    Ok(())
}

// Writes the answer to so many bytes that are left over, if there are any.
fn write_leftover<W: Write>(output: &mut W, left: usize) -> io::Result<()>
    ensures { OnOk result (Appends (W.contents output.old) (W.contents output.new) (answer_text (leftover_answer left))) }
{
    if left == 0 {
        return Ok(());
    }
    write_answers(output, &[refusal_word(0, Refusal::Malformed)])
}

// Writes the words of bytes over a list of as many, and answers how many bytes are left over.
fn fill(words: &mut Vec<u32>, bytes: &[u8]) -> usize
    requires { vec_len words.old ≡ length bytes.now / 4 }
    ensures words { words.new.items ≡ words_in bytes.now }
    ensures left { result ≡ length bytes.now % 4 }
{
    fill_words(words.as_mut_slice(), bytes)
}

// The words of an input, at most the most that there may be, and how many bytes are left over after the last of them.
fn read_words<R: Read>(alloc: Global, input: &mut R) -> io::Result<(Vec<u32>, usize)>
    ensures { IfOk result (λ read. (bytes : List ℕ) × IsRead (R.remaining input.old) bytes × (read.0.items ≡ words_in bytes)
        × (read.1 ≡ length bytes % 4)) }
{
    let mut bytes = Vec::new(alloc);
    let mut start = (&mut *input).take(4 * MOST_WORDS as u64);
    start.read_to_end(&mut bytes)?;
    let mut words = vec![in alloc; 0u32; bytes.len() / 4]?;
    let left = fill(&mut words, &bytes);
    Ok((words, left))
}

/// Reads little-endian words, at most 4,096, and none of the bytes past those; serves them on a register; and writes each answer word as
/// eight capital hexadecimal digits on a line. Bytes that are left over after the last whole word of a shorter input are answered
/// D000000C. It fails only where reading or writing does, or where memory is lacking before the first call is made.
#[tactic(auto, using(register::proofs::Kept::none_keeps, store::proofs::Putting::same_store))]
pub fn serve_stream<S: Store, P: Policy, R: Read, W: Write>(
    alloc: Global,
    register: &mut Register<'_, S, P>,
    input: &mut R,
    output: &mut W,
) -> io::Result<()>
    ensures keeps { Keeps register.old register.new }
    ensures store { Puts S.beside register.old.store register.new.store }
    ensures goes_on { (first : Cells) (rooms : Rooms) (h : History) → LeadsTo S.cells P.chosen first rooms h register.old
        → (g : History) × LeadsTo S.cells P.chosen first rooms g register.new }
    ensures streamed { OnOk result ((bytes : List ℕ) × IsRead (R.remaining input.old) bytes
        × ((first : Cells) (rooms : Rooms) (h : History) → LeadsTo S.cells P.chosen first rooms h register.old
        → (g : History) × LeadsTo S.cells P.chosen first rooms g register.new × KeepsPromise S.cells P.chosen first rooms g register.new
        × ((text : List ℕ) × Streamed bytes h g text × Appends (W.contents output.old) (W.contents output.new) text))) }
{
    let (words, left) = read_words(alloc, input)?;
    let mut answers = Vec::new(alloc);
    serve(register, &words, &mut answers)?;
    write_answers(output, &answers)?;
    write_leftover(output, left)?;
    Ok(())
}
