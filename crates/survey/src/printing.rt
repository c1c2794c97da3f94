ghost use Rattle.std.specs.Prelude.{◌≡◌, ◌≤◌, ◌*◌, ◌%◌, true, false, length, sum_by, map, IfOk, IfSome, MatchOption, Result};
ghost use Rattle.std.specs.Io.KnownBytes.{Appends};
ghost use Rattle.std.specs.Result.{result_err};
ghost use Rattle.wire.specs.Bytes.{words_in};
ghost use Rattle.image.specs.Faults.{check_result};
ghost use Rattle.survey.specs.Images.{image_fault};
ghost use Rattle.survey.specs.Printing.{Prints, PrintsImage, bytes_fault, fields_in, plots_lines, plots_of, plots_text};
ghost use Rattle.survey.specs.Texts.{listing_text, refusal_line};

use crate::counts::Counts;
use crate::listing::Listing;
use crate::plot::Plot;
use crate::printer::Printer;
use arrayvec::ArrayString;
use base::{GROUNDS, PLOTS, Refusal};
use image::{Cause, Fault, Sparse, check_sparse};
use itoa::Buffer;
use std::alloc::{AllocError, Global};
use std::io;
use store::Store;
use wire::bytes::fill_words;

/// Room for the line of any refusal of an image, in bytes.
pub const REFUSAL_LINE: usize = 162;

/// That a sparse store image is good, or its first fault, which is refused with 13. Bytes that were left over when it was read as words
/// are part of a line.
pub fn check_image(words: &[u32], left: usize) -> Result<(), Fault>
    ensures { result ≡ check_result (image_fault words.now left) }
{
    if left > 0 {
        return Err(Cause::PartLine.into());
    }
    check_sparse(words)
}

// Prints the plots of a ground that have a field, by rising number, and counts them and their fields.
fn print_ground<S: Store, P: Printer>(
    store: &S,
    ground: u16,
    out: &mut P,
) -> io::Result<(usize, usize)>
    ensures prints { Prints P.Printer.prints out.old (map listing_text (plots_of (S.Store.cells store.now) ground)) (result_err result) out.new }
    ensures plots { IfOk result (λ c. c.0 ≡ length (plots_of (S.Store.cells store.now) ground)) }
    ensures fields { IfOk result (λ c. c.1 ≡ sum_by fields_in (plots_of (S.Store.cells store.now) ground)) }
    ensures few { IfOk result (λ c. (c.0 ≤ PLOTS) × (c.1 ≤ 4 * PLOTS)) }
{
    let mut plots = 0;
    let mut fields = 0;
    for number in 0..PLOTS {
        let plot = Plot::fetch(store, ground, number);
        let count = plot.fields();
        if count > 0 {
            let listing = Listing {
                burial_ground: ground,
                number,
                plot,
            };
            out.print(listing.text().as_str())?;
            plots += 1;
            fields += count;
        }
    }
    Ok((plots, fields))
}

/// Prints the line of each plot of which the store has a field, in the order of their keys, and then the line of counts. Fails only where
/// the printer does, with its error.
pub fn print_plots<S: Store, P: Printer>(store: &S, out: &mut P) -> io::Result<()>
    ensures { Prints P.Printer.prints out.old (plots_lines (S.Store.cells store.now)) (result_err result) out.new }
{
    let mut plots = 0;
    let mut grounds = 0;
    let mut fields = 0;
    for ground in 0..GROUNDS {
        let (more_plots, more_fields) = print_ground(store, ground, out)?;
        plots += more_plots;
        grounds += usize::from(more_plots > 0);
        fields += more_fields;
    }
    let counts = Counts {
        plots,
        grounds,
        fields,
    };
    out.print(counts.text().as_str())
}

/// The line that says why an image is refused: the refusal's number, 13, and its text, and the fault.
pub fn refusal_line(fault: Fault) -> ArrayString<{ REFUSAL_LINE }>
    ensures { result.bytes ≡ refusal_line fault }
{
    let refusal = Refusal::from(fault);
    let mut line = ArrayString::new();
    line.push_str("refusal ");
    line.push_str(Buffer::new().format(u16::from(refusal)));
    line.push_str(", ");
    line.push_str(refusal.text());
    line.push_str(": ");
    line.push_str(fault.text().as_str());
    line.push_str("\n");
    line
}

/// Prints a sparse store image, of which some bytes made no whole word, to `out`; or, where it is bad, the line that says so to `errors`.
/// Answers whether it is good. Fails only where a printer does, with its error.
pub fn print_image<P: Printer, Q: Printer>(
    words: &mut [u32],
    left: usize,
    out: &mut P,
    errors: &mut Q,
) -> io::Result<bool>
    ensures { PrintsImage P.Printer.prints Q.Printer.prints words.old left out.old errors.old result out.new errors.new }
{
    if let Err(fault) = check_image(words, left) {
        errors.print(refusal_line(fault).as_str())?;
        return Ok(false);
    }
    print_plots(&Sparse::new(words), out)?;
    Ok(true)
}

// The words of an image in memory of their own, and how many bytes are left over.
fn image_words(heap: Global, bytes: &[u8]) -> Result<(Vec<u32>, usize), AllocError>
    ensures words { IfOk result (λ p. p.0.items ≡ words_in bytes.now) }
    ensures left { IfOk result (λ p. p.1 ≡ length bytes.now % 4) }
{
    let mut words = vec![in heap; 0u32; bytes.len() / 4]?;
    let left = fill_words(&mut words, bytes);
    Ok((words, left))
}

/// Reads a sparse store image to its end, as little-endian words, and prints it as `print_image` does. Fails only where reading, a writer
/// or the memory for the image does.
pub fn run<R: io::Read, W: io::Write, E: io::Write>(
    heap: Global,
    input: &mut R,
    out: &mut W,
    errors: &mut E,
) -> io::Result<bool>
    ensures { IfOk result (λ good. IfSome (R.Read.remaining input.old) (λ bs.
        MatchOption (bytes_fault bs)
        ((good ≡ true) × Appends (W.Write.contents out.old) (W.Write.contents out.new) (plots_text bs) × (errors.new ≡ errors.old))
        (λ f. (good ≡ false) × Appends (E.Write.contents errors.old) (E.Write.contents errors.new) (refusal_line f) × (out.new ≡ out.old)))) }
{
    let mut bytes = Vec::new(heap);
    input.read_to_end(&mut bytes)?;
    let Ok((mut words, left)) = image_words(heap, &bytes) else {
        // In the words of the allocation that failed: reading says another thing where it has no memory.
        return Err(io::Error::new(io::ErrorKind::OutOfMemory, "memory allocation failed"));
    };
    print_image(&mut words, left, out, errors)
}
