ghost use Rattle.std.specs.Prelude.{ℕ, List, OnOk, Result};
ghost use Rattle.std.specs.Io.KnownBytes.{Appends};
ghost use Rattle.std.specs.declared.io.Error.{Error};

use std::io;

/// Where lines of text go, one after another. Every writer is one.
pub trait Printer {
    // What holds of the printer before a line, the line, the answer, and the printer after it.
    ghost prints: { Self → List ℕ → Result Unit Error → Self → Type 0 };

    /// Prints a line, its line feed included.
    fn print(&mut self, line: &str) -> io::Result<()>
        ensures { prints self.old line.now result self.new };
}

/// A writer that answers no error holds the whole line behind what it held.
impl<W: io::Write> Printer for W {
    ghost prints = { λ s line r t. OnOk r (Appends (W.contents s) (W.contents t) line) };

    fn print(&mut self, line: &str) -> io::Result<()> {
        self.write_all(line.as_bytes())
    }
}
