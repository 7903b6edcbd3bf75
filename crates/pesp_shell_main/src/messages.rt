//! Where the program says how it ends.

ghost use Rattle.std.specs.Prelude.{ℕ, List, Option, OnErr, OnOk};
ghost use Rattle.std.specs.Fmt.{with_newline};

use std::fmt::Display;
use std::io;

/// Standard output, for help and the version, and standard error, for all else.
pub trait Messages {
    /// Whether standard output may have received a text. This follows from nothing else, so a
    /// caller that prints another text or none cannot claim it. In the same way, of those below, no
    /// caller can claim that printing failed if it did not.
    ghost printed: { Self → Option (List ℕ) → Type 0 };

    /// Whether standard error may have received a text.
    ghost reported: { Self → Option (List ℕ) → Type 0 };

    /// Whether writing to standard output may have failed.
    ghost unprinted: { Self → Type 0 };

    /// Whether writing to standard error may have failed.
    ghost unreported: { Self → Type 0 };

    /// Prints a text on standard output.
    fn print_text<D: Display + Drop>(&self, text: D) -> io::Result<()>
        ensures printed { OnOk result (printed self.now (D.output text)) }
        ensures failed { OnErr result (unprinted self.now) };

    /// Prints a text on standard error.
    fn report_text<D: Display + Drop>(&self, text: D) -> io::Result<()>
        ensures reported { OnOk result (reported self.now (D.output text)) }
        ensures failed { OnErr result (unreported self.now) };

    /// Prints a line on standard error.
    fn report_line<D: Display + Drop>(&self, line: D) -> io::Result<()>
        ensures reported { OnOk result (reported self.now (with_newline (D.output line))) }
        ensures failed { OnErr result (unreported self.now) };
}

impl<R: Print + Eprint> Messages for R {
    ghost use Rattle.std.specs.Prelude.{⊤};

    // No contract of std says what these streams received.
    ghost printed = { λ _ _. ⊤ };

    ghost reported = { λ _ _. ⊤ };

    ghost unprinted = { λ _. ⊤ };

    ghost unreported = { λ _. ⊤ };

    fn print_text<D: Display + Drop>(&self, text: D) -> io::Result<()> {
        self.print(text)
    }

    fn report_text<D: Display + Drop>(&self, text: D) -> io::Result<()> {
        self.eprint(text)
    }

    fn report_line<D: Display + Drop>(&self, line: D) -> io::Result<()> {
        self.eprintln(line)
    }
}
