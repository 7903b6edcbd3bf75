//! The faults that end a run, and their texts.

ghost use Rattle.std.specs.Prelude.{◌≡◌};
ghost use Rattle.pesp_shell_main.specs.Faults as texts;

use pesp_shell::{ReadFault, RunFault, Source};
use std::fmt;
use std::fmt::{Display, Formatter};

/// Why a run ends without its replies.
#[derive(Clone, Copy, Debug, PartialEq, Eq)]
pub enum Fault {
    Unreadable(Source),
    TooLong(Source),
    Faulty { source: Source, fault: ReadFault },
    NotRead,
    NotWritten,
    Memory { line: u64 },
    LineTooLong { line: u64 },
    TooManyLines,
}

/// Each text is one line of standard error. It is written by hand, because a derived `Display` has
/// no contract.
impl Display for Fault {
    ghost use Rattle.pesp_shell_main.specs.Faults.{text_of};

    ghost output = { λ fault. text_of fault };

    fn fmt<W: fmt::Write>(&self, f: &mut Formatter<W>) -> fmt::Result {
        match *self {
            Fault::Unreadable(source) => {
                write!(f, "pespbench: {} file cannot be read", name_of(source))
            }
            Fault::TooLong(source) => write!(f, "pespbench: {} file is too long", name_of(source)),
            Fault::Faulty { source, fault } => {
                let name = name_of(source);
                let ReadFault { place, kind } = fault;
                write!(f, "pespbench: {name} file, record {place}: {kind}")
            }
            Fault::NotRead => f.write_str("pespbench: commands cannot be read"),
            Fault::NotWritten => f.write_str("pespbench: replies cannot be written"),
            Fault::Memory { line } => write!(f, "pespbench: out of memory at line {line}"),
            Fault::LineTooLong { line } => {
                write!(f, "pespbench: line {line} is longer than 4096 bytes")
            }
            Fault::TooManyLines => f.write_str("pespbench: more than 1000000 lines"),
        }
    }
}

impl Fault {
    /// Out of memory before the first line.
    pub const EARLY_MEMORY: Fault = Fault::Memory { line: 0 };
}

fn name_of(source: Source) -> &'static str
    ensures { result.now ≡ texts.name_of source }
{
    match source {
        Source::Activities => "activities",
        Source::Fixed => "fixed",
        Source::Times => "times",
    }
}

impl From<RunFault> for Fault {
    ghost use Rattle.pesp_shell_main.specs.Faults.{fault_of};

    ghost from_gives = { λ fault f. f ≡ fault_of fault };

    fn from(fault: RunFault) -> Fault {
        match fault {
            RunFault::File { source, fault } => Fault::Faulty { source, fault },
            RunFault::Read => Fault::NotRead,
            RunFault::Write => Fault::NotWritten,
            RunFault::Memory { line } => Fault::Memory { line },
            RunFault::LineTooLong { line } => Fault::LineTooLong { line },
            RunFault::TooManyLines => Fault::TooManyLines,
        }
    }
}
