//! How the program ends early, and what it says then.

ghost use Rattle.std.specs.Prelude.{◌≡◌};
ghost use Rattle.std.specs.Process.{exit_status};
ghost use Rattle.clap.specs.Values.{kind_of};
ghost use Rattle.pesp_shell_main.specs.Endings.{EndsByFault, EndsByWords, console};

use crate::fault::Fault;
use crate::messages::Messages;
use clap::error::ErrorKind;
use pesp_shell::RunFault;
use std::process::ExitCode;

/// The status of refused arguments.
const REFUSED: u8 = 2;

/// Why there are no replies.
#[derive(Debug, Drop)]
pub enum Ending {
    /// Help or the version was asked for, or the words of the command line were refused.
    Words(clap::Error),
    /// A word of the command line is not UTF-8.
    NotText,
    Fault(Fault),
}

impl Ending {
    ghost use Rattle.pesp_shell_main.specs.Endings.{EndsEarly};

    /// Says why, and gives the exit status. Where standard error cannot be written, the status alone reports the end.
    pub fn report<M: Messages>(&self, messages: &M) -> ExitCode
        ensures { EndsEarly
            (console (M.printed messages.now) (M.reported messages.now) (M.unprinted messages.now) (M.unreported messages.now))
            self.now (exit_status result) }
    {
        match self {
            Ending::Words(error) => report_words(messages, error),
            Ending::NotText => {
                let _ = messages.report_line("error: a word of the command line is not UTF-8");
                ExitCode::from(REFUSED)
            }
            Ending::Fault(fault) => report_fault(messages, *fault),
        }
    }
}

/// Help and the version go to standard output.
fn report_words<M: Messages>(messages: &M, error: &clap::Error) -> ExitCode
    ensures { EndsByWords
        (console (M.printed messages.now) (M.reported messages.now) (M.unprinted messages.now) (M.unreported messages.now))
        (kind_of error.now) (exit_status result) }
{
    if !error.use_stderr() {
        return match messages.print_text(error) {
            Ok(()) => ExitCode::SUCCESS,
            Err(_) => report_fault(messages, Fault::NotWritten),
        };
    }
    let _ = messages.report_text(error);
    ExitCode::from(REFUSED)
}

fn report_fault<M: Messages>(messages: &M, fault: Fault) -> ExitCode
    ensures { EndsByFault
        (console (M.printed messages.now) (M.reported messages.now) (M.unprinted messages.now) (M.unreported messages.now))
        fault (exit_status result) }
{
    let _ = messages.report_line(fault);
    ExitCode::FAILURE
}

impl From<clap::Error> for Ending {
    ghost use Rattle.pesp_shell_main.specs.Endings.{ending_of};

    ghost from_gives = { λ error e. e ≡ ending_of (kind_of error) error };

    fn from(error: clap::Error) -> Ending {
        if error.kind() == ErrorKind::OutOfMemory {
            Ending::Fault(Fault::EARLY_MEMORY)
        } else {
            Ending::Words(error)
        }
    }
}

impl From<Fault> for Ending {
    ghost use Rattle.pesp_shell_main.specs.declared.ending.Ending.TheVariants as ending;

    ghost from_gives = { λ fault e. e ≡ ending.Fault fault };

    fn from(fault: Fault) -> Ending {
        Ending::Fault(fault)
    }
}

impl From<RunFault> for Ending {
    ghost use Rattle.pesp_shell_main.specs.declared.ending.Ending.TheVariants as ending;
    ghost use Rattle.pesp_shell_main.specs.Faults.{fault_of};

    ghost from_gives = { λ fault e. e ≡ ending.Fault (fault_of fault) };

    fn from(fault: RunFault) -> Ending {
        Ending::Fault(Fault::from(fault))
    }
}
