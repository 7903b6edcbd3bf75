//! The program.
#![tactic(auto)]

use pesp_shell_main::status;
use std::process::ExitCode;

fn main(rt: HostRuntime) -> ExitCode {
    status(&rt)
}
