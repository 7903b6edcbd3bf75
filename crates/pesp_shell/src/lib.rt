//! Runs and checks, and the command line, of the workbench.
#![tactic(auto)]

mod answering;
mod arguments;
mod checking;
mod opening;
mod options;
mod run_fault;
mod session;
mod version;

pub use arguments::Settings;
pub use checking::{check, three_replies};
pub use opening::{instance_and_timetable, open, workbench_of};
pub use options::settings;
pub use pesp_shell_commands::{Command, ParseFault, ReplayFault, ReplayKind, parse, replay};
pub use pesp_shell_io::{ByteSink, ByteSource, Failed, Noted};
pub use pesp_shell_replies::{reply, reply_to_line};
pub use pesplib_reader::{FaultKind, ReadFault};
pub use run_fault::{RunFault, Source};
pub use session::{run, serve};
