//! The request of a line.

use pesp_base::EventId;
use pesp_instance::Edit;
use pesp_shell_commands::{Command, parse};

/// A request to both keepers.
#[derive(Clone, Copy)]
pub(crate) enum Request {
    Edit(Edit),
    Push(EventId, u16),
    Pop,
}

fn edit_of(line: &[u8]) -> Option<Edit> {
    match parse(line) {
        Ok(Some(Command::Edit(edit))) => Some(edit),
        _ => None,
    }
}

/// The request of a line: an edit as in the program, `push` with the rest of a line that fixes a
/// time, or `pop`.
pub(crate) fn request_of(line: &[u8]) -> Option<Request> {
    match line {
        b"pop" => Some(Request::Pop),
        [b'p', b'u', b's', b'h', rest @ ..] => match edit_of(rest)? {
            Edit::Fix(event, residue) => Some(Request::Push(event, residue)),
            _ => None,
        },
        _ => Some(Request::Edit(edit_of(line)?)),
    }
}
