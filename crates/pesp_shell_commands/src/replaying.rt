//! Scripts, which build instances.

ghost use Rattle.std.specs.Prelude.{◌≡◌, Ok, OnOk, IfOk, IfErr};
ghost use Rattle.pesp_instance.specs.Edited.{edited, grows};
ghost use Rattle.pesp_shell_commands.specs.LineFaults.{IsLineFault};
ghost use Rattle.pesp_shell_commands.specs.Parsed.{parsed};
ghost use Rattle.pesp_shell_commands.specs.Replayed.{after_line, may_grow, or_refused, replayed, IsReplayFault, GivesBack};

use crate::{Command, ParseFault, parse};
use pesp_base::{Period, Refusal};
use pesp_instance::{Edit, Instance};
use pesp_shell_io::{LONGEST_LINE, MOST_LINES, split_line};
use std::alloc::Global;

/// What is wrong with a line of a script.
#[derive(Clone, Copy, Debug, PartialEq, Eq)]
pub enum ReplayKind {
    /// The line has more than 4,096 bytes.
    LineTooLong,
    /// The line is the 1,000,001st.
    TooManyLines,
    /// The line is not a command.
    Parse(ParseFault),
    /// The line is a command, but not an edit.
    NotAnEdit,
    /// The edit is refused. Out of memory is a refusal too.
    Refused(Refusal),
}

/// The first faulty line of a script, by its number from 1, and what is wrong with it.
#[derive(Clone, Copy, Debug, PartialEq, Eq)]
pub struct ReplayFault {
    pub line: u64,
    pub kind: ReplayKind,
}

/// Makes an edit, or returns its refusal.
fn make_edit(instance: &mut Instance, edit: &Edit) -> Result<(), ReplayKind>
    ensures ok { OnOk result (or_refused (edited instance.old edit.now) ≡ Ok instance.new) }
    ensures fault { IfErr result (IsLineFault (or_refused (edited instance.old edit.now))
        (grows edit.now)) }
{
    match instance.apply(edit) {
        Ok(()) => Ok(()),
        Err(refusal) => Err(ReplayKind::Refused(refusal)),
    }
}

/// Makes the edit of the line with this number, or returns the line's first fault: `TooManyLines`,
/// `LineTooLong`, `Parse`, `NotAnEdit`, `Refused`.
fn take_line(instance: &mut Instance, number: u64, line: &[u8]) -> Result<(), ReplayKind>
    ensures ok { OnOk result (after_line number instance.old line.now ≡ Ok instance.new) }
    ensures fault { IfErr result (IsLineFault (after_line number instance.old line.now)
        (may_grow (parsed line.now))) }
{
    if number > MOST_LINES {
        return Err(ReplayKind::TooManyLines);
    }
    if line.len() > LONGEST_LINE {
        return Err(ReplayKind::LineTooLong);
    }
    match parse(line) {
        Ok(None) => Ok(()),
        Ok(Some(Command::Edit(edit))) => make_edit(instance, &edit),
        Ok(Some(_)) => Err(ReplayKind::NotAnEdit),
        Err(fault) => Err(ReplayKind::Parse(fault)),
    }
}

/// The instance that the edits of a script make of the empty one of this period.
///
/// Each line is an edit that is accepted, a comment or blank. Errors, each at the first faulty line:
/// `TooManyLines`, `LineTooLong`, `Parse`, `NotAnEdit`, `Refused`.
pub fn replay(alloc: Global, period: Period, script: &[u8]) -> Result<Instance, ReplayFault>
    ensures ok { IfOk result (λ instance. replayed period script.now ≡ Ok instance) }
    ensures fault { IfErr result (IsReplayFault script.now (replayed period script.now)) }
    ensures script { GivesBack period script.now result }
{
    let mut instance = Instance::new(alloc, period);
    let mut rest = script;
    let mut number = 0;
    'lines: while let Some((line, after)) = split_line(rest) {
        number += 1;
        if let Err(kind) = take_line(&mut instance, number, line) {
            return Err(ReplayFault { line: number, kind });
        }
        rest = after;
    }
    Ok(instance)
}
