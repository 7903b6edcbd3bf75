//! The reply to a command and to a line.

ghost use Rattle.std.specs.Prelude.{◌≡◌, IfOk, IsOk, None, Ok, OnErr};
ghost use Rattle.pesp_shell_commands.specs.Parsed.{parsed};
ghost use Rattle.pesp_shell_replies.specs.Legal.{Legal, LegalCommand, work_of};
ghost use Rattle.pesp_shell_replies.specs.Replies.{fault_text};

use crate::texts::put_fault;
use crate::{answers, changes};
use pesp_base::Memory;
use pesp_bench::Bench;
use pesp_domains::Keeper;
use pesp_shell_commands::{Command, ParseFault, parse};
use std::alloc::{AllocError, Global};

fn answer<K: Keeper>(
    alloc: Global,
    bench: &mut Bench<K>,
    command: &Command,
) -> Result<Vec<u8>, AllocError>
    ensures legal { IfOk result (λ text.
        LegalCommand (work_of bench.old) command.now text.items (work_of bench.new)) }
    ensures unchanged { OnErr result (work_of bench.new ≡ work_of bench.old) }
{
    match *command {
        Command::Edit(edit) => changes::edit(alloc, bench, &edit),
        Command::Time(event, time) => changes::set_time(alloc, bench, event, time),
        Command::Untime(event) => changes::clear_time(alloc, bench, event),
        Command::Adopt => changes::adopt(alloc, bench),
        Command::Domain(event) => answers::domain(alloc, bench, event),
        Command::Domains => answers::domains(alloc, bench),
        Command::Tensions => answers::tensions(alloc, bench),
        Command::Violations => answers::violations(alloc, bench),
        Command::Cost => answers::cost(alloc, bench),
        Command::Optimum => answers::optimum(alloc, bench),
        Command::TryOptimum(limit) => answers::try_optimum(alloc, bench, limit),
        Command::Dump => answers::script(alloc, bench),
    }
}

/// Executes a command, and returns the bytes of the reply.
///
/// If memory runs out, the instance and the working timetable do not change; a search may have made
/// the optimum known.
pub fn reply<K: Keeper>(
    alloc: Global,
    bench: &mut Bench<K>,
    command: &Command,
) -> Result<Vec<u8>, Memory>
    ensures legal { IfOk result (λ text.
        LegalCommand (work_of bench.old) command.now text.items (work_of bench.new)) }
    ensures unchanged { OnErr result (work_of bench.new ≡ work_of bench.old) }
{
    match answer(alloc, bench, command) {
        Ok(text) => Ok(text),
        Err(AllocError) => Err(Memory),
    }
}

/// The reply to a line that is not a command.
fn fault_reply(alloc: Global, fault: ParseFault) -> Result<Vec<u8>, Memory>
    ensures { IfOk result (λ text. text.items ≡ fault_text fault) }
{
    let mut text = Vec::new(alloc);
    match put_fault(&mut text, fault) {
        Ok(()) => Ok(text),
        Err(AllocError) => Err(Memory),
    }
}

/// Executes a line, and returns the bytes of the reply: none for a blank line or a comment.
///
/// If memory runs out, the instance and the working timetable do not change. A line without a reply
/// never runs out of memory.
pub fn reply_to_line<K: Keeper>(
    alloc: Global,
    bench: &mut Bench<K>,
    line: &[u8],
) -> Result<Vec<u8>, Memory>
    ensures legal { IfOk result (λ text.
        Legal (work_of bench.old) line.now text.items (work_of bench.new)) }
    ensures silent { parsed line.now ≡ Ok None → IsOk result }
    ensures unchanged { OnErr result (work_of bench.new ≡ work_of bench.old) }
{
    match parse(line) {
        Ok(None) => Ok(Vec::new(alloc)),
        Ok(Some(command)) => reply(alloc, bench, &command),
        Err(fault) => fault_reply(alloc, fault),
    }
}
