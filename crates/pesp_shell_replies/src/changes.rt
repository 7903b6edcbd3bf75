//! Replies to commands that change the work.
//!
//! The text `ok` is written before the change is made, so nothing can run out of memory afterwards.

ghost use Rattle.std.specs.Prelude.{◌≡◌, IfOk, OnErr, Some};
ghost use Rattle.pesp_shell_commands.specs.declared.command.Command.TheVariants as command;
ghost use Rattle.pesp_shell_replies.specs.Legal.{LegalCommand, work_of};
ghost use Rattle.pesp_shell_replies.specs.Replies.{ok_text, refusal_text};

use crate::texts::put_refusal;
use pesp_base::{EventId, Refusal};
use pesp_bench::Bench;
use pesp_domains::Keeper;
use pesp_instance::Edit;
use pesplib_writer::put;
use std::alloc::{AllocError, Global};

fn ok_reply(alloc: Global) -> Result<Vec<u8>, AllocError>
    ensures { IfOk result (λ text. text.items ≡ ok_text) }
{
    let mut text = Vec::new(alloc);
    put(&mut text, b"ok\n")?;
    Ok(text)
}

/// The reply to a refusal. Out of memory has none, and is returned as the error.
pub(crate) fn refusal_reply(alloc: Global, refusal: Refusal) -> Result<Vec<u8>, AllocError>
    ensures { IfOk result (λ text. refusal_text refusal ≡ Some text.items) }
{
    let mut text = Vec::new(alloc);
    put_refusal(&mut text, refusal)?;
    Ok(text)
}

pub(crate) fn edit<K: Keeper>(
    alloc: Global,
    bench: &mut Bench<K>,
    edit: &Edit,
) -> Result<Vec<u8>, AllocError>
    ensures legal { IfOk result (λ text.
        LegalCommand (work_of bench.old) (command.Edit edit.now) text.items (work_of bench.new)) }
    ensures unchanged { OnErr result (work_of bench.new ≡ work_of bench.old) }
{
    let done = ok_reply(alloc)?;
    match bench.apply(edit) {
        Ok(()) => Ok(done),
        Err(refusal) => refusal_reply(alloc, refusal),
    }
}

pub(crate) fn set_time<K: Keeper>(
    alloc: Global,
    bench: &mut Bench<K>,
    event: EventId,
    time: u16,
) -> Result<Vec<u8>, AllocError>
    ensures legal { IfOk result (λ text.
        LegalCommand (work_of bench.old) (command.Time event time) text.items (work_of bench.new)) }
    ensures unchanged { OnErr result (work_of bench.new ≡ work_of bench.old) }
{
    let done = ok_reply(alloc)?;
    match bench.set_time(event, time) {
        Ok(()) => Ok(done),
        Err(refusal) => refusal_reply(alloc, refusal),
    }
}

pub(crate) fn clear_time<K: Keeper>(
    alloc: Global,
    bench: &mut Bench<K>,
    event: EventId,
) -> Result<Vec<u8>, AllocError>
    ensures legal { IfOk result (λ text.
        LegalCommand (work_of bench.old) (command.Untime event) text.items (work_of bench.new)) }
    ensures unchanged { OnErr result (work_of bench.new ≡ work_of bench.old) }
{
    let done = ok_reply(alloc)?;
    match bench.clear_time(event) {
        Ok(()) => Ok(done),
        Err(refusal) => refusal_reply(alloc, refusal),
    }
}

pub(crate) fn adopt<K: Keeper>(alloc: Global, bench: &mut Bench<K>) -> Result<Vec<u8>, AllocError>
    ensures legal { IfOk result (λ text.
        LegalCommand (work_of bench.old) command.Adopt text.items (work_of bench.new)) }
    ensures unchanged { OnErr result (work_of bench.new ≡ work_of bench.old) }
{
    let done = ok_reply(alloc)?;
    match bench.adopt(alloc) {
        Ok(()) => Ok(done),
        Err(refusal) => refusal_reply(alloc, refusal),
    }
}
