//! Replies to questions, which do not change the work.

ghost use Rattle.std.specs.Prelude.{◌≡◌, [], ◌∷◌, IfOk, IsSome, IsTrue, OnOk};
ghost use Rattle.pesp_shell_commands.specs.declared.command.Command.TheVariants as command;
ghost use Rattle.pesp_instance.specs.Network.{event_ids, has_event};
ghost use Rattle.pesp_shell_replies.specs.Legal.{LegalCommand, work_of};
ghost use Rattle.pesp_shell_replies.specs.Spaced.{AddsLines};

use crate::changes::refusal_reply;
use crate::residue_texts::ResidueTexts;
use crate::rows::{put_line, put_optimum, put_row, put_stopped};
use crate::texts::{put_cost, put_tensions, put_violations};
use pesp_base::EventId;
use pesp_bench::{Attempt, Bench};
use pesp_domains::Keeper;
use pesplib_writer::{dump, put_between};
use std::alloc::{AllocError, Global};

pub(crate) fn domain<K: Keeper>(
    alloc: Global,
    bench: &Bench<K>,
    event: EventId,
) -> Result<Vec<u8>, AllocError>
    ensures { IfOk result (λ text.
        LegalCommand (work_of bench.now) (command.Domain event) text.items (work_of bench.now)) }
{
    match bench.domain(event) {
        Ok(row) => {
            let mut text = Vec::new(alloc);
            put_row(&mut text, event, row, bench.instance().period())?;
            Ok(text)
        }
        Err(refusal) => refusal_reply(alloc, refusal),
    }
}

/// Appends the line of an event of the instance.
fn put_domain<K: Keeper>(
    text: &mut Vec<u8>,
    bench: &Bench<K>,
    event: EventId,
    texts: &ResidueTexts,
) -> Result<(), AllocError>
    requires event { IsTrue (has_event bench.now.instance event) }
    requires period { texts.now ≡ bench.now.instance.period }
    ensures { OnOk result
        (AddsLines bench.now.instance (event ∷ []) text.old.items text.new.items) }
{
    let row = bench.domain(event).unwrap();
    put_line(text, event, row, texts)
}

/// Appends a line for each event.
fn put_domains<K: Keeper>(
    text: &mut Vec<u8>,
    bench: &Bench<K>,
    texts: &ResidueTexts,
) -> Result<(), AllocError>
    requires { texts.now ≡ bench.now.instance.period }
    ensures { OnOk result (AddsLines bench.now.instance (event_ids bench.now.instance)
        text.old.items text.new.items) }
{
    for event in bench.instance().events() {
        put_domain(text, bench, event.id, texts)?;
    }
    Ok(())
}

pub(crate) fn domains<K: Keeper>(alloc: Global, bench: &Bench<K>) -> Result<Vec<u8>, AllocError>
    ensures { IfOk result (λ text.
        LegalCommand (work_of bench.now) command.Domains text.items (work_of bench.now)) }
{
    let texts = ResidueTexts::new(alloc, bench.instance().period())?;
    let count = bench.instance().event_count();
    let mut text = Vec::new(alloc);
    put_between(&mut text, b"domains ", count as u64, b"\n")?;
    put_domains(&mut text, bench, &texts)?;
    Ok(text)
}

pub(crate) fn tensions<K: Keeper>(alloc: Global, bench: &Bench<K>) -> Result<Vec<u8>, AllocError>
    ensures { IfOk result (λ text.
        LegalCommand (work_of bench.now) command.Tensions text.items (work_of bench.now)) }
{
    match bench.tensions(alloc) {
        Ok(rows) => {
            let mut text = Vec::new(alloc);
            put_tensions(&mut text, rows.as_slice())?;
            Ok(text)
        }
        Err(refusal) => refusal_reply(alloc, refusal),
    }
}

pub(crate) fn violations<K: Keeper>(alloc: Global, bench: &Bench<K>) -> Result<Vec<u8>, AllocError>
    ensures { IfOk result (λ text.
        LegalCommand (work_of bench.now) command.Violations text.items (work_of bench.now)) }
{
    match bench.violations(alloc) {
        Ok(rows) => {
            let mut text = Vec::new(alloc);
            put_violations(&mut text, rows.as_slice())?;
            Ok(text)
        }
        Err(refusal) => refusal_reply(alloc, refusal),
    }
}

pub(crate) fn cost<K: Keeper>(alloc: Global, bench: &Bench<K>) -> Result<Vec<u8>, AllocError>
    ensures { IfOk result (λ text.
        LegalCommand (work_of bench.now) command.Cost text.items (work_of bench.now)) }
{
    match bench.cost() {
        Ok(cost) => {
            let mut text = Vec::new(alloc);
            put_cost(&mut text, cost)?;
            Ok(text)
        }
        Err(refusal) => refusal_reply(alloc, refusal),
    }
}

/// The reply with the known optimum.
fn optimum_reply<K: Keeper>(alloc: Global, bench: &Bench<K>) -> Result<Vec<u8>, AllocError>
    requires { IsSome bench.now.known }
    ensures { IfOk result (λ text.
        LegalCommand (work_of bench.now) command.Optimum text.items (work_of bench.now)) }
{
    let mut text = Vec::new(alloc);
    put_optimum(&mut text, bench.known().unwrap())?;
    Ok(text)
}

pub(crate) fn optimum<K: Keeper>(alloc: Global, bench: &mut Bench<K>) -> Result<Vec<u8>, AllocError>
    ensures legal { IfOk result (λ text.
        LegalCommand (work_of bench.old) command.Optimum text.items (work_of bench.new)) }
    ensures unchanged { work_of bench.new ≡ work_of bench.old }
{
    match bench.find_optimum(alloc) {
        Ok(()) => optimum_reply(alloc, bench),
        Err(refusal) => refusal_reply(alloc, refusal),
    }
}

pub(crate) fn try_optimum<K: Keeper>(
    alloc: Global,
    bench: &mut Bench<K>,
    limit: u64,
) -> Result<Vec<u8>, AllocError>
    ensures legal { IfOk result (λ text.
        LegalCommand (work_of bench.old) (command.TryOptimum limit) text.items
        (work_of bench.new)) }
    ensures unchanged { work_of bench.new ≡ work_of bench.old }
{
    match bench.try_optimum(alloc, limit) {
        Ok(Attempt::Done) => optimum_reply(alloc, bench),
        Ok(Attempt::Stopped(found)) => {
            let mut text = Vec::new(alloc);
            put_stopped(&mut text, &found)?;
            Ok(text)
        }
        Err(refusal) => refusal_reply(alloc, refusal),
    }
}

pub(crate) fn script<K: Keeper>(alloc: Global, bench: &Bench<K>) -> Result<Vec<u8>, AllocError>
    ensures { IfOk result (λ text.
        LegalCommand (work_of bench.now) command.Dump text.items (work_of bench.now)) }
{
    dump(alloc, bench.instance()).map_err(|_| AllocError)
}
