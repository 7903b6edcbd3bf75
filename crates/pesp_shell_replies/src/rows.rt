//! The texts of domains and of timetables.
//!
//! Each function appends its text.

ghost use Rattle.std.specs.Prelude.{◌≡◌, ◌++◌, [], ◌∷◌, OnOk, length, map};
ghost use Rattle.pesp_base.specs.Texts.{as_lines};
ghost use Rattle.pesp_domains.specs.Domains.{residues};
ghost use Rattle.pesp_shell_replies.specs.Replies.{costed, costed_line, domain_line, domain_text, optimum_text, stopped_text, time_line};

use crate::residue_texts::{ResidueTexts, put_residue};
use pesp_base::{EventId, Period};
use pesp_domains::Row;
use pesp_search::{Answer, Best};
use pesp_tension::{EventTime, Timetable};
use pesplib_writer::{put, put_between, put_number};
use std::alloc::AllocError;

/// An event, before its residues.
fn put_event(text: &mut Vec<u8>, event: EventId) -> Result<(), AllocError>
    ensures { OnOk result (text.new.items ≡ text.old.items ++ domain_line event []) }
{
    put_number(text, u64::from(event.get()))?;
    put(text, b":")
}

/// The reply to `domain`, from a row of this period.
pub(crate) fn put_row(
    text: &mut Vec<u8>,
    event: EventId,
    row: &Row,
    period: Period,
) -> Result<(), AllocError>
    requires { length row.now ≡ period }
    ensures { OnOk result (text.new.items
        ≡ text.old.items ++ domain_text event (residues row.now)) }
{
    put_event(text, event)?;
    for residue in 0..period.get() {
        if row.holds(residue) {
            put_residue(text, residue)?;
        }
    }
    put(text, b"\n")
}

/// A line of the reply to `domains`, from a row of the period of the texts.
///
/// Each run of residues is appended as one slice.
pub(crate) fn put_line(
    text: &mut Vec<u8>,
    event: EventId,
    row: &Row,
    texts: &ResidueTexts,
) -> Result<(), AllocError>
    requires { length row.now ≡ texts.now }
    ensures { OnOk result (text.new.items
        ≡ text.old.items ++ domain_text event (residues row.now)) }
{
    put_event(text, event)?;
    // Where the current run begins. The run may be empty.
    let mut first = 0;
    for residue in 0..texts.period().get() {
        if !row.holds(residue) {
            texts.put_run(text, first, residue)?;
            first = residue + 1;
        }
    }
    texts.put_run(text, first, texts.period().get())?;
    put(text, b"\n")
}

fn put_time(text: &mut Vec<u8>, timed: EventTime) -> Result<(), AllocError>
    ensures { OnOk result (text.new.items
        ≡ text.old.items ++ (time_line (timed.event, timed.time) ++ 10 ∷ [])) }
{
    put_between(text, b"", u64::from(timed.event.get()), b" ")?;
    put_between(text, b"", u64::from(timed.time), b"\n")
}

/// A line for each time.
fn put_times(text: &mut Vec<u8>, times: &Timetable) -> Result<(), AllocError>
    ensures { OnOk result (text.new.items
        ≡ text.old.items ++ as_lines (map time_line times.now.entries)) }
{
    for timed in times.walk() {
        put_time(text, timed)?;
    }
    Ok(())
}

/// A word, a cost, and the number of lines that follow.
fn put_head(text: &mut Vec<u8>, word: &[u8], cost: u64, count: usize) -> Result<(), AllocError>
    ensures { OnOk result (text.new.items
        ≡ text.old.items ++ (costed_line word.now cost count ++ 10 ∷ [])) }
{
    put(text, word)?;
    put_between(text, b" ", cost, b" ")?;
    put_between(text, b"", count as u64, b"\n")
}

/// The number of events with a time.
fn time_count(times: &Timetable) -> usize
    ensures { result ≡ length times.now.entries }
{
    times.walk().count()
}

/// A word, the cost of a timetable, the number of lines that follow, and these lines.
fn put_costed(
    text: &mut Vec<u8>,
    word: &[u8],
    cost: u64,
    times: &Timetable,
) -> Result<(), AllocError>
    ensures { OnOk result (text.new.items ≡ text.old.items ++ costed word.now cost times.now) }
{
    put_head(text, word, cost, time_count(times))?;
    put_times(text, times)
}

/// The reply to `optimum`.
pub(crate) fn put_optimum(text: &mut Vec<u8>, answer: &Answer) -> Result<(), AllocError>
    ensures { OnOk result (text.new.items ≡ text.old.items ++ optimum_text answer.now) }
{
    match answer {
        Answer::Optimal { cost, times } => put_costed(text, b"optimum", *cost, times),
        Answer::Infeasible => put(text, b"infeasible\n"),
    }
}

/// The reply to a search that stopped.
pub(crate) fn put_stopped(text: &mut Vec<u8>, found: &Option<Best>) -> Result<(), AllocError>
    ensures { OnOk result (text.new.items ≡ text.old.items ++ stopped_text found.now) }
{
    match found {
        Some(best) => put_costed(text, b"stopped", best.cost, &best.times),
        None => put(text, b"stopped none\n"),
    }
}
