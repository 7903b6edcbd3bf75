//! The answer to a line.

ghost use Rattle.std.specs.Prelude.{◌≡◌, ◌≤◌, false, length, IfOk, IfErr, OnErr, OnOk};
ghost use Rattle.std.specs.List.{list_any};
ghost use Rattle.pesp_shell_io.specs.Lines.{is_line_feed, longest_line};
ghost use Rattle.pesp_shell_replies.specs.Legal.{Legal, work_of};
ghost use Rattle.pesp_embedded.specs.Faults.{IsLineFault};

use crate::Fault;
use pesp_base::Memory;
use pesp_bench::Bench;
use pesp_domains::Keeper;
use pesp_shell::reply_to_line;
use pesp_shell_io::LONGEST_LINE;
use std::alloc::Global;

/// The reply to a line, which is given without its line feed.
///
/// Faults in order: `LongLine`; `NotOneLine`; `Memory`, which a blank line or a comment never
/// causes. Then the instance and the working timetable are unchanged; an optimum may have become
/// known.
pub(crate) fn ask<K: Keeper>(
    alloc: Global,
    bench: &mut Bench<K>,
    line: &[u8],
) -> Result<Vec<u8>, Fault>
    ensures legal { IfOk result (λ text.
        Legal (work_of bench.old) line.now text.items (work_of bench.new)) }
    ensures one { OnOk result (list_any is_line_feed line.now ≡ false) }
    ensures short { OnOk result (length line.now ≤ longest_line) }
    ensures fault { IfErr result (IsLineFault line.now) }
    ensures unchanged { OnErr result (work_of bench.new ≡ work_of bench.old) }
{
    if line.len() > LONGEST_LINE {
        return Err(Fault::LongLine);
    }
    if line.contains(&b'\n') {
        return Err(Fault::NotOneLine);
    }
    match reply_to_line(alloc, bench, line) {
        Ok(text) => Ok(text),
        Err(Memory) => Err(Fault::Memory),
    }
}
