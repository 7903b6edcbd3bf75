//! The answers to the lines of a run.

ghost use Rattle.std.specs.Prelude.{◌≡◌, ℕ, [], ◌∷◌, ◌++◌, false, IsTrue, List, OnOk};
ghost use Rattle.std.specs.Io.KnownBytes.{Consumes, Keeps};
ghost use Rattle.pesp_shell_io.specs.Lines.{IsUncut, is_line_feed, lines_of};
ghost use Rattle.pesp_shell_replies.specs.Legal.{work_of};
ghost use Rattle.pesp_shell.specs.Runs.{marks};
ghost use Rattle.pesp_shell.specs.Sessions.{MayAnswer, MayEndAfter, MayFinish};

use crate::RunFault;
use pesp_bench::Bench;
use pesp_domains::Keeper;
use pesp_shell_io::{ByteSink, ByteSource, Failed, LineReader, put_all};
use pesp_shell_replies::reply_to_line;
use std::alloc::Global;

/// Answers the line with this number. The reply is complete before its first byte is written.
pub(crate) fn answer<K: Keeper, W: ByteSink>(
    alloc: Global,
    bench: &mut Bench<K>,
    number: u64,
    line: &[u8],
    sink: &mut W,
) -> Result<(), RunFault>
    requires { W.failed sink.old ≡ false }
    ensures { MayAnswer (work_of bench.old) (line.now ∷ []) number (work_of bench.new)
        (W.written sink.old) (W.written sink.new) (W.failed sink.new) result }
{
    let Ok(text) = reply_to_line(alloc, bench, line) else {
        return Err(RunFault::Memory { line: number });
    };
    match put_all(sink, text.as_slice()) {
        Ok(()) => Ok(()),
        Err(Failed) => Err(RunFault::Write),
    }
}

/// Answers the last line, if there is one, and flushes all replies.
pub(crate) fn answer_last<K: Keeper, W: ByteSink>(
    alloc: Global,
    bench: &mut Bench<K>,
    number: u64,
    line: &[u8],
    sink: &mut W,
) -> Result<(), RunFault>
    requires uncut { IsUncut is_line_feed line.now }
    requires writer { W.failed sink.old ≡ false }
    ensures ending { MayAnswer (work_of bench.old) (lines_of line.now) number (work_of bench.new)
        (W.written sink.old) (W.written sink.new) (W.failed sink.new) result }
    ensures passed { OnOk result (IsTrue (W.passed_on sink.new)) }
{
    if line.is_empty() {
        return finish(sink);
    }
    answer(alloc, bench, number, line, sink)?;
    finish(sink)
}

fn finish<W: ByteSink>(sink: &mut W) -> Result<(), RunFault>
    requires { W.failed sink.old ≡ false }
    ensures kept { Keeps (W.written sink.old) (W.written sink.new) }
    ensures ending { MayFinish (W.failed sink.new) (W.passed_on sink.new) result }
{
    match sink.finish() {
        Ok(()) => Ok(()),
        Err(Failed) => Err(RunFault::Write),
    }
}

/// Ends the run after the greatest number of lines, if no byte is left. One more is read to find
/// out.
pub(crate) fn end<R: ByteSource, W: ByteSink>(
    lines: &mut LineReader,
    source: &mut R,
    sink: &mut W,
) -> Result<(), RunFault>
    requires reader { R.failed source.old ≡ false }
    requires writer { W.failed sink.old ≡ false }
    ensures taken { (bytes : List ℕ) × Consumes (R.left source.old) (R.left source.new) bytes
        × (lines.new ≡ lines.old ++ bytes) }
    ensures kept { Keeps (W.written sink.old) (W.written sink.new) }
    ensures ending { MayEndAfter lines.new (R.left source.new)
        (marks (R.at_end source.new) (R.failed source.new) (W.failed sink.new)
        (W.passed_on sink.new)) result }
{
    if !lines.held().is_empty() {
        return Err(RunFault::TooManyLines);
    }
    match lines.fill(source) {
        Ok(true) => Err(RunFault::TooManyLines),
        Ok(false) => finish(sink),
        Err(Failed) => Err(RunFault::Read),
    }
}
