//! Runs of the workbench over a stream of commands.

ghost use Rattle.std.specs.Prelude.{◌≡◌, [], false, option_copied};
ghost use Rattle.pesp_shell_replies.specs.Legal.{work_of};
ghost use Rattle.pesp_shell.specs.Opening.{files};
ghost use Rattle.pesp_shell.specs.Runs.{IsRun, IsServed, marks};

use crate::RunFault;
use crate::answering::{answer, answer_last, end};
use crate::opening::open;
use pesp_base::Period;
use pesp_bench::Bench;
use pesp_domains::Keeper;
use pesp_shell_io::{ByteSink, ByteSource, Failed, Front, LineReader, MOST_LINES};
use std::alloc::Global;

/// Answers each line before it takes more bytes.
fn answer_all<K: Keeper, R: ByteSource, W: ByteSink>(
    alloc: Global,
    bench: &mut Bench<K>,
    lines: &mut LineReader,
    source: &mut R,
    sink: &mut W,
) -> Result<(), RunFault>
    requires empty { lines.old ≡ [] }
    requires reader { R.failed source.old ≡ false }
    requires writer { W.failed sink.old ≡ false }
    ensures { IsServed (work_of bench.old)
        (R.left source.old) (R.left source.new) (W.written sink.old) (W.written sink.new)
        (marks (R.at_end source.new) (R.failed source.new) (W.failed sink.new) (W.passed_on sink.new)) result }
{
    for done in 0..MOST_LINES {
        let number = done + 1;
        match lines.look(source) {
            Ok(Front::Line(length)) => {
                answer(alloc, bench, number, &lines.held()[..length], sink)?;
                lines.skip(length + 1);
            }
            Ok(Front::Last) => return answer_last(alloc, bench, number, lines.held(), sink),
            Ok(Front::TooLong) => return Err(RunFault::LineTooLong { line: number }),
            Err(Failed) => return Err(RunFault::Read),
        }
    }
    end(lines, source, sink)
}

/// Answers the commands of a stream over a workbench, as [`run`] does over that of its files.
///
/// The files are not used here, so their bytes may be freed before. Faults in order: out of memory
/// at line 0; then those of lines and devices, as for `run`.
pub fn serve<K: Keeper, R: ByteSource, W: ByteSink>(
    alloc: Global,
    mut bench: Bench<K>,
    reader: &mut R,
    writer: &mut W,
) -> Result<(), RunFault>
    requires reader { R.failed reader.old ≡ false }
    requires writer { W.failed writer.old ≡ false }
    ensures { IsServed (work_of bench)
        (R.left reader.old) (R.left reader.new) (W.written writer.old) (W.written writer.new)
        (marks (R.at_end reader.new) (R.failed reader.new) (W.failed writer.new) (W.passed_on writer.new)) result }
{
    let Ok(mut lines) = LineReader::new(alloc) else {
        return Err(RunFault::Memory { line: 0 });
    };
    answer_all(alloc, &mut bench, &mut lines, reader, writer)
}

/// Runs the commands of a stream over the instance and the timetable of the files.
///
/// The reply to a line is complete before its first byte is written, and is written before more of
/// the stream is read. Without fixed times no event is fixed, and without times the timetable is
/// empty. Faults in order: the files, out of memory at line 0; then, at the first line that has
/// one, `TooManyLines`, `LineTooLong`, out of memory, or a device that failed. No device is used
/// after a fault.
pub fn run<K: Keeper, R: ByteSource, W: ByteSink>(
    alloc: Global,
    period: Period,
    activities: &[u8],
    fixed: Option<&[u8]>,
    times: Option<&[u8]>,
    reader: &mut R,
    writer: &mut W,
) -> Result<(), RunFault>
    requires reader { R.failed reader.old ≡ false }
    requires end { R.at_end reader.old ≡ false }
    requires writer { W.failed writer.old ≡ false }
    ensures { IsRun (files period activities.now (option_copied fixed.entry)
        (option_copied times.entry))
        (R.left reader.old) (R.left reader.new) (W.written writer.old) (W.written writer.new)
        (marks (R.at_end reader.new) (R.failed reader.new) (W.failed writer.new) (W.passed_on writer.new)) result }
{
    let bench = open::<K>(alloc, period, activities, fixed, times)?;
    serve(alloc, bench, reader, writer)
}
