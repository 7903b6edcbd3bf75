//! What the settings ask for: a check, or the replies to commands.

ghost use Rattle.std.specs.Prelude.{◌≡◌, ℕ, false, true, take, IfErr, IfOk, IsTrue, OnErr, OnOk};
ghost use Rattle.std.specs.Io.KnownBytes.{Appends};
ghost use Rattle.pesp_instance.specs.Network.{Network};
ghost use Rattle.pesp_tension.specs.Timetables.{Times};
ghost use Rattle.pesplib_reader.specs.Reading.{with_fixed};
ghost use Rattle.pesplib_reader.specs.declared.fault.ReadFault.{ReadFault};
ghost use Rattle.pesp_shell_io.specs.Devices.{MarksFailure};
ghost use Rattle.pesp_shell_replies.specs.Legal.{work_of};
ghost use Rattle.pesp_shell.specs.declared.run_fault.Source.{Source};
ghost use Rattle.pesp_shell.specs.declared.run_fault.RunFault.TheVariants as ended;
ghost use Rattle.pesp_shell.specs.Checked.{IsCheckFault};
ghost use Rattle.pesp_shell.specs.Opening.{IsFirstFault, IsOpenFault, IsOpening, StandFor};
ghost use Rattle.pesp_shell.specs.Runs.{IsRun, marks};
ghost use Rattle.pesp_shell_main.specs.Checks.{Checks, IsUnchecked, IsWritten};
ghost use Rattle.pesp_shell_main.specs.Wiring.{files_of};

use crate::file_bytes::{FileBytes, bytes_of};
use pesp_bench::Bench;
use pesp_counts::CountKeeper;
use pesp_instance::Instance;
use pesp_shell::{
    ByteSink, ByteSource, Failed, RunFault, Settings, instance_and_timetable, serve, three_replies,
    workbench_of,
};
use pesp_shell_io::put_all;
use pesp_tension::Timetable;
use std::alloc::{AllocError, Global};

fn write<W: ByteSink>(sink: &mut W, text: &[u8]) -> Result<(), Failed>
    requires { W.failed sink.old ≡ false }
    ensures ok { OnOk result (Appends (W.written sink.old) (W.written sink.new) text.now) }
    ensures err { OnErr result ((n : ℕ)
        × Appends (W.written sink.old) (W.written sink.new) (take n text.now)) }
    ensures passed { OnOk result (IsTrue (W.passed_on sink.new)) }
    ensures failure { MarksFailure result (W.failed sink.old) (W.failed sink.new) }
{
    put_all(sink, text)?;
    sink.finish()
}

/// The instance and the timetable of the files, whose bytes are freed here.
fn read(
    alloc: Global,
    settings: &Settings,
    files: FileBytes,
) -> Result<(Instance, Timetable), RunFault>
    ensures ok { IfOk result (λ both. (I : Network) × (f : Times)
        × StandFor (files_of settings.now.period files) I f both.1 × (both.0 ≡ with_fixed I f)) }
    ensures fault { IfErr result (λ fault. (source : Source) × (found : ReadFault)
        × (fault ≡ ended.File source found)
        × IsFirstFault (files_of settings.now.period files) source found) }
{
    instance_and_timetable(
        alloc,
        settings.period,
        bytes_of(&files.activities).unwrap_or(b""),
        bytes_of(&files.fixed),
        bytes_of(&files.times),
    )
}

/// The replies of a check of the files.
fn checked(alloc: Global, settings: &Settings, files: FileBytes) -> Result<Vec<u8>, RunFault>
    ensures replies { IfOk result (λ text. Checks (files_of settings.now.period files) text.items) }
    ensures fault { IfErr result (IsCheckFault (files_of settings.now.period files)) }
{
    let (instance, timetable) = read(alloc, settings, files)?;
    match three_replies(alloc, &instance, &timetable) {
        Ok(text) => Ok(text),
        Err(AllocError) => Err(RunFault::Memory { line: 0 }),
    }
}

/// Writes the replies of a check.
fn write_check<W: ByteSink>(
    alloc: Global,
    settings: &Settings,
    files: FileBytes,
    sink: &mut W,
) -> Result<(), RunFault>
    requires { W.failed sink.old ≡ false }
    ensures ok { OnOk result (IsWritten (files_of settings.now.period files)
        (W.written sink.old) (W.written sink.new) (W.failed sink.new) (W.passed_on sink.new)) }
    ensures fault { IfErr result (IsUnchecked (files_of settings.now.period files)
        (W.written sink.old) (W.written sink.new) (W.failed sink.new)) }
{
    let replies = checked(alloc, settings, files)?;
    match write(sink, replies.as_slice()) {
        Ok(()) => Ok(()),
        Err(Failed) => Err(RunFault::Write),
    }
}

/// The workbench that the files open.
fn opened(
    alloc: Global,
    settings: &Settings,
    files: FileBytes,
) -> Result<Bench<CountKeeper>, RunFault>
    ensures opening { IfOk result (λ bench.
        IsOpening (files_of settings.now.period files) (work_of bench)) }
    ensures fault { IfErr result (IsOpenFault (files_of settings.now.period files)) }
{
    let (instance, timetable) = read(alloc, settings, files)?;
    match workbench_of(alloc, instance, &timetable) {
        Ok(bench) => Ok(bench),
        Err(AllocError) => Err(RunFault::Memory { line: 0 }),
    }
}

/// Answers commands over the workbench of the files.
fn serve_files<R: ByteSource, W: ByteSink>(
    alloc: Global,
    settings: &Settings,
    files: FileBytes,
    source: &mut R,
    sink: &mut W,
) -> Result<(), RunFault>
    requires reader { R.failed source.old ≡ false }
    requires writer { W.failed sink.old ≡ false }
    ensures { IsRun (files_of settings.now.period files)
        (R.left source.old) (R.left source.new) (W.written sink.old) (W.written sink.new)
        (marks (R.at_end source.new) (R.failed source.new) (W.failed sink.new) (W.passed_on sink.new)) result }
{
    let bench = opened(alloc, settings, files)?;
    serve(alloc, bench, source, sink)
}

/// Answers what the settings ask for, from these files. Their bytes are freed once they are read:
/// docs/HISTORY.md, "Bytes of files freed once read".
pub fn answer_files<R: ByteSource, W: ByteSink>(
    alloc: Global,
    settings: &Settings,
    files: FileBytes,
    source: &mut R,
    sink: &mut W,
) -> Result<(), RunFault>
    requires reader { R.failed source.old ≡ false }
    requires end { R.at_end source.old ≡ false }
    requires writer { W.failed sink.old ≡ false }
    ensures check { settings.now.check ≡ true
        → OnOk result
        (IsWritten (files_of settings.now.period files) (W.written sink.old)
        (W.written sink.new) (W.failed sink.new) (W.passed_on sink.new)) }
    ensures unchecked { settings.now.check ≡ true
        → IfErr result
        (IsUnchecked (files_of settings.now.period files) (W.written sink.old)
        (W.written sink.new) (W.failed sink.new)) }
    ensures commands { settings.now.check ≡ false → IsRun (files_of settings.now.period files)
        (R.left source.old) (R.left source.new) (W.written sink.old) (W.written sink.new)
        (marks (R.at_end source.new) (R.failed source.new) (W.failed sink.new) (W.passed_on sink.new)) result }
{
    if settings.check {
        write_check(alloc, settings, files, sink)
    } else {
        serve_files(alloc, settings, files, source, sink)
    }
}
