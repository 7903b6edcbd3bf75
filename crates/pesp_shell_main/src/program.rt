//! What the program does: it reads the command line and the files, and prints the replies.

ghost use Rattle.std.specs.Prelude.{◌≡◌, false, map, string_bytes, IfOk};
ghost use Rattle.std.specs.IoError.{error_kind};
ghost use Rattle.std.specs.Process.{exit_status};
ghost use Rattle.clap.specs.Walk.{texts};
ghost use Rattle.pesp_shell.specs.Runs.{marks};
ghost use Rattle.pesp_shell_main.specs.Endings.{console};
ghost use Rattle.pesp_shell_main.specs.Files.{file_system};
ghost use Rattle.pesp_shell_main.specs.Work.{IsProgram, IsWork, MayEndBy, streams, wordless, words_of};

use crate::answering::answer_files;
use crate::ending::Ending;
use crate::fault::Fault;
use crate::files::read_files;
use crate::messages::Messages;
use crate::paths::Paths;
use pesp_shell::{ByteSink, ByteSource, Noted, settings};
use std::alloc::{AllocError, Global};
use std::io::{ErrorKind, Input};
use std::process::ExitCode;
use std::rt::{Env, Files};
use std::{env, io};

/// How the program ends if its words cannot be read.
fn ending_without_words(error: &io::Error) -> Ending
    ensures { result ≡ wordless (error_kind error.now) }
{
    if error.kind() == ErrorKind::OutOfMemory {
        Ending::Fault(Fault::EARLY_MEMORY)
    } else {
        Ending::NotText
    }
}

/// The texts of words.
fn texts_of<'a>(alloc: Global, words: &'a [String]) -> Result<Vec<&'a str>, AllocError>
    ensures { IfOk result (λ found. texts found.items ≡ map string_bytes words.entry.now) }
{
    let mut found = Vec::new(alloc);
    for word in words {
        found.push(word.as_str())?;
    }
    Ok(found)
}

/// Does what the words ask for.
fn work<P: Paths, R: ByteSource, W: ByteSink>(
    alloc: Global,
    paths: &P,
    words: &[&str],
    source: &mut R,
    sink: &mut W,
) -> Result<(), Ending>
    requires reader { R.failed source.old ≡ false }
    requires end { R.at_end source.old ≡ false }
    requires writer { W.failed sink.old ≡ false }
    ensures { IsWork (file_system (P.opens paths.now) (P.refuses paths.now) P.File.whole P.File.fails)
        (texts words.entry.now)
        (streams (R.left source.old) (R.left source.new) (W.written sink.old) (W.written sink.new)
        (marks (R.at_end source.new) (R.failed source.new) (W.failed sink.new) (W.passed_on sink.new)))
        result }
{
    let settings = settings(alloc, words)?;
    let files = read_files(alloc, paths, &settings)?;
    answer_files(alloc, &settings, files, source, sink)?;
    Ok(())
}

/// Does what the words of a process ask for, if they can be read.
fn work_of<P: Paths, R: ByteSource, W: ByteSink>(
    alloc: Global,
    paths: &P,
    words: io::Result<Vec<String>>,
    source: &mut R,
    sink: &mut W,
) -> Result<(), Ending>
    requires reader { R.failed source.old ≡ false }
    requires end { R.at_end source.old ≡ false }
    requires writer { W.failed sink.old ≡ false }
    ensures { MayEndBy (file_system (P.opens paths.now) (P.refuses paths.now) P.File.whole P.File.fails)
        (words_of (λ texts. map string_bytes texts.items) error_kind words)
        (streams (R.left source.old) (R.left source.new) (W.written sink.old) (W.written sink.new)
        (marks (R.at_end source.new) (R.failed source.new) (W.failed sink.new) (W.passed_on sink.new)))
        result }
{
    let words = match words {
        Ok(words) => words,
        Err(error) => return Err(ending_without_words(&error)),
    };
    let Ok(texts) = texts_of(alloc, words.as_slice()) else {
        return Err(Ending::Fault(Fault::EARLY_MEMORY));
    };
    work(alloc, paths, texts.as_slice(), source, sink)
}

/// The program with the words of a process, over files, messages and streams of any kind. It does
/// what the words ask for, and if it ends early, it reports why. The exit status is 0 if it did so
/// or printed help or the version, 2 if the words were refused, and else 1.
pub fn run<S: Paths + Messages, R: ByteSource, W: ByteSink>(
    alloc: Global,
    system: &S,
    words: io::Result<Vec<String>>,
    source: &mut R,
    sink: &mut W,
) -> ExitCode
    requires reader { R.failed source.old ≡ false }
    requires end { R.at_end source.old ≡ false }
    requires writer { W.failed sink.old ≡ false }
    ensures { IsProgram (file_system (S.opens system.now) (S.refuses system.now) S.File.whole S.File.fails)
        (console (S.printed system.now) (S.reported system.now) (S.unprinted system.now) (S.unreported system.now))
        (words_of (λ texts. map string_bytes texts.items) error_kind words)
        (streams (R.left source.old) (R.left source.new) (W.written sink.old) (W.written sink.new)
        (marks (R.at_end source.new) (R.failed source.new) (W.failed sink.new) (W.passed_on sink.new)))
        (exit_status result) }
{
    match work_of(alloc, system, words, source, sink) {
        Ok(()) => ExitCode::SUCCESS,
        Err(ending) => ending.report(system),
    }
}

/// The words of the process.
fn words_of_process<R: Env + AllocGlobal>(rt: &R) -> io::Result<Vec<String>> {
    let words = env::args(rt)?;
    Ok(words.collect::<Vec<String>>(rt.alloc())?)
}

/// The program of a process: [`run`] of its words, of standard input and of standard output. Both
/// bypass std's buffers, which would delay replies.
pub fn status<R: Env + Files + AllocGlobal + Input + Print + Eprint>(rt: &R) -> ExitCode {
    run(
        rt.alloc(),
        rt,
        words_of_process(rt),
        &mut Noted::new(rt.reader()),
        &mut Noted::new(io::writer(rt)),
    )
}
