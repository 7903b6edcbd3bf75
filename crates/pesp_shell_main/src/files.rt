//! Reading files whole.

ghost use Rattle.std.specs.Prelude.{◌≡◌, IfErr, IfOk, nat_lt, option_map};
ghost use Rattle.std.specs.IoError.{error_kind};
ghost use Rattle.pesp_shell_main.specs.Faults.{fault_of_kind};
ghost use Rattle.pesp_shell_main.specs.Files.{AreRead, Gave, HasFault, IsFaultOf, IsFirstUnread, IsGiven, file_system, longest_file};

use crate::fault::Fault;
use crate::file_bytes::FileBytes;
use crate::paths::{Contents, Paths};
use pesp_shell::{Settings, Source};
use std::alloc::Global;
use std::io;
use std::io::ErrorKind;

/// The greatest size of a file in bytes, as docs/FORMATS.md has it.
const LONGEST: u64 = 67_108_864;

fn is_too_long(length: u64) -> bool
    ensures { result ≡ nat_lt longest_file length }
{
    length > LONGEST
}

/// All bytes of the file at the path, if there are at most [`LONGEST`].
///
/// A file that reports a greater length is refused before it is read. A pipe reports none, so
/// reading stops one byte beyond the limit in any case.
fn read_whole<P: Paths>(
    alloc: Global,
    paths: &P,
    source: Source,
    path: &str,
) -> Result<Vec<u8>, Fault>
    ensures whole { IfOk result (λ bytes.
        Gave (file_system (P.opens paths.now) (P.refuses paths.now) P.File.whole P.File.fails) path.now bytes.items) }
    ensures fault { IfErr result (IsFaultOf
        (file_system (P.opens paths.now) (P.refuses paths.now) P.File.whole P.File.fails) source path.now) }
{
    let (file, length) = paths.open(path).map_err(|error| fault_of(source, &error))?;
    if is_too_long(length) {
        return Err(Fault::TooLong(source));
    }
    // One byte of room beyond the end, so that the read that finds the end does not reallocate.
    let Ok(mut bytes) = Vec::with_capacity(alloc, length as usize + 1) else {
        return Err(Fault::EARLY_MEMORY);
    };
    match file.read_at_most(LONGEST + 1, &mut bytes) {
        Ok(_) => {}
        Err(error) => return Err(fault_of(source, &error)),
    }
    if is_too_long(bytes.len() as u64) {
        return Err(Fault::TooLong(source));
    }
    Ok(bytes)
}

fn fault_of(source: Source, error: &io::Error) -> Fault
    ensures { result ≡ fault_of_kind source (error_kind error.now) }
{
    if error.kind() == ErrorKind::OutOfMemory {
        Fault::EARLY_MEMORY
    } else {
        Fault::Unreadable(source)
    }
}

/// The bytes of the file at the path, if there is one.
fn contents<P: Paths>(
    alloc: Global,
    paths: &P,
    source: Source,
    path: Option<&str>,
) -> Result<Option<Vec<u8>>, Fault>
    ensures given { IfOk result (IsGiven
        (file_system (P.opens paths.now) (P.refuses paths.now) P.File.whole P.File.fails)
        (option_map (λ path. path.now) path.entry)) }
    ensures fault { IfErr result (HasFault
        (file_system (P.opens paths.now) (P.refuses paths.now) P.File.whole P.File.fails) source
        (option_map (λ path. path.now) path.entry)) }
{
    match path {
        Some(path) => Ok(Some(read_whole(alloc, paths, source, path)?)),
        None => Ok(None),
    }
}

/// The bytes of the files that the settings name. Faults in order: the file of activities, that of fixed times,
/// that of times.
pub fn read_files<P: Paths>(
    alloc: Global,
    paths: &P,
    settings: &Settings,
) -> Result<FileBytes, Fault>
    ensures read { IfOk result (AreRead
        (file_system (P.opens paths.now) (P.refuses paths.now) P.File.whole P.File.fails) settings.now) }
    ensures fault { IfErr result (IsFirstUnread
        (file_system (P.opens paths.now) (P.refuses paths.now) P.File.whole P.File.fails) settings.now) }
{
    let activities = contents(alloc, paths, Source::Activities, settings.activities)?;
    let fixed = contents(alloc, paths, Source::Fixed, settings.fixed)?;
    let times = contents(alloc, paths, Source::Times, settings.times)?;
    Ok(FileBytes {
        activities,
        fixed,
        times,
    })
}
