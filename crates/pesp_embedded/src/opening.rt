//! The opening of a session.

ghost use Rattle.std.specs.Prelude.{◌≡◌, [], IfOk, IfErr, Some};
ghost use Rattle.pesp_shell_replies.specs.Legal.{work_of};
ghost use Rattle.pesp_shell.specs.Opening.{IsOpenFault, IsOpening, files};

use crate::kept::Kept;
use pesp_base::Period;
use pesp_shell::{RunFault, open};
use std::alloc::Global;

/// What a session of the files keeps. A file without bytes is missing.
///
/// Faults in order: the file of activities, that of fixed times, that of times, out of memory at
/// line 0.
pub(crate) fn opened(
    alloc: Global,
    period: Period,
    activities: &[u8],
    fixed: &[u8],
    times: &[u8],
) -> Result<Box<Kept>, RunFault>
    ensures opening { IfOk result (λ kept.
        IsOpening (files period activities.now (Some fixed.now) (Some times.now)) (work_of kept.value.bench)) }
    ensures fault { IfErr result
        (IsOpenFault (files period activities.now (Some fixed.now) (Some times.now))) }
{
    let bench = open(alloc, period, activities, Some(fixed), Some(times))?;
    match Box::new(alloc, Kept { bench }) {
        Ok(kept) => Ok(kept),
        Err(_) => Err(RunFault::Memory { line: 0 }),
    }
}
