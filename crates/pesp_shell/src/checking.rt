//! The check of one timetable.

ghost use Rattle.std.specs.Prelude.{◌≡◌, ◌++◌, IfOk, IfErr, OnOk, Some};
ghost use Rattle.std.specs.Option.{option_copied};
ghost use Rattle.pesp_instance.specs.Network.{Network};
ghost use Rattle.pesp_tension.specs.Timetables.{Times};
ghost use Rattle.pesp_shell_replies.specs.Replies.{appended, cost_text, refusal_text, tensions_text, violations_text};
ghost use Rattle.pesp_shell.specs.Checked.{IsCheck, IsCheckFault, check_text, joined};
ghost use Rattle.pesp_shell.specs.Opening.{files};

use crate::RunFault;
use crate::opening::instance_and_timetable;
use pesp_base::{Period, Refusal};
use pesp_instance::Instance;
use pesp_shell_replies::{put_cost, put_refusal, put_tensions, put_violations};
use pesp_tension::{Assessment, Timetable, assess};
use std::alloc::{AllocError, Global};

/// The replies to `tensions`, `violations` and `cost`.
fn put_assessment(text: &mut Vec<u8>, assessment: &Assessment) -> Result<(), AllocError>
    ensures { OnOk result (text.new.items
        ≡ text.old.items
        ++ (tensions_text assessment.now.tensions.items
        ++ (violations_text assessment.now.violations.items ++ cost_text assessment.now.cost))) }
{
    put_tensions(text, assessment.tensions.as_slice())?;
    put_violations(text, assessment.violations.as_slice())?;
    put_cost(text, assessment.cost)
}

/// The replies if all three are refused.
fn put_refusals(text: &mut Vec<u8>, refusal: &Refusal) -> Result<(), AllocError>
    ensures { OnOk result (appended text.old.items
        (joined (refusal_text refusal.now)
        (joined (refusal_text refusal.now) (refusal_text refusal.now))) ≡ Some text.new.items) }
{
    put_refusal(text, *refusal)?;
    put_refusal(text, *refusal)?;
    put_refusal(text, *refusal)
}

/// The replies to `tensions`, `violations` and `cost` of an instance and a timetable of its period,
/// from one walk over the activities.
///
/// If an event has no time, each reply is that of refusal 11. The only error is out of memory.
pub fn three_replies(
    alloc: Global,
    instance: &Instance,
    timetable: &Timetable,
) -> Result<Vec<u8>, AllocError>
    requires { instance.now.period ≡ timetable.now.period }
    ensures { IfOk result (λ text. check_text instance.now timetable.now ≡ Some text.items) }
{
    let mut text = Vec::new(alloc);
    match assess(alloc, instance, timetable) {
        Ok(assessment) => put_assessment(&mut text, &assessment)?,
        Err(refusal) => put_refusals(&mut text, &refusal)?,
    }
    Ok(text)
}

/// The replies to `tensions`, `violations` and `cost`, for files of activities, of fixed times and
/// of times.
///
/// Without fixed times no event is fixed, and without times the timetable is empty. If an event has
/// no time, each reply is that of refusal 11, which is not a fault. Faults in order: the file of
/// activities, that of fixed times, that of times, out of memory.
pub fn check(
    alloc: Global,
    period: Period,
    activities: &[u8],
    fixed: Option<&[u8]>,
    times: Option<&[u8]>,
) -> Result<Vec<u8>, RunFault>
    ensures replies { IfOk result (λ text. (I : Network) × (f : Times) × (m : Times)
        × IsCheck (files period activities.now (option_copied fixed.entry) (option_copied times.entry)) text.items I f m) }
    ensures fault { IfErr result (IsCheckFault
        (files period activities.now (option_copied fixed.entry) (option_copied times.entry))) }
{
    let (instance, timetable) = instance_and_timetable(alloc, period, activities, fixed, times)?;
    match three_replies(alloc, &instance, &timetable) {
        Ok(text) => Ok(text),
        Err(AllocError) => Err(RunFault::Memory { line: 0 }),
    }
}
