//! Tensions, violations and cost at once.

ghost use Rattle.std.specs.Prelude.{◌≡◌, ◌≤◌, ◌+◌, ◌*◌, ◌-◌, ◌^◌, ◌++◌, [], ◌∷◌, IfOk, IfErr, OnOk, None};
ghost use Rattle.pesp_base.specs.Limits.{greatest_period, greatest_weight};
ghost use Rattle.pesp_tension.specs.Answers.{IsRefusalOf, IsTimed, cost_in, first_missing, tension_in, tensions_of, unmet_among, where_timed};
ghost use Rattle.pesp_tension.specs.Assessed.{IsAssessment, IsAfter};

use crate::answers::{cost_at, is_met_at, list_moved, require_times, tension_of};
use crate::{ActivityTension, Tensions, Timetable, Violation, Violations};
use pesp_base::{Activity, Refusal};
use pesp_instance::Instance;
use std::alloc::{AllocError, Global};

/// Tensions, violations and cost of one timetable.
#[derive(Debug, Drop)]
pub struct Assessment {
    pub tensions: Tensions,
    pub violations: Violations,
    pub cost: u64,
}

/// Appends the tension of an activity, and its violation if it is not met, and adds its cost.
fn add_activity(
    assessment: &mut Assessment,
    activity: &Activity,
    timetable: &Timetable,
) -> Result<(), AllocError>
    requires timed { IsTimed timetable.now activity.now }
    requires room { assessment.old.cost + greatest_weight * (greatest_period - 1) ≤ 2 ^ 64 - 1 }
    ensures tensions { OnOk result (assessment.new.tensions.items
        ≡ assessment.old.tensions.items ++ tension_in timetable.now activity.now ∷ []) }
    ensures violations { OnOk result (assessment.new.violations.items
        ≡ assessment.old.violations.items ++ unmet_among timetable.now (activity.now ∷ [])) }
    ensures cost { OnOk result (assessment.new.cost
        ≡ assessment.old.cost + cost_in timetable.now activity.now) }
    ensures small { OnOk result (assessment.new.cost
        ≤ assessment.old.cost + greatest_weight * (greatest_period - 1)) }
{
    let answer = tension_of(activity, timetable);
    let ActivityTension { tension, slack, .. } = answer;
    assessment.tensions.push(answer)?;
    if !is_met_at(activity, tension) {
        assessment
            .violations
            .push(Violation::Activity(activity.id))?;
    }
    assessment.cost += cost_at(activity, slack);
    Ok(())
}

/// Does so for all activities. The assessment is empty.
fn add_activities(
    assessment: &mut Assessment,
    instance: &Instance,
    timetable: &Timetable,
) -> Result<(), AllocError>
    requires timed { first_missing instance.now timetable.now ≡ None }
    requires cost { assessment.old.cost ≡ 0 }
    ensures { OnOk result (IsAfter instance.now timetable.now assessment.old assessment.new) }
{
    for activity in instance.activities() {
        add_activity(assessment, activity, timetable)?;
    }
    Ok(())
}

fn assess_timed(
    alloc: Global,
    instance: &Instance,
    timetable: &Timetable,
) -> Result<Assessment, AllocError>
    requires { first_missing instance.now timetable.now ≡ None }
    ensures { IfOk result (IsAssessment instance.now timetable.now) }
{
    let mut assessment = Assessment {
        tensions: Vec::with_capacity(alloc, instance.activity_count())?,
        violations: Vec::new(alloc),
        cost: 0,
    };
    add_activities(&mut assessment, instance, timetable)?;
    list_moved(&mut assessment.violations, instance, timetable)?;
    Ok(assessment)
}

/// Tensions, violations and cost at once. The times of an activity's ends are looked up once for
/// all three, and its slack is computed once.
///
/// Refusals in order: 11 with the least event of the instance that has no time; 10.
pub fn assess(
    alloc: Global,
    instance: &Instance,
    timetable: &Timetable,
) -> Result<Assessment, Refusal>
    requires { instance.now.period ≡ timetable.now.period }
    ensures timed { IfOk result (λ _. first_missing instance.now timetable.now ≡ None) }
    ensures ok { IfOk result (IsAssessment instance.now timetable.now) }
    ensures refused { IfErr result (IsRefusalOf
        (where_timed instance.now timetable.now (tensions_of instance.now timetable.now))) }
{
    require_times(instance, timetable)?;
    assess_timed(alloc, instance, timetable).map_err(|_| Refusal::Memory)
}
