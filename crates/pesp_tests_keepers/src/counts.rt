//! The counts of the keeper by counts, as lines.

use crate::rows::NUMBERS;
use pesp_base::ActivityId;
use pesp_counts::CountKeeper;
use pesp_domains::{Keeper, Side};

fn tell_side(rt: &impl Print, keeper: &CountKeeper, activity: ActivityId, side: Side) {
    for residue in 0..keeper.instance().period().get() {
        match keeper.support(activity, side, residue) {
            Some(count) => {
                let _ = print!(rt; " {count}");
            }
            None => {
                let _ = rt.print(" -");
            }
        }
    }
}

/// The counts at both ends of an activity.
fn tell_activity(rt: &impl Print, keeper: &CountKeeper, activity: ActivityId) {
    let _ = print!(rt; "counts {}", activity.get());
    tell_side(rt, keeper, activity, Side::Tail);
    let _ = rt.print(" /");
    tell_side(rt, keeper, activity, Side::Head);
    let _ = rt.println("");
}

/// The pairs that the last edit restored, and its work.
fn tell_work(rt: &impl Print, keeper: &CountKeeper) {
    let _ = rt.print("restored");
    for pair in keeper.restored() {
        let _ = print!(rt; " {}:{}", pair.event.get(), pair.residue);
    }
    let work = keeper.last_work();
    let _ = println!(rt; "\nwork {} {} {}", work.restored, work.removed, work.probes);
}

/// A line for each number of an activity, and two for the last edit.
pub(crate) fn tell(rt: &impl Print, keeper: &CountKeeper) {
    for number in 0..NUMBERS {
        if let Some(activity) = ActivityId::new(number) {
            tell_activity(rt, keeper, activity);
        }
    }
    tell_work(rt, keeper);
}
