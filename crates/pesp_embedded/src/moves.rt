//! The effect of a move on the cost.

ghost use Rattle.pesp_shell_replies.specs.Legal.{work_of};
ghost use Rattle.pesp_embedded.specs.Sessions.{IsNumber, change_in};

use crate::event::{event_of, no_event};
use crate::{Fault, Told};
use pesp_bench::Bench;
use pesp_counts::CountKeeper;

/// Sets `change` to the amount by which the cost would change if the event of this number had this
/// time, or reports the refusal and leaves it unchanged.
pub(crate) fn tell_change(
    bench: &Bench<CountKeeper>,
    number: u32,
    time: u16,
    change: &mut i64,
) -> Told
    ensures { IsNumber (change_in (work_of bench.now) number time) change.old change.new result }
{
    let Some(event) = event_of(bench.instance(), number) else {
        return no_event(number);
    };
    match bench.change_of(event, time) {
        Ok(found) => {
            *change = found;
            Told::ended(0, 0, 0)
        }
        Err(refusal) => Fault::Refused(refusal).told(),
    }
}
