//! Whether a new span or a new weight may make a timetable cheaper, or let one meet everything that
//! did not.

ghost use Rattle.std.specs.Prelude.{◌≡◌};
ghost use Rattle.pesp_bench.specs.Loosening.{is_lighter, is_moved};

use pesp_base::{ActivityId, Span, Weight};
use pesp_instance::Instance;

/// Whether the span has another lower bound than the activity's, from which slack counts, or a
/// greater upper one. False if there is no such activity.
pub(crate) fn is_moved(instance: &Instance, id: ActivityId, span: Span) -> bool
    ensures { result ≡ is_moved instance.now id span }
{
    match instance.activity(id) {
        Some(activity) => {
            span.lower() != activity.span.lower() || span.upper() > activity.span.upper()
        }
        None => false,
    }
}

/// Whether the weight is smaller than the activity's. False if there is no such activity.
pub(crate) fn is_lighter(instance: &Instance, id: ActivityId, weight: Weight) -> bool
    ensures { result ≡ is_lighter instance.now id weight }
{
    match instance.activity(id) {
        Some(activity) => weight < activity.weight,
        None => false,
    }
}
