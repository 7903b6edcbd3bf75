//! Whether a change of a window or of a span admits something new.

ghost use Rattle.std.specs.Prelude.{◌≡◌, ℕ, ◌+◌, ◌%◌, ◌<◌, ◌↔◌, IsTrue, None, Some};
ghost use Rattle.pesp_base.specs.Bounds.{Bounds};
ghost use Rattle.pesp_instance.specs.Edited.{rewindowed};
ghost use Rattle.pesp_instance.specs.Network.{IsNetwork, window_of};
ghost use Rattle.pesp_domains.specs.Loosening.{AdmitsNewPair, admits_anew, admits_more, is_looser};

use crate::reach::{remainder, width_of};
use pesp_base::{ActivityId, EventId, Period, Span};
use pesp_instance::{Event, Instance};

/// The residue that is `ahead` steps up from this time.
fn residue_ahead(period: Period, first: u16, ahead: u16) -> u16
    ensures { result ≡ (first + ahead) % period }
{
    ((u32::from(first) + u32::from(ahead)) % u32::from(period.get())) as u16
}

/// The event, with its window.
fn event_now(instance: &Instance, event: EventId) -> Event
    ensures id { result.id ≡ event }
    ensures window { result.window ≡ window_of instance.now event }
    ensures network { IsNetwork instance.now }
{
    Event {
        id: event,
        window: instance.window(event),
    }
}

/// Whether the event's window excludes one of the `length` residues from `first` on.
pub fn window_admits_anew(instance: &Instance, event: EventId, first: u16, length: u16) -> bool
    ensures { result ≡ admits_anew instance.now
        (rewindowed instance.now event (Some (record { first = first; length = length }))) event }
{
    let period = instance.period();
    let old = event_now(instance, event);
    (0..length.min(period.get())).any(|ahead| !old.admits(
        period,
        residue_ahead(period, first, ahead),
    ))
}

/// Whether the event's window excludes some residue.
pub fn is_limited(instance: &Instance, event: EventId) -> bool
    ensures { result ≡ admits_anew instance.now (rewindowed instance.now event None) event }
{
    let period = instance.period();
    let old = event_now(instance, event);
    (0..period.get()).any(|residue| !old.admits(period, residue))
}

/// Whether the second span admits a pair of residues that the first one does not. For one residue,
/// a span admits a window of the other event, so two windows are compared.
fn span_admits_more(period: Period, old: Span, new: Span) -> bool
    ensures { result ≡ admits_more period old new }
{
    let ahead = remainder(new.lower() - old.lower(), period);
    let old_width = width_of(period, old);
    let new_width = width_of(period, new);
    old_width < period.get() && old_width < ahead + new_width
}

/// Whether the span admits more than the one that the activity has.
pub fn is_looser(instance: &Instance, id: ActivityId, span: Span) -> bool
    ensures { result ≡ is_looser instance.now id span }
{
    match instance.activity(id) {
        Some(activity) => span_admits_more(instance.period(), activity.span, span),
        None => false,
    }
}

/// A span admits more than another if and only if it admits two residues of the events that the
/// other does not.
pub fn law_of_wider_spans()
    ensures { (period : ℕ) (old new : Bounds) → 0 < period → IsTrue (admits_more period old new)
        ↔ AdmitsNewPair period old new }
{}
