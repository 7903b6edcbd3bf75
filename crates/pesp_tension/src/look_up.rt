//! Places in a list of times that rises by event.

ghost use Rattle.std.specs.Prelude.{◌↔◌, IfOk, IfErr, IfSome, IsTrue, length};
ghost use Rattle.pesp_tension.specs.Places.{AreRising, IsAt, IsGap};

use pesp_base::EventId;

/// The place of an event, if it is as far from the first one as the difference of their numbers.
fn place_by_number(times: &[(u32, u16)], event: EventId) -> Option<usize>
    ensures { IfSome result (IsAt times.now event) }
{
    let (first, _) = times.first()?;
    let place = event.get().checked_sub(*first)? as usize;
    let (found, _) = times.get(place)?;
    if *found == event.get() {
        Some(place)
    } else {
        None
    }
}

/// Whether an event is above all that have times.
fn is_above_all(times: &[(u32, u16)], event: EventId) -> bool
    requires { AreRising times.now }
    ensures { IsTrue result ↔ IsGap times.now event (length times.now) }
{
    match times.last() {
        Some(&(last, _)) => last < event.get(),
        None => true,
    }
}

/// The place of an event, or the place where it belongs.
///
/// Numbers mostly have no gaps, and times mostly come by rising events. So the place by number is
/// tried first, then the end, and then a binary search.
pub(crate) fn place(times: &[(u32, u16)], event: EventId) -> Result<usize, usize>
    requires { AreRising times.now }
    ensures found { IfOk result (IsAt times.now event) }
    ensures absent { IfErr result (IsGap times.now event) }
{
    if let Some(place) = place_by_number(times, event) {
        return Ok(place);
    }
    if is_above_all(times, event) {
        return Err(times.len());
    }
    times.binary_search_by_key(&event.get(), |&(number, _)| number)
}
