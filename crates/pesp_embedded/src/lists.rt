//! Events and times as numbers.

ghost use Rattle.std.specs.Prelude.{◌≡◌, map};
ghost use Rattle.pesp_instance.specs.Network.{event_ids};
ghost use Rattle.pesp_shell_replies.specs.Legal.{work_of};
ghost use Rattle.pesp_embedded.specs.Answered.{fronted};
ghost use Rattle.pesp_embedded.specs.Numbers.{time_or_none};
ghost use Rattle.pesp_embedded.specs.Sessions.{AreShown, events_in, times_in};

use crate::Told;
use pesp_bench::Bench;
use pesp_counts::CountKeeper;
use pesp_instance::Instance;
use pesp_tension::Timetable;

/// Instead of the time of an event without one: a time is below the period, which is at most 1,440.
/// It is part of the interface (`PESP_NO_TIME` in `embedded/pespbench.h`).
pub const NO_TIME: u16 = 65_535;

/// Writes the events to the front of the room, in ascending order, as many as fit.
fn put_events(room: &mut [u32], instance: &Instance)
    ensures { room.new ≡ fronted (event_ids instance.now) room.old }
{
    let mut place = 0;
    for event in instance.events() {
        if place == room.len() {
            return;
        }
        room[place] = event.id.get();
        place += 1;
    }
}

/// Writes the time of each event to the front of the room, in ascending order of events, as many as
/// fit.
fn put_times(room: &mut [u16], instance: &Instance, times: &Timetable)
    ensures { room.new ≡ fronted (map (time_or_none times.now) (event_ids instance.now)) room.old }
{
    let mut place = 0;
    for event in instance.events() {
        if place == room.len() {
            return;
        }
        room[place] = times.get(event.id).unwrap_or(NO_TIME);
        place += 1;
    }
}

/// Writes the events of a workbench to the front of the room, and reports their number.
pub(crate) fn show_events(bench: &Bench<CountKeeper>, room: &mut [u32]) -> Told
    ensures { AreShown (events_in (work_of bench.now)) room.old room.new result }
{
    let instance = bench.instance();
    put_events(room, instance);
    Told::ended(instance.event_count() as u64, 0, 0)
}

/// Writes the times of a timetable to the front of the room, and reports the number of events.
pub(crate) fn show_timetable(room: &mut [u16], instance: &Instance, times: &Timetable) -> Told
    ensures { AreShown (map (time_or_none times.now) (event_ids instance.now)) room.old room.new result }
{
    put_times(room, instance, times);
    Told::ended(instance.event_count() as u64, 0, 0)
}

/// Writes the working timetable to the front of the room, and reports the number of events.
pub(crate) fn show_times(bench: &Bench<CountKeeper>, room: &mut [u16]) -> Told
    ensures { AreShown (times_in (work_of bench.now)) room.old room.new result }
{
    show_timetable(room, bench.instance(), bench.timetable())
}
