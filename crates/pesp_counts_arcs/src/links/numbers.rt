//! Numbers of ends and of places.

ghost use Rattle.std.specs.Prelude.{◌≡◌, ◌*◌, ◌+◌, ◌<◌, ℕ, Some, length, option_map};
ghost use Rattle.pesp_counts_arcs.specs.Ends.{end_at};
ghost use Rattle.pesp_counts_arcs.specs.Places.{number_at, place_of};

use super::Links;
use pesp_base::ActivityId;

impl Links {
    /// The number of the event at a place, if there is one.
    pub fn event_at(&self, place: usize) -> Option<u32>
        ensures { result ≡ number_at (self.now).events place }
    {
        self.events.number(place)
    }

    /// The number of places for events.
    pub fn places(&self) -> usize
        ensures { result ≡ length (self.now).lists }
    {
        self.at.len()
    }

    /// The number of ends.
    pub fn end_count(&self) -> usize
        ensures { result ≡ length (self.now).ends }
    {
        self.ends.len()
    }

    /// The places of the events that the activity at a place leads from and to.
    pub fn events_of(&self, place: usize) -> (usize, usize)
        requires { 2 * place + 1 < length (self.now).ends }
        ensures from { result.0 ≡ (end_at (self.now).ends (2 * place + 1)).looks_at }
        ensures to { result.1 ≡ (end_at (self.now).ends (2 * place)).looks_at }
    {
        let tail = self.tail_at(place);
        let (from, to) = (self.ends[tail + 1].looks_at, self.ends[tail].looks_at);
        (from as usize, to as usize)
    }

    /// The number of the end at the tail of the activity at a place.
    pub fn tail_at(&self, place: usize) -> usize
        requires { 2 * place < length (self.now).ends }
        ensures { result ≡ 2 * place }
    {
        prove!(place < self.ends.len());
        2 * place
    }

    /// The number of an activity's end at its tail.
    pub fn tail(&self, id: ActivityId) -> Option<usize>
        requires { (q : ℕ) → place_of (self.now).activities id ≡ Some q →
            2 * q < length (self.now).ends }
        ensures { result ≡ option_map (λ q. 2 * q) (place_of (self.now).activities id) }
    {
        let place = self.activities.place(id.get())?;
        Some(self.tail_at(place))
    }
}
