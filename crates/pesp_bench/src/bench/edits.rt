//! Edits of the instance and of the working timetable.

ghost use Rattle.std.specs.Prelude.{◌≡◌, Ok, IfErr, OnOk, OnErr};
ghost use Rattle.std.specs.Result.{result_map_both};
ghost use Rattle.pesp_instance.specs.Edited.{IsRefusal};
ghost use Rattle.pesp_bench.specs.Kept.{IsKeptBy};
ghost use Rattle.pesp_bench.specs.State.{IsTimeRefusal, edited_state, timed_state, times_after, untimed_state};

use crate::Bench;
use crate::kept::{forget, keeps};
use pesp_base::{EventId, Refusal};
use pesp_domains::Keeper;
use pesp_instance::Edit;
use pesp_tension::{EventTime, Timetable};

/// Removes the time of a dropped event.
fn clear_dropped(times: &mut Timetable, edit: &Edit)
    ensures { times.new ≡ times_after edit.now times.old }
{
    if let Edit::DropEvent(event) = *edit {
        times.clear(event);
    }
}

impl<K: Keeper> Bench<K> {
    /// Makes an edit. A dropped event loses its time.
    ///
    /// A known answer remains known exactly if `Keeps` holds (specs/Kept.antt), which depends on
    /// the edited values alone. That nothing meets everything remains known if the edit admits no
    /// timetable that was not admitted before. An optimum remains known if, besides, the edit makes
    /// no timetable cheaper, and the optimum still meets everything at its cost. An edit that drops
    /// something, or sets ends, counts as admitting more. The decision allocates nothing.
    ///
    /// Refusals in order: those of the edit (docs/FORMATS.md, "Refusals"); 10.
    pub fn apply(&mut self, edit: &Edit) -> Result<(), Refusal>
        ensures ok { OnOk result (edited_state self.old edit.now self.new.known ≡ Ok self.new) }
        ensures kept { OnOk result (IsKeptBy self.old.instance edit.now self.old.known
            self.new.known) }
        ensures refused { IfErr result (IsRefusal self.old.instance edit.now) }
        ensures unchanged { OnErr result (self.new ≡ self.old) }
    {
        // Both are computed from the instance before the edit, and stored only once it is accepted.
        let is_kept = keeps(self.keeper.instance(), edit, &self.known);
        let kept = self
            .kept
            .after_edit(self.keeper.instance(), &self.times, edit);
        self.keeper.apply(edit)?;
        self.kept = kept;
        clear_dropped(&mut self.times, edit);
        if !is_kept {
            forget(&mut self.known, &mut self.candidate);
        }
        Ok(())
    }

    /// Sets the time of an event, and replaces any earlier one.
    ///
    /// Refusals in order: 2; 4 if the time is not below the period; 10, only if the event has no
    /// time.
    pub fn set_time(&mut self, event: EventId, time: u16) -> Result<(), Refusal>
        ensures ok { OnOk result (timed_state self.old event time ≡ Ok self.new) }
        ensures refused { IfErr result (IsTimeRefusal self.old event time) }
        ensures unchanged { OnErr result (self.new ≡ self.old) }
    {
        let before = self.times.get(event);
        // Only events of the instance have times, so one with a time is not looked up again.
        if before.is_none() && !self.instance().has_event(event) {
            return Err(Refusal::NoEvent(event));
        }
        let instance = self.keeper.instance();
        let timed = EventTime { event, time };
        self.kept.set(instance, &mut self.times, timed, before)
    }

    /// Removes the time of an event.
    ///
    /// Refusals in order: 2; 11 if it has none.
    pub fn clear_time(&mut self, event: EventId) -> Result<(), Refusal>
        ensures result { result_map_both (λ done. self.new) (λ refusal. refusal) result
            ≡ untimed_state self.old event }
        ensures unchanged { OnErr result (self.new ≡ self.old) }
    {
        if !self.instance().has_event(event) {
            return Err(Refusal::NoEvent(event));
        }
        if self.times.get(event).is_none() {
            return Err(Refusal::MissingTime(event));
        }
        let instance = self.keeper.instance();
        self.kept.clear(instance, &mut self.times, event);
        Ok(())
    }
}
