//! The edits of an instance.

ghost use Rattle.std.specs.Prelude.{◌≡◌, if◌then◌else◌, OnOk, OnErr, IfErr, is_some};
ghost use Rattle.pesp_base.specs.declared.refusal.Refusal.TheVariants as no;
ghost use Rattle.pesp_instance.specs.Edited.{edited, IsRefusal};
ghost use Rattle.pesp_instance.specs.Network.{activity_of, has_event};

use crate::vertex::Vertex;
use crate::{Around, Edit, Event, Instance};
use pesp_base::{
    Activity, ActivityId, EventId, GREATEST_NUMBER, GREATEST_WEIGHT, Refusal, Span, Weight, Window,
    max_activities, max_events,
};

impl Instance {
    /// Makes an edit, or returns the first refusal and changes nothing.
    ///
    /// Only `AddEvent`, `AddActivity` and `SetEnds` allocate. Out of memory is the last refusal.
    pub fn apply(&mut self, edit: &Edit) -> Result<(), Refusal>
        ensures ok { OnOk result (edited self.old edit.now ≡ Ok self.new) }
        ensures err { IfErr result (IsRefusal self.old edit.now) }
        ensures unchanged { OnErr result (self.new ≡ self.old) }
    {
        match *edit {
            Edit::AddEvent(event) => self.add_event(event),
            Edit::DropEvent(event) => self.drop_event(event),
            Edit::Fix(event, time) => self.fix(event, time),
            Edit::SetWindow(event, first, length) => self.set_window(event, first, length),
            Edit::Unfix(event) => self.unfix(event),
            Edit::AddActivity(activity) => self.add_activity(activity),
            Edit::DropActivity(id) => self.drop_activity(id),
            Edit::SetSpan(id, span) => self.set_span(id, span),
            Edit::SetWeight(id, weight) => self.set_weight(id, weight),
            Edit::SetEnds(id, from, to) => self.set_ends(id, from, to),
        }
    }

    /// `EventExists` if there is such an event, because that refusal comes first; otherwise the
    /// other one.
    fn event_exists_or(&self, event: EventId, other: Refusal) -> Refusal
        ensures { result ≡ (if has_event self.now event then no.EventExists event else other) }
    {
        if self.has_event(event) {
            Refusal::EventExists(event)
        } else {
            other
        }
    }

    fn add_event(&mut self, event: EventId) -> Result<(), Refusal>
        ensures ok { OnOk result (edited self.old (Edit.AddEvent event) ≡ Ok self.new) }
        ensures err { IfErr result (IsRefusal self.old (Edit.AddEvent event)) }
        ensures unchanged { OnErr result (self.new ≡ self.old) }
    {
        // The type's invariant, as a fact for that of the instance.
        prove!(event.get() <= GREATEST_NUMBER);
        if self.event_count() >= max_events(self.period) {
            return Err(self.event_exists_or(event, Refusal::TooManyEvents));
        }
        let new = Event {
            id: event,
            window: None,
        };
        match self.vertices.insert(Vertex::new(self.alloc, new)) {
            Ok(true) => Ok(()),
            Ok(false) => Err(Refusal::EventExists(event)),
            Err(_) => Err(self.event_exists_or(event, Refusal::Memory)),
        }
    }

    fn drop_event(&mut self, event: EventId) -> Result<(), Refusal>
        ensures ok { OnOk result (edited self.old (Edit.DropEvent event) ≡ Ok self.new) }
        ensures err { IfErr result (IsRefusal self.old (Edit.DropEvent event)) }
        ensures unchanged { OnErr result (self.new ≡ self.old) }
    {
        let Some(numbers) = self.vertices.numbers_at(event) else {
            return Err(Refusal::NoEvent(event));
        };
        let mut around = Around {
            numbers: Some(numbers),
            activities: &self.activities,
        };
        if let Some(activity) = around.next() {
            return Err(Refusal::EventInUse(event, activity.id));
        }
        self.vertices.remove(event.get());
        Ok(())
    }

    fn fix(&mut self, event: EventId, time: u16) -> Result<(), Refusal>
        ensures ok { OnOk result (edited self.old (Edit.Fix event time) ≡ Ok self.new) }
        ensures err { IfErr result (IsRefusal self.old (Edit.Fix event time)) }
        ensures unchanged { OnErr result (self.new ≡ self.old) }
    {
        let Some(slot) = self.vertices.event_slot(event) else {
            return Err(Refusal::NoEvent(event));
        };
        let Some(window) = Window::new(self.period, time, 1) else {
            return Err(Refusal::TimeOutOfRange(time));
        };
        self.vertices.rewindow(slot, Some(window));
        Ok(())
    }

    fn set_window(&mut self, event: EventId, first: u16, length: u16) -> Result<(), Refusal>
        ensures ok { OnOk result (edited self.old (Edit.SetWindow event first length)
            ≡ Ok self.new) }
        ensures err { IfErr result (IsRefusal self.old (Edit.SetWindow event first length)) }
        ensures unchanged { OnErr result (self.new ≡ self.old) }
    {
        let Some(slot) = self.vertices.event_slot(event) else {
            return Err(Refusal::NoEvent(event));
        };
        if first >= self.period.get() {
            return Err(Refusal::TimeOutOfRange(first));
        }
        let Some(window) = Window::new(self.period, first, length) else {
            return Err(Refusal::LengthOutOfRange(length));
        };
        self.vertices.rewindow(slot, Some(window));
        Ok(())
    }

    fn unfix(&mut self, event: EventId) -> Result<(), Refusal>
        ensures ok { OnOk result (edited self.old (Edit.Unfix event) ≡ Ok self.new) }
        ensures err { IfErr result (IsRefusal self.old (Edit.Unfix event)) }
        ensures unchanged { OnErr result (self.new ≡ self.old) }
    {
        let Some(slot) = self.vertices.event_slot(event) else {
            return Err(Refusal::NoEvent(event));
        };
        if self.vertices.value_at(slot).event.window.is_none() {
            return Err(Refusal::NotFixed(event));
        }
        self.vertices.rewindow(slot, None);
        Ok(())
    }

    /// `ActivityExists` if there is such an activity, because that refusal comes first; otherwise
    /// the other one.
    fn activity_exists_or(&self, id: ActivityId, other: Refusal) -> Refusal
        ensures { result ≡ (if is_some (activity_of self.now id) then no.ActivityExists id else
            other) }
    {
        if self.activities.contains(id.get()) {
            Refusal::ActivityExists(id)
        } else {
            other
        }
    }

    fn add_activity(&mut self, activity: Activity) -> Result<(), Refusal>
        ensures ok { OnOk result (edited self.old (Edit.AddActivity activity) ≡ Ok self.new) }
        ensures err { IfErr result (IsRefusal self.old (Edit.AddActivity activity)) }
        ensures unchanged { OnErr result (self.new ≡ self.old) }
    {
        // The types' invariants, as facts for that of the instance.
        prove!(activity.id.get() <= GREATEST_NUMBER);
        prove!(activity.span.lower() <= activity.span.upper());
        prove!(activity.weight.get() <= GREATEST_WEIGHT);
        let Some(from) = self.vertices.event_slot(activity.from) else {
            return Err(self.activity_exists_or(activity.id, Refusal::NoEvent(activity.from)));
        };
        let Some(to) = self.vertices.event_slot(activity.to) else {
            return Err(self.activity_exists_or(activity.id, Refusal::NoEvent(activity.to)));
        };
        if self.activity_count() >= max_activities(self.period) {
            return Err(self.activity_exists_or(activity.id, Refusal::TooManyActivities));
        }
        match self.activities.insert(activity) {
            Ok(true) => (),
            Ok(false) => return Err(Refusal::ActivityExists(activity.id)),
            Err(_) => return Err(self.activity_exists_or(activity.id, Refusal::Memory)),
        }
        // An event's set cannot reserve room, so the activity is removed if an end cannot list it.
        if self.vertices.link(&activity, from, to).is_err() {
            self.activities.remove(activity.id.get());
            return Err(Refusal::Memory);
        }
        Ok(())
    }

    fn drop_activity(&mut self, id: ActivityId) -> Result<(), Refusal>
        ensures ok { OnOk result (edited self.old (Edit.DropActivity id) ≡ Ok self.new) }
        ensures err { IfErr result (IsRefusal self.old (Edit.DropActivity id)) }
        ensures unchanged { OnErr result (self.new ≡ self.old) }
    {
        let Some(activity) = self.activities.remove(id.get()) else {
            return Err(Refusal::NoActivity(id));
        };
        self.vertices.unlink(&activity);
        Ok(())
    }

    fn set_span(&mut self, id: ActivityId, span: Span) -> Result<(), Refusal>
        ensures ok { OnOk result (edited self.old (Edit.SetSpan id span) ≡ Ok self.new) }
        ensures err { IfErr result (IsRefusal self.old (Edit.SetSpan id span)) }
        ensures unchanged { OnErr result (self.new ≡ self.old) }
    {
        // The type's invariant, as a fact for that of the instance.
        prove!(span.lower() <= span.upper());
        let Some(slot) = self.activities.slot(id.get()) else {
            return Err(Refusal::NoActivity(id));
        };
        let activity = *self.activities.value_at(slot);
        self.activities.set(slot, Activity { span, ..activity });
        Ok(())
    }

    fn set_weight(&mut self, id: ActivityId, weight: Weight) -> Result<(), Refusal>
        ensures ok { OnOk result (edited self.old (Edit.SetWeight id weight) ≡ Ok self.new) }
        ensures err { IfErr result (IsRefusal self.old (Edit.SetWeight id weight)) }
        ensures unchanged { OnErr result (self.new ≡ self.old) }
    {
        // The type's invariant, as a fact for that of the instance.
        prove!(weight.get() <= GREATEST_WEIGHT);
        let Some(slot) = self.activities.slot(id.get()) else {
            return Err(Refusal::NoActivity(id));
        };
        let activity = *self.activities.value_at(slot);
        self.activities.set(slot, Activity { weight, ..activity });
        Ok(())
    }

    fn set_ends(&mut self, id: ActivityId, from: EventId, to: EventId) -> Result<(), Refusal>
        ensures ok { OnOk result (edited self.old (Edit.SetEnds id from to) ≡ Ok self.new) }
        ensures err { IfErr result (IsRefusal self.old (Edit.SetEnds id from to)) }
        ensures unchanged { OnErr result (self.new ≡ self.old) }
    {
        let Some(slot) = self.activities.slot(id.get()) else {
            return Err(Refusal::NoActivity(id));
        };
        let Some(from_slot) = self.vertices.event_slot(from) else {
            return Err(Refusal::NoEvent(from));
        };
        let Some(to_slot) = self.vertices.event_slot(to) else {
            return Err(Refusal::NoEvent(to));
        };
        let old = *self.activities.value_at(slot);
        let new = Activity { from, to, ..old };
        if self.vertices.link(&new, from_slot, to_slot).is_err() {
            return Err(Refusal::Memory);
        }
        self.vertices.unlink_old(&old, &new);
        self.activities.set(slot, new);
        Ok(())
    }
}
