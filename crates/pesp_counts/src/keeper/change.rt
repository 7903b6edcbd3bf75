//! The change that an edit makes to rows and counts, found once.

ghost use Rattle.std.specs.Prelude.{◌≡◌, ◌+◌, ◌*◌, ◌<◌, if◌then◌else◌, ℕ, [], ◌∷◌, None, Some, Ok, length};
ghost use Rattle.pesp_instance.specs.Edited.{edited};
ghost use Rattle.pesp_instance.specs.Network.{Network};
ghost use Rattle.pesp_counts_arcs.specs.Ends.{end_at};
ghost use Rattle.pesp_counts_arcs.specs.Links.{StandFor};
ghost use Rattle.pesp_counts_arcs.specs.Places.{place_of};
ghost use Rattle.pesp_counts.specs.Changes.{IsChange, event_at, places};
ghost use Rattle.pesp_counts.specs.declared.keeper.change.Starts.TheVariants as starts;

use pesp_base::{ActivityId, EventId};
use pesp_counts_arcs::Links;
use pesp_domains::{is_limited, is_looser, window_admits_anew};
use pesp_instance::{Edit, Instance};

/// The places of the events at which the first pairs may return.
#[derive(Drop)]
pub enum Starts {
    Nowhere,
    At([usize; 1]),
    AtBoth([usize; 2]),
}

impl Starts {
    /// The places in order.
    pub fn places(&self) -> &[usize]
        ensures { result.now ≡ places self.now }
    {
        match self {
            Starts::Nowhere => &[],
            Starts::At(place) => place,
            Starts::AtBoth(both) => both,
        }
    }
}

/// An event with its place.
#[derive(Drop)]
pub struct PlacedEvent {
    pub event: EventId,
    pub place: usize,
}

/// The change that an edit makes to rows and counts.
#[derive(Drop)]
pub struct Change {
    /// Nowhere, if the edit only tightens.
    pub loosened: Starts,
    /// The event whose window changes.
    pub limited: Option<PlacedEvent>,
    /// The place of the activity whose ends are recounted. It is left out while pairs return.
    pub recounted: Option<usize>,
}

impl Change {
    /// The change of an edit that affects neither rows nor counts.
    pub fn none() -> Change
        ensures { result ≡ record { loosened = starts.Nowhere; limited = None; recounted = None } }
    {
        Change {
            loosened: Starts::Nowhere,
            limited: None,
            recounted: None,
        }
    }

    /// The change of an edit, from the instance before it. What the edit adds has no place yet.
    pub fn from_edit(instance: &Instance, links: &Links, edit: &Edit) -> Change
        requires { StandFor instance.now links.now }
        ensures { (J : Network) → edited instance.now edit.now ≡ Ok J
            → IsChange instance.now edit.now links.now result }
    {
        match *edit {
            Edit::Fix(event, time) => {
                Change::of_window(links, event, window_admits_anew(instance, event, time, 1))
            }
            Edit::SetWindow(event, first, length) => {
                let anew = window_admits_anew(instance, event, first, length);
                Change::of_window(links, event, anew)
            }
            Edit::Unfix(event) => Change::of_window(links, event, is_limited(instance, event)),
            Edit::SetSpan(id, span) => {
                Change::of_activity(links, id, is_looser(instance, id, span))
            }
            Edit::SetEnds(id, _, _) => Change::of_activity(links, id, true),
            Edit::DropActivity(id) => {
                let mut change = Change::of_activity(links, id, true);
                change.recounted = None;
                change
            }
            _ => Change::none(),
        }
    }

    /// The change of a window, which `loosens` if it admits new residues.
    fn of_window(links: &Links, event: EventId, loosens: bool) -> Change
        ensures { (p : ℕ) → place_of (links.now).events event ≡ Some p → result ≡ record {
          loosened = if loosens then starts.At (p ∷ []) else starts.Nowhere;
          limited = Some (event_at event p);
          recounted = None;
        } }
    {
        let mut change = Change::none();
        if let Some(place) = links.event(event) {
            change.limited = Some(PlacedEvent { event, place });
            if loosens {
                change.loosened = Starts::At([place]);
            }
        }
        change
    }

    /// The change of an activity, which `loosens` if it admits new pairs.
    fn of_activity(links: &Links, id: ActivityId, loosens: bool) -> Change
        requires { (I : Network) × StandFor I links.now }
        ensures { (q : ℕ) → place_of (links.now).activities id ≡ Some q → result ≡ record {
          loosened = if loosens
              then starts.AtBoth ((end_at (links.now).ends (2 * q + 1)).looks_at
              ∷ (end_at (links.now).ends (2 * q)).looks_at ∷ [])
              else starts.Nowhere;
          limited = None;
          recounted = Some q;
        } }
    {
        let mut change = Change::none();
        change.recounted = links.activity(id);
        if let (true, Some(place)) = (loosens, change.recounted) {
            let (from, to) = links.events_of(place);
            change.loosened = Starts::AtBoth([from, to]);
        }
        change
    }
}
