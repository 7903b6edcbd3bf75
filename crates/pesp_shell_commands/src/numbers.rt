//! The numbers after a command's name.

ghost use Rattle.std.specs.Prelude.{◌≡◌, ◌≤◌, ◌≤ℤ◌, IfOk, IfErr, None, Some, false, true, int_lt};
ghost use Rattle.pesp_base.specs.Limits.{least_bound, greatest_bound};
ghost use Rattle.pesp_shell_commands.specs.declared.parsing.ParseFault.TheVariants as says;
ghost use Rattle.pesp_shell_commands.specs.Forms.{Arguments, activity_faults, activity_from, first_of};
ghost use Rattle.pesp_shell_commands.specs.Words.{texts};

use crate::number_word::{activity_at, bound_at, event_at, limit_at, time_at, weight_at};
use crate::{Command, ParseFault};
use pesp_base::{Activity, ActivityId, EventId, Span, Weight};
use std::marker::Model;

/// The span of two bounds that are within the limits.
fn span_between(lower: i32, upper: i32) -> Result<Span, ParseFault>
    requires above_least { (least_bound ≤ℤ lower) × (least_bound ≤ℤ upper) }
    requires below_greatest { (lower ≤ℤ greatest_bound) × (upper ≤ℤ greatest_bound) }
    ensures in_order { IfOk result (λ span. int_lt upper lower ≡ false) }
    ensures value { IfOk result (λ span. span ≡ record { lower = lower; upper = upper }) }
    ensures crossed { IfErr result (λ fault. int_lt upper lower ≡ true) }
    ensures fault { IfErr result (λ fault. fault ≡ says.Crossed) }
{
    match Span::new(lower, upper) {
        Ok(span) => Ok(span),
        Err(_) => Err(ParseFault::Crossed),
    }
}

/// The words of an activity's numbers.
#[derive(Clone, Copy)]
struct ActivityWords<'a> {
    // The number of the activity. No word is parsed yet.
    id: &'a [u8],
    // The number of the event that it leads from.
    from: &'a [u8],
    // The number of the event that it leads to.
    to: &'a [u8],
    // The lower bound of its span.
    lower: &'a [u8],
    // The upper bound of its span.
    upper: &'a [u8],
    // Its weight.
    weight: &'a [u8],
}

impl ActivityWords<'_> {
    /// The activity, whose first word is at this place of the line.
    fn activity_at(&self, place: u8) -> Result<Activity, ParseFault>
        requires { place ≤ 3 }
        ensures no_fault { IfOk result (λ activity.
            first_of (activity_faults place self.now) ≡ None) }
        ensures value { IfOk result (λ activity. activity ≡ activity_from self.now) }
        ensures fault { IfErr result (λ fault.
            first_of (activity_faults place self.now) ≡ Some fault) }
    {
        let id = activity_at(place, self.id)?;
        let from = event_at(place + 1, self.from)?;
        let to = event_at(place + 2, self.to)?;
        let lower = bound_at(place + 3, self.lower)?;
        let upper = bound_at(place + 4, self.upper)?;
        let weight = weight_at(place + 5, self.weight)?;
        let span = span_between(lower, upper)?;
        Ok(Activity {
            id,
            from,
            to,
            span,
            weight,
        })
    }
}

/// The words after a command's name.
#[derive(Drop)]
pub(crate) struct Numbers<'a> {
    // The command's name is not among them.
    words: &'a [&'a [u8]],
    /// The place of the first of them in the line, counted from 1.
    place: u8,
}

impl<'a> Model for Numbers<'a> {
    ghost Value = { Arguments };

    ghost view = { λ a. record { words = texts a.words.now; place = a.place } };

    ghost invariant = { λ a. a.place ≤ 3 };
}

impl<'a> Numbers<'a> {
    ghost use Rattle.std.specs.Prelude.{◌≡◌, ◌+◌, ◌≤◌, ◌∷◌, [], length, drop, IfOk, IfErr, None, Some};
    ghost use Rattle.pesp_shell_commands.specs.Forms.{first_fault, unless_faulty, values};
    ghost use Rattle.pesp_shell_commands.specs.Parsed.{activity_of, activity_ranges, crosses_at, natural, never, span_at};
    ghost use Rattle.pesp_shell_commands.specs.Parsed as ranges;
    ghost use Rattle.pesp_shell_commands.specs.Words.{texts};

    /// The words of a line after its first one or two.
    #[tactic(auto, using(crate::proofs::TakenLemmas::texts_after))]
    pub(crate) fn from_words(words: &'a [&'a [u8]], count: usize) -> Numbers<'a>
        requires few { count ≤ 2 }
        requires present { count ≤ length words.now }
        ensures words { result.words ≡ drop count (texts words.now) }
        ensures place { result.place ≡ count + 1 }
    {
        Numbers {
            words: &words[count..],
            place: count as u8 + 1,
        }
    }

    /// A command without numbers.
    #[tactic(auto, unfolding(crate::specs::Forms::first_fault))]
    pub(crate) fn none(&self, command: Command) -> Result<Command, ParseFault>
        ensures { result ≡ unless_faulty (first_fault self.now [] never) command }
    {
        let [] = self.words else {
            return Err(ParseFault::WordCount);
        };
        Ok(command)
    }

    #[tactic(auto, unfolding(crate::specs::Forms::first_fault))]
    pub(crate) fn event(&self) -> Result<EventId, ParseFault>
        ensures no_fault { IfOk result (λ event.
            first_fault self.now (ranges.id ∷ []) never ≡ None) }
        ensures value { IfOk result (λ event. event ≡ natural (values self.now) 0) }
        ensures fault { IfErr result (λ fault.
            first_fault self.now (ranges.id ∷ []) never ≡ Some fault) }
    {
        let [event] = self.words else {
            return Err(ParseFault::WordCount);
        };
        event_at(self.place, event)
    }

    #[tactic(auto, unfolding(crate::specs::Forms::first_fault))]
    pub(crate) fn event_and_time(&self) -> Result<(EventId, u16), ParseFault>
        ensures no_fault { IfOk result (λ pair.
            first_fault self.now (ranges.id ∷ ranges.time ∷ []) never ≡ None) }
        ensures event { IfOk result (λ pair. pair.0 ≡ natural (values self.now) 0) }
        ensures time { IfOk result (λ pair. pair.1 ≡ natural (values self.now) 1) }
        ensures fault { IfErr result (λ fault.
            first_fault self.now (ranges.id ∷ ranges.time ∷ []) never ≡ Some fault) }
    {
        let [event, time] = self.words else {
            return Err(ParseFault::WordCount);
        };
        let event = event_at(self.place, event)?;
        let time = time_at(self.place + 1, time)?;
        Ok((event, time))
    }

    #[tactic(auto, unfolding(crate::specs::Forms::first_fault))]
    pub(crate) fn event_and_window(&self) -> Result<(EventId, u16, u16), ParseFault>
        ensures no_fault { IfOk result (λ said.
            first_fault self.now (ranges.id ∷ ranges.time ∷ ranges.time ∷ []) never ≡ None) }
        ensures event { IfOk result (λ said. said.0 ≡ natural (values self.now) 0) }
        ensures first { IfOk result (λ said. said.1 ≡ natural (values self.now) 1) }
        ensures length { IfOk result (λ said. said.2 ≡ natural (values self.now) 2) }
        ensures fault { IfErr result (λ fault.
            first_fault self.now (ranges.id ∷ ranges.time ∷ ranges.time ∷ []) never ≡ Some fault) }
    {
        let [event, first, length] = self.words else {
            return Err(ParseFault::WordCount);
        };
        let event = event_at(self.place, event)?;
        let first = time_at(self.place + 1, first)?;
        let length = time_at(self.place + 2, length)?;
        Ok((event, first, length))
    }

    #[tactic(auto, unfolding(crate::specs::Forms::first_fault))]
    pub(crate) fn activity_id(&self) -> Result<ActivityId, ParseFault>
        ensures no_fault { IfOk result (λ id. first_fault self.now (ranges.id ∷ []) never ≡ None) }
        ensures value { IfOk result (λ id. id ≡ natural (values self.now) 0) }
        ensures fault { IfErr result (λ fault.
            first_fault self.now (ranges.id ∷ []) never ≡ Some fault) }
    {
        let [id] = self.words else {
            return Err(ParseFault::WordCount);
        };
        activity_at(self.place, id)
    }

    #[tactic(auto, unfolding(crate::specs::Forms::first_fault))]
    pub(crate) fn id_and_weight(&self) -> Result<(ActivityId, Weight), ParseFault>
        ensures no_fault { IfOk result (λ pair.
            first_fault self.now (ranges.id ∷ ranges.weight ∷ []) never ≡ None) }
        ensures id { IfOk result (λ pair. pair.0 ≡ natural (values self.now) 0) }
        ensures weight { IfOk result (λ pair. pair.1 ≡ natural (values self.now) 1) }
        ensures fault { IfErr result (λ fault.
            first_fault self.now (ranges.id ∷ ranges.weight ∷ []) never ≡ Some fault) }
    {
        let [id, weight] = self.words else {
            return Err(ParseFault::WordCount);
        };
        let id = activity_at(self.place, id)?;
        let weight = weight_at(self.place + 1, weight)?;
        Ok((id, weight))
    }

    #[tactic(auto, unfolding(crate::specs::Forms::first_fault))]
    pub(crate) fn id_and_ends(&self) -> Result<(ActivityId, EventId, EventId), ParseFault>
        ensures no_fault { IfOk result (λ ends.
            first_fault self.now (ranges.id ∷ ranges.id ∷ ranges.id ∷ []) never ≡ None) }
        ensures id { IfOk result (λ ends. ends.0 ≡ natural (values self.now) 0) }
        ensures from { IfOk result (λ ends. ends.1 ≡ natural (values self.now) 1) }
        ensures to { IfOk result (λ ends. ends.2 ≡ natural (values self.now) 2) }
        ensures fault { IfErr result (λ fault.
            first_fault self.now (ranges.id ∷ ranges.id ∷ ranges.id ∷ []) never ≡ Some fault) }
    {
        let [id, from, to] = self.words else {
            return Err(ParseFault::WordCount);
        };
        let id = activity_at(self.place, id)?;
        let from = event_at(self.place + 1, from)?;
        let to = event_at(self.place + 2, to)?;
        Ok((id, from, to))
    }

    #[tactic(auto, unfolding(crate::specs::Forms::first_fault))]
    pub(crate) fn id_and_span(&self) -> Result<(ActivityId, Span), ParseFault>
        ensures no_fault { IfOk result (λ pair.
            first_fault self.now (ranges.id ∷ ranges.bound ∷ ranges.bound ∷ []) (crosses_at 1)
            ≡ None) }
        ensures id { IfOk result (λ pair. pair.0 ≡ natural (values self.now) 0) }
        ensures span { IfOk result (λ pair. pair.1 ≡ span_at (values self.now) 1) }
        ensures fault { IfErr result (λ fault.
            first_fault self.now (ranges.id ∷ ranges.bound ∷ ranges.bound ∷ []) (crosses_at 1)
            ≡ Some fault) }
    {
        let [id, lower, upper] = self.words else {
            return Err(ParseFault::WordCount);
        };
        let id = activity_at(self.place, id)?;
        let lower = bound_at(self.place + 1, lower)?;
        let upper = bound_at(self.place + 2, upper)?;
        let span = span_between(lower, upper)?;
        Ok((id, span))
    }

    #[tactic(auto, unfolding(crate::specs::Forms::first_fault))]
    pub(crate) fn activity(&self) -> Result<Activity, ParseFault>
        ensures no_fault { IfOk result (λ activity.
            first_fault self.now activity_ranges (crosses_at 3) ≡ None) }
        ensures value { IfOk result (λ activity. activity ≡ activity_of (values self.now)) }
        ensures fault { IfErr result (λ fault.
            first_fault self.now activity_ranges (crosses_at 3) ≡ Some fault) }
    {
        let [id, from, to, lower, upper, weight] = self.words else {
            return Err(ParseFault::WordCount);
        };
        let words = ActivityWords {
            id,
            from,
            to,
            lower,
            upper,
            weight,
        };
        match words.activity_at(self.place) {
            Ok(activity) => Ok(activity),
            Err(fault) => Err(fault),
        }
    }

    #[tactic(auto, unfolding(crate::specs::Forms::first_fault))]
    pub(crate) fn limit(&self) -> Result<u64, ParseFault>
        ensures no_fault { IfOk result (λ limit.
            first_fault self.now (ranges.limit ∷ []) never ≡ None) }
        ensures value { IfOk result (λ limit. limit ≡ natural (values self.now) 0) }
        ensures fault { IfErr result (λ fault.
            first_fault self.now (ranges.limit ∷ []) never ≡ Some fault) }
    {
        let [limit] = self.words else {
            return Err(ParseFault::WordCount);
        };
        limit_at(self.place, limit)
    }
}
