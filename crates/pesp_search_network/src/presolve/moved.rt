//! The arcs of a reduced network.

ghost use Rattle.std.specs.Prelude.{◌≡◌, ℕ, ◌+◌, ◌<◌, [], IfOk, IfSome, true, length, slice_index_or};
ghost use Rattle.pesp_search_network.specs.Prices.{AreExchanged};
ghost use Rattle.pesp_search_network.specs.Tied.{AreMoved, IsMoved};
ghost use Rattle.pesp_search_network.specs.declared.presolve.shift.Shift.{Shift};

use crate::presolve::shift::Shift;
use crate::{Arc, Network};
use pesp_base::{Memory, Period, Span, slack};

/// The span with these bounds, if it is a valid one.
fn span_between(lower: i32, upper: i32) -> Option<Span>
    ensures { IfSome result (λ span. (span.lower ≡ lower) × (span.upper ≡ upper)) }
{
    match Span::new(lower, upper) {
        Ok(span) => Some(span),
        Err(_) => None,
    }
}

/// The arc between the events that represent the ends, with the same slack at their residues.
fn move_arc(period: Period, arc: &Arc, from: Shift, to: Shift) -> Option<Arc>
    ensures { IfSome result (IsMoved period arc.now from to) }
{
    if from.offset >= period.get() || to.offset >= period.get() {
        return None;
    }
    let lower = -i32::from(slack(period, arc.span, from.offset, to.offset));
    let span = span_between(lower, lower + i32::from(arc.width(period)))?;
    Some(Arc {
        from: from.index,
        to: to.index,
        span,
        weight: arc.weight,
    })
}

impl Network {
    /// Adds the moved arcs to a reduced network, and returns whether each arc could be moved.
    pub(crate) fn move_arcs(&self, reduced: &mut Network, shifts: &[Shift]) -> Result<bool, Memory>
        requires long { length shifts.now ≡ self.now.events }
        requires within { (event : ℕ) (d : Shift) → event < self.now.events
            → (slice_index_or shifts.now event d).index < reduced.old.events }
        requires none { reduced.old.arcs ≡ [] }
        ensures moved { IfOk result (λ is_done. is_done ≡ true
            → AreMoved self.now shifts.now reduced.new) }
        ensures same { reduced.new ≡ record reduced.old { arcs = reduced.new.arcs } }
    {
        let period = self.period();
        for index in 0..self.arc_count() {
            let arc = self.arc(index);
            let Some(moved) = move_arc(period, &arc, shifts[arc.from], shifts[arc.to]) else {
                return Ok(false);
            };
            reduced.add(moved)?;
        }
        Ok(true)
    }
}
