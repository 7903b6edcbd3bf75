//! The events of a piece of a network.

ghost use Rattle.std.specs.Prelude.{◌≡◌, ◌<◌, slice_index};
ghost use Rattle.pesp_search_network.specs.Pieces.{IsJoined, is_inner, touches, turn_of};

use crate::Arc;
use pesp_base::Period;

/// The events of a piece, and the one event outside that it is joined to, if any.
#[derive(Drop)]
pub(crate) struct Separation {
    // For each event whether it is in the piece.
    pub(crate) inner: Vec<bool>,
    // The event outside; a piece without one may still have arcs to events with a single residue.
    pub(crate) joint: Option<usize>,
}

/// The residue of an event; 0 if the map does not have it.
fn residue(map: &[u16], event: usize) -> usize
    ensures value { result ≡ slice_index map.now event }
    ensures small { result < 65536 }
{
    match map.get(event) {
        Some(residue) => usize::from(*residue),
        None => 0,
    }
}

impl Separation {
    /// Whether the event is in the piece.
    pub(crate) fn has(&self, event: usize) -> bool
        ensures { result ≡ is_inner self.now.inner.items event }
    {
        match self.inner.get(event) {
            Some(is_inner) => *is_inner,
            None => false,
        }
    }

    /// Whether an arc has an end in the piece.
    pub(crate) fn touches(&self, arc: &Arc) -> bool
        ensures { result ≡ touches self.now.inner.items arc.now }
    {
        self.has(arc.from) || self.has(arc.to)
    }

    /// The turn after which a map of the piece agrees with one of the rest.
    pub(crate) fn turn(&self, period: Period, piece: &[u16], rest: &[u16]) -> usize
        ensures value { result ≡ turn_of period self.now.joint piece.now rest.now }
        ensures below { result < period }
    {
        let Some(joint) = self.joint else {
            return 0;
        };
        let period = usize::from(period.get());
        let from = residue(piece, joint);
        let to = residue(rest, joint);
        (to + (period - from % period)) % period
    }

    /// A map of the rest, with the residues of the turned map of the piece.
    pub(crate) fn join(
        &self,
        period: Period,
        turn: usize,
        piece: &[u16],
        rest: Vec<u16>,
    ) -> Vec<u16>
        requires { turn < period }
        ensures { IsJoined period self.now.inner.items turn piece.now rest.items result.items }
    {
        let mut map = rest;
        for event in 0..map.len() {
            if self.has(event) {
                let turned = (residue(piece, event) + turn) % usize::from(period.get());
                map[event] = turned as u16;
            }
        }
        map
    }
}
