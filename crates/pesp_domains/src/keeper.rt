//! Keepers of the domains of an instance.

use crate::{Pair, Row};
use pesp_base::{EventId, Refusal};
use pesp_instance::{Edit, Instance};
use std::alloc::Global;

/// Out of memory for the domains of the instance.
#[derive(Drop)]
pub struct NoRoom {
    pub instance: Instance,
}

/// Keeps an instance, pushed pairs, and a row for each event: its domain under those pairs.
///
/// The domains are the largest family of pairs in which each pair is in its event's window, agrees
/// with the pushed residue of its event, and has a partner along each activity at its event. How a
/// keeper computes and stores them is free: its results depend on the instance and the pushed pairs
/// alone.
pub trait Keeper: Drop {
    ghost use Rattle.std.specs.Prelude.{◌≡◌, ℕ, ◌+◌, ◌-◌, ◌^◌, min, ◌<◌, ◌↔◌, [], ◌∷◌, ◌++◌, List, length, Ok, IsTrue, IfOk, IfErr, IfSome, OnOk, OnErr, is_some};
    ghost use Rattle.pesp_instance.specs.Network.{Network, has_event};
    ghost use Rattle.pesp_instance.specs.Edited.{edited, IsRefusal};
    ghost use Rattle.pesp_domains.specs.declared.pair.Pair.{Pair};
    ghost use Rattle.pesp_domains.specs.Domains.{In, InDomains, IsDomain};

    /// The instance that is kept.
    ghost network: { Self → Network };

    /// The pushed pairs, the last one at the end.
    ghost pushes: { Self → List Pair };

    /// The number of pushes since the keeper was made, popped ones included. It saturates.
    ghost push_count: { Self → ℕ };

    /// Keeps the instance, with nothing pushed, or returns it if memory runs out.
    fn from_instance(alloc: Global, instance: Instance) -> Result<Self, NoRoom>
        ensures network { IfOk result (λ keeper. network keeper ≡ instance) }
        ensures pushes { IfOk result (λ keeper. pushes keeper ≡ []) }
        ensures count { IfOk result (λ keeper. push_count keeper ≡ 0) }
        ensures back { IfErr result (λ no_room. no_room.instance ≡ instance) };

    fn instance(&self) -> &Instance
        ensures { result.now ≡ network self.now };

    /// Whether the residue is in the event's domain. A number that is not an event has an empty
    /// one.
    fn holds(&self, event: EventId, residue: u16) -> bool
        ensures { IsTrue result ↔ InDomains (network self.now) (pushes self.now) event residue };

    /// The domain of an event.
    fn row(&self, event: EventId) -> Option<&Row>
        ensures event { is_some result ≡ has_event (network self.now) event }
        ensures domain { IfSome result
            (λ row. IsDomain (network self.now) (pushes self.now) event row.now) };

    /// Makes an edit while nothing is pushed, or returns the first refusal and changes nothing.
    ///
    /// Only `AddEvent`, `AddActivity` and `SetEnds` can run out of memory, which is the last
    /// refusal.
    fn apply(&mut self, edit: &Edit) -> Result<(), Refusal>
        requires { pushes self.old ≡ [] }
        ensures ok { OnOk result (edited (network self.old) edit.now ≡ Ok (network self.new)) }
        ensures err { IfErr result (IsRefusal (network self.old) edit.now) }
        ensures unchanged { OnErr result (network self.new ≡ network self.old) }
        ensures pushes { pushes self.new ≡ [] }
        ensures count { push_count self.new ≡ push_count self.old };

    /// Pushes a pair. It never runs out of memory.
    fn push_fix(&mut self, event: EventId, residue: u16)
        requires event { IsTrue (has_event (network self.old) event) }
        requires free { (r : ℕ) → In (pushes self.old) event r → ⊥ }
        requires residue { residue < (network self.old).period }
        ensures network { network self.new ≡ network self.old }
        ensures pushes { pushes self.new
            ≡ pushes self.old ++ record { event = event; residue = residue } ∷ [] }
        ensures count { push_count self.new ≡ min (2 ^ 64 - 1) (push_count self.old + 1) };

    /// Pops the last pair. It never runs out of memory.
    fn pop_fix(&mut self)
        requires { 0 < length (pushes self.old) }
        ensures network { network self.new ≡ network self.old }
        ensures pushes { (last : Pair) × (pushes self.old ≡ pushes self.new ++ last ∷ []) }
        ensures count { push_count self.new ≡ push_count self.old };
}
