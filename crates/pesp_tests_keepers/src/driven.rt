//! A keeper driven by requests.

ghost use Rattle.std.specs.Prelude.{◌≡◌, ℕ, false};
ghost use Rattle.pesp_domains.specs.Domains.{In};

use crate::request::Request;
use crate::rows;
use pesp_base::{EventId, Period};
use pesp_domains::{Keeper, Pair};
use pesp_instance::{Edit, Instance};
use std::alloc::Global;
use std::marker::Model;

/// A keeper, with the pairs that are pushed on it.
#[derive(Drop)]
pub(crate) struct Driven<K: Keeper> {
    // Its pushes are those of `pushed`.
    keeper: K,
    // The pairs in the order of their pushes.
    pushed: Vec<Pair>,
}

impl<K: Keeper> Model for Driven<K> {
    ghost use Rattle.std.specs.Prelude.{◌≡◌};
    ghost use Rattle.pesp_instance.specs.Network.{Network};

    ghost Value = { Network };

    ghost view = { λ d. K.network d.keeper };

    ghost invariant = { λ d. K.pushes d.keeper ≡ d.pushed.items };
}

/// Whether one of the pairs is of the event.
fn has_event(pairs: &[Pair], event: EventId) -> bool
    ensures { result ≡ false → (r : ℕ) → In pairs.now event r → ⊥ }
{
    pairs.iter().any(|pair| pair.event == event)
}

impl<K: Keeper> Driven<K> {
    /// The keeper of the instance without events.
    pub(crate) fn new(alloc: Global, period: Period) -> Option<Driven<K>> {
        let keeper = K::from_instance(alloc, Instance::new(alloc, period)).ok()?;
        Some(Driven {
            keeper,
            pushed: Vec::new(alloc),
        })
    }

    pub(crate) fn keeper(&self) -> &K {
        &self.keeper
    }

    /// Makes the edit, which is refused while something is pushed.
    fn edit(&mut self, rt: &impl Print, edit: &Edit) {
        if !self.pushed.is_empty() {
            let _ = rt.println("not now");
            return;
        }
        match self.keeper.apply(edit) {
            Ok(()) => {
                let _ = rt.println("ok");
            }
            Err(refusal) => {
                let _ = println!(rt; "refused {}", refusal.number());
            }
        }
    }

    /// Pushes the pair if the instance has it, no other pair of its event is pushed, and there is
    /// room to record it.
    fn push(&mut self, event: EventId, residue: u16) -> bool {
        let instance = self.keeper.instance();
        if !instance.has_event(event) || residue >= instance.period().get() {
            return false;
        }
        if has_event(&self.pushed, event) || self.pushed.push(Pair { event, residue }).is_err() {
            return false;
        }
        self.keeper.push_fix(event, residue);
        true
    }

    /// Pops the last pair, if there is one.
    fn pop(&mut self) -> bool {
        let is_fine = self.pushed.pop().is_some();
        if is_fine {
            self.keeper.pop_fix();
        }
        is_fine
    }

    /// Executes a request, and prints the result and the rows.
    pub(crate) fn follow(&mut self, rt: &impl Print, request: &Request) {
        match request {
            Request::Edit(edit) => self.edit(rt, edit),
            Request::Push(event, residue) => told(rt, self.push(*event, *residue)),
            Request::Pop => told(rt, self.pop()),
        }
        rows::tell(rt, &self.keeper);
    }
}

fn told(rt: &impl Print, is_done: bool) {
    let _ = rt.println(if is_done { "ok" } else { "not now" });
}
