//! Networks with walks and cuts.

ghost use Rattle.std.specs.Prelude.{◌≡◌, ◌++◌, All, List, IfOk, IsTrue};
ghost use Rattle.pesp_search_network.specs.Weights.{AreAlike};
ghost use Rattle.pesp_search_cycles.specs.Maps.{AreCycles, Holds};
ghost use Rattle.pesp_search_cycles.specs.Stacks.{net_of};
ghost use Rattle.pesp_search_cycles.specs.Walks.{Path, joins};

use crate::Walk;
use crate::flip::FlipCut;
use crate::walk::copied;
use pesp_base::{Memory, Period};
use pesp_search_network::Network;
use std::alloc::Global;
use std::marker::Model;

/// A network, walks in it, and cuts.
#[derive(Drop)]
pub struct Cycles<'a> {
    // The network, unchanged.
    network: &'a Network,
    // Each leads from its first event to its last.
    walks: Vec<Walk>,
    // Each holds for all maps of the network.
    cuts: &'a [FlipCut],
}

impl<'a> Model for Cycles<'a> {
    ghost use Rattle.pesp_search_cycles.specs.Maps.{AreCycles, Net};

    ghost Value = { Net };

    ghost view = { λ a. record { network = a.network.now; walks = a.walks.items; cuts = a.cuts.now } };

    ghost invariant = { λ a. AreCycles (record { network = a.network.now; walks = a.walks.items; cuts = a.cuts.now }) };
}

impl<'a> Cycles<'a> {
    /// The network with those of the walks that lead from their first event to their last.
    pub(crate) fn new(
        alloc: Global,
        network: &'a Network,
        walks: Vec<Walk>,
        cuts: &'a [FlipCut],
    ) -> Result<Cycles<'a>, Memory>
        requires { All (Holds network.now) cuts.now }
        ensures network { IfOk result (λ cycles. cycles.network ≡ network.now) }
        ensures cuts { IfOk result (λ cycles. cycles.cuts ≡ cuts.now) }
    {
        network.sound();
        let mut joined = Vec::new(alloc);
        for walk in walks {
            if walk.joins(network.events(), network.arcs()) && joined.push(walk).is_err() {
                return Err(Memory);
            }
        }
        Ok(Cycles {
            network,
            walks: joined,
            cuts,
        })
    }

    /// The network with walks that all lead from their first event to their last.
    pub(crate) fn joined(network: &'a Network, walks: Vec<Walk>, cuts: &'a [FlipCut]) -> Cycles<'a>
        requires { AreCycles (net_of network.now walks.items cuts.now) }
        ensures { result ≡ net_of network.now walks.items cuts.now }
    {
        Cycles {
            network,
            walks,
            cuts,
        }
    }

    /// The walks alone.
    pub(crate) fn into_walks(self) -> Vec<Walk>
        ensures walks { result.items ≡ self.entry.walks }
        ensures sound { AreCycles self.entry }
    {
        self.walks
    }

    /// The same network and walks without cuts.
    pub(crate) fn without_cuts(
        alloc: Global,
        network: &'a Network,
        walks: &[Walk],
    ) -> Result<Cycles<'a>, Memory>
        ensures { IfOk result (λ cycles. cycles.network ≡ network.now) }
    {
        Cycles::new(alloc, network, copied(alloc, walks)?, &[])
    }

    /// The same with more walks: those that lead from their first event to their last.
    pub(crate) fn with(&self, alloc: Global, more: &[Walk]) -> Result<Cycles<'a>, Memory>
        ensures network { IfOk result (λ cycles. cycles.network ≡ self.now.network) }
        ensures walks { IfOk result (λ cycles. (others : List Path)
            × (cycles.walks ≡ self.now.walks ++ others)) }
    {
        let network = self.network;
        let mut walks = copied(alloc, &self.walks)?;
        for index in 0..more.len() {
            let walk = more[index].copy()?;
            if !walk.joins(network.events(), network.arcs()) {
                continue;
            }
            if walks.push(walk).is_err() {
                return Err(Memory);
            }
        }
        Ok(Cycles {
            network,
            walks,
            cuts: self.cuts,
        })
    }

    /// The same walks and cuts in a network that differs only in its weights.
    pub(crate) fn over(&self, alloc: Global, network: &'a Network) -> Result<Cycles<'a>, Memory>
        requires same { network.now ≡ record self.now.network { arcs = network.now.arcs } }
        requires alike { AreAlike network.now.arcs self.now.network.arcs }
        ensures network { IfOk result (λ cycles. cycles.network ≡ network.now) }
        ensures walks { IfOk result (λ cycles. cycles.walks ≡ self.now.walks) }
    {
        network.sound();
        let walks = copied(alloc, &self.walks)?;
        Ok(Cycles {
            network,
            walks,
            cuts: self.cuts,
        })
    }

    /// Facts that hold for all of these.
    pub(crate) fn sound(&self)
        ensures { AreCycles self.now }
    {
        let _ = &self.walks;
    }

    pub(crate) fn network(&self) -> &'a Network
        ensures { result.now ≡ self.now.network }
    {
        self.network
    }

    pub(crate) fn period(&self) -> Period
        ensures { result ≡ self.now.network.period }
    {
        self.network.period()
    }

    pub(crate) fn walks(&self) -> &[Walk]
        ensures value { result.now ≡ self.now.walks }
        ensures joined { All (λ p. IsTrue (joins self.now.network.events self.now.network.arcs p))
            self.now.walks }
    {
        &self.walks
    }

    pub(crate) fn cuts(&self) -> &'a [FlipCut]
        ensures value { result.now ≡ self.now.cuts }
        ensures kept { All (Holds self.now.network) self.now.cuts }
    {
        self.cuts
    }
}
