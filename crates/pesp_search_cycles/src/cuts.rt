//! Flip cuts of a network with walks.

ghost use Rattle.std.specs.Prelude.{◌≡◌, ℕ, List, All, IfOk, length};
ghost use Rattle.pesp_search_network.specs.Arcs.{IsMet};
ghost use Rattle.pesp_search_cycles.specs.Maps.{Holds, numbers_of};
ghost use Rattle.pesp_search_cycles.specs.Ranges.{AreIn};

use crate::flip::{Flip, FlipCut, flip_cut};
use crate::residues::residue_ranges;
use crate::root::root;
use crate::{Cycles, Range, Walk};
use pesp_base::Memory;
use pesp_search_network::Network;
use std::alloc::Global;

/// The cuts of flips, for variables in these ranges.
pub(crate) fn cuts_of(
    alloc: Global,
    cycles: &Cycles,
    numbers: &[Range],
    flips: &[Flip],
) -> Result<Vec<FlipCut>, Memory>
    requires { (xs : List ℕ) → IsMet cycles.now.network xs
        → AreIn numbers.now (numbers_of cycles.now.network xs) }
    ensures { IfOk result (λ cuts. All (Holds cycles.now.network) cuts.items) }
{
    let mut cuts = Vec::new(alloc);
    for index in 0..flips.len() {
        let Some(cut) = flip_cut(alloc, cycles, numbers, &flips[index]) else {
            continue;
        };
        if cuts.push(cut).is_err() {
            return Err(Memory);
        }
    }
    Ok(cuts)
}

/// The cuts of flips, for maps with these residues.
fn cuts_among<'x>(
    alloc: Global,
    cycles: &'x Cycles<'x>,
    residues: &'x [Range],
    flips: &[Flip],
) -> Result<Vec<FlipCut>, Memory>
    requires long { length residues.now ≡ cycles.now.network.events }
    requires all { (map : List ℕ) → IsMet cycles.now.network map → AreIn residues.now map }
    ensures { IfOk result (λ cuts. All (Holds cycles.now.network) cuts.items) }
{
    let Some(boxes) = root(alloc, cycles, residues)? else {
        return Ok(Vec::new(alloc));
    };
    cuts_of(alloc, cycles, &boxes.numbers, flips)
}

/// The cuts of flips, for a network with walks.
pub(crate) fn cuts_beside(
    alloc: Global,
    network: &Network,
    walks: &[Walk],
    flips: &[Flip],
) -> Result<Vec<FlipCut>, Memory>
    ensures { IfOk result (λ cuts. All (Holds network.now) cuts.items) }
{
    if flips.is_empty() {
        return Ok(Vec::new(alloc));
    }
    let residues = residue_ranges(alloc, network)?;
    let plain = Cycles::without_cuts(alloc, network, walks)?;
    cuts_among(alloc, &plain, &residues, flips)
}
