//! Boxes that contain all maps of least cost, found part by part.

ghost use Rattle.std.specs.Prelude.{◌≡◌, ℕ, ◌+◌, ◌^◌, ◌<◌, ◌≤◌, All, IfOk, IfSome, List, OnOk, length};
ghost use Rattle.pesp_search_least.specs.Spending.{OnlySpends};
ghost use Rattle.pesp_search_least.specs.Sums.{InSome, IsWithin};
ghost use Rattle.pesp_search_cycles.specs.Maps.{AreBoxes, IsAmong, IsInside};
ghost use Rattle.pesp_search_cycles.specs.Starts.{AreStarts, IsFound, IsInBoxes, part_of, parts_before};

use crate::boxes::Boxes;
use crate::open::{leaves_of_part, whole};
use crate::parts::{Part, Parts};
use crate::spent::spent_of;
use crate::{Cycles, Range};
use pesp_base::Memory;
use pesp_search_least::Budget;
use std::alloc::Global;

/// The most units for a part; if they are not enough, all parts are searched together. With 20,000, two wide
/// regions did not end (docs/HISTORY.md, "Rounds a period too wide").
const UNITS_OF_PART: u64 = 200_000;

/// The most boxes. If a part's boxes would make more, they are not used. No trial of this number is recorded.
const MOST_STARTS: usize = 64;

/// With more parts than this, none is searched separately. No trial of this number is recorded.
const MOST_PARTS: usize = 256;

/// Boxes of a network.
#[derive(Drop)]
pub(crate) struct Starts<'a> {
    // The whole network.
    pub(crate) cycles: &'a Cycles<'a>,
    // Boxes of this network.
    pub(crate) boxes: Vec<Boxes>,
    ghost fit: { All (AreBoxes cycles.now) boxes.items },
}

/// A network, and a map that is taken for one of least cost.
#[derive(Drop)]
pub(crate) struct Site<'a> {
    // The network with its walks.
    pub(crate) cycles: &'a Cycles<'a>,
    // One for each event.
    pub(crate) residues: &'a [Range],
    // Any map.
    pub(crate) map: &'a [u16],
    ghost long: { length residues.now ≡ cycles.now.network.events },
}

/// The least cost in some parts, and boxes of the maps with that cost.
#[derive(Drop)]
struct Found {
    // The sum over these parts.
    cost: u64,
    // Boxes of the site's network.
    boxes: Vec<Boxes>,
}

impl<'a> Starts<'a> {
    /// These boxes alone.
    fn alone(alloc: Global, cycles: &'a Cycles<'a>, boxes: &Boxes) -> Result<Starts<'a>, Memory>
        requires fit { AreBoxes cycles.now boxes.now }
        ensures cycles { IfOk result (λ starts. starts.cycles.now ≡ cycles.now) }
        ensures inside { IfOk result (λ starts. (xs : List ℕ) (sum : ℕ)
            → IsInside cycles.now boxes.now xs
            → InSome (IsInBoxes cycles.now) starts.boxes.items xs sum) }
    {
        let mut all = Vec::new(alloc);
        if all.push(boxes.copy()?).is_err() {
            return Err(Memory);
        }
        Ok(Starts { cycles, boxes: all })
    }

    /// Appends boxes, narrowed to each of others.
    fn push(&mut self, boxes: &Boxes, others: &[Boxes]) -> Result<(), Memory>
        requires fit { AreBoxes self.old.cycles.now boxes.now }
        requires others { All (AreBoxes self.old.cycles.now) others.now }
        ensures cycles { self.new.cycles ≡ self.old.cycles }
        ensures before { OnOk result (IsWithin
            (InSome (IsInBoxes self.old.cycles.now) self.old.boxes.items)
            (InSome (IsInBoxes self.old.cycles.now) self.new.boxes.items)) }
        ensures both { OnOk result ((xs : List ℕ) (sum : ℕ)
            → IsInside self.old.cycles.now boxes.now xs
            → InSome (IsInBoxes self.old.cycles.now) others.now xs sum
            → InSome (IsInBoxes self.old.cycles.now) self.new.boxes.items xs sum) }
    {
        for index in 0..others.len() {
            let mut narrowed = boxes.copy()?;
            narrowed.narrow(&others[index]);
            if self.boxes.push(narrowed).is_err() {
                return Err(Memory);
            }
        }
        Ok(())
    }

    /// The intersections with others, or these boxes if that would make too many.
    fn and(self, alloc: Global, others: &[Boxes]) -> Result<Starts<'a>, Memory>
        requires others { All (AreBoxes self.cycles.now) others.now }
        ensures cycles { IfOk result (λ starts. starts.cycles.now ≡ self.entry.cycles.now) }
        ensures both { IfOk result (λ starts. (xs : List ℕ) (sum : ℕ)
            → InSome (IsInBoxes self.entry.cycles.now) self.entry.boxes.items xs sum
            → InSome (IsInBoxes self.entry.cycles.now) others.now xs sum
            → InSome (IsInBoxes self.entry.cycles.now) starts.boxes.items xs sum) }
    {
        if self.boxes.len().saturating_mul(others.len()) > MOST_STARTS {
            return Ok(self);
        }
        let mut both = Starts {
            cycles: self.cycles,
            boxes: Vec::new(alloc),
        };
        for index in 0..self.boxes.len() {
            both.push(&self.boxes[index], others)?;
        }
        Ok(both)
    }
}

/// The cost of the map in a part if none costs less there, and the boxes of maps with that cost.
fn found_in(
    alloc: Global,
    site: &Site,
    part: Part,
    budget: &mut Budget,
) -> Result<Option<Found>, Memory>
    ensures found { IfOk result (λ found. IfSome found (λ found. IsFound
        (part_of site.now.cycles.now.network part.entry.parts.now.arcs.items part.entry.name)
        site.now.cycles.now site.now.residues.now found.cost found.boxes.items)) }
    ensures budget { OnlySpends budget.old.left budget.new.left }
{
    let network = site.cycles.network();
    if part.parts.arcs.len() != network.arc_count() {
        return Ok(None);
    }
    let network = network.of_part(alloc, &part.parts.arcs, part.name)?;
    let Some(cost) = network.cost(site.map) else {
        return Ok(None);
    };
    if cost == u64::MAX {
        return Ok(None);
    }
    let cycles = site.cycles.over(alloc, &network)?;
    let mut own = budget.part(UNITS_OF_PART);
    let given = own.left;
    let leaves = leaves_of_part(alloc, &cycles, site.residues, Some(part), cost, &mut own)?;
    budget.spend(spent_of(given, own.left));
    if leaves.least < cost {
        return Ok(None);
    }
    Ok(Some(Found {
        cost,
        boxes: leaves.boxes,
    }))
}

/// The same for all parts together; the boxes are narrowed to those of each part.
fn found_in_all(
    alloc: Global,
    site: &Site,
    parts: &Parts,
    root: &Boxes,
    budget: &mut Budget,
) -> Result<Option<Found>, Memory>
    requires fit { AreBoxes site.now.cycles.now root.now }
    requires root { (xs : List ℕ) (sum : ℕ)
        → IsAmong site.now.cycles.now.network site.now.residues.now xs sum
        → IsInside site.now.cycles.now root.now xs }
    ensures found { IfOk result (λ found. IfSome found (λ found. (n : ℕ) × IsFound
        (parts_before site.now.cycles.now.network parts.now.arcs.items n)
        site.now.cycles.now site.now.residues.now found.cost found.boxes.items)) }
    ensures budget { OnlySpends budget.old.left budget.new.left }
{
    let mut cost: u64 = 0;
    let mut starts = Starts::alone(alloc, site.cycles, root)?;
    for name in 0..parts.count() {
        let Some(found) = found_in(alloc, site, Part { parts, name }, budget)? else {
            return Ok(None);
        };
        let Some(sum) = cost.checked_add(found.cost) else {
            return Ok(None);
        };
        cost = sum;
        starts = starts.and(alloc, &found.boxes)?;
    }
    Ok(Some(Found {
        cost,
        boxes: starts.boxes,
    }))
}

/// Boxes that contain each map with these residues of this cost, if none costs less.
pub(crate) fn starts_of<'a>(
    alloc: Global,
    site: &Site<'a>,
    parts: &Parts,
    cost: u64,
    budget: &mut Budget,
) -> Result<Starts<'a>, Memory>
    ensures cycles { IfOk result (λ starts. starts.cycles.now ≡ site.now.cycles.now) }
    ensures starts { IfOk result (λ starts. AreStarts site.now.cycles.now.network site.now.cycles.now
        site.now.residues.now cost starts.boxes.items) }
    ensures budget { OnlySpends budget.old.left budget.new.left }
{
    let cycles = site.cycles;
    let (root, _) = whole(alloc, cycles, site.residues, None)?.into_parts();
    let all = Starts::alone(alloc, cycles, &root)?;
    if parts.count() < 2 || MOST_PARTS < parts.count() {
        return Ok(all);
    }
    match found_in_all(alloc, site, parts, &root, budget)? {
        Some(found) if cost <= found.cost => Ok(Starts {
            cycles,
            boxes: found.boxes,
        }),
        _ => Ok(all),
    }
}
