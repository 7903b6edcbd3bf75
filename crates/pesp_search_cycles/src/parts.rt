//! Walks and cuts that share variables, directly or by others. No proof relies on it.

use crate::flip::FlipCut;
use crate::{Cycles, Range, Walk};
use pesp_base::Memory;
use std::alloc::Global;

/// The name of no part, for variables in no walk.
const NO_PART: usize = usize::MAX;

/// Parts of the variables: those of a walk or a cut are in the same part.
#[derive(Drop)]
pub(crate) struct Parts {
    // For each arc the part of its slack.
    pub(crate) arcs: Vec<usize>,
    // For each event the part of its residue.
    events: Vec<usize>,
    // The number of names given so far.
    count: usize,
}

/// One of the parts.
#[derive(Clone, Copy)]
pub(crate) struct Part<'a> {
    // All parts.
    pub(crate) parts: &'a Parts,
    // The name of this part, or of none.
    pub(crate) name: usize,
}

/// The slacks of a walk, and the residues at its ends that are not fixed.
fn numbers_of(
    alloc: Global,
    arcs: usize,
    residues: &[Range],
    walk: &Walk,
) -> Result<Vec<usize>, Memory> {
    let mut numbers = Vec::new(alloc);
    for step in &walk.steps {
        if numbers.push(step.arc).is_err() {
            return Err(Memory);
        }
    }
    if walk.from == walk.to {
        return Ok(numbers);
    }
    for event in [walk.from, walk.to] {
        let is_known = match residues.get(event) {
            Some(range) => range.high <= range.low,
            None => true,
        };
        if !is_known && numbers.push(arcs.saturating_add(event)).is_err() {
            return Err(Memory);
        }
    }
    Ok(numbers)
}

/// The variables of a cut.
fn numbers_of_cut(alloc: Global, cut: &FlipCut) -> Result<Vec<usize>, Memory> {
    let mut numbers = Vec::new(alloc);
    for term in &cut.terms {
        if numbers.push(term.number).is_err() {
            return Err(Memory);
        }
    }
    Ok(numbers)
}

/// Replaces one name by another.
fn replace(names: &mut [usize], old: usize, new: usize) {
    for name in names.iter_mut() {
        if *name == old {
            *name = new;
        }
    }
}

/// Renumbers names in the order of their first occurrence, after the known ones. Returns how many are known
/// then.
fn renumber(names: &mut [usize], known: &mut [usize], count: usize) -> usize {
    let mut count = count;
    for name in names.iter_mut() {
        if let Some(new) = known.get_mut(*name) {
            if *new == NO_PART {
                *new = count;
                count = count.saturating_add(1);
            }
            *name = *new;
        }
    }
    count
}

impl Parts {
    /// The parts of a network whose events have these ranges of residues.
    pub(crate) fn of(alloc: Global, cycles: &Cycles, residues: &[Range]) -> Result<Parts, Memory> {
        let own = cycles.network().arc_count();
        let Ok(arcs) = vec![in alloc; NO_PART; own] else {
            return Err(Memory);
        };
        let Ok(events) = vec![in alloc; NO_PART; residues.len()] else {
            return Err(Memory);
        };
        let mut parts = Parts {
            arcs,
            events,
            count: 0,
        };
        for walk in cycles.walks() {
            let numbers = numbers_of(alloc, own, residues, walk)?;
            parts.join(&numbers);
        }
        for cut in cycles.cuts() {
            let numbers = numbers_of_cut(alloc, cut)?;
            parts.join(&numbers);
        }
        parts.rename(alloc)?;
        Ok(parts)
    }

    /// Joins these variables, and all parts that contain one of them, into one part.
    fn join(&mut self, numbers: &[usize]) {
        let name = self.count;
        self.count = self.count.saturating_add(1);
        for number in numbers {
            let old = self.name(*number);
            if old == NO_PART {
                self.put(*number, name);
            } else if old != name {
                replace(&mut self.arcs, old, name);
                replace(&mut self.events, old, name);
            }
        }
    }

    /// Renumbers the parts without gaps.
    fn rename(&mut self, alloc: Global) -> Result<(), Memory> {
        let Ok(mut known) = vec![in alloc; NO_PART; self.count] else {
            return Err(Memory);
        };
        let count = renumber(&mut self.arcs, &mut known, 0);
        self.count = renumber(&mut self.events, &mut known, count);
        Ok(())
    }

    fn put(&mut self, number: usize, name: usize) {
        if let Some(place) = self.arcs.get_mut(number) {
            *place = name;
            return;
        }
        let event = number.saturating_sub(self.arcs.len());
        if let Some(place) = self.events.get_mut(event) {
            *place = name;
        }
    }

    /// The name of a variable's part.
    fn name(&self, number: usize) -> usize {
        let arcs = self.arcs.len();
        let name = if number < arcs {
            self.arcs.get(number)
        } else {
            self.events.get(number - arcs)
        };
        match name {
            Some(name) => *name,
            None => NO_PART,
        }
    }

    /// The number of parts.
    pub(crate) fn count(&self) -> usize {
        self.count
    }
}

impl<'a> Part<'a> {
    /// Whether the variable is in this part.
    pub(crate) fn has(&self, number: usize) -> bool {
        self.parts.name(number) == self.name
    }
}
