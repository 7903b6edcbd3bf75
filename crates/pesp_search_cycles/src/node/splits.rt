//! Splits of a node.

ghost use Rattle.std.specs.Prelude.{◌≡◌, ◌<◌, IfNone, IfOk, IfSome, drop, length};
ghost use Rattle.pesp_search_least.specs.Sums.{AreHalves};
ghost use Rattle.pesp_search_cycles.specs.Maps.{IsSummed};
ghost use Rattle.pesp_search_cycles.specs.Splits.{AreSingle, HasPlace, IsCut, size};

use super::Node;
use crate::cut::{Choice, last_cut, number_cut, round_cut};
use crate::gap::gap_at;
use pesp_base::Memory;

impl<'a> Node<'a> {
    /// The most promising split, the half to search first before the other.
    fn proposed(&self) -> Option<Choice>
        ensures place { IfSome result (λ choice. HasPlace self.now.boxes choice.place) }
        ensures cut { IfSome result (λ choice.
            IsCut self.now.cycles.now self.now.boxes choice.place choice.halves) }
    {
        let proposal = self.proposer.split(self.cycles.period())?;
        let choice = round_cut(self.cycles, &self.boxes, proposal.walk, proposal.at)?;
        if proposal.is_above_first {
            Some(choice.swapped())
        } else {
            Some(choice)
        }
    }

    /// The split of an event's range if the tableau's residue is missing from its domain.
    fn at_gap(&self) -> Option<Choice>
        ensures place { IfSome result (λ choice. HasPlace self.now.boxes choice.place) }
        ensures cut { IfSome result (λ choice.
            IsCut self.now.cycles.now self.now.boxes choice.place choice.halves) }
    {
        let network = self.cycles.network();
        let residues = self.residues();
        let arcs = network.arcs().len();
        for event in 0..residues.len() {
            let number = arcs + event;
            let residue = self.proposer.number(number);
            if let Some(at) = gap_at(network.row(event), residues[event], residue) {
                if let Some(choice) = number_cut(&self.boxes, number, at) {
                    return Some(choice);
                }
            }
        }
        None
    }

    /// The most promising split, or one at a gap of a domain.
    fn first_choice(&self) -> Option<Choice>
        ensures place { IfSome result (λ choice. HasPlace self.now.boxes choice.place) }
        ensures cut { IfSome result (λ choice.
            IsCut self.now.cycles.now self.now.boxes choice.place choice.halves) }
    {
        match self.proposed() {
            Some(choice) => Some(choice),
            None => self.at_gap(),
        }
    }

    /// The split to make. There is none once each event has at most one residue.
    fn choice(&self) -> Option<Choice>
        ensures place { IfSome result (λ choice. HasPlace self.now.boxes choice.place) }
        ensures cut { IfSome result (λ choice.
            IsCut self.now.cycles.now self.now.boxes choice.place choice.halves) }
        ensures none { IfNone result (AreSingle (drop (length self.now.cycles.now.network.arcs)
            self.now.boxes.numbers.items)) }
    {
        match self.first_choice() {
            Some(choice) => Some(choice),
            None => last_cut(self.cycles, &self.boxes),
        }
    }

    /// Keeps the maps below the split, and returns those above it.
    fn halve(&mut self, choice: Choice) -> Result<Node<'a>, Memory>
        requires place { HasPlace self.old.boxes choice.place }
        requires cut { IsCut self.old.cycles.now self.old.boxes choice.place choice.halves }
        ensures halves { IfOk result (λ other. AreHalves
            (IsSummed self.old.cycles.now self.old.boxes)
            (IsSummed self.new.cycles.now self.new.boxes)
            (IsSummed other.cycles.now other.boxes)) }
        ensures cycles { self.new.cycles ≡ self.old.cycles }
        ensures other { IfOk result (λ other. other.cycles ≡ self.old.cycles) }
        ensures first { IfOk result (λ _. size self.new.boxes < size self.old.boxes) }
        ensures second { IfOk result (λ other. size other.boxes < size self.old.boxes) }
    {
        let Ok(rates) = self.rates.clone() else {
            return Err(Memory);
        };
        let Ok(multipliers) = self.multipliers.clone() else {
            return Err(Memory);
        };
        let proposer = self.proposer.waiting()?;
        let above = self.boxes.with(choice.place, choice.halves.above)?;
        self.boxes.put(choice.place, choice.halves.below);
        self.is_polished = false;
        Ok(Node {
            cycles: self.cycles,
            boxes: above,
            bound: self.bound,
            rates,
            multipliers,
            proposer,
            is_polished: false,
        })
    }

    /// Keeps one half of the maps and returns the other, or keeps all if each event has at most one residue.
    pub(crate) fn halves(&mut self) -> Result<Option<Node<'a>>, Memory>
        ensures cycles { self.new.cycles ≡ self.old.cycles }
        ensures other { IfOk result (λ half. IfSome half (λ other.
            other.cycles ≡ self.old.cycles)) }
        ensures halves { IfOk result (λ half. IfSome half (λ other. AreHalves
            (IsSummed self.old.cycles.now self.old.boxes)
            (IsSummed self.new.cycles.now self.new.boxes)
            (IsSummed other.cycles.now other.boxes))) }
        ensures first { IfOk result (λ half. IfSome half (λ _.
            size self.new.boxes < size self.old.boxes)) }
        ensures second { IfOk result (λ half. IfSome half (λ other.
            size other.boxes < size self.old.boxes)) }
        ensures same { IfOk result (λ half. IfNone half (self.new ≡ self.old)) }
        ensures single { IfOk result (λ half. IfNone half (AreSingle
            (drop (length self.old.cycles.now.network.arcs) self.old.boxes.numbers.items))) }
    {
        let Some(choice) = self.choice() else {
            return Ok(None);
        };
        let other = self.halve(choice)?;
        Ok(Some(other))
    }
}
