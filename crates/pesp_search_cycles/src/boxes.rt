//! Bounds of a network's variables, and of the rounds of walks.

ghost use Rattle.std.specs.Prelude.{◌≤◌, IfOk, length};
ghost use Rattle.pesp_search_cycles.specs.Ranges.{AreNarrowed};
ghost use Rattle.pesp_search_cycles.specs.Splits.{AreSame, HasPlace, IsNarrowed, IsPut};

use crate::Range;
use pesp_base::Memory;

/// Bounds of all variables of a map.
#[derive(Drop)]
pub(crate) struct Boxes {
    // The range of each arc's slack, then that of each event's residue.
    pub(crate) numbers: Vec<Range>,
    // The range of each walk's round.
    pub(crate) rounds: Vec<Range>,
}

/// The place of one range.
#[derive(Clone, Copy)]
pub(crate) enum Place {
    Number(usize),
    Round(usize),
}

/// Narrows the leading ranges to those of others.
fn narrow(ranges: &mut [Range], others: &[Range])
    requires { length others.now ≤ length ranges.old }
    ensures { AreNarrowed ranges.old others.now ranges.new }
{
    for index in 0..others.len() {
        ranges[index] = ranges[index].both(others[index]);
    }
}

impl Boxes {
    /// Narrows the leading ranges to those of other boxes.
    pub(crate) fn narrow(&mut self, others: &Boxes)
        requires numbers { length others.now.numbers.items ≤ length self.old.numbers.items }
        requires rounds { length others.now.rounds.items ≤ length self.old.rounds.items }
        ensures { IsNarrowed self.old others.now self.new }
    {
        narrow(&mut self.numbers, &others.numbers);
        narrow(&mut self.rounds, &others.rounds);
    }

    /// A copy of the boxes.
    pub(crate) fn copy(&self) -> Result<Boxes, Memory>
        ensures { IfOk result (AreSame self.now) }
    {
        let Ok(numbers) = self.numbers.clone() else {
            return Err(Memory);
        };
        let Ok(rounds) = self.rounds.clone() else {
            return Err(Memory);
        };
        Ok(Boxes { numbers, rounds })
    }

    /// Replaces a range.
    pub(crate) fn put(&mut self, place: Place, range: Range)
        requires { HasPlace self.old place }
        ensures { IsPut self.old place range self.new }
    {
        match place {
            Place::Number(index) => self.numbers[index] = range,
            Place::Round(index) => self.rounds[index] = range,
        }
    }

    /// A copy of the boxes with one range replaced.
    pub(crate) fn with(&self, place: Place, range: Range) -> Result<Boxes, Memory>
        requires { HasPlace self.now place }
        ensures { IfOk result (IsPut self.now place range) }
    {
        let mut boxes = self.copy()?;
        boxes.put(place, range);
        Ok(boxes)
    }
}
