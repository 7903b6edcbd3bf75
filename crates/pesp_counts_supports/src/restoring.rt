//! Restores the pairs that an edit reaches, with their counts.

ghost use Rattle.std.specs.Prelude.{◌≡◌, ◌<◌, ◌≤◌, ◌*◌, ◌+◌, ◌-◌, ℕ, [], All, length, vec_capacity};
ghost use Rattle.pesp_counts_supports.specs.Counts.{has_at};
ghost use Rattle.pesp_counts_supports.specs.Restored.{AreExactBut, AreSparedTogether};
ghost use Rattle.pesp_counts_supports.specs.Restoring.{IsRestored};
ghost use Rattle.pesp_counts_supports.specs.Supports.{AreLevel, Fit};
ghost use Rattle.pesp_counts_supports.specs.Spent.{ends_at};

use crate::Back;
use crate::moving::{Way, begins_run};
use crate::supports::Supports;
use pesp_counts_arcs::Links;
use pesp_instance::Instance;

impl Supports {
    /// Restores the pairs that are reached from these places, with their counts. The spared
    /// activity is left out.
    pub fn restore(
        &mut self,
        instance: &Instance,
        links: &Links,
        starts: &[usize],
        spared: Option<usize>,
        back: &mut Back,
    )
        requires fit { Fit links.now self.old }
        requires period { (self.old).period ≡ (instance.now).period }
        requires mates { AreSparedTogether links.now spared }
        requires exact { AreExactBut links.now spared self.old (has_at (self.old).counted) }
        requires level { AreLevel self.old }
        requires starts { All (λ p. p < length (self.old).rows) starts.now }
        requires trail { (self.old).trail ≡ [] }
        requires empty { back.old.items ≡ [] }
        requires room { length (self.old).rows * (self.old).period ≤ vec_capacity back.old }
        ensures restored { IsRestored instance.now links.now starts.now spared self.old self.new
            back.new.items }
        ensures room { vec_capacity back.new ≡ vec_capacity back.old }
        ensures period { 1 ≤ (self.old).period }
        ensures probes { (self.new).probes
            ≤ (self.old).probes + (2 * (self.old).period - 1) * ends_at links.now back.new.items
            + (self.old).period * length back.new.items }
    {
        // Reading the instance makes its invariant known: the period is at least 1.
        let _period = instance.period();
        self.bring_starts(instance, links, starts, back);
        let mut next = 0;
        while next < back.len() {
            let pair = back[next];
            let place = pair.place as usize;
            // A block probes each residue of the period, a single pair only those of its windows,
            // so the run grows with the period. docs/HISTORY.md has the cost of blocks for single
            // pairs under "Before blocks". No measurement is written down for a sixteenth.
            let in_run = begins_run(&back[next..], self.period.get() / 16 + 1);
            next += 1;
            if !self.has_counted(place, pair.residue) {
                let coming = self.moving_with(pair, Way::In, in_run);
                self.move_around(links, spared, place, coming, Way::In);
                self.level(place, coming);
                self.bring_around(instance, links, spared, place, coming, back);
            }
        }
    }
}
