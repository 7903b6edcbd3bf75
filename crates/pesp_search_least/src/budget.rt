//! How much work a search may do.

ghost use Rattle.std.specs.Prelude.{◌≡◌, None, Some, true, ◌↔◌, IsTrue};
ghost use Rattle.pesp_search_least.specs.Spending.{OnlySpends, after, part_of};

/// The units of work that are left. Expanding a node spends one; a relaxation may spend more.
#[derive(Drop)]
pub struct Budget {
    // None if there is no limit.
    pub left: Option<u64>,
}

impl Budget {
    /// A budget without a limit.
    pub fn unlimited() -> Budget
        ensures { result.left ≡ None }
    {
        Budget { left: None }
    }

    /// A budget of this number of units.
    pub fn of(units: u64) -> Budget
        ensures { result.left ≡ Some units }
    {
        Budget { left: Some(units) }
    }

    /// At most this number of units of the budget, as a budget of its own. The caller still has to spend them
    /// here.
    pub fn part(&self, units: u64) -> Budget
        ensures { result.left ≡ Some (part_of self.now.left units) }
    {
        let part = match self.left {
            Some(left) => left.min(units),
            None => units,
        };
        Budget { left: Some(part) }
    }

    /// Whether no unit is left.
    pub fn is_spent(&self) -> bool
        ensures { IsTrue result ↔ (self.now.left ≡ Some 0) }
    {
        self.left == Some(0)
    }

    /// Spends this number of units, or all that are left.
    pub fn spend(&mut self, units: u64)
        ensures left { self.new.left ≡ after self.old.left units }
        ensures spends { OnlySpends self.old.left self.new.left }
    {
        if let Some(left) = self.left {
            self.left = Some(left.saturating_sub(units));
        }
    }
}
