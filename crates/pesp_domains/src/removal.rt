//! A law of the domains, for keepers.

ghost use Rattle.std.specs.Prelude.{List};
ghost use Rattle.pesp_instance.specs.Network.{Network};
ghost use Rattle.pesp_domains.specs.declared.pair.Pair.{Pair};
ghost use Rattle.pesp_domains.specs.Removals.{IsRemoval, NoneBreaks};
ghost use Rattle.pesp_domains.specs.Sweeps.{AreDomains, Covers, Pairs};

/// Removing pairs that break a clause of support leads from any set that contains the domains to
/// the domains. It may remove any of them, in any order, and ends when no pair breaks one.
pub fn law_of_removal()
    ensures { (I : Network) (pushes : List Pair) (S : Pairs) (removed : List Pair) (left : Pairs)
        → Covers I pushes S → IsRemoval I pushes S removed left → NoneBreaks I pushes left
        → AreDomains I pushes left }
{}
