//! Laws of the definitions in the search's contracts. Each holds for every instance.

ghost use Rattle.pesp_search.specs.Tree.{EachMemberHasOnePlace, EachPlaceIsANode, EachTreeHasOneSize};

/// The uncut tree has one size.
pub fn one_size()
    ensures { EachTreeHasOneSize }
{}

/// Each timetable that meets everything is met at one node of the uncut tree.
pub fn one_place()
    ensures { EachMemberHasOnePlace }
{}

/// The place of that node is at most the size of the tree.
pub fn place_within_size()
    ensures { EachPlaceIsANode }
{}
