//! Parts of an instance without a window. At the first event of each, residue 0 alone is tried.

use crate::asked::{Step, Steps, Times, try_steps};
use crate::changes::{Change, TWO_ACTIVITIES};

const INFEASIBLE_WITHOUT_A_NODE: Steps<'_> = &[
    (Step::Edit(Change::SetSpan(1, 3, 3)), "3 to 3"),
    (Step::Infeasible(Some(0)), "told by cycles"),
];

#[test]
fn infeasible_without_a_node(rt: HostRuntime) {
    try_steps(&rt, 10, TWO_ACTIVITIES, INFEASIBLE_WITHOUT_A_NODE);
}

/// Events 1 and 2 with one activity, and events 3 and 4 with another.
const TWO_PARTS: &[Change] = &[
    Change::AddEvent(1),
    Change::AddEvent(2),
    Change::AddActivity(1, (1, 2), (3, 5), 1),
    Change::AddEvent(3),
    Change::AddEvent(4),
    Change::AddActivity(2, (4, 3), (2, 4), 1),
];

const FREE: Times<'_> = &[(1, 0), (2, 3), (3, 0), (4, 8)];

const HELD: Times<'_> = &[(1, 0), (2, 3), (3, 7), (4, 5)];

const JOINED: Times<'_> = &[(1, 9), (2, 2), (3, 7), (4, 5)];

const PARTS_WITHOUT_A_FIXED_TIME: Steps<'_> = &[
    (Step::Best(0, FREE), "two parts"),
    (Step::Edit(Change::Fix(4, 5)), "4 at 5"),
    (Step::Best(0, HELD), "one with a fixed time"),
    (
        Step::Edit(Change::AddActivity(3, (3, 1), (2, 2), 1)),
        "joined",
    ),
    (Step::Best(0, JOINED), "both joined"),
];

#[test]
fn parts_without_a_fixed_time(rt: HostRuntime) {
    try_steps(&rt, 10, TWO_PARTS, PARTS_WITHOUT_A_FIXED_TIME);
}

const HELD_LATER: Times<'_> = &[(1, 0), (2, 3), (3, 8), (4, 6)];

const PARTS_WITH_A_WINDOW: Steps<'_> = &[
    (Step::Edit(Change::SetWindow(4, 5, 2)), "4 at 5 or 6"),
    (Step::Best(0, HELD), "one with a window"),
    (Step::Edit(Change::SetWindow(4, 6, 2)), "4 at 6 or 7"),
    (Step::Best(0, HELD_LATER), "it is moved"),
    (Step::Edit(Change::SetWindow(4, 6, 10)), "4 anywhere"),
    (Step::Best(0, FREE), "a window of all residues"),
];

#[test]
fn parts_with_a_window(rt: HostRuntime) {
    try_steps(&rt, 10, TWO_PARTS, PARTS_WITH_A_WINDOW);
}
