//! What the keeper by counts returns in addition, and that it agrees with the plain one.

ghost use Rattle.std.specs.Prelude.{◌≡◌, []};

use crate::asserts::same_at;
use crate::changes::FOUR_EVENTS;
use crate::made::{event, id, push};
use crate::unpushed::{Counted, Unpushed};
use pesp_base::EventId;
use pesp_counts::CountKeeper;
use pesp_domains::{Keeper, PlainKeeper, Side};
use std::process::Abort;

/// An end and a residue of the first activity, and the count there.
type Count = (Side, u16, Option<u16>);

fn assert_supports(rt: &impl Abort, keeper: &CountKeeper, counts: &[Count], message: &str) {
    for (side, residue, wanted) in counts {
        let count = keeper.support(id(rt, 1), *side, *residue);
        same_at(rt, count, *wanted, message, u32::from(*residue));
    }
}

/// The counts while the first event is pushed to 0, and after the pop.
fn assert_pushed(rt: &impl Abort, kept: &mut Counted, pushed: &[Count], popped: &[Count]) {
    push(rt, &mut kept.keeper, event(rt, 1), 0);
    assert_supports(rt, &kept.keeper, pushed, "event 1 at 0");
    kept.keeper.pop_fix();
    assert_supports(rt, &kept.keeper, popped, "nothing is pushed");
}

const PUSHED: &[Count] = &[
    (Side::Tail, 0, Some(2)),
    (Side::Head, 4, Some(1)),
    (Side::Tail, 1, None),
];

const POPPED: &[Count] = &[(Side::Tail, 0, Some(3))];

#[test]
fn counts_are_read_by_support(rt: HostRuntime) {
    let mut kept = Counted::two_activities(&rt);
    assert_pushed(&rt, &mut kept, PUSHED, POPPED);
    drop(kept);
}

/// The rows of the four events are the same by either keeper.
fn assert_same<P: Keeper, C: Keeper>(rt: &impl Abort, plain: &P, counted: &C, message: &str) {
    for number in 1..5 {
        let event = event(rt, number);
        let wanted = plain.row(event).expect(rt, "a row");
        let row = counted.row(event).expect(rt, "a row");
        same_at(rt, row.len(), wanted.len(), message, number);
        for residue in 0..3 {
            let is_wanted = wanted.holds(residue);
            same_at(rt, row.holds(residue), is_wanted, message, number);
            same_at(
                rt,
                counted.holds(event, residue),
                is_wanted,
                message,
                number,
            );
        }
    }
}

/// Pushes two pairs and pops them again. Both keepers have the same rows after each push and each
/// pop.
fn try_order<P: Keeper, C: Keeper>(
    rt: &impl Abort,
    plain: &mut P,
    counted: &mut C,
    one: (EventId, u16),
    two: (EventId, u16),
)
    requires plain { P.pushes plain.old ≡ [] }
    requires counted { C.pushes counted.old ≡ [] }
    ensures plain { P.pushes plain.new ≡ [] }
    ensures counted { C.pushes counted.new ≡ [] }
{
    assert!(rt; one.0 != two.0, "two events");
    push(rt, plain, one.0, one.1);
    push(rt, counted, one.0, one.1);
    assert_same(rt, plain, counted, "one is pushed");
    push(rt, plain, two.0, two.1);
    push(rt, counted, two.0, two.1);
    assert_same(rt, plain, counted, "two are pushed");
    plain.pop_fix();
    counted.pop_fix();
    assert_same(rt, plain, counted, "one is popped");
    plain.pop_fix();
    counted.pop_fix();
    assert_same(rt, plain, counted, "two are popped");
}

/// Pushes two pairs, in either order one after the other, and pops them again.
fn try_both_orders<P: Keeper, C: Keeper, R: Abort + AllocGlobal>(
    rt: &R,
    one: EventId,
    at_one: u16,
    two: EventId,
    at_two: u16,
) {
    let mut plain: Unpushed<P> = Unpushed::made(rt, 3, FOUR_EVENTS);
    let mut counted: Unpushed<C> = Unpushed::made(rt, 3, FOUR_EVENTS);
    assert_same(rt, &plain.keeper, &counted.keeper, "nothing is pushed");
    let (first, second) = ((one, at_one), (two, at_two));
    try_order(rt, &mut plain.keeper, &mut counted.keeper, first, second);
    let (first, second) = ((two, at_two), (one, at_one));
    try_order(rt, &mut plain.keeper, &mut counted.keeper, first, second);
}

#[test]
fn every_list_of_two_pushes(rt: HostRuntime) {
    for one in 1..5 {
        for two in one + 1..5 {
            for at_one in 0..3 {
                for at_two in 0..3 {
                    let first = event(&rt, one);
                    let second = event(&rt, two);
                    try_both_orders::<PlainKeeper, CountKeeper, _>(
                        &rt, first, at_one, second, at_two,
                    );
                }
            }
        }
    }
}
