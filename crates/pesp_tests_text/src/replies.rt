//! The worked examples of replies, as sessions of lines.

use crate::asserts::same_text;
use crate::made::period;
use pesp_bench::Bench;
use pesp_domains::{Keeper, PlainKeeper};
use pesp_instance::Instance;
use pesp_shell_replies::reply_to_line;
use std::process::Abort;

/// Two events and an activity each way between them.
const TWO_ACTIVITIES: &[(&str, &str)] = &[
    ("add event 1", "ok\n"),
    ("add event 2", "ok\n"),
    ("add activity 1 1 2 3 5 2", "ok\n"),
    ("add activity 2 2 1 4 6 1", "ok\n"),
];

/// The reply to a line.
fn replied(rt: &(impl Abort + AllocGlobal), bench: &mut Bench<PlainKeeper>, line: &str) -> Vec<u8> {
    let reply = reply_to_line(rt.alloc(), bench, line.as_bytes());
    reply.ok().expect(rt, "memory")
}

fn assert_replies(
    rt: &(impl Abort + AllocGlobal),
    bench: &mut Bench<PlainKeeper>,
    lines: &[(&str, &str)],
) {
    for (line, wanted) in lines {
        let reply = replied(rt, bench, line);
        same_text(rt, reply.as_slice(), wanted, line);
    }
}

/// A workbench at period 10 without events.
fn empty(rt: &(impl Abort + AllocGlobal)) -> Bench<PlainKeeper> {
    let instance = Instance::new(rt.alloc(), period(rt, 10));
    let kept = PlainKeeper::from_instance(rt.alloc(), instance);
    Bench::new(rt.alloc(), kept.ok().expect(rt, "memory"))
}

fn two_activities(rt: &(impl Abort + AllocGlobal)) -> Bench<PlainKeeper> {
    let mut bench = empty(rt);
    assert_replies(rt, &mut bench, TWO_ACTIVITIES);
    bench
}

/// Replies to lines after those of the two activities.
fn assert_session(rt: &(impl Abort + AllocGlobal), lines: &[(&str, &str)]) {
    assert_replies(rt, &mut two_activities(rt), lines);
}

/// Times that are set, removed and adopted.
const WORKING_TIMETABLE: &[(&str, &str)] = &[
    ("time 1 0", "ok\n"),
    ("time 2 12", "refused 4 time 12 is out of range\n"),
    ("cost", "refused 11 event 2 has no time\n"),
    ("time 2 3", "ok\n"),
    ("cost", "cost 3\n"),
    ("tensions", "tensions 2\n1 3 0\n2 7 3\n"),
    ("untime 2", "ok\n"),
    ("untime 2", "refused 11 event 2 has no time\n"),
    ("adopt", "ok\n"),
    ("cost", "cost 4\n"),
    ("span 1 3 3", "ok\n"),
    ("adopt", "refused 12 infeasible\n"),
    ("optimum", "infeasible\n"),
    ("cost", "cost 4\n"),
];

#[test]
fn working_timetable(rt: HostRuntime) {
    assert_session(&rt, WORKING_TIMETABLE);
}

/// An activity and a fixed event that are violated.
const VIOLATIONS: &[(&str, &str)] = &[
    ("fix 1 5", "ok\n"),
    ("time 1 0", "ok\n"),
    ("time 2 3", "ok\n"),
    ("violations", "violations 2\nactivity 2\nevent 1\n"),
];

#[test]
fn violations_with_a_fixed_event(rt: HostRuntime) {
    assert_session(&rt, VIOLATIONS);
}

/// Windows one after another: domains, optima and a time outside.
const WINDOWS: &[(&str, &str)] = &[
    ("window 1 9 3", "ok\n"),
    ("domains", "domains 2\n1: 0 1 9\n2: 3 4 5 6\n"),
    ("optimum", OPTIMUM),
    ("dump", SCRIPT_WITH_A_WINDOW),
    ("window 1 0 2", "ok\n"),
    ("domains", "domains 2\n1: 0 1\n2: 4 5 6\n"),
    ("optimum", OPTIMUM),
    ("window 1 1 2", "ok\n"),
    ("domains", "domains 2\n1: 1 2\n2: 5 6 7\n"),
    ("optimum", "optimum 4 2\n1 1\n2 5\n"),
    ("time 1 0", "ok\n"),
    ("time 2 4", "ok\n"),
    ("violations", "violations 1\nevent 1\n"),
];

#[test]
fn windows(rt: HostRuntime) {
    assert_session(&rt, WINDOWS);
}

/// Windows that are refused, and one of all residues.
const REFUSED_WINDOWS: &[(&str, &str)] = &[
    ("window 9 0 1", "refused 2 no event 9\n"),
    ("window 1 10 0", "refused 4 time 10 is out of range\n"),
    ("window 1 0 0", "refused 13 length 0 is out of range\n"),
    ("window 1 0 11", "refused 13 length 11 is out of range\n"),
    ("window 1 0 10", "ok\n"),
    ("domain 1", "1: 0 1 2 3 4 5 6 7 8 9\n"),
    ("unfix 1", "ok\n"),
    ("unfix 1", "refused 9 event 1 is not fixed\n"),
];

#[test]
fn refused_windows(rt: HostRuntime) {
    assert_session(&rt, REFUSED_WINDOWS);
}

/// The optimum of the two activities.
const OPTIMUM: &str = "optimum 4 2\n1 0\n2 4\n";

/// Searches within limits.
const LIMITED_TRIES: &[(&str, &str)] = &[
    ("try 0", "stopped none\n"),
    ("try 1000000", OPTIMUM),
    ("try 0", OPTIMUM),
    ("fix 1 0", "ok\n"),
    ("domains", "domains 2\n1: 0\n2: 4 5\n"),
    ("domain 2", "2: 4 5\n"),
    ("domain 3", "refused 2 no event 3\n"),
    ("try 3", OPTIMUM),
];

#[test]
fn limited_tries(rt: HostRuntime) {
    assert_session(&rt, LIMITED_TRIES);
}

/// The script of the two activities.
const SCRIPT: &str =
    "# period 10 lines 4\nadd event 1\nadd event 2\nadd activity 1 1 2 3 5 2\nadd activity 2 2 1 4 6 1\n";

/// The script with the window that wraps.
const SCRIPT_WITH_A_WINDOW: &str =
    "# period 10 lines 5\nadd event 1\nadd event 2\nwindow 1 9 3\nadd activity 1 1 2 3 5 2\nadd activity 2 2 1 4 6 1\n";

/// Refused edits, a faulty line, and the script.
const REFUSALS_AND_DUMP: &[(&str, &str)] = &[
    ("# a comment", ""),
    ("drop event 1", "refused 3 event 1 is used by activity 1\n"),
    ("add event 1", "refused 1 event 1 exists\n"),
    ("unfix 1", "refused 9 event 1 is not fixed\n"),
    ("fix x 1", "fault word 2 is not a number\n"),
    ("dump", SCRIPT),
];

#[test]
fn refusals_and_dump(rt: HostRuntime) {
    assert_session(&rt, REFUSALS_AND_DUMP);
}
