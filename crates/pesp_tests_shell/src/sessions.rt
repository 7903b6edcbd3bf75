//! The worked examples, by runs over memory with each keeper.

use crate::asserts::same_with;
use pesp_base::Period;
use pesp_counts::CountKeeper;
use pesp_domains::{Keeper, PlainKeeper};
use pesp_shell::{Noted, RunFault, run};
use std::alloc::{AllocError, Global};
use std::process::Abort;
use std::test::Fail;

pub(crate) const TWO: &str = "1; 1; 2; 3; 5; 2\n2; 2; 1; 4; 6; 1\n";

const THREE: &str = "1; 1; 2; 1; 2; 0\n2; 1; 3; 1; 2; 0\n3; 2; 3; 1; 2; 0\n";

pub(crate) fn period(rt: &impl Abort, length: u16) -> Period {
    Period::new(length).expect(rt, "a period")
}

/// A period, and the texts of the three files.
#[derive(Clone, Copy)]
pub(crate) struct Given {
    // The period of the run.
    pub(crate) period: u16,
    // Each file as FORMATS has it;
    pub(crate) activities: &'static str,
    // one that is not given is empty,
    pub(crate) fixed: &'static str,
    // and so is this one.
    pub(crate) times: &'static str,
}

/// Files of activities alone.
pub(crate) fn alone(period: u16, activities: &'static str) -> Given {
    Given {
        period,
        activities,
        fixed: "",
        times: "",
    }
}

/// The result of a run over memory, and its output.
///
/// It has no contract, so that proofs of the tests compute no text.
fn answered<K: Keeper, R: Abort + AllocGlobal>(
    rt: &R,
    given: Given,
    input: &[u8],
) -> (Option<RunFault>, Vec<u8>) {
    let period = period(rt, given.period);
    let mut output = Vec::new(rt.alloc());
    let mut reader = Noted::new(input);
    let mut writer = Noted::new(&mut output);
    let ended = run::<K, _, _>(
        rt.alloc(),
        period,
        given.activities.as_bytes(),
        Some(given.fixed.as_bytes()),
        Some(given.times.as_bytes()),
        &mut reader,
        &mut writer,
    );
    (ended.err(), output)
}

fn assert_run_by<K: Keeper, R: Abort + AllocGlobal>(
    rt: &R,
    keeper: &str,
    given: Given,
    input: &[u8],
    wanted: (Option<RunFault>, &str),
    message: &str,
) {
    let (ended, output) = answered::<K, R>(rt, given, input);
    same_with(rt, ended, wanted.0, keeper, message);
    same_with(rt, output.as_slice(), wanted.1.as_bytes(), keeper, message);
}

/// A run ends like this with each keeper, and has this output.
fn assert_run<R: Abort + AllocGlobal>(
    rt: &R,
    given: Given,
    input: &[u8],
    wanted: (Option<RunFault>, &str),
    message: &str,
) {
    assert_run_by::<PlainKeeper, R>(rt, "PlainKeeper", given, input, wanted, message);
    assert_run_by::<CountKeeper, R>(rt, "CountKeeper", given, input, wanted, message);
}

#[test]
fn domains_and_optima(rt: HostRuntime) {
    let two = alone(10, TWO);
    let three = alone(3, THREE);
    let table = [
        (
            "empty instance",
            alone(10, ""),
            "domains\noptimum\ncost\ndump\n",
            "domains 0\noptimum 0 0\ncost 0\n# period 10 lines 0\n",
        ),
        (
            "two-activity optimum",
            two,
            "optimum\n",
            "optimum 4 2\n1 0\n2 4\n",
        ),
        (
            "fixed event narrows domains",
            two,
            "fix 1 0\ndomains\n",
            "ok\ndomains 2\n1: 0\n2: 4 5\n",
        ),
        (
            "infeasible with full domains",
            two,
            "span 1 3 3\ndomains\noptimum\n",
            "ok\ndomains 2\n1: 0 1 2 3 4 5 6 7 8 9\n2: 0 1 2 3 4 5 6 7 8 9\ninfeasible\n",
        ),
        (
            "infeasible with empty domains",
            two,
            "span 1 3 3\nfix 1 0\ndomains\n",
            "ok\nok\ndomains 2\n1:\n2:\n",
        ),
        (
            "new event beside empty rows",
            two,
            "span 1 3 3\nfix 1 0\nadd event 3\ndomain 3\noptimum\n",
            "ok\nok\nok\n3: 0 1 2 3 4 5 6 7 8 9\ninfeasible\n",
        ),
        (
            "unfix refills both rows",
            two,
            "fix 1 0\nspan 1 3 4\ndomains\nunfix 1\ndomains\n",
            "ok\nok\ndomains 2\n1: 0\n2: 4\nok\ndomains 2\n1: 0 1 2 3 4 5 6 7 8 9\n2: 0 1 2 3 4 5 6 7 8 9\n",
        ),
        (
            "three events, ties by number",
            three,
            "optimum\nweight 1 1\nweight 2 1\nweight 3 1\noptimum\n",
            "optimum 0 3\n1 0\n2 1\n3 2\nok\nok\nok\noptimum 1 3\n1 0\n2 1\n3 2\n",
        ),
        (
            "four events at period three",
            three,
            "weight 1 1\nweight 2 1\nweight 3 1\nadd event 4\nadd activity 4 1 4 1 2 1\nadd activity 5 2 4 1 2 1\nadd activity 6 3 4 1 2 1\ndomains\noptimum\ndrop activity 6\noptimum\n",
            "ok\nok\nok\nok\nok\nok\nok\ndomains 4\n1: 0 1 2\n2: 0 1 2\n3: 0 1 2\n4: 0 1 2\ninfeasible\nok\noptimum 2 4\n1 0\n2 1\n3 2\n4 2\n",
        ),
        (
            "loop activity",
            alone(10, "3; 1; 1; 1; 2; 1\n"),
            "domain 1\noptimum\nspan 3 0 0\noptimum\n",
            "1: 0 1 2 3 4 5 6 7 8 9\ninfeasible\nok\noptimum 0 1\n1 0\n",
        ),
        (
            "negative and full spans",
            alone(10, "1; 1; 2; -2; 1; 1\n"),
            "fix 1 0\ndomain 2\nspan 1 7 16\ndomain 2\n",
            "ok\n2: 0 1 8 9\nok\n2: 0 1 2 3 4 5 6 7 8 9\n",
        ),
        (
            "limited tries",
            two,
            "try 0\ntry 1000000\ntry 0\n",
            "stopped none\noptimum 4 2\n1 0\n2 4\noptimum 4 2\n1 0\n2 4\n",
        ),
        (
            "a limit that is enough",
            two,
            "fix 1 0\ntry 3\n",
            "ok\noptimum 4 2\n1 0\n2 4\n",
        ),
        (
            "fixed time moved",
            two,
            "fix 1 0\nfix 1 1\ndomains\n",
            "ok\nok\ndomains 2\n1: 1\n2: 5 6\n",
        ),
        (
            "window that wraps, narrowed and moved",
            two,
            "window 1 9 3\ndomains\nwindow 1 0 2\noptimum\nwindow 1 1 2\noptimum\nwindow 1 0 11\n",
            "ok\ndomains 2\n1: 0 1 9\n2: 3 4 5 6\nok\noptimum 4 2\n1 0\n2 4\nok\noptimum 4 2\n1 1\n2 5\nrefused 13 length 11 is out of range\n",
        ),
        (
            "domains at the longest period",
            alone(1_440, "1; 1; 2; 1439; 1439; 1\n"),
            "fix 1 1439\ndomain 2\noptimum\nunfix 1\noptimum\n",
            "ok\n2: 1438\noptimum 0 2\n1 1439\n2 1438\nok\noptimum 0 2\n1 0\n2 1439\n",
        ),
        (
            "old optimum no longer first",
            alone(10, "1; 1; 2; 3; 5; 0\n"),
            "fix 1 5\noptimum\nunfix 1\noptimum\n",
            "ok\noptimum 0 2\n1 5\n2 0\nok\noptimum 0 2\n1 0\n2 3\n",
        ),
        (
            "ends changed",
            two,
            "add event 3\nends 2 3 1\noptimum\ndrop event 2\n",
            "ok\nok\noptimum 0 3\n1 0\n2 3\n3 6\nrefused 3 event 2 is used by activity 1\n",
        ),
    ];
    for (name, given, input, wanted) in table {
        assert_run(&rt, given, input.as_bytes(), (None, wanted), name);
    }
}

#[test]
fn texts_and_times(rt: HostRuntime) {
    let two = alone(10, TWO);
    let table = [
        (
            "refusals and dump",
            two,
            "drop event 1\nadd event 1\nunfix 1\ndump\n",
            "refused 3 event 1 is used by activity 1\nrefused 1 event 1 exists\nrefused 9 event 1 is not fixed\n# period 10 lines 4\nadd event 1\nadd event 2\nadd activity 1 1 2 3 5 2\nadd activity 2 2 1 4 6 1\n",
        ),
        (
            "a dump as commands",
            alone(10, ""),
            "# period 10 lines 4\nadd event 1\nadd event 2\nadd activity 1 1 2 3 5 2\nadd activity 2 2 1 4 6 1\ndump\noptimum\nfix 1 0\ndomains\n",
            "ok\nok\nok\nok\n# period 10 lines 4\nadd event 1\nadd event 2\nadd activity 1 1 2 3 5 2\nadd activity 2 2 1 4 6 1\noptimum 4 2\n1 0\n2 4\nok\ndomains 2\n1: 0\n2: 4 5\n",
        ),
        (
            "stored run",
            alone(60, ""),
            "add event 2\nadd event 1\nadd activity 1 1 2 3 5 2\noptimum\n",
            "ok\nok\nok\noptimum 0 2\n1 0\n2 3\n",
        ),
        (
            "working timetable",
            two,
            "time 1 0\ntime 2 12\ncost\ntime 2 3\ncost\nuntime 2\nuntime 2\nadopt\ncost\nspan 1 3 3\nadopt\ncost\n",
            "ok\nrefused 4 time 12 is out of range\nrefused 11 event 2 has no time\nok\ncost 3\nok\nrefused 11 event 2 has no time\nok\ncost 4\nok\nrefused 12 infeasible\ncost 4\n",
        ),
        (
            "ends that reach a new residue",
            alone(3, "1; 100; 99; 0; 0; 0\n"),
            "fix 100 0\nspan 1 1 1\nends 1 99 100\nadopt\ndomain 99\n",
            "ok\nok\nok\nok\n99: 2\n",
        ),
        (
            "violations with a fixed event",
            two,
            "fix 1 5\ntime 1 0\ntime 2 3\nviolations\n",
            "ok\nok\nok\nviolations 2\nactivity 2\nevent 1\n",
        ),
        (
            "parse faults",
            two,
            "add\nfix 1\nfix x 1\nadd event 1000000000\nfix 1 70000\nspan 1 5 3\n\n# text\n",
            "fault unknown command\nfault wrong number of words\nfault word 2 is not a number\nfault word 3 is out of range\nfault word 3 is out of range\nfault lower bound above upper bound\n",
        ),
        (
            "times, also of an event outside",
            Given {
                times: "1; -1\n7; 23\n",
                ..two
            },
            "untime 7\ncost\ntime 2 2\ntensions",
            "refused 2 no event 7\nrefused 11 event 2 has no time\nok\ntensions 2\n1 3 0\n2 7 3\n",
        ),
        (
            "fixed times",
            Given {
                fixed: "1; 12\n",
                ..two
            },
            "domains",
            "domains 2\n1: 2\n2: 6 7\n",
        ),
    ];
    for (name, given, input, wanted) in table {
        assert_run(&rt, given, input.as_bytes(), (None, wanted), name);
    }
}

/// A question for the cost, and then a line of this number of blanks.
fn cost_and_blanks(alloc: Global, length: usize) -> Result<Vec<u8>, AllocError> {
    let blanks = vec![in alloc; b' '; length]?;
    let mut input = Vec::new(alloc);
    input.extend_from_slice(b"cost\n")?;
    input.extend_from_slice(blanks.as_slice())?;
    Ok(input)
}

#[test]
fn longest_line(rt: HostRuntime) -> Result<(), Fail> {
    let refusal = "refused 11 event 1 has no time\n";
    for (length, wanted, message) in [
        (
            4_097,
            Some(RunFault::LineTooLong { line: 2 }),
            "4,097 blanks",
        ),
        (4_096, None, "4,096 blanks"),
    ] {
        let input = cost_and_blanks(rt.alloc(), length)?;
        assert_run(
            &rt,
            alone(10, TWO),
            input.as_slice(),
            (wanted, refusal),
            message,
        );
    }
    Ok(())
}
