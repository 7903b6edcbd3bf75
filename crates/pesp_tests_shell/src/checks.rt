//! Checks of three files, and the first faulty one.

use crate::asserts::{same, same_text};
use crate::sessions::period;
use pesp_shell::{FaultKind, ReadFault, RunFault, Source, check};
use std::process::Abort;
use std::test::Fail;

const ACTIVITIES: &str = "1; 1; 2; 3; 5; 2\n2; 2; 1; 4; 6; 1\n";

const TIMES: &str = "1; 0\n2; 3\n";

const REPLIES: &str = "tensions 2\n1 3 0\n2 7 3\nviolations 1\nactivity 2\ncost 3\n";

const FIXED_REPLIES: &str = "tensions 2\n1 3 0\n2 7 3\nviolations 2\nactivity 2\nevent 1\ncost 3\n";

const MISSING_REPLIES: &str =
    "refused 11 event 2 has no time\nrefused 11 event 2 has no time\nrefused 11 event 2 has no time\n";

const EMPTY_REPLIES: &str = "tensions 0\nviolations 0\ncost 0\n";

/// The replies for three files at period 10.
///
/// Like the next function it has no contract, so that proofs of the tests compute no text.
fn checked(
    rt: &(impl Abort + AllocGlobal),
    activities: &str,
    fixed: &str,
    times: &str,
) -> Result<Vec<u8>, RunFault> {
    check(
        rt.alloc(),
        period(rt, 10),
        activities.as_bytes(),
        Some(fixed.as_bytes()),
        Some(times.as_bytes()),
    )
}

/// The replies without any file at period 10.
fn checked_without_files(rt: &(impl Abort + AllocGlobal)) -> Result<Vec<u8>, RunFault> {
    check(rt.alloc(), period(rt, 10), b"", None, None)
}

#[test]
fn replies_of_checks(rt: HostRuntime) -> Result<(), Fail> {
    let table = [
        ("two activities", ACTIVITIES, "", TIMES, REPLIES),
        (
            "times outside the period",
            ACTIVITIES,
            "",
            "1; -10\n2; 23\n",
            REPLIES,
        ),
        ("a missing time", ACTIVITIES, "", "1; 0\n", MISSING_REPLIES),
        (
            "a fixed event elsewhere",
            ACTIVITIES,
            "1; 5\n",
            TIMES,
            FIXED_REPLIES,
        ),
        (
            "a fixed event in its place",
            ACTIVITIES,
            "1; 20\n",
            TIMES,
            REPLIES,
        ),
        ("nothing", "", "", "", EMPTY_REPLIES),
    ];
    for (name, activities, fixed, times, wanted) in table {
        let text = checked(&rt, activities, fixed, times)?;
        same_text(&rt, text.as_slice(), wanted, name);
    }
    let text = checked_without_files(&rt)?;
    same_text(&rt, text.as_slice(), EMPTY_REPLIES, "no files");
    Ok(())
}

#[test]
fn the_first_faulty_file(rt: HostRuntime) {
    let fault = ReadFault {
        place: 1,
        kind: FaultKind::FieldCount,
    };
    let table = [
        (
            "all three",
            "1; 1",
            "1; 0; 0",
            "1; 0; 0",
            Source::Activities,
        ),
        (
            "fixed times and times",
            ACTIVITIES,
            "1; 0; 0",
            "1; 0; 0",
            Source::Fixed,
        ),
        ("the times", ACTIVITIES, "1; 0", "1; 0; 0", Source::Times),
    ];
    for (name, activities, fixed, times, source) in table {
        let ended = checked(&rt, activities, fixed, times);
        same(
            &rt,
            ended.err(),
            Some(RunFault::File { source, fault }),
            name,
        );
    }
}
