//! Scripts, their dumps, their faults, and the limits.

use crate::asserts::{same, same_text};
use crate::made::{assert_fixed, assert_two_activities, event, period};
use pesp_base::Refusal;
use pesp_instance::Instance;
use pesp_shell_commands::{ParseFault, ReplayFault, ReplayKind, replay};
use pesplib_writer::dump;
use std::alloc::{AllocError, Global};
use std::process::Abort;
use std::test::Fail;

/// The instance that a script makes at period 10.
fn replay_at_ten(rt: &(impl Abort + AllocGlobal), script: &[u8]) -> Result<Instance, ReplayFault> {
    replay(rt.alloc(), period(rt, 10), script)
}

/// The period of an instance, as a number.
fn period_of(instance: &Instance) -> u16 {
    instance.period().get()
}

/// The dump of the instance that a script makes at period 10.
fn dumped(rt: &(impl Abort + AllocGlobal), script: &str) -> Result<Vec<u8>, Fail> {
    let instance = replay_at_ten(rt, script.as_bytes())?;
    Ok(dump(rt.alloc(), &instance)?)
}

/// A script makes the two activities at period 10.
fn assert_script(rt: &(impl Abort + AllocGlobal), script: &str, message: &str) -> Result<(), Fail> {
    let instance = replay_at_ten(rt, script.as_bytes())?;
    same(rt, period_of(&instance), 10, message);
    assert_two_activities(rt, &instance, message);
    Ok(())
}

const SCRIPTS: &[(&str, &str)] = &[
    (
        "# period 10 lines 4\nadd event 1\nadd event 2\nadd activity 1 1 2 3 5 2\nadd activity 2 2 1 4 6 1\n",
        "a dump",
    ),
    (
        "add event 1\r\nadd event 2\r\n\r\nadd activity 1 1 2 3 5 2\r\nadd activity 2 2 1 4 6 1\r\n",
        "lines that end in a carriage return and a line feed",
    ),
    (
        "\n add event 2\n#\n\tadd\tevent 1\n \nadd event 3\nadd activity 2 2 1 4 6 1\nadd activity 1 1 2 3 5 9\ndrop event 3\nweight 1 2",
        "blanks, comments, changes and a last line without a line feed",
    ),
];

#[test]
fn scripts_make_instances(rt: HostRuntime) -> Result<(), Fail> {
    for (script, message) in SCRIPTS {
        assert_script(&rt, script, message)?;
    }
    Ok(())
}

#[test]
fn dumps_are_replayed(rt: HostRuntime) -> Result<(), Fail> {
    for script in [
        "# period 10 lines 0\n",
        "# period 10 lines 2\nadd event 7\nfix 7 3\n",
        "# period 10 lines 2\nadd event 7\nwindow 7 9 10\n",
        "# period 10 lines 4\nadd event 1\nadd event 2\nfix 1 4\nwindow 2 9 3\n",
        "# period 10 lines 4\nadd event 1\nadd event 2\nadd activity 1 1 2 3 5 2\nadd activity 2 2 1 4 6 1\n",
        "# period 10 lines 5\nadd event 1\nadd event 2\nfix 1 5\nadd activity 1 1 2 3 5 2\nadd activity 2 2 1 -4 6 1\n",
    ] {
        let text = dumped(&rt, script)?;
        same_text(&rt, text.as_slice(), script, script);
    }
    Ok(())
}

/// Events 1 and 2 are fixed by a script at these times, or not at all.
fn assert_fixed_by(
    rt: &(impl Abort + AllocGlobal),
    script: &str,
    times: (Option<u16>, Option<u16>),
) -> Result<(), Fail> {
    let instance = replay_at_ten(rt, script.as_bytes())?;
    assert_fixed(rt, &instance, times, script);
    Ok(())
}

#[test]
fn fixed_times_are_replayed(rt: HostRuntime) -> Result<(), Fail> {
    let script = "add event 1\nadd event 2\nfix 1 4\nfix 2 9\nunfix 1\n";
    assert_fixed_by(&rt, script, (None, Some(9)))?;
    let script = "add event 1\nadd event 2\nwindow 1 9 3\nfix 1 4\nfix 2 9\nwindow 2 9 2\n";
    assert_fixed_by(&rt, script, (Some(4), None))
}

#[test]
fn first_faulty_line_is_named(rt: HostRuntime) {
    let one = event(&rt, 1);
    for (script, line, kind) in [
        ("add event 1\ncost\n", 2, ReplayKind::NotAnEdit),
        (
            "add event 1\nadd event 1\n",
            2,
            ReplayKind::Refused(Refusal::EventExists(one)),
        ),
        (
            "# x\nfix x 1\n",
            2,
            ReplayKind::Parse(ParseFault::BadNumber(2)),
        ),
        (
            "\n\nfix 1 10\nadd event 1\nadd",
            3,
            ReplayKind::Refused(Refusal::NoEvent(one)),
        ),
        (
            "add event 1\nfix 1 10\ncost",
            2,
            ReplayKind::Refused(Refusal::TimeOutOfRange(10)),
        ),
        (
            "add event 1\nwindow 1 9 11\n",
            2,
            ReplayKind::Refused(Refusal::LengthOutOfRange(11)),
        ),
        (
            "add event 1\nadd",
            2,
            ReplayKind::Parse(ParseFault::UnknownCommand),
        ),
    ] {
        let fault = replay_at_ten(&rt, script.as_bytes()).err();
        same(&rt, fault, Some(ReplayFault { line, kind }), script);
    }
}

/// This number of copies of a byte.
fn repeated(alloc: Global, byte: u8, count: usize) -> Result<Vec<u8>, AllocError> {
    vec![in alloc; byte; count]
}

#[test]
fn limits_on_lines(rt: HostRuntime) -> Result<(), Fail> {
    let long_line = ReplayFault {
        line: 1,
        kind: ReplayKind::LineTooLong,
    };
    let many_lines = ReplayFault {
        line: 1_000_001,
        kind: ReplayKind::TooManyLines,
    };
    for (byte, count, wanted, message) in [
        (b' ', 4_096, None, "4,096 blanks"),
        (b' ', 4_097, Some(long_line), "4,097 blanks"),
        (b'\n', 1_000_000, None, "1,000,000 line feeds"),
        (b'\n', 1_000_001, Some(many_lines), "1,000,001 line feeds"),
    ] {
        let script = repeated(rt.alloc(), byte, count)?;
        let fault = replay_at_ten(&rt, script.as_slice()).err();
        same(&rt, fault, wanted, message);
    }
    Ok(())
}
