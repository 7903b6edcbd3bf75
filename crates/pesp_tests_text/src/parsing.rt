//! One line of each command, the faults in their order, and lines without a command.

use crate::asserts::same;
use crate::made::{activity, event, id, span, weight};
use pesp_instance::Edit;
use pesp_shell_commands::{Command, ParseFault, parse};
use std::process::Abort;

fn assert_command(rt: &impl Abort, line: &str, command: Command) {
    same(rt, parse(line.as_bytes()), Ok(Some(command)), line);
}

fn assert_fault(rt: &impl Abort, line: &str, fault: ParseFault, message: &str) {
    same(rt, parse(line.as_bytes()), Err(fault), message);
}

fn assert_nothing(rt: &impl Abort, line: &str, message: &str) {
    same(rt, parse(line.as_bytes()), Ok(None), message);
}

#[test]
fn every_edit_is_read(rt: HostRuntime) {
    for (line, edit) in [
        ("add event 7", Edit::AddEvent(event(&rt, 7))),
        ("drop event 7", Edit::DropEvent(event(&rt, 7))),
        ("fix 7 65535", Edit::Fix(event(&rt, 7), 65_535)),
        ("window 7 9 3", Edit::SetWindow(event(&rt, 7), 9, 3)),
        (
            "window 7 65535 0",
            Edit::SetWindow(event(&rt, 7), 65_535, 0),
        ),
        ("unfix 7", Edit::Unfix(event(&rt, 7))),
        (
            "add activity 999999999 1 2 -1000000 1000000 1000000000",
            Edit::AddActivity(activity(
                &rt,
                999_999_999,
                (1, 2),
                (-1_000_000, 1_000_000),
                1_000_000_000,
            )),
        ),
        ("drop activity 3", Edit::DropActivity(id(&rt, 3))),
        ("span 3 -5 5", Edit::SetSpan(id(&rt, 3), span(&rt, -5, 5))),
        ("weight 3 4", Edit::SetWeight(id(&rt, 3), weight(&rt, 4))),
        (
            "ends 3 1 2",
            Edit::SetEnds(id(&rt, 3), event(&rt, 1), event(&rt, 2)),
        ),
        ("\t fix   +1\t-0 \r", Edit::Fix(event(&rt, 1), 0)),
        ("fix 007 1", Edit::Fix(event(&rt, 7), 1)),
    ] {
        assert_command(&rt, line, Command::Edit(edit));
    }
}

#[test]
fn every_other_command_is_read(rt: HostRuntime) {
    for (line, command) in [
        ("time 7 3", Command::Time(event(&rt, 7), 3)),
        ("untime 7", Command::Untime(event(&rt, 7))),
        ("adopt", Command::Adopt),
        ("domain 7", Command::Domain(event(&rt, 7))),
        ("domains", Command::Domains),
        ("tensions", Command::Tensions),
        ("violations", Command::Violations),
        ("cost\r", Command::Cost),
        (" optimum ", Command::Optimum),
        ("try 1000000000000", Command::TryOptimum(1_000_000_000_000)),
        ("dump", Command::Dump),
    ] {
        assert_command(&rt, line, command);
    }
}

const FAULTS: &[(&str, ParseFault, &str)] = &[
    ("add", ParseFault::UnknownCommand, "no second word"),
    (
        "add time 1",
        ParseFault::UnknownCommand,
        "another second word",
    ),
    ("Fix 1 2", ParseFault::UnknownCommand, "a capital letter"),
    ("fixe x", ParseFault::UnknownCommand, "one letter more"),
    ("fix 1", ParseFault::WordCount, "a word missing"),
    ("adopt it", ParseFault::WordCount, "a word too many"),
    (
        "add activity 1 1 2 3 5 2 9 9 9",
        ParseFault::WordCount,
        "eleven words",
    ),
    ("fix x 1", ParseFault::BadNumber(2), "no number"),
    (
        "fix x 70000",
        ParseFault::BadNumber(2),
        "two faulty numbers",
    ),
    ("fix 1 +", ParseFault::BadNumber(3), "a sign alone"),
    (
        "add event 1000000000",
        ParseFault::OutOfRange(3),
        "ten digits",
    ),
    ("fix 1 70000", ParseFault::OutOfRange(3), "a late time"),
    ("fix 1 -1", ParseFault::OutOfRange(3), "a time below 0"),
    ("window 7 9", ParseFault::WordCount, "no length"),
    (
        "windows 7 9 3",
        ParseFault::UnknownCommand,
        "one letter more",
    ),
    ("window 7 x 3", ParseFault::BadNumber(3), "no first residue"),
    (
        "window 7 9 65536",
        ParseFault::OutOfRange(4),
        "a length too great",
    ),
    (
        "window 7 9 -1",
        ParseFault::OutOfRange(4),
        "a length below 0",
    ),
    (
        "drop event 1234567890123456789012345678901234567890",
        ParseFault::OutOfRange(3),
        "forty digits",
    ),
    (
        "try 1000000000001",
        ParseFault::OutOfRange(2),
        "one node too many",
    ),
    ("span 1 5 3", ParseFault::Crossed, "crossed bounds"),
    (
        "add activity 1 1 2 5 3 x",
        ParseFault::BadNumber(8),
        "a bad number after crossed bounds",
    ),
];

#[test]
fn first_fault_is_named(rt: HostRuntime) {
    for (line, fault, message) in FAULTS {
        assert_fault(&rt, line, *fault, message);
    }
}

const NOTHING_SAID: &[(&str, &str)] = &[
    ("", "an empty line"),
    (" \t \r", "blanks alone"),
    ("# text", "a comment"),
    ("  #text", "a comment after spaces"),
];

#[test]
fn blank_lines_and_comments_say_nothing(rt: HostRuntime) {
    for (line, message) in NOTHING_SAID {
        assert_nothing(&rt, line, message);
    }
}
