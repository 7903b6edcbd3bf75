//! Runs over devices that break, over long streams and over odd lines.

use crate::asserts::{hold_at, same, same_at, same_text};
use crate::devices::{Devices, Ending, Habit, Manner, ending_of, pieces_of};
use crate::sessions::{TWO, alone};
use pesp_counts::CountKeeper;
use pesp_domains::PlainKeeper;
use pesp_shell::RunFault;
use std::alloc::{AllocError, Global};
use std::process::Abort;
use std::test::Fail;

const STORED: &str = "add event 2\nadd event 1\nadd activity 1 1 2 3 5 2\noptimum\n";

const STORED_REPLIES: &str = "ok\nok\nok\noptimum 0 2\n1 0\n2 3\n";

/// The stored run over these devices, with either keeper.
fn stored<R: Abort + AllocGlobal>(rt: &R, counts: bool, devices: Devices) -> Ending {
    let given = alone(60, "");
    if counts {
        ending_of::<CountKeeper, R>(rt, given, STORED.as_bytes(), devices)
    } else {
        ending_of::<PlainKeeper, R>(rt, given, STORED.as_bytes(), devices)
    }
}

/// The stored run in pieces of this size.
fn assert_stored<R: Abort + AllocGlobal>(rt: &R, counts: bool, size: usize, wanted: &str) {
    let ending = stored(rt, counts, pieces_of(size));
    same_at(rt, ending.fault, None, "pieces of", size);
    same_at(
        rt,
        ending.output.as_slice(),
        wanted.as_bytes(),
        "pieces of",
        size,
    );
}

#[test]
fn stored_run_in_pieces(rt: HostRuntime) {
    for size in [1, 2, 3, 7, 4_096] {
        for counts in [false, true] {
            assert_stored(&rt, counts, size, STORED_REPLIES);
        }
    }
}

/// The fault of a broken device, if it was called: once, after a first part of the replies.
fn assert_broken<R: Abort + AllocGlobal>(rt: &R, ending: &Ending, wanted: RunFault, calls: usize) {
    let replies = STORED_REPLIES.as_bytes();
    if ending.broken_calls == 0 {
        same_at(rt, ending.fault, None, "calls:", calls);
        same_at(rt, ending.output.as_slice(), replies, "calls:", calls);
    } else {
        same_at(rt, ending.broken_calls, 1, "calls:", calls);
        same_at(rt, ending.fault, Some(wanted), "calls:", calls);
        let begun = replies.starts_with(ending.output.as_slice());
        hold_at(rt, begun, "calls:", calls);
    }
}

/// The stored run over a source that breaks after this number of calls, in pieces of this size.
fn assert_source<R: Abort + AllocGlobal>(rt: &R, counts: bool, size: usize, calls: usize) {
    let source = Habit {
        size,
        calls,
        broken: Manner::Fails,
    };
    let devices = Devices {
        source,
        ..pieces_of(4_096)
    };
    let ending = stored(rt, counts, devices);
    assert_broken(rt, &ending, RunFault::Read, calls);
}

#[test]
fn source_fails_at_each_call(rt: HostRuntime) {
    for size in [1, 2, 3, 7] {
        for calls in 0..STORED.len() + 2 {
            assert_source(&rt, false, size, calls);
            assert_source(&rt, true, size, calls);
        }
    }
}

/// The stored run over a sink that accepts one byte a call and breaks after this number of calls.
fn assert_sink<R: Abort + AllocGlobal>(rt: &R, counts: bool, broken: Manner, calls: usize) {
    let sink = Habit {
        size: 1,
        calls,
        broken,
    };
    let devices = Devices {
        sink,
        ..pieces_of(4_096)
    };
    let ending = stored(rt, counts, devices);
    assert_broken(rt, &ending, RunFault::Write, calls);
    let taken = calls.min(STORED_REPLIES.len());
    same_at(rt, ending.output.len(), taken, "calls:", calls);
}

#[test]
fn sink_breaks_at_each_call(rt: HostRuntime) {
    for calls in 0..STORED_REPLIES.len() + 2 {
        assert_sink(&rt, false, Manner::Fails, calls);
        assert_sink(&rt, true, Manner::Fails, calls);
        assert_sink(&rt, false, Manner::Idles, calls);
        assert_sink(&rt, true, Manner::Idles, calls);
    }
}

/// The stored run over a sink that fails to flush.
fn assert_flush<R: Abort + AllocGlobal>(rt: &R, counts: bool) {
    let devices = Devices {
        flushes: false,
        ..pieces_of(4_096)
    };
    let ending = stored(rt, counts, devices);
    same(rt, ending.broken_calls, 1, "flushes");
    assert_broken(rt, &ending, RunFault::Write, 0);
}

#[test]
fn sink_fails_at_its_flush(rt: HostRuntime) {
    for counts in [false, true] {
        assert_flush(&rt, counts);
    }
}

/// A run over the two activities, in pieces of seven bytes.
fn two_activities<R: Abort + AllocGlobal>(rt: &R, input: &[u8], broken: Manner) -> Ending {
    let source = Habit {
        size: 7,
        calls: 1,
        broken,
    };
    let devices = Devices {
        source,
        ..pieces_of(4_096)
    };
    ending_of::<CountKeeper, R>(rt, alone(10, TWO), input, devices)
}

#[test]
fn half_a_line(rt: HostRuntime) {
    let refusal = "refused 11 event 1 has no time\n";
    let after = "refused 11 event 1 has no time\nfault unknown command\n";
    for (broken, wanted, fault) in [
        (Manner::Fails, refusal, Some(RunFault::Read)),
        (Manner::Idles, after, None),
        (Manner::Works, after, None),
    ] {
        let ending = two_activities(&rt, b"cost\nco", broken);
        same_text(&rt, ending.output.as_slice(), wanted, "half a line");
        same(&rt, ending.fault, fault, "half a line");
    }
}

/// The result of a run over this number of equal bytes.
fn repeated<R: Abort + AllocGlobal>(rt: &R, byte: u8, count: usize) -> Result<Ending, AllocError> {
    let input = vec![in rt.alloc(); byte; count]?;
    let given = alone(10, TWO);
    Ok(ending_of::<CountKeeper, R>(rt, given, input.as_slice(), pieces_of(65_536)))
}

#[test]
fn long_streams(rt: HostRuntime) -> Result<(), Fail> {
    for (byte, count, wanted) in [
        (b'\n', 1_000_000, None),
        (b'\n', 1_000_001, Some(RunFault::TooManyLines)),
        (b'x', 100_000, Some(RunFault::LineTooLong { line: 1 })),
    ] {
        let ending = repeated(&rt, byte, count)?;
        same_at(&rt, ending.fault, wanted, "bytes:", count);
        hold_at(&rt, ending.output.is_empty(), "bytes:", count);
    }
    Ok(())
}

/// Words, and this number of digits after them.
fn line_of(alloc: Global, words: &str, digit: u8, count: usize) -> Result<Vec<u8>, AllocError> {
    let digits = vec![in alloc; digit; count]?;
    let mut line = Vec::new(alloc);
    line.extend_from_slice(words.as_bytes())?;
    line.extend_from_slice(digits.as_slice())?;
    Ok(line)
}

/// A run over the two activities, and one line in pieces of seven bytes.
fn answered_line<R: Abort + AllocGlobal>(rt: &R, line: &[u8]) -> Ending {
    ending_of::<CountKeeper, R>(rt, alone(10, TWO), line, pieces_of(7))
}

#[test]
fn long_and_odd_words(rt: HostRuntime) -> Result<(), Fail> {
    for (words, digit, count, wanted) in [
        ("fix 1 ", b'0', 4_000, "ok\n"),
        ("fix 1 ", b'9', 4_000, "fault word 3 is out of range\n"),
        ("fix 1 -", b'1', 1, "fault word 3 is out of range\n"),
        ("", 255, 1, "fault unknown command\n"),
    ] {
        let line = line_of(rt.alloc(), words, digit, count)?;
        let ending = answered_line(&rt, line.as_slice());
        same(&rt, ending.fault, None, words);
        same_text(&rt, ending.output.as_slice(), wanted, words);
    }
    Ok(())
}
