//! Devices that move small pieces, and that break at one of their calls; and runs over them.

use crate::sessions::{Given, period};
use pesp_domains::Keeper;
use pesp_shell::{Noted, RunFault, run};
use std::io::{self, Read, Write};
use std::process::Abort;

/// The behaviour of a device at a call.
#[derive(Clone, Copy)]
pub(crate) enum Manner {
    /// It moves some bytes.
    Works,
    /// It returns an error.
    Fails,
    /// It reports that there were no bytes.
    Idles,
}

/// The size of a device's pieces, and from which call on it is broken, and how.
#[derive(Clone, Copy)]
pub(crate) struct Habit {
    // The greatest number of bytes that a call moves.
    pub(crate) size: usize,
    // The number of calls before it breaks.
    pub(crate) calls: usize,
    // Its behaviour from then on.
    pub(crate) broken: Manner,
}

/// A device that never breaks.
pub(crate) fn sound(size: usize) -> Habit {
    Habit {
        size,
        calls: 0,
        broken: Manner::Works,
    }
}

/// Counts the calls of a broken device, and returns its behaviour at this call.
fn next_manner(habit: &mut Habit, broken_calls: &mut usize) -> Manner {
    if habit.calls > 0 {
        habit.calls -= 1;
        return Manner::Works;
    }
    if !matches!(habit.broken, Manner::Works) {
        *broken_calls = broken_calls.saturating_add(1);
    }
    habit.broken
}

/// Returns some bytes at each call.
#[derive(Drop)]
struct Pieces<'a> {
    // The remaining bytes.
    bytes: &'a [u8],
    // Its `calls` fall to 0.
    habit: Habit,
    // The number of calls after that.
    broken_calls: &'a mut usize,
}

impl Read for Pieces<'_> {
    fn read(&mut self, room: &mut [u8]) -> io::Result<usize> {
        match next_manner(&mut self.habit, self.broken_calls) {
            Manner::Fails => return Err(io::Error::other("a broken device")),
            Manner::Idles => return Ok(0),
            Manner::Works => {}
        }
        let count = self.habit.size.min(room.len()).min(self.bytes.len());
        room[..count].copy_from_slice(&self.bytes[..count]);
        self.bytes = &self.bytes[count..];
        Ok(count)
    }
}

/// Accepts bytes, and flushes them if it can.
#[derive(Drop)]
struct Narrow<'a> {
    // All accepted bytes.
    taken: &'a mut Vec<u8>,
    // Its `calls` fall to 0.
    habit: Habit,
    // Whether a flush succeeds.
    flushes: bool,
    // The number of calls after it broke.
    broken_calls: &'a mut usize,
}

impl Write for Narrow<'_> {
    fn write(&mut self, bytes: &[u8]) -> io::Result<usize> {
        match next_manner(&mut self.habit, self.broken_calls) {
            Manner::Fails => return Err(io::Error::other("a broken device")),
            Manner::Idles => return Ok(0),
            Manner::Works => {}
        }
        let count = self.habit.size.min(bytes.len());
        self.taken.extend_from_slice(&bytes[..count])?;
        Ok(count)
    }

    fn flush(&mut self) -> io::Result<()> {
        if self.flushes {
            return Ok(());
        }
        *self.broken_calls = self.broken_calls.saturating_add(1);
        Err(io::Error::other("a broken device"))
    }
}

/// The devices of a run.
#[derive(Clone, Copy)]
pub(crate) struct Devices {
    // Where commands come from.
    pub(crate) source: Habit,
    // Where replies go.
    pub(crate) sink: Habit,
    // Whether a flush of the sink succeeds.
    pub(crate) flushes: bool,
}

/// Devices that work, with pieces of this size.
pub(crate) fn pieces_of(size: usize) -> Devices {
    Devices {
        source: sound(size),
        sink: sound(size),
        flushes: true,
    }
}

/// The result of a run, its output, and the number of calls of broken devices.
#[derive(Drop)]
pub(crate) struct Ending {
    // None if the run answered all lines.
    pub(crate) fault: Option<RunFault>,
    // The bytes that the sink accepted.
    pub(crate) output: Vec<u8>,
    // Of both devices.
    pub(crate) broken_calls: usize,
}

/// A run over such devices.
pub(crate) fn ending_of<K: Keeper, R: Abort + AllocGlobal>(
    rt: &R,
    given: Given,
    input: &[u8],
    devices: Devices,
) -> Ending {
    let period = period(rt, given.period);
    let mut output = Vec::new(rt.alloc());
    let (mut unread, mut unwritten) = (0, 0);
    let mut reader = Noted::new(Pieces {
        bytes: input,
        habit: devices.source,
        broken_calls: &mut unread,
    });
    let mut writer = Noted::new(Narrow {
        taken: &mut output,
        habit: devices.sink,
        flushes: devices.flushes,
        broken_calls: &mut unwritten,
    });
    let activities = given.activities.as_bytes();
    let ended = run::<K, _, _>(
        rt.alloc(),
        period,
        activities,
        None,
        None,
        &mut reader,
        &mut writer,
    );
    Ending {
        fault: ended.err(),
        output,
        broken_calls: unread.saturating_add(unwritten),
    }
}
