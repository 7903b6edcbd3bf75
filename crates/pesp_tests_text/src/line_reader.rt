//! Devices that return their bytes in pieces, that fail, and that have no end.

use crate::asserts::{same_at, same_text};
use pesp_shell_io::{Failed, Front, LONGEST_LINE, LineReader, Noted};
use std::alloc::{AllocError, Global};
use std::io::{self, Read};
use std::test::Fail;

/// Returns bytes in pieces of at most `size` bytes. Then it fails, or is at its end.
#[derive(Drop)]
struct Pieces<'a> {
    // The remaining bytes.
    bytes: &'a [u8],
    // At least 1.
    size: usize,
    // Whether it fails when no bytes remain.
    fails: bool,
}

impl Read for Pieces<'_> {
    fn read(&mut self, room: &mut [u8]) -> io::Result<usize> {
        if self.fails && self.bytes.is_empty() {
            return Err(io::Error::other("a broken device"));
        }
        let count = self.size.min(room.len()).min(self.bytes.len());
        room[..count].copy_from_slice(&self.bytes[..count]);
        self.bytes = &self.bytes[count..];
        Ok(count)
    }
}

/// Appends bytes, and a mark.
fn put_marked(text: &mut Vec<u8>, bytes: &[u8], mark: u8) -> Result<(), AllocError> {
    text.extend_from_slice(bytes)?;
    text.push(mark)?;
    Ok(())
}

/// The first nine lines of a device, with a stroke after each, and how they end: `.` after the last
/// bytes, `!` after the bytes before a failure, `>` before a line that is too long.
fn told(rt: &impl AllocGlobal, device: impl Read + Drop) -> Result<Vec<u8>, AllocError> {
    let mut source = Noted::new(device);
    let mut reader = LineReader::new(rt.alloc())?;
    let mut text = Vec::new(rt.alloc());
    'lines: for _ in 0..9 {
        match reader.look(&mut source) {
            Ok(Front::Line(length)) => {
                put_marked(&mut text, &reader.held()[..length], b'/')?;
                reader.skip(length + 1);
            }
            Ok(Front::Last) => {
                put_marked(&mut text, reader.held(), b'.')?;
                return Ok(text);
            }
            Ok(Front::TooLong) => {
                put_marked(&mut text, b"", b'>')?;
                return Ok(text);
            }
            Err(Failed) => {
                put_marked(&mut text, reader.held(), b'!')?;
                return Ok(text);
            }
        }
    }
    Ok(text)
}

/// The same for a text that arrives in pieces of at most this number of bytes.
fn told_in_pieces(
    rt: &impl AllocGlobal,
    text: &str,
    size: usize,
    fails: bool,
) -> Result<Vec<u8>, AllocError> {
    let bytes = text.as_bytes();
    told(rt, Pieces { bytes, size, fails })
}

const LINES: &[(&str, bool, &str)] = &[
    ("", false, "."),
    ("\n", false, "/."),
    (
        "cost\n\nfix 1 0\r\ntensions",
        false,
        "cost//fix 1 0\r/tensions.",
    ),
    ("cost\n\nfix 1", true, "cost//fix 1!"),
    ("cost\n", true, "cost/!"),
];

#[test]
fn lines_come_in_pieces(rt: HostRuntime) -> Result<(), Fail> {
    for size in [1, 2, 3, 7, 4_096] {
        for (text, fails, wanted) in LINES {
            let lines = told_in_pieces(&rt, text, size, *fails)?;
            same_at(&rt, lines.as_slice(), wanted.as_bytes(), "pieces of", size);
        }
    }
    Ok(())
}

/// A line of this number of bytes, with its line feed.
fn long_line(alloc: Global, length: usize) -> Result<Vec<u8>, AllocError> {
    let mut text = vec![in alloc; b'#'; length]?;
    text.push(b'\n')?;
    Ok(text)
}

/// The first mark for a line of this number of bytes that arrives in pieces of at most `size`
/// bytes.
fn first_mark(rt: &impl AllocGlobal, length: usize, size: usize) -> Result<Option<u8>, AllocError> {
    let text = long_line(rt.alloc(), length)?;
    let bytes = text.as_slice();
    let fails = false;
    let lines = told(rt, Pieces { bytes, size, fails })?;
    Ok(lines.iter().find(|b| **b != b'#').copied())
}

#[test]
fn long_lines(rt: HostRuntime) -> Result<(), Fail> {
    for size in [1, 7, 5_000] {
        for (length, wanted, words) in [
            (LONGEST_LINE, b'/', "the longest line in pieces of"),
            (LONGEST_LINE + 1, b'>', "a line too long in pieces of"),
        ] {
            let mark = first_mark(&rt, length, size)?;
            same_at(&rt, mark, Some(wanted), words, size);
        }
    }
    Ok(())
}

#[test]
fn devices_without_end(rt: HostRuntime) -> Result<(), Fail> {
    for (byte, wanted, message) in [(b'#', ">", "one line"), (b'\n', "/////////", "empty lines")] {
        let lines = told(&rt, io::repeat(byte))?;
        same_text(&rt, lines.as_slice(), wanted, message);
    }
    Ok(())
}
