//! Devices that accept few bytes at a time, that accept no more, and that fail.

ghost use Rattle.std.specs.Prelude.{◌≡◌, false};

use crate::asserts::same_at;
use pesp_shell_io::{ByteSink, Failed, Noted, put_all};
use std::io::{self, Write};
use std::process::Abort;

/// Accepts at most `size` bytes at a time, and at most `room` bytes in all.
#[derive(Drop)]
struct Narrow<'a> {
    // All accepted bytes.
    taken: &'a mut Vec<u8>,
    // At least 1.
    size: usize,
    // The number of bytes that it still accepts.
    room: usize,
}

impl Write for Narrow<'_> {
    fn write(&mut self, bytes: &[u8]) -> io::Result<usize> {
        let count = self.size.min(self.room).min(bytes.len());
        self.taken.extend_from_slice(&bytes[..count])?;
        self.room -= count;
        Ok(count)
    }

    fn flush(&mut self) -> io::Result<()> {
        if self.room == 0 {
            return Err(io::Error::other("a broken device"));
        }
        Ok(())
    }
}

/// Writes a text to a sink, and finishes it if all was written. Returns both results.
fn put_and_finish<W: ByteSink>(
    sink: &mut W,
    text: &[u8],
) -> (Result<(), Failed>, Result<(), Failed>)
    requires { W.failed sink.old ≡ false }
{
    if put_all(sink, text).is_err() {
        return (Err(Failed), Err(Failed));
    }
    (Ok(()), sink.finish())
}

/// Writes a text to a device with this room, and finishes it. Returns both results.
fn put_into(
    taken: &mut Vec<u8>,
    text: &[u8],
    size: usize,
    room: usize,
) -> (Result<(), Failed>, Result<(), Failed>) {
    put_and_finish(&mut Noted::new(Narrow { taken, size, room }), text)
}

fn assert_taken(
    rt: &(impl Abort + AllocGlobal),
    size: usize,
    room: usize,
    wanted: &str,
    answers: (Result<(), Failed>, Result<(), Failed>),
) {
    let mut taken = Vec::new(rt.alloc());
    let (put, finished) = put_into(&mut taken, b"cost 12\n", size, room);
    same_at(rt, put, answers.0, "put in room", room);
    same_at(rt, finished, answers.1, "finished in room", room);
    same_at(
        rt,
        taken.as_slice(),
        wanted.as_bytes(),
        "taken in room",
        room,
    );
}

#[test]
fn texts_are_put_in_pieces(rt: HostRuntime) {
    for size in [1, 2, 3, 7] {
        assert_taken(&rt, size, 9, "cost 12\n", (Ok(()), Ok(())));
        assert_taken(&rt, size, 8, "cost 12\n", (Ok(()), Err(Failed)));
        assert_taken(&rt, size, 5, "cost ", (Err(Failed), Err(Failed)));
    }
}
