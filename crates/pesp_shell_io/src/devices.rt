//! Where commands come from and where replies go.
//!
//! std's readers and writers keep no record of a failure, of the end or of a flush, so a contract
//! over them cannot say that one happened. [`Noted`] records the first two, and [`Flush`] makes the
//! third known.

ghost use Rattle.std.specs.Prelude.{◌≡◌, ℕ, ◌<◌, ⊤, Bool, true, false, List, Option, length, IfOk, IsTrue, OnOk, OnErr};
ghost use Rattle.std.specs.Io.KnownBytes.{Keeps, ReadConsumes, WriteAppends};
ghost use Rattle.std.specs.Io.{ReadsAtMost, WritesAtMost};
ghost use Rattle.pesp_shell_io.specs.Devices.{MarksEnd, MarksFailure, MarksHeldBack};

use std::io;
use std::io::{Read, Write};

/// A device failed.
#[derive(Clone, Copy, Debug, PartialEq, Eq)]
pub struct Failed;

/// Where bytes come from.
pub trait ByteSource {
    /// The remaining bytes, if they are known.
    ghost left: { Self → Option (List ℕ) };

    /// Whether a call failed.
    ghost failed: { Self → Bool };

    /// Whether the last call with any room found the end.
    ghost at_end: { Self → Bool };

    /// Writes bytes to the front of the room, and returns their number: 0 at the end, or if there
    /// is no room.
    ///
    /// No call may follow a failed one.
    fn take(&mut self, room: &mut [u8]) -> Result<usize, Failed>
        requires { failed self.old ≡ false }
        ensures count { ReadsAtMost result room.new }
        ensures bytes { ReadConsumes (left self.old) (left self.new) result room.new }
        ensures failure { MarksFailure result (failed self.old) (failed self.new) }
        ensures end { MarksEnd result (length room.old) (at_end self.old) (at_end self.new) };
}

/// Where bytes go.
pub trait ByteSink {
    /// The accepted bytes, if they are known.
    ghost written: { Self → Option (List ℕ) };

    /// Whether a call failed.
    ghost failed: { Self → Bool };

    /// Whether all accepted bytes are passed on.
    ghost passed_on: { Self → Bool };

    /// What holds after a flush of the device, and follows from nothing else.
    ghost is_flushed: { Self → Type 0 } = { λ _. ⊤ };

    /// Accepts bytes from the front, at least one if there is one, and returns their number.
    ///
    /// No call may follow a failed one, neither of this nor of `finish`.
    fn put(&mut self, bytes: &[u8]) -> Result<usize, Failed>
        requires { failed self.old ≡ false }
        ensures count { WritesAtMost result bytes.now }
        ensures some { IfOk result (λ n. 0 < length bytes.now → 0 < n) }
        ensures bytes { WriteAppends (written self.old) (written self.new) result bytes.now }
        ensures held { MarksHeldBack result (passed_on self.old) (passed_on self.new) }
        ensures failure { MarksFailure result (failed self.old) (failed self.new) };

    /// Flushes the device. Before that, it may hold back accepted bytes.
    fn finish(&mut self) -> Result<(), Failed>
        requires { failed self.old ≡ false }
        ensures bytes { Keeps (written self.old) (written self.new) }
        ensures passed { OnOk result (IsTrue (passed_on self.new)) }
        ensures held { OnErr result (passed_on self.new ≡ passed_on self.old) }
        ensures flushed { OnOk result (is_flushed self.new) }
        ensures failure { MarksFailure result (failed self.old) (failed self.new) };
}

/// A writer whose flushes a contract can mention.
pub trait Flush: Write {
    /// What holds after a flush, and follows from nothing else.
    ghost is_flushed: { Self → Type 0 };

    /// Flushes the writer.
    fn flush_all(&mut self) -> io::Result<()>
        ensures bytes { Keeps (Self.contents self.old) (Self.contents self.new) }
        ensures flushed { OnOk result (is_flushed self.new) };
}

impl<W: Write> Flush for W {
    ghost use Rattle.std.specs.Prelude.{⊤};

    ghost is_flushed = { λ _. ⊤ };

    fn flush_all(&mut self) -> io::Result<()> {
        self.flush()
    }
}

/// A reader or a writer that records a failure, the end, and whether all that was written is
/// flushed.
#[derive(Drop)]
pub struct Noted<D> {
    // Called only through this type.
    device: D,
    // Set by a failed call, and never cleared.
    failed: bool,
    // Whether the last read with any room returned no byte.
    at_end: bool,
    // Whether a flush succeeded, and the device accepted nothing since.
    passed_on: bool,
}

impl<D> Noted<D> {
    ghost use Rattle.pesp_shell_io.specs.Noted.{device_of, has_failed, has_passed_on, is_at_end};

    pub fn new(device: D) -> Noted<D>
        ensures device { device_of result ≡ device }
        ensures failed { has_failed result ≡ false }
        ensures end { is_at_end result ≡ false }
        ensures passed_on { has_passed_on result ≡ false }
    {
        Noted {
            device,
            failed: false,
            at_end: false,
            passed_on: false,
        }
    }

    /// Records a failure, and returns it.
    fn fail(&mut self) -> Failed
        ensures device { device_of self.new ≡ device_of self.old }
        ensures failed { has_failed self.new ≡ true }
        ensures end { is_at_end self.new ≡ is_at_end self.old }
        ensures passed_on { has_passed_on self.new ≡ has_passed_on self.old }
    {
        self.failed = true;
        Failed
    }
}

impl<R: Read> ByteSource for Noted<R> {
    ghost left = { λ n. R.remaining n.device };

    ghost failed = { λ n. n.failed };

    ghost at_end = { λ n. n.at_end };

    fn take(&mut self, room: &mut [u8]) -> Result<usize, Failed> {
        let has_room = !room.is_empty();
        match self.device.read(room) {
            Ok(count) => {
                if has_room {
                    self.at_end = count == 0;
                }
                Ok(count)
            }
            // An interrupted read is a failure too, because the program handles no signal.
            Err(_) => Err(self.fail()),
        }
    }
}

impl<W: Flush> ByteSink for Noted<W> {
    ghost written = { λ n. W.contents n.device };

    ghost failed = { λ n. n.failed };

    ghost passed_on = { λ n. n.passed_on };

    ghost is_flushed = { λ n. W.is_flushed n.device };

    fn put(&mut self, bytes: &[u8]) -> Result<usize, Failed> {
        match self.device.write(bytes) {
            Ok(0) if bytes.is_empty() => Ok(0),
            Ok(count) if count > 0 => {
                self.passed_on = false;
                Ok(count)
            }
            _ => Err(self.fail()),
        }
    }

    fn finish(&mut self) -> Result<(), Failed> {
        if self.device.flush_all().is_err() {
            return Err(self.fail());
        }
        self.passed_on = true;
        Ok(())
    }
}
