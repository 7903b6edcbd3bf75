//! Devices over memory: the source and the sink of a run.

ghost use Rattle.std.specs.Prelude.{◌≡◌, [], Some, false};

use pesp_shell::{ByteSink, ByteSource, Failed};
use std::alloc::Global;

/// A text to read. It never fails.
#[derive(Drop)]
pub(crate) struct Given<'a> {
    /// The rest of the text.
    pub(crate) rest: &'a [u8],
    /// Whether the last call with any room found the end.
    pub(crate) at_end: bool,
}

impl ByteSource for Given<'_> {
    ghost left = { λ g. Some g.rest.now };

    // Memory can always be read.
    ghost failed = { λ _. false };

    ghost at_end = { λ g. g.at_end };

    fn take(&mut self, room: &mut [u8]) -> Result<usize, Failed> {
        let count = room.len().min(self.rest.len());
        room[..count].copy_from_slice(&self.rest[..count]);
        self.rest = &self.rest[count..];
        if !room.is_empty() {
            self.at_end = count == 0;
        }
        Ok(count)
    }
}

/// The written text, as far as memory sufficed.
#[derive(Drop)]
pub(crate) struct Taken {
    /// All accepted bytes.
    pub(crate) text: Vec<u8>,
    /// Whether memory ran out for some bytes.
    pub(crate) failed: bool,
    /// Whether `finish` was called after the last accepted byte.
    pub(crate) passed_on: bool,
}

impl ByteSink for Taken {
    ghost written = { λ t. Some t.text.items };

    ghost failed = { λ t. t.failed };

    ghost passed_on = { λ t. t.passed_on };

    fn put(&mut self, bytes: &[u8]) -> Result<usize, Failed> {
        if self.text.extend_from_slice(bytes).is_err() {
            self.failed = true;
            return Err(Failed);
        }
        if !bytes.is_empty() {
            self.passed_on = false;
        }
        Ok(bytes.len())
    }

    fn finish(&mut self) -> Result<(), Failed> {
        self.passed_on = true;
        Ok(())
    }
}
