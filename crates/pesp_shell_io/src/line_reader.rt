//! Lines of a stream, one at a time.

ghost use Rattle.std.specs.Prelude.{◌≡◌, ◌≢◌, ◌↔◌, ℕ, ◌-◌, ◌≤◌, ◌<◌, [], ◌++◌, List, drop, length, slice_range, take, IfOk, IfSome, MatchOption, OnErr, not, true, false, IsTrue};
ghost use Rattle.std.specs.Io.KnownBytes.{Consumes, IsAtEnd};
ghost use Rattle.pesp_shell_io.specs.declared.line_reader.TheConstants.{ROOM};
ghost use Rattle.pesp_shell_io.specs.Devices.{MarksFailure};
ghost use Rattle.pesp_shell_io.specs.declared.line_reader.Front.TheVariants as fronts;
ghost use Rattle.pesp_shell_io.specs.Lines.{longest_line};
ghost use Rattle.pesp_shell_io.specs.Fronts.{IsFront, IsUnended};

use crate::{ByteSource, Failed, LONGEST_LINE};
use memchr::memchr;
use std::alloc::{AllocError, Global};
use std::marker::Model;

/// The size of the buffer in bytes, more than the longest line with its line feed. It trades memory
/// for fewer reads; no measurement chose it.
const ROOM: usize = 65_536;

/// What the held bytes begin with.
#[derive(Clone, Copy, Debug, PartialEq, Eq)]
pub enum Front {
    /// A line of this number of bytes, and its line feed.
    Line(usize),
    /// The source is at its end: the held bytes are the last line, or there are none.
    Last,
    /// A line that is too long.
    TooLong,
}

/// Holds the bytes that were read from a source and not used yet: those from `start` to `end` of a
/// buffer.
#[derive(Drop)]
pub struct LineReader {
    // Its length is always ROOM.
    buffer: Vec<u8>,
    // At most `end`.
    start: usize,
    // At most ROOM.
    end: usize,
}

impl Model for LineReader {
    ghost use Rattle.std.specs.Prelude.{ℕ, List, slice_range};
    ghost use Rattle.pesp_shell_io.specs.Held.{IsHeld};

    ghost Value = { List ℕ };

    ghost view = { λ p. slice_range p.buffer.items p.start p.end };

    ghost invariant = { λ p. IsHeld p.buffer.items p.start p.end };
}

impl LineReader {
    /// Holds nothing. Nothing is allocated later.
    pub fn new(alloc: Global) -> Result<LineReader, AllocError>
        ensures { IfOk result (λ reader. reader ≡ []) }
    {
        let buffer = Vec::from_elem(alloc, 0, ROOM)?;
        Ok(LineReader {
            buffer,
            start: 0,
            end: 0,
        })
    }

    /// The bytes that are held.
    pub fn held(&self) -> &[u8]
        ensures { result.now ≡ self.now }
    {
        &self.buffer[self.start..self.end]
    }

    /// Drops bytes at the front.
    pub fn skip(&mut self, count: usize)
        requires { count ≤ length self.old }
        ensures { self.new ≡ drop count self.old }
    {
        self.start += count;
    }

    /// Reads more bytes after the held ones, and returns whether there were any.
    pub fn fill<R: ByteSource>(&mut self, source: &mut R) -> Result<bool, Failed>
        requires room { length self.old < ROOM }
        requires failure { R.failed source.old ≡ false }
        ensures some { IfOk result (λ more. more ≡ true → length self.old < length self.new) }
        ensures none { IfOk result (λ more. more ≡ false → (self.new ≡ self.old)
            × IsAtEnd (R.left source.new)) }
        ensures mark { IfOk result (λ more. R.at_end source.new ≡ not more) }
        ensures failed { OnErr result (self.new ≡ self.old) }
        ensures taken { (bytes : List ℕ) × Consumes (R.left source.old) (R.left source.new) bytes
            × (self.new ≡ self.old ++ bytes) }
        ensures failure { MarksFailure result (R.failed source.old) (R.failed source.new) }
    {
        self.end = pack(&mut self.buffer, self.start, self.end);
        self.start = 0;
        let count = source.take(&mut self.buffer[self.end..])?;
        self.end += count;
        Ok(count > 0)
    }

    /// Reads until the held bytes show what they begin with. If they do already, nothing is read.
    pub fn look<R: ByteSource>(&mut self, source: &mut R) -> Result<Front, Failed>
        requires { R.failed source.old ≡ false }
        ensures front { IfOk result (IsFront self.new) }
        ensures end { IfOk result (λ front. front ≡ fronts.Last → IsTrue (R.at_end source.new)
            × IsAtEnd (R.left source.new)) }
        ensures unended { OnErr result (IsUnended self.new) }
        ensures known { ¬ IsUnended self.old → (self.new ≡ self.old) × (source.new ≡ source.old) }
        ensures taken { (bytes : List ℕ) × Consumes (R.left source.old) (R.left source.new) bytes
            × (self.new ≡ self.old ++ bytes) }
        ensures failure { MarksFailure result (R.failed source.old) (R.failed source.new) }
    {
        'pieces: loop {
            if let Some(front) = front_of(self.held()) {
                return Ok(front);
            }
            if !self.fill(source)? {
                return Ok(Front::Last);
            }
        }
    }
}

/// Moves the bytes from `start` to `end` to the front, and returns their number.
fn pack(buffer: &mut [u8], start: usize, end: usize) -> usize
    requires order { start ≤ end }
    requires inside { end ≤ length buffer.old }
    ensures count { result ≡ end - start }
    ensures front { take result buffer.new ≡ slice_range buffer.old start end }
{
    buffer.copy_within(start..end, 0);
    end - start
}

/// Whether a line may have this number of bytes.
fn is_short(length: usize) -> bool
    ensures { IsTrue result ↔ length ≤ longest_line }
{
    length <= LONGEST_LINE
}

/// What the held bytes begin with, if they show it.
fn front_of(held: &[u8]) -> Option<Front>
    ensures front { MatchOption result (IsUnended held.now) (IsFront held.now) }
    ensures told { IfSome result (λ front. front ≢ fronts.Last) }
{
    match memchr(b'\n', held) {
        Some(length) if is_short(length) => Some(Front::Line(length)),
        None if is_short(held.len()) => None,
        _ => Some(Front::TooLong),
    }
}
