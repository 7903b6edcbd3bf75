//! Where files come from.

ghost use Rattle.std.specs.Prelude.{◌≡◌, ℕ, [], List, Option, take, IfErr, IfOk, IfSome, OnOk};
ghost use Rattle.std.specs.IoError.{error_kind};
ghost use Rattle.std.specs.declared.io.ErrorKind.{ErrorKind};

use std::fs::OpenFile;
use std::io::Read;
use std::rt::Files;
use std::{fs, io};

/// A file that was opened.
pub trait Contents {
    /// The bytes that it has, if they are known.
    ghost whole: { Self → Option (List ℕ) };

    /// Whether reading it may have failed with this error. This follows from nothing else, so a
    /// caller that saw no failure cannot claim one.
    ghost fails: { Self → ErrorKind → Type 0 };

    /// Reads the content, at most `limit` bytes of it.
    fn read_at_most(self, limit: u64, bytes: &mut Vec<u8>) -> io::Result<usize>
    where
        Self: Sized,
        requires { bytes.old.items ≡ [] }
        ensures read { OnOk result (IfSome (whole self) (λ all. bytes.new.items ≡ take limit all)) }
        ensures failed { IfErr result (λ error. fails self (error_kind error)) };
}

impl<F: Read + Drop> Contents for F {
    ghost use Rattle.std.specs.Prelude.{⊤};

    ghost whole = { λ file. F.remaining file };

    // No contract of std says when a read fails.
    ghost fails = { λ _ _. ⊤ };

    fn read_at_most(self, limit: u64, bytes: &mut Vec<u8>) -> io::Result<usize> {
        self.take(limit).read_to_end(bytes)
    }
}

/// Where files come from, by path.
pub trait Paths {
    type File: Contents + Drop;

    /// Whether the path may have opened the file, with the length that it reports. This follows
    /// from nothing else, so a caller that opens another path cannot meet its contract.
    ghost opens: { Self → List ℕ → Self.File → ℕ → Type 0 };

    /// Whether opening the path may have failed with this error.
    ghost refuses: { Self → List ℕ → ErrorKind → Type 0 };

    /// Opens the file at a path, and returns it with the length that it reports. A pipe reports
    /// none.
    fn open(&self, path: &str) -> io::Result<(Self::File, u64)>
        ensures opened { IfOk result (λ opened. opens self.now path.now opened.0 opened.1) }
        ensures refused { IfErr result (λ error. refuses self.now path.now (error_kind error)) };
}

impl<R: Files> Paths for R {
    ghost use Rattle.std.specs.Prelude.{⊤};

    type File = R::File;

    // No contract of std says which file is at a path.
    ghost opens = { λ _ _ _ _. ⊤ };

    ghost refuses = { λ _ _ _. ⊤ };

    fn open(&self, path: &str) -> io::Result<(R::File, u64)> {
        let file = fs::open(self, path)?;
        let length = file.metadata()?.len();
        Ok((file, length))
    }
}
