//! Writing whole texts.

ghost use Rattle.std.specs.Prelude.{◌≡◌, ℕ, false, take, OnOk, OnErr};
ghost use Rattle.std.specs.Io.KnownBytes.{Appends};
ghost use Rattle.pesp_shell_io.specs.Devices.{MarksFailure};

use crate::{ByteSink, Failed};

/// Writes all the bytes, in as many calls as that needs.
pub fn put_all<W: ByteSink>(sink: &mut W, bytes: &[u8]) -> Result<(), Failed>
    requires { W.failed sink.old ≡ false }
    ensures ok { OnOk result (Appends (W.written sink.old) (W.written sink.new) bytes.now) }
    ensures err { OnErr result ((n : ℕ)
        × Appends (W.written sink.old) (W.written sink.new) (take n bytes.now)) }
    ensures failure { MarksFailure result (W.failed sink.old) (W.failed sink.new) }
{
    let mut rest = bytes;
    'calls: while !rest.is_empty() {
        let count = sink.put(rest)?;
        rest = &rest[count..];
    }
    Ok(())
}
