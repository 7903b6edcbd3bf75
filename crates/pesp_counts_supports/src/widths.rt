//! Ranges of counts, of one byte each or of two.

ghost use Rattle.std.specs.Prelude.{◌≡◌, ℕ, ◌+◌, ◌<◌, ◌≤◌, false, length};
ghost use Rattle.pesp_counts_supports.specs.Counted.{AreShifted, CanShift};
ghost use Rattle.pesp_counts_supports.specs.Lone.{is_lone};

/// Changes the one-byte counts from an index on: each falls by its `down`, and rises by its `up`.
// The loop has no branch, so that several counts change at once.
pub(crate) fn shift_bytes(bytes: &mut [u8], from: usize, down: &[u16], up: &[u16])
    requires within { from + length down.now ≤ length bytes.old }
    requires even { length up.now ≡ length down.now }
    requires can { CanShift 255 from down.now up.now bytes.old }
    ensures shifted { AreShifted from down.now up.now bytes.old bytes.new }
{
    for at in 0..down.len() {
        let count = u16::from(bytes[from + at]) + up[at];
        bytes[from + at] = (count - down[at]) as u8;
    }
}

/// Changes the two-byte counts from an index on: each falls by its `down`, and rises by its `up`.
// The loop has no branch, so that several counts change at once.
pub(crate) fn shift_words(words: &mut [u16], from: usize, down: &[u16], up: &[u16])
    requires within { from + length down.now ≤ length words.old }
    requires even { length up.now ≡ length down.now }
    requires can { CanShift 65535 from down.now up.now words.old }
    ensures shifted { AreShifted from down.now up.now words.old words.new }
{
    for at in 0..down.len() {
        let count = words[from + at] + up[at];
        words[from + at] = count - down[at];
    }
}

/// Whether a held residue may have no partner, by counts of one byte. If not, none has.
// The loop has no branch, so that several counts are read at once.
pub(crate) fn may_be_lone_byte(held: &[bool], counts: &[u8]) -> bool
    requires { length counts.now ≡ length held.now }
    ensures { result ≡ false → (r : ℕ) → r < length held.now
        → is_lone held.now counts.now 0 r ≡ false }
{
    let mut any = false;
    for at in 0..held.len() {
        any |= held[at] & (counts[at] == 0);
    }
    any
}

/// Whether a held residue may have no partner, by counts of two bytes. If not, none has.
// The loop has no branch, so that several counts are read at once.
pub(crate) fn may_be_lone_word(held: &[bool], counts: &[u16]) -> bool
    requires { length counts.now ≡ length held.now }
    ensures { result ≡ false → (r : ℕ) → r < length held.now
        → is_lone held.now counts.now 0 r ≡ false }
{
    let mut any = false;
    for at in 0..held.len() {
        any |= held[at] & (counts[at] == 0);
    }
    any
}
