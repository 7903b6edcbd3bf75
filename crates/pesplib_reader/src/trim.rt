//! Spaces and tabs, which have no meaning around a field.

ghost use Rattle.std.specs.Prelude.{◌≡◌};
ghost use Rattle.pesplib_reader.specs.Records as records;

fn is_blank(byte: u8) -> bool
    ensures { result ≡ records.is_blank byte }
{
    byte == b' ' || byte == b'\t'
}

fn trim_start(text: &[u8]) -> &[u8]
    ensures { result.now ≡ records.trim_start text.now }
{
    let mut rest = text;
    while let [first, after @ ..] = rest
        && is_blank(*first)
    {
        rest = after;
    }
    rest
}

fn trim_end(text: &[u8]) -> &[u8]
    ensures { result.now ≡ records.trim_end text.now }
{
    let mut rest = text;
    while let [before @ .., last] = rest
        && is_blank(*last)
    {
        rest = before;
    }
    rest
}

/// The text without the spaces and tabs at its ends.
pub(crate) fn trim(text: &[u8]) -> &[u8]
    ensures { result.now ≡ records.trim text.now }
{
    trim_end(trim_start(text))
}
