//! The fields of an activity, as rows and scripts have them.

ghost use Rattle.std.specs.Prelude.{◌≡◌, ◌++◌, OnOk};
ghost use Rattle.std.specs.Fmt.{signed_decimal};
ghost use Rattle.pesp_base.specs.Texts.{separated};
ghost use Rattle.pesplib_writer.specs.Texts.{activity_fields};

use crate::text::{put, put_before, put_between, put_signed};
use pesp_base::{Activity, Span};
use std::alloc::AllocError;

/// The bounds of a span with a text between them.
fn put_bounds(text: &mut Vec<u8>, span: Span, between: &[u8]) -> Result<(), AllocError>
    ensures { OnOk result (text.new.items
        ≡ text.old.items
        ++ (signed_decimal span.lower ++ (between.now ++ signed_decimal span.upper))) }
{
    put_signed(text, span.lower())?;
    put(text, between)?;
    put_signed(text, span.upper())
}

/// The fields of an activity with a text between each two: its number, its ends, its bounds and its
/// weight.
pub(crate) fn put_fields(
    text: &mut Vec<u8>,
    activity: &Activity,
    between: &[u8],
) -> Result<(), AllocError>
    ensures { OnOk result (text.new.items
        ≡ text.old.items ++ separated between.now (activity_fields activity.now)) }
{
    put_before(text, u64::from(activity.id.get()), between)?;
    put_before(text, u64::from(activity.from.get()), between)?;
    put_before(text, u64::from(activity.to.get()), between)?;
    put_bounds(text, activity.span, between)?;
    put_between(text, between, u64::from(activity.weight.get()), b"")
}
