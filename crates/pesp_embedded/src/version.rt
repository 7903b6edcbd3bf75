//! The version of the library.

ghost use Rattle.std.specs.Prelude.{◌≡◌};
ghost use Rattle.pesp_embedded.specs.Version.{version};

/// The numbers of python/pespbench/VERSION; a test compares them.
const MAJOR: u32 = 0;

const MINOR: u32 = 2;

const PATCH: u32 = 0;

/// The version of the library: `MAJOR` millions, `MINOR` thousands and `PATCH`.
#[unsafe(no_mangle)]
pub extern "C" fn pesp_version() -> u32
    ensures { result ≡ version }
{
    1_000_000 * MAJOR + 1_000 * MINOR + PATCH
}
