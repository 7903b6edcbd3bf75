//! The bytes of the files that the command line names.

ghost use Rattle.std.specs.Prelude.{◌≡◌};
ghost use Rattle.std.specs.Option.{option_copied};
ghost use Rattle.pesp_shell_main.specs.Wiring as wiring;

/// The bytes of each file, where one is named.
#[derive(Drop)]
pub struct FileBytes {
    pub activities: Option<Vec<u8>>,
    pub fixed: Option<Vec<u8>>,
    pub times: Option<Vec<u8>>,
}

/// The bytes of one of them.
pub fn bytes_of(file: &Option<Vec<u8>>) -> Option<&[u8]>
    ensures { option_copied result ≡ wiring.bytes_of file.now }
{
    match file {
        Some(bytes) => Some(bytes.as_slice()),
        None => None,
    }
}
