//! Values with a number.

ghost use Rattle.std.specs.Prelude.{◌≡◌, ◌≤◌};
ghost use Rattle.pesp_base.specs.Limits.{greatest_number};

use crate::vertex::Vertex;
use pesp_base::Activity;

/// A value with a number of its own.
pub trait Numbered: Drop {
    ghost use Rattle.std.specs.Prelude.{ℕ};

    ghost number: { Self → ℕ };

    fn number(&self) -> u32
        ensures value { result ≡ number self.now }
        ensures limit { result ≤ greatest_number };
}

impl Numbered for Vertex {
    ghost number = { λ x. x.event.id };

    fn number(&self) -> u32 {
        self.event.id.get()
    }
}

impl Numbered for Activity {
    ghost number = { λ a. a.id };

    fn number(&self) -> u32 {
        self.id.get()
    }
}
