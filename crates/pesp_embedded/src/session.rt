//! Sessions, as callers hold them.

ghost use Rattle.std.specs.Prelude.{◌≡◌, Some, None, is_some, option_map};

use crate::handle::Handle;
use crate::kept::Kept;
use std::alloc::Global;

/// A session, as its caller holds it. One of zeros is closed.
///
/// It is a pointer with a mark, in memory of the caller (docs/DECISIONS.md, "In process, page and
/// package").
#[repr(C)]
#[derive(Drop)]
pub struct Session {
    /// The handle of what an open session keeps.
    pub handle: Handle,
    // Whether the session is open: the handle keeps something.
    is_open: bool,
    ghost tells: { is_open ≡ is_some handle.kept },
}

impl Session {
    /// A closed session.
    fn closed(alloc: Global) -> Session
        ensures { result.handle.kept ≡ None }
    {
        Session {
            handle: Handle::none(alloc),
            is_open: false,
        }
    }

    /// An open session.
    fn of(kept: Box<Kept>) -> Session
        ensures { result.handle.kept ≡ Some kept.value }
    {
        Session {
            handle: Handle::of(kept),
            is_open: true,
        }
    }

    /// What the session keeps; none if it is closed.
    fn into_box(self) -> Option<Box<Kept>>
        ensures { option_map (λ kept. kept.value) result ≡ self.handle.kept }
    {
        if self.is_open {
            Some(self.handle.into_box())
        } else {
            None
        }
    }

    /// Takes out what the session keeps, and closes it. Each call takes it out, and restores it by
    /// `put`: a handle lends nothing.
    pub(crate) fn take(&mut self, alloc: Global) -> Option<Box<Kept>>
        ensures kept { option_map (λ kept. kept.value) result ≡ self.old.handle.kept }
        ensures closed { self.new.handle.kept ≡ None }
    {
        std::mem::replace(self, Session::closed(alloc)).into_box()
    }

    /// Opens the session with what it is to keep. The session is closed before: replacing its
    /// handle frees nothing.
    pub(crate) fn put(&mut self, kept: Box<Kept>)
        ensures { self.new.handle.kept ≡ Some kept.value }
    {
        *self = Session::of(kept);
    }
}
