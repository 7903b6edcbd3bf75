//! What a session keeps, behind a pointer that C can hold.

ghost use Rattle.std.specs.Prelude.{◌≡◌, Option, Some, None, IsSome};
ghost use Rattle.pesp_embedded.specs.Handles.{kept_coded, kept_owned};
ghost use Rattle.pesp_embedded.specs.declared.kept.Kept.{Kept};

mod parts;

use crate::kept::Kept;
use parts::Parts;
use std::alloc::Global;
use std::marker::Model;

/// A pointer to what a session keeps, or to nothing. Dropping it frees nothing: `into_box` takes
/// out what it keeps first.
#[repr(C)]
#[derive(Drop)]
pub struct Handle {
    // Points to the block of what is kept; unused if nothing is.
    at: *mut u8,
    // The allocator of that block.
    alloc: Global,
    pub ghost kept: { Option Kept } by { kept_coded },
}

impl Model for Handle {
    ghost also_owns = { λ h. kept_owned h.alloc h.at h.kept };
}

impl Handle {
    /// The handle of a box, from its parts.
    fn of_parts(parts: Parts<Kept, Global>) -> Handle
        ensures { result.kept ≡ Some parts.value }
    {
        let Parts { ptr, alloc } = parts;
        Handle {
            at: ptr as *mut u8,
            alloc,
        }
    }

    /// The parts of the box that the handle keeps. It keeps one.
    fn into_parts(self) -> Parts<Kept, Global>
        requires { IsSome self.kept }
        ensures { self.kept ≡ Some result.value }
    {
        let Handle { at, alloc } = self;
        Parts {
            ptr: at as *mut Kept,
            alloc,
        }
    }

    /// The handle of a box.
    pub(crate) fn of(kept: Box<Kept>) -> Handle
        ensures { result.kept ≡ Some kept.value }
    {
        Handle::of_parts(Parts::of(kept))
    }

    /// The box that the handle keeps. It keeps one.
    pub(crate) fn into_box(self) -> Box<Kept>
        requires { IsSome self.kept }
        ensures { self.kept ≡ Some result.value }
    {
        self.into_parts().into_box()
    }

    /// A handle of nothing.
    pub(crate) fn none(alloc: Global) -> Handle
        ensures { result.kept ≡ None }
    {
        Handle {
            at: std::ptr::null_mut(),
            alloc,
        }
    }
}
