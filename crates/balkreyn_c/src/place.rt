//! The memory behind a book: a box whose pointer C may keep, typed as bytes.

ghost use Rattle.std.specs.Prelude.{◌≡◌, IsNone, IsSome, None, Option, Some};
ghost use Rattle.balkreyn_c.specs.Owning.{Timed, place_coded, place_owns};

mod parts;

use crate::timed::TimedRealm;
use parts::Parts;
use std::alloc::Global;
use std::marker::Model;
use std::ptr;

/// Where a realm with its times lies, or nothing. What the pointer points to is theirs alone.
#[repr(C)]
pub struct Place {
    at: *mut u8,
    alloc: Global,
    pub ghost held: { Option Timed } by { place_coded },
}

impl Model for Place {
    ghost also_owns = { λ p. place_owns p.alloc p.at p.held };
}

unsafe impl Send for Place {}

impl Place {
    /// Nothing.
    pub fn empty(alloc: Global) -> Place
        ensures { result.held ≡ None }
    {
        let at = ptr::null_mut();
        Place { at, alloc }
    }

    /// The same pointer, typed as bytes.
    fn of_parts(parts: Parts<TimedRealm, Global>) -> Place
        ensures { result.held ≡ Some parts.value }
    {
        let Parts { ptr, alloc } = parts;
        let at = ptr as *mut u8;
        Place { at, alloc }
    }

    /// The pointer as it was.
    fn into_parts(self) -> Parts<TimedRealm, Global>
        requires { IsSome self.held }
        ensures { self.held ≡ Some result.value }
    {
        let Place { at, alloc } = self;
        let ptr = at as *mut TimedRealm;
        Parts { ptr, alloc }
    }

    /// Where the box keeps it.
    pub fn of_box(timed: Box<TimedRealm, Global>) -> Place
        ensures { result.held ≡ Some timed.value }
    {
        Place::of_parts(Parts::of(timed))
    }

    /// The box, which is there.
    pub fn into_box(self) -> Box<TimedRealm, Global>
        requires { IsSome self.held }
        ensures { self.held ≡ Some result.value }
    {
        self.into_parts().into_box()
    }
}

/// A place that holds a realm is not dropped: its memory would be lost.
impl Drop for Place {
    fn drop(self)
        requires { IsNone self.held }
    {
        let Place {
            at: _at,
            alloc: _alloc,
        } = self;
    }
}
