//! The place of an engine behind a pointer, which C keeps with the handle.
ghost use Rattle.std.specs.Prelude.{◌≡◌, Option, Some, None, IsSome};
ghost use Rattle.handles.specs.declared.engine.Engine.{Engine};
ghost use Rattle.handles.specs.Owned.{place_owns, place_coded};

mod parts;

use crate::engine::Engine;
use parts::Parts;
use std::alloc::Global;
use std::marker::Model;

/// Where an engine is, if there is one: its one owner. No place is dropped: one that holds an
/// engine gives it up as a box, and only an empty one ends.
#[repr(C)]
pub struct Place {
    at: *mut u8,
    alloc: Global,
    pub ghost value: { Option Engine } by { place_coded },
}

impl Model for Place {
    ghost also_owns = { λ p. place_owns p.alloc p.at p.value };
}

impl Place {
    fn at_pointer(at: *mut u8, alloc: Global) -> Place
        ensures { result.value ≡ None }
    {
        Place { at, alloc }
    }

    fn of_parts(parts: Parts<Engine, Global>) -> Place
        ensures { result.value ≡ Some parts.value }
    {
        let Parts { ptr, alloc } = parts;
        Place {
            at: ptr as *mut u8,
            alloc,
        }
    }

    fn into_parts(self) -> Parts<Engine, Global>
        requires { IsSome self.value }
        ensures { self.value ≡ Some result.value }
    {
        let Place { at, alloc } = self;
        Parts {
            ptr: at as *mut Engine,
            alloc,
        }
    }

    /// A place with nothing in it.
    pub(crate) fn empty(alloc: Global) -> Place
        ensures { result.value ≡ None }
    {
        let nowhere: *mut u8 = std::ptr::null_mut();
        Place::at_pointer(nowhere, alloc)
    }

    /// The place of this engine.
    pub(crate) fn of(engine: Box<Engine, Global>) -> Place
        ensures { result.value ≡ Some engine.value }
    {
        Place::of_parts(Parts::of(engine))
    }

    /// The engine that is here.
    pub(crate) fn into_engine(self) -> Box<Engine, Global>
        requires { IsSome self.value }
        ensures { self.value ≡ Some result.value }
    {
        self.into_parts().into_box()
    }

    /// An empty place ends.
    pub(crate) fn end(self)
        requires { self.value ≡ None }
    {
        let Place { at: _, alloc: _ } = self;
    }
}

unsafe impl Send for Place {}
