//! What C keeps of an engine.
ghost use Rattle.std.specs.Prelude.{◌≡◌, option_map, Some, None, is_some};

use crate::engine::Engine;
use crate::place::Place;
use std::alloc::Global;

/// What C keeps. All zeros is closed.
#[repr(C)]
pub struct Handle {
    /// Where the engine is.
    pub place: Place,
    pub(crate) is_open: bool,
    ghost says: { is_open ≡ is_some place.value },
}

impl Handle {
    /// A handle that holds nothing.
    pub(crate) fn closed(alloc: Global) -> Handle
        ensures { result.place.value ≡ None }
    {
        Handle {
            place: Place::empty(alloc),
            is_open: false,
        }
    }

    // A handle that holds this engine.
    fn over(engine: Box<Engine, Global>) -> Handle
        ensures { result.place.value ≡ Some engine.value }
    {
        Handle {
            place: Place::of(engine),
            is_open: true,
        }
    }

    /// Whether the handle holds an engine.
    pub fn is_open(&self) -> bool
        ensures { result ≡ is_some self.now.place.value }
    {
        self.is_open
    }

    // A closed handle ends.
    pub(crate) fn end(self)
        requires { self.place.value ≡ None }
    {
        let Handle { place, is_open: _ } = self;
        place.end();
    }

    /// The engine, which leaves the handle closed.
    pub fn take(&mut self, alloc: Global) -> Option<Box<Engine, Global>>
        ensures engine { option_map (λ b. b.value) result ≡ self.old.place.value }
        ensures closed { self.new.place.value ≡ None }
    {
        let Handle { place, is_open } = std::mem::replace(self, Handle::closed(alloc));
        if is_open {
            Some(place.into_engine())
        } else {
            place.end();
            None
        }
    }

    /// Puts an engine into a closed handle.
    pub fn put(&mut self, engine: Box<Engine, Global>)
        requires { self.old.place.value ≡ None }
        ensures { self.new.place.value ≡ Some engine.value }
    {
        std::mem::replace(self, Handle::over(engine)).end();
    }
}

fn crosses<T: Send>(_value: &T) {}

// A handle may be used from one thread after another.
pub(crate) fn may_cross(handle: &Handle) {
    crosses(handle);
}
