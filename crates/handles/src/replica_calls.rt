//! The calls for replicas, of a world in a handle.
ghost use Rattle.std.specs.Prelude.{◌≡◌};
ghost use Rattle.handles.specs.Entries.{ShowsEntry, Repeats};

use crate::engine::Engine;
use crate::entries::{repeat_bytes, show_place};
use crate::handle::Handle;
use crate::outcome::Outcome;
use std::alloc::Global;
use typed_calls::status::CLOSED;

impl Handle {
    /// Writes as much of the code of the entry of this place in the world's log to `out` as fits;
    /// places count from 1. `OK`, with the length of the whole code; else `CLOSED`, `NO_ENTRY` or
    /// `OUT_OF_MEMORY`.
    pub fn entry(&mut self, alloc: Global, place: usize, out: &mut [u8]) -> Outcome
        ensures shows { ShowsEntry self.old.place.value place out.old result out.new }
        ensures same { self.new.place.value ≡ self.old.place.value }
    {
        let Some(engine) = self.take(alloc) else {
            return Outcome::refusal(CLOSED);
        };
        let Engine::World(bounded) = &*engine else {
            self.put(engine);
            return Outcome::refusal(CLOSED);
        };
        let outcome = show_place(alloc, &bounded.world, place, out);
        self.put(engine);
        outcome
    }

    /// Repeats the entry whose code these bytes are in the world. `OK`; else `CLOSED`, `BAD_ENTRY`,
    /// `NOT_NEXT`, also if the entry's moment is too far, or `OUT_OF_MEMORY`, which may come in
    /// place of the two before it. A refusal changes nothing.
    pub fn repeat(&mut self, alloc: Global, entry: &[u8]) -> i32
        ensures { Repeats self.old.place.value entry.now result self.new.place.value }
    {
        let Some(mut engine) = self.take(alloc) else {
            return CLOSED;
        };
        let Engine::World(bounded) = &mut *engine else {
            self.put(engine);
            return CLOSED;
        };
        let status = repeat_bytes(alloc, bounded, entry);
        self.put(engine);
        status
    }
}
