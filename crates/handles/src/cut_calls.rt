//! How many entries a world's log has, and which of them are in memory.
ghost use Rattle.std.specs.Prelude.{◌≡◌};
ghost use Rattle.typed_calls.specs.State.{cut_but};
ghost use Rattle.handles.specs.Cuts.{Cuts, LogLengths, LogStarts};

use crate::engine::Engine;
use crate::handle::Handle;
use crate::outcome::Outcome;
use std::alloc::Global;
use typed_calls::BoundedWorld;
use typed_calls::status::{CLOSED, OK};

// Cuts the log of the world.
fn cut_bounded(bounded: &mut BoundedWorld, keep: usize)
    ensures { bounded.new ≡ record bounded.old { world = cut_but keep bounded.old.world } }
{
    bounded.world.cut_but(keep);
}

impl Handle {
    /// How many entries the log of the world had ever. `OK`; else `CLOSED`. Nothing changes.
    pub fn log_length(&mut self, alloc: Global) -> Outcome
        ensures length { LogLengths self.old.place.value result }
        ensures same { self.new.place.value ≡ self.old.place.value }
    {
        let Some(engine) = self.take(alloc) else {
            return Outcome::refusal(CLOSED);
        };
        let Engine::World(bounded) = &*engine else {
            self.put(engine);
            return Outcome::refusal(CLOSED);
        };
        let length = bounded.world.log_len() as usize;
        self.put(engine);
        Outcome { status: OK, length }
    }

    /// How many entries of the world's log come before those that are in memory: 0 until it is cut.
    /// `OK`; else `CLOSED`. Nothing changes.
    pub fn log_start(&mut self, alloc: Global) -> Outcome
        ensures start { LogStarts self.old.place.value result }
        ensures same { self.new.place.value ≡ self.old.place.value }
    {
        let Some(engine) = self.take(alloc) else {
            return Outcome::refusal(CLOSED);
        };
        let Engine::World(bounded) = &*engine else {
            self.put(engine);
            return Outcome::refusal(CLOSED);
        };
        let length = bounded.world.log_start() as usize;
        self.put(engine);
        Outcome { status: OK, length }
    }

    /// Gives the memory of the entries of the world's log back, but for the last `keep` of those
    /// that are in memory; no answer changes but those of `entry` and `log_start`. `OK`; else
    /// `CLOSED`, and nothing changes. It takes no memory.
    pub fn cut(&mut self, alloc: Global, keep: usize) -> i32
        ensures { Cuts keep self.old.place.value result self.new.place.value }
    {
        let Some(mut engine) = self.take(alloc) else {
            return CLOSED;
        };
        let Engine::World(bounded) = &mut *engine else {
            self.put(engine);
            return CLOSED;
        };
        cut_bounded(bounded, keep);
        self.put(engine);
        OK
    }
}
