//! Checkpoints in handles of their own, their bytes, and worlds that open there.
ghost use Rattle.std.specs.Prelude.{◌≡◌, None};
ghost use Rattle.handles.specs.Checkpoints.{OpensCheckpoint, OpensHere, SavesInto, SavesTo, Takes, TakesInto};

use crate::boxes::{filled, taken_out};
use crate::engine::Engine;
use crate::handle::Handle;
use std::alloc::Global;
use typed_calls::status::{ALREADY_OPEN, CLOSED, OK};
use typed_calls::world::{Checkpoint, World};

impl Handle {
    // Fills a closed handle with the checkpoint of the world.
    fn keep_checkpoint(&mut self, alloc: Global, world: &World) -> i32
        requires { self.old.place.value ≡ None }
        ensures { TakesInto world.now result self.new.place.value }
    {
        match typed_calls::checkpoint(world) {
            Ok(checkpoint) => self.fill(alloc, Engine::Checkpoint(checkpoint)),
            Err(status) => status,
        }
    }

    /// Takes the checkpoint of the world into the closed handle `checkpoint`. `OK`; else
    /// `ALREADY_OPEN` (of `checkpoint`), `CLOSED` or `OUT_OF_MEMORY`. The world goes on, and a
    /// refusal changes nothing. Its time does not grow with the pairs.
    pub fn checkpoint(&mut self, alloc: Global, checkpoint: &mut Handle) -> i32
        ensures takes { Takes self.old.place.value checkpoint.old.place.value result checkpoint.new.place.value }
        ensures same { self.new.place.value ≡ self.old.place.value }
    {
        if checkpoint.is_open {
            return ALREADY_OPEN;
        }
        let Some(engine) = self.take(alloc) else {
            return CLOSED;
        };
        let Engine::World(bounded) = &*engine else {
            self.put(engine);
            return CLOSED;
        };
        let status = checkpoint.keep_checkpoint(alloc, &bounded.world);
        self.put(engine);
        status
    }

    // Fills a closed handle with the bytes of the checkpoint.
    fn keep_saved(&mut self, alloc: Global, checkpoint: &Checkpoint) -> i32
        requires { self.old.place.value ≡ None }
        ensures { SavesInto checkpoint.now result self.new.place.value }
    {
        match typed_calls::saved(alloc, checkpoint) {
            Ok(bytes) => self.fill(alloc, Engine::Bytes(bytes)),
            Err(status) => status,
        }
    }

    /// Writes the bytes of a checkpoint into the closed handle `bytes`, from which `bytes_from`
    /// gives them. `OK`; else `ALREADY_OPEN` (of `bytes`), `CLOSED` or `OUT_OF_MEMORY`. It needs no
    /// world; the checkpoint stays, and a refusal changes nothing.
    pub fn save(&mut self, alloc: Global, bytes: &mut Handle) -> i32
        ensures saves { SavesTo self.old.place.value bytes.old.place.value result bytes.new.place.value }
        ensures same { self.new.place.value ≡ self.old.place.value }
    {
        if bytes.is_open {
            return ALREADY_OPEN;
        }
        let Some(engine) = self.take(alloc) else {
            return CLOSED;
        };
        let Engine::Checkpoint(checkpoint) = &*engine else {
            self.put(engine);
            return CLOSED;
        };
        let status = bytes.keep_saved(alloc, checkpoint);
        self.put(engine);
        status
    }

    /// Opens a world at a checkpoint, into the closed handle `world`: it goes on from there, apart
    /// from the one that the checkpoint was taken of. `OK`, and the checkpoint's handle is closed;
    /// else `ALREADY_OPEN` (of `world`) or `CLOSED`, and nothing changes. It takes no memory, and no
    /// time that grows with the pairs.
    ///
    /// - `furthest`: as for `open`.
    pub fn open_checkpoint(&mut self, alloc: Global, furthest: u64, world: &mut Handle) -> i32
        ensures { OpensCheckpoint self.old.place.value furthest world.old.place.value result self.new.place.value world.new.place.value }
    {
        if world.is_open {
            return ALREADY_OPEN;
        }
        let Some(engine) = self.take(alloc) else {
            return CLOSED;
        };
        let (held, room) = taken_out(alloc, engine);
        match held {
            Engine::Checkpoint(checkpoint) => {
                let bounded = typed_calls::world_at(alloc, checkpoint, furthest);
                world.put(filled(room, Engine::World(bounded)));
                OK
            }
            other => {
                self.put(filled(room, other));
                CLOSED
            }
        }
    }

    /// Opens a world that goes on from the checkpoint whose bytes these are, into this closed handle.
    /// `OK`; else `ALREADY_OPEN`, `BAD_CODE` if no world may open from them, or `OUT_OF_MEMORY`,
    /// which may come in its place. A refusal changes nothing.
    ///
    /// - `furthest`: as for `open`.
    pub fn open_at(&mut self, alloc: Global, bytes: &[u8], furthest: u64) -> i32
        ensures { OpensHere self.old.place.value bytes.now furthest result self.new.place.value }
    {
        if self.is_open {
            return ALREADY_OPEN;
        }
        match typed_calls::open_at(alloc, bytes, furthest) {
            Ok(bounded) => self.fill(alloc, Engine::World(bounded)),
            Err(status) => status,
        }
    }
}
