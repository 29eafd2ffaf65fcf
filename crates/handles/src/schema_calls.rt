//! Versions of the schema, whose code is kept in handles of their own.
ghost use Rattle.std.specs.Prelude.{◌≡◌, None};
ghost use Rattle.typed_calls.specs.Schemas.{CodesSchema};
ghost use Rattle.typed_calls.specs.State.{facts_of};
ghost use Rattle.handles.specs.Schemas.{SchemaInto, SchemaTo, LeaseSchemaTo};

use crate::engine::Engine;
use crate::handle::Handle;
use std::alloc::Global;
use typed_calls::script_session::ServerLease;
use typed_calls::status::{ALREADY_OPEN, CLOSED};
use typed_calls::world::World;

impl Handle {
    // Fills a closed handle with the code of the world's newest version.
    fn keep_schema(&mut self, alloc: Global, world: &World) -> i32
        requires { self.old.place.value ≡ None }
        ensures { SchemaInto (facts_of world.now).newest result self.new.place.value }
    {
        match typed_calls::schema(alloc, world) {
            Ok(code) => self.fill(alloc, Engine::Bytes(code)),
            Err(status) => status,
        }
    }

    /// Writes the code of the newest version of the schema into the closed handle `bytes`, from
    /// which `bytes_from` gives it. `OK`; else `ALREADY_OPEN` (of `bytes`), `CLOSED` or
    /// `OUT_OF_MEMORY`. The world stays, and a refusal changes nothing.
    pub fn schema(&mut self, alloc: Global, bytes: &mut Handle) -> i32
        ensures schema { SchemaTo self.old.place.value bytes.old.place.value result bytes.new.place.value }
        ensures same { self.new.place.value ≡ self.old.place.value }
    {
        if bytes.is_open {
            return ALREADY_OPEN;
        }
        let Some(engine) = self.take(alloc) else {
            return CLOSED;
        };
        let Engine::World(bounded) = &*engine else {
            self.put(engine);
            return CLOSED;
        };
        let status = bytes.keep_schema(alloc, &bounded.world);
        self.put(engine);
        status
    }

    // Fills a closed handle with the code of the lease's version.
    fn keep_lease_schema(&mut self, alloc: Global, held: &ServerLease) -> i32
        requires { self.old.place.value ≡ None }
        ensures { SchemaInto held.now.schema result self.new.place.value }
    {
        match typed_calls::lease_schema(alloc, held) {
            Ok(code) => self.fill(alloc, Engine::Bytes(code)),
            Err(status) => status,
        }
    }

    /// Writes the code of the version of a lease into the closed handle `bytes`, as `schema` does
    /// that of the newest. `OK`; else `ALREADY_OPEN` (of `bytes`), `CLOSED` or `OUT_OF_MEMORY`. The
    /// lease stays, and a refusal changes nothing.
    pub fn lease_schema(&mut self, alloc: Global, bytes: &mut Handle) -> i32
        ensures schema { LeaseSchemaTo self.old.place.value bytes.old.place.value result bytes.new.place.value }
        ensures same { self.new.place.value ≡ self.old.place.value }
    {
        if bytes.is_open {
            return ALREADY_OPEN;
        }
        let Some(engine) = self.take(alloc) else {
            return CLOSED;
        };
        let Engine::Lease(held) = &*engine else {
            self.put(engine);
            return CLOSED;
        };
        let status = bytes.keep_lease_schema(alloc, held);
        self.put(engine);
        status
    }
}
