//! A version of the schema as data, for callers that know no script.
ghost use Rattle.std.specs.Prelude.{◌≡◌, IfOk};
ghost use Rattle.checkpoint_code.specs.Head.{schema_parts};
ghost use Rattle.entry_code.specs.Records.{schema_parts_code};
ghost use Rattle.script_session.specs.State.{facts_of};
ghost use Rattle.typed_calls.specs.Schemas.{CodesSchema};

use crate::status::OUT_OF_MEMORY;
use checkpoint_code::parts_of_schema;
use collections::List;
use entry_code::schema_parts_bytes;
use schema_version::Schema;
use script_session::ServerLease;
use script_session::world::World;
use std::alloc::{AllocError, Global};

// The code of a version.
fn coded(alloc: Global, schema: &Schema) -> Result<Vec<u8>, AllocError>
    ensures { IfOk result (λ code. code.items ≡ schema_parts_code (schema_parts schema.now)) }
{
    let parts = parts_of_schema(alloc, schema)?;
    schema_parts_bytes(alloc, &parts)
}

// The same, with the status of its refusal.
fn code_of(alloc: Global, schema: &Schema) -> Result<List<u8>, i32>
    ensures { CodesSchema schema.now result }
{
    match coded(alloc, schema) {
        Ok(code) => Ok(List::new(code)),
        Err(_) => Err(OUT_OF_MEMORY),
    }
}

/// The code of the newest version of a world, as `entry_code::schema_parts_bytes` gives it: its
/// tables with their key columns, its columns and indexes with their states, and the next free
/// number. Nothing changes. Refused only by `OUT_OF_MEMORY`.
pub fn schema(alloc: Global, world: &World) -> Result<List<u8>, i32>
    ensures { CodesSchema (facts_of world.now).newest result }
{
    code_of(alloc, world.newest().get())
}

/// The code of the lease's version, as `schema` gives that of the newest. It takes no world. Refused
/// only by `OUT_OF_MEMORY`.
pub fn lease_schema(alloc: Global, held: &ServerLease) -> Result<List<u8>, i32>
    ensures { CodesSchema held.now.schema result }
{
    code_of(alloc, held.schema.get())
}
