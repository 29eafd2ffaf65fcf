//! A world that is opened by the code of its opening.
ghost use Rattle.std.specs.Prelude.{◌≡◌};
ghost use Rattle.typed_calls.specs.Opening.{open_status, OpensFor, OpensWorld, OpensBounded};

use crate::bounded::BoundedWorld;
use crate::status::{BAD_CODE, BAD_LENGTH, BAD_TABLE, OUT_OF_MEMORY};
use collections::List;
use entry_code::{CodeFault, opening_of};
use schema_version::TableDef;
use script_session::world::{Config, OpenFault, World};
use std::alloc::Global;

// The status of a world that was not opened.
fn open_status(fault: OpenFault) -> i32
    ensures { result ≡ open_status fault }
{
    match fault {
        OpenFault::BadTable => BAD_TABLE,
        OpenFault::BadLength => BAD_LENGTH,
        OpenFault::Memory => OUT_OF_MEMORY,
    }
}

// The world that is opened with this lease length and these tables.
fn open_for(alloc: Global, opening: (u64, List<TableDef>)) -> Result<World, i32>
    ensures { OpensFor opening result }
{
    let (length, tables) = opening;
    match World::open(alloc, &Config { length, tables }) {
        Ok(world) => Ok(world),
        Err(fault) => Err(open_status(fault)),
    }
}

// The world of the opening whose code these bytes are.
fn open_world(alloc: Global, code: &[u8]) -> Result<World, i32>
    ensures { OpensWorld code.now result }
{
    match opening_of(alloc, code) {
        Ok(opening) => open_for(alloc, opening),
        Err(CodeFault::Memory) => Err(OUT_OF_MEMORY),
        Err(_) => Err(BAD_CODE),
    }
}

/// A world that is opened by this code.
///
/// - `code`: what `entry_code::opening_bytes` gives for a lease length, in moments, and the tables.
/// - `furthest`: the furthest jump of a call's moment, in moments; `ANY_JUMP` if none is too far.
///
/// Refused, in this order: `BAD_CODE` if the bytes are the code of no opening; `BAD_TABLE` if its
/// declaration breaks a limit or uses a name twice; `BAD_LENGTH` if its lease length is not from 1
/// to 2^32; `OUT_OF_MEMORY`, which may come in place of `BAD_CODE`.
pub fn open(alloc: Global, code: &[u8], furthest: u64) -> Result<BoundedWorld, i32>
    ensures { OpensBounded code.now furthest result }
{
    match open_world(alloc, code) {
        Ok(world) => Ok(BoundedWorld { world, furthest }),
        Err(status) => Err(status),
    }
}
