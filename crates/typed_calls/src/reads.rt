//! What a transaction reads: its operations, and the pairs of their rows.
ghost use Rattle.std.specs.Prelude.{◌≡◌, IfOk};
ghost use Rattle.typed_calls.specs.Reads.{AreCoded, IsReadBy, ReadsFor, ReadsPinned};

use crate::pins::read_pinned;
use crate::status::{BAD_CODE, OUT_OF_MEMORY};
use byte_map::KeyMap;
use collections::ArcValue;
use entry_code::{CodeFault, ops_of};
use row_map::{ReadSet, ReadView};
use row_write::{RowOps, reads_of};
use script_session::ServerLease;
use script_session::world::World;
use std::alloc::{AllocError, Global};

/// The operations of a transaction, and what they read.
#[derive(Drop)]
pub struct Reads {
    /// The lease that it runs under, with the schema of the lease's version.
    pub held: ServerLease,
    /// Its operations, which the prepared transaction and the log share.
    pub ops: ArcValue<RowOps>,
    /// The keys that the operations read, each with its value or with none.
    pub view: ReadView,
}

// A further owner of the schema, with the lease.
fn held_again(held: &ServerLease) -> Result<ServerLease, AllocError>
    ensures { IfOk result (λ copy. copy ≡ held.now) }
{
    Ok(ServerLease {
        lease: held.lease,
        schema: held.schema.clone()?,
    })
}

// The operations whose code these bytes are, and the keys that they read.
fn coded(alloc: Global, held: &ServerLease, code: &[u8]) -> Result<(RowOps, ReadSet), i32>
    ensures { AreCoded held.now code.now result }
{
    match ops_of(alloc, code) {
        Ok(ops) => match reads_of(alloc, held.schema.get(), ops.as_slice()) {
            Ok(keys) => Ok((ops, keys)),
            Err(_) => Err(OUT_OF_MEMORY),
        },
        Err(CodeFault::Memory) => Err(OUT_OF_MEMORY),
        Err(_) => Err(BAD_CODE),
    }
}

// Operations with what they read: of the pinned keys what was read before.
fn read_by(
    alloc: Global,
    world: &World,
    held: &ServerLease,
    ops: RowOps,
    keys: &ReadSet,
    pins: &ReadView,
) -> Result<Reads, AllocError>
    ensures { IfOk result (λ reads. IsReadBy world.now held.now ops keys.now pins.now reads) }
{
    let view = read_pinned(alloc, world, keys, pins)?;
    let held = held_again(held)?;
    let ops = ArcValue::new(alloc, ops)?;
    Ok(Reads { held, ops, view })
}

// The same of the operations whose code these bytes are.
fn read_coded(
    alloc: Global,
    world: &World,
    held: &ServerLease,
    pins: &ReadView,
    code: &[u8],
) -> Result<Reads, i32>
    ensures { ReadsPinned world.now pins.now held.now code.now result }
{
    match coded(alloc, held, code) {
        Ok((ops, keys)) => match read_by(alloc, world, held, ops, &keys, pins) {
            Ok(reads) => Ok(reads),
            Err(_) => Err(OUT_OF_MEMORY),
        },
        Err(status) => Err(status),
    }
}

/// Reads what operations read of a world, which does not change.
///
/// - `held`: the lease with the schema of its version.
/// - `code`: what `entry_code::ops_bytes` gives for the operations.
///
/// Refused: `BAD_CODE` if the bytes are the code of no operations; `OUT_OF_MEMORY`, which may come
/// in place of it.
pub fn read(alloc: Global, world: &World, held: &ServerLease, code: &[u8]) -> Result<Reads, i32>
    ensures { ReadsFor world.now held.now code.now result }
{
    let nothing: ReadView = KeyMap::new(alloc);
    read_coded(alloc, world, held, &nothing, code)
}

/// Reads again, for other operations, which may follow from what was read: of each key that was read
/// before it keeps what was read then, and it reads the others of the world, which does not change.
/// A key that the new operations do not read is forgotten.
///
/// So each row that the final operations name is expected as it was first read, and the commit is a
/// conflict if one has changed since.
///
/// - `code`: as for `read`.
///
/// Refused: as `read`.
pub fn read_again(alloc: Global, world: &World, reads: &Reads, code: &[u8]) -> Result<Reads, i32>
    ensures { ReadsPinned world.now reads.now.view reads.now.held code.now result }
{
    read_coded(alloc, world, &reads.held, &reads.view, code)
}
