//! The checkpoint of a world, its bytes, and a world that opens there.
ghost use Rattle.std.specs.Prelude.{◌≡◌};
ghost use Rattle.typed_calls.specs.Checkpoints.{bounded_at, load_status, OpensAt, OpensSaved, Saves, TakesOf};

use crate::bounded::BoundedWorld;
use crate::status::{BAD_CODE, OUT_OF_MEMORY};
use checkpoint_code::{HeadFault, PageFault};
use collections::List;
use saved_world::{LoadFault, LoadedFault, load, save};
use script_session::world::{Checkpoint, CheckpointFault, World};
use std::alloc::Global;

/// The checkpoint of a world, which goes on: its pairs are shared, and none is copied. Refused only
/// by `OUT_OF_MEMORY`.
pub fn checkpoint(world: &World) -> Result<Checkpoint, i32>
    ensures { TakesOf world.now result }
{
    match world.checkpoint() {
        Ok(checkpoint) => Ok(checkpoint),
        Err(_) => Err(OUT_OF_MEMORY),
    }
}

/// The bytes of a checkpoint with their digest, as `saved_world::save` gives them. It takes time
/// and memory with the pairs. Refused only by `OUT_OF_MEMORY`.
pub fn saved(alloc: Global, checkpoint: &Checkpoint) -> Result<List<u8>, i32>
    ensures { Saves checkpoint.now result }
{
    match save(alloc, checkpoint) {
        Ok(bytes) => Ok(List::new(bytes)),
        Err(_) => Err(OUT_OF_MEMORY),
    }
}

// The status of bytes that are not loaded.
fn load_status(fault: LoadedFault) -> i32
    ensures { result ≡ load_status fault }
{
    match fault {
        LoadedFault::Head(HeadFault::Memory)
        | LoadedFault::Page(LoadFault::Memory)
        | LoadedFault::Page(LoadFault::Page(PageFault::Memory))
        | LoadedFault::Checkpoint(CheckpointFault::Memory) => OUT_OF_MEMORY,
        _ => BAD_CODE,
    }
}

/// A world that goes on from a checkpoint. It takes no memory.
///
/// - `furthest`: the furthest jump of a call's moment, in moments; `ANY_JUMP` if none is too far.
pub fn world_at(alloc: Global, checkpoint: Checkpoint, furthest: u64) -> BoundedWorld
    ensures { result ≡ bounded_at checkpoint furthest }
{
    BoundedWorld {
        world: World::open_at(alloc, checkpoint),
        furthest,
    }
}

/// A world that opens at the checkpoint whose bytes these are, also those of earlier releases, which
/// have no digest. The bytes that `saved` gives for the checkpoint of a world are refused only when
/// out of memory.
///
/// - `furthest`: as for `world_at`.
///
/// Refused: `BAD_CODE` if the bytes are those of no checkpoint from which a world may open: they are
/// damaged, or forged; `OUT_OF_MEMORY`, which may come in its place.
pub fn open_at(alloc: Global, bytes: &[u8], furthest: u64) -> Result<BoundedWorld, i32>
    ensures opens { OpensAt bytes.now furthest result }
    ensures saved { OpensSaved bytes.now furthest result }
{
    match load(alloc, bytes) {
        Ok(checkpoint) => Ok(world_at(alloc, checkpoint, furthest)),
        Err(fault) => Err(load_status(fault)),
    }
}
