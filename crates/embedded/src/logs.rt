//! The log of a world, its checkpoints, and worlds that open there.
ghost use Rattle.std.specs.Prelude.{◌≡◌};
ghost use Rattle.handles.specs.Entries.{ShowsEntry, Repeats};
ghost use Rattle.handles.specs.Cuts.{Cuts, LogLengths, LogStarts};
ghost use Rattle.handles.specs.Checkpoints.{OpensCheckpoint, OpensHere, SavesTo, Takes};

use handles::{Handle, Outcome};
use std::alloc::Global;

/// `Handle::entry`.
#[unsafe(no_mangle)]
pub extern "C" fn cagzhomul_entry(
    alloc: Global,
    world: &mut Handle,
    place: usize,
    out: &mut [u8],
) -> Outcome
    ensures shows { ShowsEntry world.old.place.value place out.old result out.new }
    ensures same { world.new.place.value ≡ world.old.place.value }
{
    world.entry(alloc, place, out)
}

/// `Handle::repeat`.
#[unsafe(no_mangle)]
pub extern "C" fn cagzhomul_repeat(alloc: Global, world: &mut Handle, entry: &[u8]) -> i32
    ensures { Repeats world.old.place.value entry.now result world.new.place.value }
{
    world.repeat(alloc, entry)
}

/// `Handle::log_length`.
#[unsafe(no_mangle)]
pub extern "C" fn cagzhomul_log_length(alloc: Global, world: &mut Handle) -> Outcome
    ensures length { LogLengths world.old.place.value result }
    ensures same { world.new.place.value ≡ world.old.place.value }
{
    world.log_length(alloc)
}

/// `Handle::log_start`.
#[unsafe(no_mangle)]
pub extern "C" fn cagzhomul_log_start(alloc: Global, world: &mut Handle) -> Outcome
    ensures start { LogStarts world.old.place.value result }
    ensures same { world.new.place.value ≡ world.old.place.value }
{
    world.log_start(alloc)
}

/// `Handle::cut`.
#[unsafe(no_mangle)]
pub extern "C" fn cagzhomul_cut(alloc: Global, world: &mut Handle, keep: usize) -> i32
    ensures { Cuts keep world.old.place.value result world.new.place.value }
{
    world.cut(alloc, keep)
}

/// `Handle::checkpoint`.
#[unsafe(no_mangle)]
pub extern "C" fn cagzhomul_checkpoint(
    alloc: Global,
    world: &mut Handle,
    checkpoint: &mut Handle,
) -> i32
    ensures takes { Takes world.old.place.value checkpoint.old.place.value result checkpoint.new.place.value }
    ensures same { world.new.place.value ≡ world.old.place.value }
{
    world.checkpoint(alloc, checkpoint)
}

/// `Handle::save`.
#[unsafe(no_mangle)]
pub extern "C" fn cagzhomul_save(alloc: Global, checkpoint: &mut Handle, bytes: &mut Handle) -> i32
    ensures saves { SavesTo checkpoint.old.place.value bytes.old.place.value result bytes.new.place.value }
    ensures same { checkpoint.new.place.value ≡ checkpoint.old.place.value }
{
    checkpoint.save(alloc, bytes)
}

/// `Handle::open_checkpoint`.
#[unsafe(no_mangle)]
pub extern "C" fn cagzhomul_open_checkpoint(
    alloc: Global,
    checkpoint: &mut Handle,
    furthest_jump: u64,
    world: &mut Handle,
) -> i32
    ensures { OpensCheckpoint checkpoint.old.place.value furthest_jump world.old.place.value result checkpoint.new.place.value world.new.place.value }
{
    checkpoint.open_checkpoint(alloc, furthest_jump, world)
}

/// `Handle::open_at`.
#[unsafe(no_mangle)]
pub extern "C" fn cagzhomul_open_at(
    alloc: Global,
    world: &mut Handle,
    bytes: &[u8],
    furthest_jump: u64,
) -> i32
    ensures { OpensHere world.old.place.value bytes.now furthest_jump result world.new.place.value }
{
    world.open_at(alloc, bytes, furthest_jump)
}
