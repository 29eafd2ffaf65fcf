//! Worlds that repeat the log of another one.

use crate::reported::seen;
use replay::Entry;
use replica::{Repeat, RepeatFault};
use std::alloc::Global;
use world::World;

// Whether an entry is repeated. If memory was short the world stands as before, and it is asked
// once more.
fn is_repeated(alloc: Global, world: &mut World, entry: &Entry) -> bool {
    let before = seen(world);
    let reported = match world.repeat(alloc, entry) {
        Err(RepeatFault::Memory) if seen(world) == before => world.repeat(alloc, entry),
        reported => reported,
    };
    match reported {
        Ok(receipt) => receipt.place == world.log().len() as u64,
        Err(_) => false,
    }
}

// Whether the first entry is refused once others have later moments, and nothing changes.
fn is_first_refused(alloc: Global, world: &mut World, log: &[Entry]) -> bool {
    let before = seen(world);
    match log.first() {
        Some(entry) if entry.moment < world.moment() => {
            matches!(world.repeat(alloc, entry), Err(RepeatFault::NotNext)) && seen(world) == before
        }
        _ => true,
    }
}

/// Whether the world, which was opened as the other one was, repeats its log and then is as it is.
pub(crate) fn are_alike(alloc: Global, other: &World, world: &mut World) -> bool {
    for entry in other.log() {
        if !is_repeated(alloc, world, entry) {
            return false;
        }
    }
    seen(world) == seen(other) && is_first_refused(alloc, world, other.log())
}
