//! Checkpoints of worlds, which are saved as the bytes by hand, and loaded again.
use crate::by_hand::{EMPTY_HEAD, HEAD, PAIRS, Pair, parts_in, whole};
use crate::worlds::{FIRST, THIRD, finds, is_sound, mark, opened, worked};
use lease::Lease;
use reorganise::Work;
use saved_world::{load, save};
use std::alloc::Global;
use world::{Checkpoint, World};

/// A world, its checkpoint by hand, and what is asked of a world that opens there.
struct Case {
    /// Whether it is the worked one, and not the empty one.
    is_worked: bool,
    head: &'static [u8],
    pairs: &'static [Pair],
    /// How many entries came before.
    place: u64,
    /// The moment of the last of them.
    moment: u64,
    lease: Lease,
    /// The keys of the rows with 5 in `a`.
    found: &'static [i64],
    rows: u64,
    /// How the fill of the index stands.
    fill: Option<(Work, usize, bool)>,
}

static WORKED: Case = Case {
    is_worked: true,
    head: HEAD,
    pairs: PAIRS,
    place: 10,
    moment: 31,
    lease: THIRD,
    found: &[1, 3],
    rows: 3,
    fill: Some((Work::Fill, 1, false)),
};

static EMPTY: Case = Case {
    is_worked: false,
    head: EMPTY_HEAD,
    pairs: &[],
    place: 0,
    moment: 0,
    lease: FIRST,
    found: &[],
    rows: 0,
    fill: None,
};

fn world_of(alloc: Global, is_worked: bool) -> Option<World> {
    if is_worked {
        worked(alloc)
    } else {
        opened(alloc, "a")
    }
}

fn checkpoint_of(alloc: Global, is_worked: bool) -> Option<Checkpoint> {
    let world = world_of(alloc, is_worked)?;
    world.checkpoint().ok()
}

/// The bytes of a checkpoint, asked for once more if memory was short.
fn saved(alloc: Global, checkpoint: &Checkpoint) -> Option<Vec<u8>> {
    match save(alloc, checkpoint) {
        Ok(bytes) => Some(bytes),
        Err(_) => save(alloc, checkpoint).ok(),
    }
}

fn loaded(alloc: Global, bytes: &[u8]) -> Option<Checkpoint> {
    match load(alloc, bytes) {
        Ok(checkpoint) => Some(checkpoint),
        Err(_) => load(alloc, bytes).ok(),
    }
}

/// Whether a checkpoint is saved as these parts, beside marker and digest.
pub(crate) fn is_saved_as(alloc: Global, checkpoint: &Checkpoint, bytes: &[u8]) -> bool {
    match saved(alloc, checkpoint) {
        Some(saved) => parts_in(saved.as_slice()) == bytes,
        None => false,
    }
}

fn is_loaded_as(alloc: Global, bytes: &[u8]) -> bool {
    match loaded(alloc, bytes) {
        Some(checkpoint) => is_saved_as(alloc, &checkpoint, bytes),
        None => false,
    }
}

fn comes_back<R: Print>(rt: &R, alloc: Global, case: &Case) -> bool {
    let Ok(bytes) = whole(alloc, case.head, case.pairs) else {
        return false;
    };
    let Some(checkpoint) = checkpoint_of(alloc, case.is_worked) else {
        return false;
    };
    mark(rt)
        && is_saved_as(alloc, &checkpoint, bytes.as_slice())
        && is_loaded_as(alloc, bytes.as_slice())
}

#[test]
fn under_refusal_the_worked_world_is_saved(rt: HostRuntime) {
    assert!(rt; comes_back(&rt, rt.alloc(), &WORKED));
}

#[test]
fn under_refusal_the_empty_world_is_saved(rt: HostRuntime) {
    assert!(rt; comes_back(&rt, rt.alloc(), &EMPTY));
}

fn is_as_before(alloc: Global, world: &World, case: &Case) -> bool {
    (world.log_start(), world.log_len(), world.moment()) == (case.place, case.place, case.moment)
        && world.log().is_empty()
        && finds(alloc, world, case.moment, &case.lease, case.found)
        && is_sound(alloc, world, case.rows)
        && world.progress(2) == case.fill
}

fn opens_again(alloc: Global, case: &Case) -> bool {
    let Ok(bytes) = whole(alloc, case.head, case.pairs) else {
        return false;
    };
    let Ok(checkpoint) = load(alloc, bytes.as_slice()) else {
        return false;
    };
    let world = World::open_at(alloc, checkpoint);
    is_as_before(alloc, &world, case)
}

#[test]
fn a_world_opens_from_what_was_saved(rt: HostRuntime) {
    assert!(rt; opens_again(rt.alloc(), &WORKED));
    assert!(rt; opens_again(rt.alloc(), &EMPTY));
}
