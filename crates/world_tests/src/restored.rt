//! Checkpoints that are made of parts, as those are that come from outside.

use crate::fixtures::{mark, opened};
use byte_map::{Bytes, KeyMap};
use row_map::{Batch, Expect};
use std::alloc::{AllocError, Global};
use txn_store::Store;
use world::{Checkpoint, CheckpointFault, CheckpointParts, World};

// The key of the `exists` pair of row 1: the letter R, table 1, the number 1, and no element.
const EXISTS: [u8; 18] = [
    0x52, 0, 0, 0, 1, 0x02, 0x80, 0, 0, 0, 0, 0, 0, 1, 0, 0, 0, 0,
];

// That of its pair of column 1, and the number 5 there.
const COLUMN: [u8; 18] = [
    0x52, 0, 0, 0, 1, 0x02, 0x80, 0, 0, 0, 0, 0, 0, 1, 0, 0, 0, 1,
];

const FIVE: [u8; 9] = [0x02, 0x80, 0, 0, 0, 0, 0, 0, 5];

// The pairs of a store: whether the row's `exists` pair and that of its column are there.
type Pairs = (bool, bool);

fn batch_of(alloc: Global, pairs: Pairs) -> Result<Batch, AllocError> {
    let mut batch = Batch::new(alloc);
    if pairs.0 {
        batch.put(
            Bytes::from_slice(alloc, &EXISTS)?,
            Bytes::from_slice(alloc, &[])?,
        )?;
    }
    if pairs.1 {
        batch.put(
            Bytes::from_slice(alloc, &COLUMN)?,
            Bytes::from_slice(alloc, &FIVE)?,
        )?;
    }
    Ok(batch)
}

fn store_of(alloc: Global, pairs: Pairs) -> Result<Store, AllocError> {
    let batch = batch_of(alloc, pairs)?;
    let nothing = Expect {
        points: KeyMap::new(alloc),
        key_range: None,
    };
    let mut store = Store::new(alloc);
    match store.test_and_set(alloc, &nothing, &batch) {
        Ok(()) => Ok(store),
        Err(_) => Err(AllocError),
    }
}

// Seven entries up to moment 3, version 1 of the worked table, with or without a version before it,
// and these pairs.
fn parts_of(
    alloc: Global,
    world: &World,
    has_before: bool,
    pairs: Pairs,
) -> Result<CheckpointParts, AllocError> {
    let newest = world.newest().clone()?;
    let before = if has_before {
        Some(newest.clone()?)
    } else {
        None
    };
    Ok(CheckpointParts {
        place: 7,
        moment: 3,
        line: world.timeline().clone()?,
        newest,
        before,
        begun: Vec::new(alloc),
        store: store_of(alloc, pairs)?,
    })
}

fn restored_once(
    alloc: Global,
    world: &World,
    has_before: bool,
    pairs: Pairs,
) -> Result<Checkpoint, CheckpointFault> {
    Checkpoint::restored(alloc, parts_of(alloc, world, has_before, pairs)?)
}

// The checkpoint, asked for once more if memory was short.
fn restored(
    alloc: Global,
    world: &World,
    has_before: bool,
    pairs: Pairs,
) -> Result<Checkpoint, CheckpointFault> {
    match restored_once(alloc, world, has_before, pairs) {
        Err(CheckpointFault::Memory) => restored_once(alloc, world, has_before, pairs),
        reported => reported,
    }
}

// Whether a world that opens there has one row, and goes on from the eighth place.
fn is_right(alloc: Global, checkpoint: Checkpoint) -> bool {
    let is_read = (checkpoint.place(), checkpoint.moment()) == (7, 3)
        && checkpoint.before().is_none()
        && checkpoint.begun().is_empty()
        && checkpoint.newest().get().elements().len() == 1
        && checkpoint.timeline().newest() == 1;
    let mut world = World::open_at(alloc, checkpoint);
    let place = match world.lease(alloc, 4) {
        Ok(grant) => grant.receipt.place,
        Err(_) => match world.lease(alloc, 4) {
            Ok(grant) => grant.receipt.place,
            Err(_) => 0,
        },
    };
    is_read && place == 8 && world.log_start() == 7 && world.moment() == 4
}

// Whether a restored checkpoint is refused so.
fn is_refused(alloc: Global, world: &World, row: &(bool, Pairs, CheckpointFault)) -> bool {
    match restored(alloc, world, row.0, row.1) {
        Ok(_) => false,
        Err(fault) => fault == row.2,
    }
}

// A version before the only one; a value without its row. A version is looked at before the pairs.
static REFUSED: [(bool, Pairs, CheckpointFault); 3] = [
    (true, (true, true), CheckpointFault::BadVersions),
    (true, (false, true), CheckpointFault::BadVersions),
    (false, (false, true), CheckpointFault::BadPairs),
];

fn are_right<R: Print>(rt: &R, alloc: Global) -> bool {
    let Ok(world) = opened(alloc) else {
        return false;
    };
    if !mark(rt) {
        return false;
    }
    for row in &REFUSED {
        if !is_refused(alloc, &world, row) {
            return false;
        }
    }
    match restored(alloc, &world, false, (true, true)) {
        Ok(checkpoint) => is_right(alloc, checkpoint),
        Err(_) => false,
    }
}

#[test]
fn under_refusal_restored(rt: HostRuntime) {
    assert!(rt; are_right(&rt, rt.alloc()));
}
