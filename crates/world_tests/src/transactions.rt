//! Transactions on one world.

use crate::fixtures::insert;
use crate::reported::{Reported, judged, seen};
use collections::ArcValue;
use lease::Lease;
use row_map::ReadView;
use row_write::{PrepareFault, Prepared, RowOps, prepare, reads_of};
use schema_version::Schema;
use std::alloc::{AllocError, Global};
use world::{CommitFault, Committed, World};

// What keys of operations have.
fn view_of(
    alloc: Global,
    world: &World,
    schema: &Schema,
    ops: &RowOps,
) -> Result<ReadView, AllocError> {
    let keys = reads_of(alloc, schema, ops.as_slice())?;
    world.read(alloc, &keys)
}

// Operations prepared by this schema from what the world has now.
fn work_of(
    alloc: Global,
    world: &World,
    schema: &ArcValue<Schema>,
    lease: Lease,
    ops: RowOps,
) -> Result<Prepared, Reported> {
    let Ok(view) = view_of(alloc, world, schema.get(), &ops) else {
        return Err(Reported::Short);
    };
    let Ok(schema) = schema.clone() else {
        return Err(Reported::Short);
    };
    match prepare(alloc, schema, lease, ops, view) {
        Ok(work) => Ok(work),
        Err((PrepareFault::Memory, _)) => Err(Reported::Short),
        Err(_) => Err(Reported::Wrong),
    }
}

/// An insert prepared by the schema of a version.
pub(crate) fn prepared(
    alloc: Global,
    world: &World,
    version: u64,
    lease: Lease,
    row: (i64, i64),
) -> Result<Prepared, Reported> {
    let Some(schema) = world.schema(version) else {
        return Err(Reported::Wrong);
    };
    let Ok(ops) = insert(alloc, row.0, row.1) else {
        return Err(Reported::Short);
    };
    work_of(alloc, world, schema, lease, ops)
}

// The answer to a commit at moment 0. What was prepared comes back if memory was short.
fn committed(
    alloc: Global,
    world: &mut World,
    work: Prepared,
) -> Result<Committed, (CommitFault, Prepared)> {
    let before = seen(world);
    match world.commit(alloc, 0, work) {
        Err((CommitFault::Memory, work)) => {
            if seen(world) != before {
                return Err((CommitFault::Memory, work));
            }
            world.commit(alloc, 0, work)
        }
        reported => reported,
    }
}

// A commit is done, but refused for its schema if it is strange.
fn reported_of(answer: &Result<Committed, (CommitFault, Prepared)>, is_strange: bool) -> Reported {
    judged(match answer {
        Ok(Committed::Done(_)) => !is_strange,
        Err((CommitFault::WrongSchema, _)) => is_strange,
        _ => false,
    })
}

/// An insert that is prepared by the schema of a version and committed, if that is the version of
/// its lease; else it is refused.
pub(crate) fn inserts(
    alloc: Global,
    world: &mut World,
    version: u64,
    lease: Lease,
    row: (i64, i64),
) -> Reported {
    let work = match prepared(alloc, world, version, lease, row) {
        Ok(work) => work,
        Err(reported) => return reported,
    };
    let answer = committed(alloc, world, work);
    reported_of(&answer, version != lease.version)
}

/// An insert that is prepared and let go before it is committed: the world stands as before.
pub(crate) fn lets_go(alloc: Global, world: &World, lease: Lease, row: (i64, i64)) -> Reported {
    let before = seen(world);
    match prepared(alloc, world, lease.version, lease, row) {
        Ok(work) => {
            drop(work);
            judged(seen(world) == before)
        }
        Err(reported) => reported,
    }
}
