//! A handle of a shared world, and a transaction through it.

use crate::fixtures::{FIRST, insert};
use collections::ArcValue;
use row_map::ReadView;
use row_write::{PrepareFault, Prepared, RowOps, prepare, reads_of};
use schema_version::Schema;
use shared_rollout::locked_store::{Handle, Shared, SharedFault, SharedLedger};
use shared_rollout::world::{CommitFault, Committed, Receipt};
use std::alloc::{AllocError, Global};
use std::sync::Wait;

/// A handle, and what its calls take.
#[derive(Drop)]
pub(crate) struct HandlePort<'a, L: SharedLedger, R: Wait> {
    pub(crate) rt: &'a R,
    pub(crate) alloc: Global,
    pub(crate) shared: &'a Shared<L>,
    pub(crate) me: &'a mut Handle<L>,
}

/// What a call answered.
#[derive(Clone, Copy)]
pub(crate) enum Reported {
    /// What it has to.
    Right,
    /// Something else.
    Wrong,
    /// That there was no memory.
    Short,
}

/// Whether it is what it has to be.
pub(crate) fn judged(is_right: bool) -> Reported {
    if is_right {
        Reported::Right
    } else {
        Reported::Wrong
    }
}

/// The schema of version 1, and what keys have in the store.
pub(crate) type Read = (ArcValue<Schema>, ReadView);

fn schema_of(
    answer: Result<Option<ArcValue<Schema>>, SharedFault<AllocError>>,
) -> Result<ArcValue<Schema>, Reported> {
    match answer {
        Ok(Some(schema)) => Ok(schema),
        Err(SharedFault::World(AllocError)) => Err(Reported::Short),
        _ => Err(Reported::Wrong),
    }
}

fn read_of(
    schema: ArcValue<Schema>,
    answer: Result<ReadView, SharedFault<AllocError>>,
) -> Result<Read, Reported> {
    match answer {
        Ok(view) => Ok((schema, view)),
        Err(SharedFault::World(AllocError)) => Err(Reported::Short),
        Err(_) => Err(Reported::Wrong),
    }
}

/// What operations read.
pub(crate) fn read_for<L: SharedLedger, R: Wait>(
    port: &mut HandlePort<L, R>,
    ops: &RowOps,
) -> Result<Read, Reported> {
    let (rt, alloc) = (port.rt, port.alloc);
    let schema = schema_of(port.shared.schema(rt, port.me, 1))?;
    match reads_of(alloc, schema.get(), ops.as_slice()) {
        Ok(keys) => read_of(schema, port.shared.read(rt, alloc, port.me, &keys)),
        Err(AllocError) => Err(Reported::Short),
    }
}

fn work_of(alloc: Global, read: Result<Read, Reported>, ops: RowOps) -> Result<Prepared, Reported> {
    let (schema, view) = read?;
    match prepare(alloc, schema, FIRST, ops, view) {
        Ok(work) => Ok(work),
        Err((PrepareFault::Memory, _)) => Err(Reported::Short),
        Err(_) => Err(Reported::Wrong),
    }
}

/// What is prepared of operations, under the first lease.
pub(crate) fn prepared<L: SharedLedger, R: Wait>(
    port: &mut HandlePort<L, R>,
    ops: Result<RowOps, AllocError>,
) -> Result<Prepared, Reported> {
    match ops {
        Ok(ops) => work_of(port.alloc, read_for(port, &ops), ops),
        Err(AllocError) => Err(Reported::Short),
    }
}

fn receipt_of(answer: Result<Committed, (SharedFault<CommitFault>, Prepared)>) -> Option<Receipt> {
    match answer {
        Ok(Committed::Done(receipt)) => Some(receipt),
        _ => None,
    }
}

/// The receipt of an insert at moment 0.
pub(crate) fn inserted<L: SharedLedger, R: Wait>(
    port: &mut HandlePort<L, R>,
    id: i64,
    value: i64,
) -> Option<Receipt> {
    let (rt, alloc) = (port.rt, port.alloc);
    let work = prepared(port, insert(alloc, id, value)).ok()?;
    receipt_of(port.shared.commit(rt, alloc, port.me, 0, work))
}
