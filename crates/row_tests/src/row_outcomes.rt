//! What the preparation of a transaction gives, by plain operations and points.
use crate::fixtures::{Points, are_writes, bytes, declared};
use crate::operations::{Op, operations};
use PrepareFault::NoTable;
use byte_map::{Bytes, KeyMap};
use collections::{ArcValue, List};
use lease::Lease;
use row_map::ReadView;
use row_write::{PrepareFault, Prepared, RowOp, RowOps, RowOutcome, prepare, prepare_shared};
use std::alloc::{AllocError, Global};

const LEASE: Lease = Lease {
    version: 1,
    granted: 0,
    until: 10,
};

fn point(alloc: Global, value: Option<&[u8]>) -> Result<Option<Bytes>, AllocError> {
    match value {
        Some(value) => Ok(Some(bytes(alloc, value)?)),
        None => Ok(None),
    }
}

/// The view in which these keys have these values, or no pair.
fn view(alloc: Global, points: Points) -> Result<ReadView, AllocError> {
    let mut view = KeyMap::new(alloc);
    for (key, value) in points {
        view.insert(bytes(alloc, key)?, point(alloc, *value)?)?;
    }
    Ok(view)
}

/// What is prepared; of no table if the operations did not come back with a refusal.
fn prepared(alloc: Global, ops: Vec<RowOp>, view: ReadView) -> Result<Prepared, PrepareFault> {
    let schema = ArcValue::new(alloc, declared(alloc)?)?;
    let count = ops.len();
    match prepare(alloc, schema, LEASE, List::new(ops), view) {
        Ok(prepared) => Ok(prepared),
        Err((fault, ops)) => Err(if ops.len() == count { fault } else { NoTable }),
    }
}

/// What is prepared from operations that have another owner.
fn prepared_shared(
    alloc: Global,
    ops: &ArcValue<RowOps>,
    view: ReadView,
) -> Result<Prepared, PrepareFault> {
    let schema = ArcValue::new(alloc, declared(alloc)?)?;
    match prepare_shared(alloc, schema, LEASE, ops.clone()?, view) {
        Ok(prepared) => Ok(prepared),
        Err((fault, back)) => Err(if back.get().len() == ops.get().len() {
            fault
        } else {
            NoTable
        }),
    }
}

/// The outcome, if there are just these writes in this order.
fn outcome_with(prepared: &Prepared, wanted: Points) -> Option<RowOutcome> {
    if are_writes(prepared.batch().writes(), wanted) {
        Some(prepared.outcome())
    } else {
        None
    }
}

/// The same of these operations.
fn outcome_once(
    alloc: Global,
    plain: &[Op],
    points: Points,
    wanted: Points,
) -> Result<Option<RowOutcome>, PrepareFault> {
    let ops = operations(alloc, plain)?;
    let view = view(alloc, points)?;
    let prepared = prepared(alloc, ops, view)?;
    Ok(outcome_with(&prepared, wanted))
}

/// The same of these operations with another owner.
fn outcome_shared_once(
    alloc: Global,
    plain: &[Op],
    points: Points,
    wanted: Points,
) -> Result<Option<RowOutcome>, PrepareFault> {
    let ops = ArcValue::new(alloc, List::new(operations(alloc, plain)?))?;
    let view = view(alloc, points)?;
    let prepared = prepared_shared(alloc, &ops, view)?;
    Ok(outcome_with(&prepared, wanted))
}

/// The same, asked once more if memory was short.
pub(crate) fn outcome_shared(
    alloc: Global,
    plain: &[Op],
    points: Points,
    wanted: Points,
) -> Result<Option<RowOutcome>, PrepareFault> {
    match outcome_shared_once(alloc, plain, points, wanted) {
        Err(PrepareFault::Memory) => outcome_shared_once(alloc, plain, points, wanted),
        reported => reported,
    }
}

/// The same, asked once more if memory was short.
pub(crate) fn outcome(
    alloc: Global,
    plain: &[Op],
    points: Points,
    wanted: Points,
) -> Result<Option<RowOutcome>, PrepareFault> {
    match outcome_once(alloc, plain, points, wanted) {
        Err(PrepareFault::Memory) => outcome_once(alloc, plain, points, wanted),
        reported => reported,
    }
}
