//! The operations of a transaction, one after another on working rows.
ghost use Rattle.std.specs.Prelude.{◌≡◌, ◌∷◌, [], false, List, Err, IfOk, OnOk, MatchOption, option_map};
ghost use Rattle.std.specs.List.{AllByRecursion};
ghost use Rattle.std.specs.FinMap as map;
ghost use Rattle.row_map.specs.Rows.{Bytes as ByteString};
ghost use Rattle.row_map.specs.Writes.{written, noted};
ghost use Rattle.row_write.specs.declared.op.RowOp.{RowOp as Operation};
ghost use Rattle.element_state.specs.Operations.{cells_of};
ghost use Rattle.row_write.specs.Plain.{row_of, change_of, outcome};
ghost use Rattle.row_write.specs.Prepare.{txn_writes};
ghost use Rattle.row_write.specs.inner.Changes.{left_of, IsDone};
ghost use Rattle.row_write.specs.inner.Run.{IsNoted, IsStep};
ghost use Rattle.row_write.specs.inner.View.{IsExistsKey, exists_keys};

use crate::edit::{copy_key, left_row};
use crate::fault::RowFault;
use crate::op::{RowOp, RowOutcome};
use crate::places::is_same_key;
use crate::work_rows::WorkRows;
use crate::write::write_change;
use byte_map::Bytes;
use collections::List;
use row_map::{Batch, Row};
use schema_version::Schema;
use std::alloc::{AllocError, Global};

/// Keeps the row that the operation leaves, or that there is none.
fn keep(alloc: Global, rows: &mut WorkRows, op: &RowOp) -> Result<(), AllocError>
    ensures { OnOk result (rows.new ≡ written rows.old (row_of op.now) (left_of (map.get rows.old (row_of op.now)) op.now)) }
{
    let old = rows.find(op.table(), op.key().as_slice());
    match left_row(alloc, old, op)? {
        Some(row) => rows.put(op.table(), row, true),
        None => {
            let key = copy_key(op.key())?;
            let cells = List::new(Vec::new(alloc));
            rows.put(op.table(), Row { key, cells }, false)
        }
    }
}

/// Why the operation is refused on the old row, if it is.
fn refusal(op: &RowOp, old: Option<&Row>) -> Option<RowFault>
    ensures { MatchOption result (IsDone (option_map (λ r. cells_of r.now) old.entry) op.now) (λ why. change_of (option_map (λ r. cells_of r.now) old.entry) op.now ≡ Err why) }
{
    match (op, old) {
        (RowOp::Insert { .. }, Some(_)) => Some(RowFault::Duplicate),
        (RowOp::Update { .. } | RowOp::Delete { .. }, None) => Some(RowFault::NoRow),
        (RowOp::Insert { .. }, None) | (RowOp::Update { .. } | RowOp::Delete { .. }, Some(_)) =>
            None,
    }
}

/// Notes what an operation writes on the rows as they are, or says why it is refused.
///
/// - `exists`: the key of the `exists` pair of the operation's row.
fn write_op(
    alloc: Global,
    schema: &Schema,
    rows: &WorkRows,
    batch: &mut Batch,
    op: &RowOp,
    exists: &Bytes,
) -> Result<Result<(), RowFault>, AllocError>
    requires { IsExistsKey op.now exists.now }
    ensures { IfOk result (λ done. IsNoted schema.now (map.get rows.now (row_of op.now)) op.now done batch.old batch.new) }
{
    let old = rows.find(op.table(), op.key().as_slice());
    if let Some(why) = refusal(op, old) {
        return Ok(Err(why));
    }
    write_change(alloc, schema, op, exists, old, batch)?;
    Ok(Ok(()))
}

/// Whether a key is among these.
fn is_among(key: &Bytes, keys: &[Bytes]) -> bool
    ensures { result ≡ false → AllByRecursion (λ (other : ByteString). ¬ (other ≡ key.now)) keys.now }
{
    for other in keys {
        if is_same_key(other, key) {
            return true;
        }
    }
    false
}

/// Notes what an operation writes, and keeps its row if a later operation is about it.
///
/// - `exists`: the key of the `exists` pair of the operation's row.
/// - `later`: those of the operations after it.
fn run_op(
    alloc: Global,
    schema: &Schema,
    rows: &mut WorkRows,
    batch: &mut Batch,
    op: &RowOp,
    exists: &Bytes,
    later: &[Bytes],
) -> Result<Result<(), RowFault>, AllocError>
    requires { IsExistsKey op.now exists.now }
    ensures { IfOk result (λ done. (ops : List Operation) → later.now ≡ exists_keys ops → IsStep schema.now rows.old op.now ops done rows.new batch.old batch.new) }
{
    if let Err(why) = write_op(alloc, schema, rows, batch, op, exists)? {
        return Ok(Err(why));
    }
    if is_among(exists, later) {
        keep(alloc, rows, op)?;
    }
    Ok(Ok(()))
}

/// Runs the only operation, as `run` does.
pub(crate) fn run_one(
    alloc: Global,
    schema: &Schema,
    rows: &WorkRows,
    op: &RowOp,
    exists: &Bytes,
) -> Result<(RowOutcome, Batch), AllocError>
    requires { IsExistsKey op.now exists.now }
    ensures reported { IfOk result (λ done. done.0 ≡ outcome rows.now (op.now ∷ [])) }
    ensures batch { IfOk result (λ done. done.1 ≡ noted map.empty (txn_writes schema.now rows.now (op.now ∷ []))) }
{
    let mut batch = Batch::new(alloc);
    match write_op(alloc, schema, rows, &mut batch, op, exists)? {
        Err(why) => Ok((RowOutcome::Refused { op: 0, why }, Batch::new(alloc))),
        Ok(()) => Ok((RowOutcome::Done, batch)),
    }
}

/// Runs the operations up to the first that is refused. With one, nothing is written.
///
/// - `keys`: for each operation the key of its row's `exists` pair.
pub(crate) fn run(
    alloc: Global,
    schema: &Schema,
    rows: WorkRows,
    ops: &[RowOp],
    keys: &[Bytes],
) -> Result<(RowOutcome, Batch), AllocError>
    requires { keys.now ≡ exists_keys ops.now }
    ensures reported { IfOk result (λ done. done.0 ≡ outcome rows ops.now) }
    ensures batch { IfOk result (λ done. done.1 ≡ noted map.empty (txn_writes schema.now rows ops.now)) }
{
    let mut rows = rows;
    let mut batch = Batch::new(alloc);
    let mut place = 0;
    for op in ops {
        let later = keys.split_at(place + 1).1;
        let key = &keys[place];
        if let Err(why) = run_op(alloc, schema, &mut rows, &mut batch, op, key, later)? {
            return Ok((RowOutcome::Refused { op: place, why }, Batch::new(alloc)));
        }
        place += 1;
    }
    Ok((RowOutcome::Done, batch))
}
