//! Preparing a transaction from what was read.
ghost use Rattle.std.specs.Prelude.{◌≡◌, ◌≤◌, ◌∷◌, [], length, IfOk, IfErr, IfSome, OnOk};
ghost use Rattle.std.specs.List.{AllByRecursion};
ghost use Rattle.collections.specs.Refusal.{IsFirst, IsRefusal, IsClear};
ghost use Rattle.row_map.specs.Rows.{Rows};
ghost use Rattle.row_map.specs.Expect.{View};
ghost use Rattle.row_write.specs.Prepare.{rank, Condition, max_ops, Encodes, IsPrepared};
ghost use Rattle.row_write.specs.Made.{IsSound, expects};
ghost use Rattle.row_write.specs.inner.View.{IsMissed};
ghost use Rattle.row_write.specs.declared.fault.PrepareFault.TheVariants.{Memory as OutOfMemory};

use crate::check::first_fault;
use crate::fault::PrepareFault;
use crate::lemmas::lemma_served;
use crate::op::{RowOp, RowOps, RowOutcome};
use crate::prepared::Prepared;
use crate::read::{encoded_row, encoded_rows};
use crate::run::{run, run_one};
use collections::ArcValue;
use lease::Lease;
use row_map::{Batch, Expect, ReadView};
use schema_version::Schema;
use std::alloc::{AllocError, Global};

/// The most operations of a transaction.
const MAX_OPS: usize = 64;

/// Whether the operations can be prepared, whatever was read.
fn check_ops(schema: &Schema, ops: &[RowOp]) -> Result<(), PrepareFault>
    ensures sound { OnOk result (AllByRecursion (IsSound schema.now) ops.now × (length ops.now ≤ max_ops)) }
    ensures refused { IfErr result (λ e. (view : View) → IsFirst rank (Condition schema.now ops.now view) e) }
{
    lemma_served(schema);
    if let Some(fault) = first_fault(schema, ops) {
        return Err(fault);
    }
    if ops.len() > MAX_OPS {
        return Err(PrepareFault::TooManyOps);
    }
    Ok(())
}

/// What the only operation comes to, as `work_out` has it. None if the view has other keys than its
/// row's, or in another order.
fn work_out_one(
    alloc: Global,
    schema: &Schema,
    view: &ReadView,
    op: &RowOp,
) -> Result<Option<(RowOutcome, Batch)>, PrepareFault>
    requires { IsSound schema.now op.now }
    ensures some_rows { IfOk result (λ found. IfSome found (λ done. (rows : Rows) × Encodes schema.now (op.now ∷ []) view.now rows)) }
    ensures prepared { IfOk result (λ found. IfSome found (λ done. IsPrepared schema.now (op.now ∷ []) view.now done.0 done.1)) }
    ensures missed { IfErr result (IsMissed ((rows : Rows) → ¬ (Encodes schema.now (op.now ∷ []) view.now rows))) }
{
    lemma_served(schema);
    let Some((row, exists)) = encoded_row(alloc, schema, view, op)? else {
        return Ok(None);
    };
    Ok(Some(run_one(alloc, schema, &row, op, &exists)?))
}

/// What the operations come to, and what they write, on any rows that the view encodes.
fn work_out(
    alloc: Global,
    schema: &Schema,
    view: &ReadView,
    ops: &[RowOp],
) -> Result<(RowOutcome, Batch), PrepareFault>
    requires { AllByRecursion (IsSound schema.now) ops.now }
    ensures some_rows { OnOk result ((rows : Rows) × Encodes schema.now ops.now view.now rows) }
    ensures prepared { IfOk result (λ done. IsPrepared schema.now ops.now view.now done.0 done.1) }
    ensures missed { IfErr result (IsMissed ((rows : Rows) → ¬ (Encodes schema.now ops.now view.now rows))) }
{
    lemma_served(schema);
    // Most transactions have one operation, and a view with its keys in their order.
    if let [op] = ops {
        if let Some(done) = work_out_one(alloc, schema, view, op)? {
            return Ok(done);
        }
    }
    let (rows, keys) = encoded_rows(alloc, schema, view, ops)?;
    Ok(run(alloc, schema, rows, ops, keys.as_slice())?)
}

/// The outcome and the batch of a transaction, or its first fault.
fn prepare_ops(
    alloc: Global,
    schema: &Schema,
    view: &ReadView,
    ops: &[RowOp],
) -> Result<(RowOutcome, Batch), PrepareFault>
    ensures sound { OnOk result (AllByRecursion (IsSound schema.now) ops.now × (length ops.now ≤ max_ops)) }
    ensures some_rows { OnOk result ((rows : Rows) × Encodes schema.now ops.now view.now rows) }
    ensures prepared { IfOk result (λ done. IsPrepared schema.now ops.now view.now done.0 done.1) }
    ensures clear { OnOk result (IsClear (Condition schema.now ops.now view.now)) }
    ensures refused { IfErr result (λ e. IsRefusal rank (Condition schema.now ops.now view.now) OutOfMemory e) }
{
    lemma_served(schema);
    check_ops(schema, ops)?;
    work_out(alloc, schema, view, ops)
}

/// A copy of the operations for the log to share, made here since a commit holds the lock.
fn share_ops(alloc: Global, ops: &RowOps) -> Result<ArcValue<RowOps>, AllocError>
    ensures { IfOk result (λ shared. shared ≡ ops.now) }
{
    ArcValue::new(alloc, ops.clone()?)
}

/// The same, with a copy of the operations.
fn prepare_copied(
    alloc: Global,
    schema: &Schema,
    view: &ReadView,
    ops: &RowOps,
) -> Result<(RowOutcome, Batch, ArcValue<RowOps>), PrepareFault>
    ensures sound { OnOk result (AllByRecursion (IsSound schema.now) ops.now × (length ops.now ≤ max_ops)) }
    ensures some_rows { OnOk result ((rows : Rows) × Encodes schema.now ops.now view.now rows) }
    ensures prepared { IfOk result (λ done. IsPrepared schema.now ops.now view.now done.0 done.1) }
    ensures shared { IfOk result (λ done. done.2 ≡ ops.now) }
    ensures clear { OnOk result (IsClear (Condition schema.now ops.now view.now)) }
    ensures refused { IfErr result (λ e. IsRefusal rank (Condition schema.now ops.now view.now) OutOfMemory e) }
{
    let (reported, batch) = prepare_ops(alloc, schema, view, ops.as_slice())?;
    Ok((reported, batch, share_ops(alloc, ops)?))
}

/// Prepares a transaction from what was read: what its operations come to on the rows that the view
/// encodes, and what they then write by the states of the schema. The operations act in turn, each
/// seeing the ones before; with one that rows refuse, nothing is written. A transaction that is
/// prepared expects to find again just what was read.
///
/// - `schema`: the version under which it is prepared.
/// - `lease`: a lease of that version, kept for the commit and not looked at.
/// - `ops`: at most 64 operations.
/// - `view`: the keys that `reads_of` gives for them, each with its value or none.
///
/// A transaction that is committed is serializable in the rows that its operations name: when it
/// commits, they are as they were read. No other row is looked at again, and a query is no part of
/// a transaction: two servers that query, compute and then write what they computed may lose an
/// update. To change a row by what it holds, read first: `reads_of` depends on the tables and the
/// primary keys of the operations alone, so it can be asked with values that are not known yet.
/// Compute the new values from that view, prepare the operations that have them with the same view,
/// and commit. After a conflict, read again.
///
/// The first operation with NoTable, NotPublic or WrongType decides by its lowest; then TooManyOps,
/// then ViewMismatch. Out of memory may come in place of ViewMismatch alone. A refusal gives the
/// operations back.
pub fn prepare(
    alloc: Global,
    schema: ArcValue<Schema>,
    lease: Lease,
    ops: RowOps,
    view: ReadView,
) -> Result<Prepared, (PrepareFault, RowOps)>
    ensures holds { IfOk result (λ p. (p.schema ≡ schema) × (p.lease ≡ lease) × (p.ops ≡ ops) × (p.expect ≡ expects view)) }
    ensures clear { OnOk result (IsClear (Condition schema ops view)) }
    ensures prepared { IfOk result (λ p. IsPrepared schema ops view p.reported p.batch) }
    ensures refused { IfErr result (λ e. IsRefusal rank (Condition schema ops view) OutOfMemory e.0) }
    ensures returned { IfErr result (λ e. e.1 ≡ ops) }
{
    match prepare_copied(alloc, schema.get(), &view, &ops) {
        Err(fault) => Err((fault, ops)),
        Ok((reported, batch, shared)) => Ok(Prepared {
            schema,
            lease,
            ops: shared,
            expect: Expect {
                points: view,
                key_range: None,
            },
            batch,
            reported,
        }),
    }
}

/// Prepares a transaction as `prepare` does, from operations that may have other owners: the log
/// shares them too, and none is copied. A refusal gives them back.
pub fn prepare_shared(
    alloc: Global,
    schema: ArcValue<Schema>,
    lease: Lease,
    ops: ArcValue<RowOps>,
    view: ReadView,
) -> Result<Prepared, (PrepareFault, ArcValue<RowOps>)>
    ensures holds { IfOk result (λ p. (p.schema ≡ schema) × (p.lease ≡ lease) × (p.ops ≡ ops) × (p.expect ≡ expects view)) }
    ensures clear { OnOk result (IsClear (Condition schema ops view)) }
    ensures prepared { IfOk result (λ p. IsPrepared schema ops view p.reported p.batch) }
    ensures refused { IfErr result (λ e. IsRefusal rank (Condition schema ops view) OutOfMemory e.0) }
    ensures returned { IfErr result (λ e. e.1 ≡ ops) }
{
    match prepare_ops(alloc, schema.get(), &view, ops.get().as_slice()) {
        Err(fault) => Err((fault, ops)),
        Ok((reported, batch)) => Ok(Prepared {
            schema,
            lease,
            ops,
            expect: Expect {
                points: view,
                key_range: None,
            },
            batch,
            reported,
        }),
    }
}
