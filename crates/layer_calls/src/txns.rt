//! Transactions: which keys to read, and the draft of what was read.
ghost use Rattle.std.specs.Prelude.{◌≡◌, IfOk, OnOk};
ghost use Rattle.drafts.specs.Calls.{txn_draft, IsTxn};
ghost use Rattle.record_code.specs.Drafts.{draft_code, IsFitDraft};
ghost use Rattle.layer_calls.specs.Given.{With, Replies, IsVersion, version_code, GivesVersion, GivesOps, GivesView};
ghost use Rattle.std.specs.FinMap as map;
ghost use Rattle.layer_calls.specs.Txns.{missing, prepare_refusal as prepare_refusal_of, row_refusal as row_refusal_of, Wants, mark_of as mark_named, Drafts};

use crate::given;
use crate::outcome::{LayerOutcome, LayerReply};
use byte_map::Bytes;
use collections::{ArcValue, List};
use drafts::{Drafted, TxnDraft, draft_txn};
use entry_code::points_bytes;
use handles::typed_calls::prepare_outcome;
use handles::typed_calls::status::{DUPLICATE, NO_ROW};
use record_code::txn_bytes_under;
use row_map::{ReadSet, ReadView};
use row_write::{PrepareFault, RowFault, RowOp, RowOps, reads_of};
use schema_version::Schema;
use std::alloc::{AllocError, Global};

// The keys of a set, each without a value.
fn missing_points(alloc: Global, keys: &ReadSet) -> Result<List<(Bytes, Option<Bytes>)>, AllocError>
    ensures { IfOk result (λ points. points ≡ missing (map.entries keys.now)) }
{
    let mut points = Vec::new(alloc);
    let entries = keys.entries();
    for entry in entries {
        points.push((entry.0.clone()?, None))?;
    }
    Ok(List::new(points))
}

// The code of the keys that the operations read.
fn reads_reply(alloc: Global, schema: &Schema, ops: &[RowOp]) -> Result<LayerReply, LayerOutcome>
    ensures { Wants schema.now ops.now result }
{
    let keys = reads_of(alloc, schema, ops)?;
    let points = missing_points(alloc, &keys)?;
    Ok(LayerReply::of(points_bytes(alloc, &points)?))
}

/// The code of the keys that a transaction reads, each without a value, by rising key.
///
/// - `version`: the record of the version under which it runs.
/// - `operations`: what `entry_code::ops_bytes` gives for the operations.
///
/// Refused: `BAD_CODE` if the record or the operations are none; `OUT_OF_MEMORY`, which may come in
/// its place.
pub fn reads(alloc: Global, version: &[u8], operations: &[u8]) -> Result<LayerReply, LayerOutcome>
    ensures { With GivesVersion (λ v a. With GivesOps (Wants v) operations.now a) version.now result }
{
    let schema = given::version(alloc, version)?;
    let ops = given::ops(alloc, operations)?;
    reads_reply(alloc, schema.get(), ops.as_slice())
}

// What a preparation that is refused is reported as.
fn prepare_refusal(fault: PrepareFault) -> LayerOutcome
    ensures { result ≡ prepare_refusal_of fault }
{
    let outcome = prepare_outcome(fault);
    LayerOutcome {
        status: outcome.status,
        column: outcome.column,
        number: 0,
        length: 0,
    }
}

// What operations that the rows refuse are reported as.
fn row_refusal(op: usize, why: RowFault) -> LayerOutcome
    ensures { result ≡ row_refusal_of op why }
{
    match why {
        RowFault::Duplicate => LayerOutcome::at(DUPLICATE, op as u64),
        RowFault::NoRow => LayerOutcome::at(NO_ROW, op as u64),
    }
}

// The name of a mark, if there is one.
fn mark_of(alloc: Global, name: &[u8]) -> Result<Option<Bytes>, AllocError>
    ensures { IfOk result (λ mark. mark ≡ mark_named name.now) }
{
    match name {
        [] => Ok(None),
        _ => Ok(Some(Bytes::from_slice(alloc, name)?)),
    }
}

// The code of a draft, by the record of its version.
fn draft_reply(alloc: Global, draft: &TxnDraft, version: &[u8]) -> Result<LayerReply, AllocError>
    requires known { IsVersion draft.now.txn.schema }
    requires spelled { version.now ≡ version_code draft.now.txn.schema }
    ensures made { OnOk result (IsTxn draft.now.txn) }
    ensures fit { OnOk result (IsFitDraft (txn_draft draft.now.txn draft.now.mark)) }
    ensures code { IfOk result (λ reply. Replies (draft_code (txn_draft draft.now.txn draft.now.mark)) reply) }
{
    draft.lemma_drafted();
    Ok(LayerReply::of(txn_bytes_under(alloc, draft, version)?))
}

// What the operations come to on what was read, under a version with its record.
fn draft_for(
    alloc: Global,
    number: u64,
    schema: ArcValue<Schema>,
    version: &[u8],
    ops: ArcValue<RowOps>,
    view: ReadView,
    mark: &[u8],
) -> Result<LayerReply, LayerOutcome>
    requires known { IsVersion schema }
    requires spelled { version.now ≡ version_code schema }
    ensures { Drafts number mark.now schema ops view result }
{
    let mark = mark_of(alloc, mark)?;
    match draft_txn(alloc, number, schema, ops, mark, view) {
        Ok(Drafted::Draft(draft)) => Ok(draft_reply(alloc, &draft, version)?),
        Ok(Drafted::Refused { op, why }) => Err(row_refusal(op, why)),
        Err((fault, _)) => Err(prepare_refusal(fault)),
    }
}

/// The code of the draft of a transaction on what was read, at whatever moments. If the store applies
/// it, the transaction is committed. If it does not, the version was closed, a pair has changed, or
/// the mark is there: read again, and make it anew.
///
/// - `number`, `version`: the number of an open version, and its record.
/// - `operations`: what `entry_code::ops_bytes` gives for at most 64 operations.
/// - `view`: what `entry_code::points_bytes` gives for the keys of `reads`, each with its value or
///   none.
/// - `mark`: a name that this transaction alone has, with which it is applied at most once, however
///   often its draft is handed in; none if it is empty.
///
/// Refused, in this order: `BAD_CODE` if the record, the operations or the view are none; `NO_TABLE`,
/// `NOT_PUBLIC` with the column, `WRONG_TYPE`, `TOO_MANY_OPS` and `VIEW_MISMATCH` as
/// `row_write::prepare` refuses; `DUPLICATE` and `NO_ROW` with the operation, if the rows that were
/// read refuse it; `OUT_OF_MEMORY`, which may come in place of any.
pub fn txn(
    alloc: Global,
    number: u64,
    version: &[u8],
    operations: &[u8],
    view: &[u8],
    mark: &[u8],
) -> Result<LayerReply, LayerOutcome>
    ensures { With GivesVersion (λ v a. With GivesOps (λ o b. With GivesView (Drafts number mark.now v o) view.now b) operations.now a) version.now result }
{
    let schema = given::version(alloc, version)?;
    let ops = given::shared_ops(alloc, operations)?;
    let view = given::view(alloc, view)?;
    draft_for(alloc, number, schema, version, ops, view, mark)
}
