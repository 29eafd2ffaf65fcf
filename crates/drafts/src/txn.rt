//! Drafts of transactions.
ghost use Rattle.std.specs.Prelude.{◌≡◌, ◌++◌, IfOk, IfErr, OnOk};
ghost use Rattle.std.specs.Option.{option_copied};
ghost use Rattle.collections.specs.Refusal.{IsRefusal, IsClear};
ghost use Rattle.row_write.specs.Prepare.{rank, Condition};
ghost use Rattle.row_write.specs.declared.fault.PrepareFault.TheVariants.{Memory as OutOfMemory};
ghost use Rattle.drafts.specs.Calls.{txn_draft, mark_reads, mark_writes, IsTxn};
ghost use Rattle.drafts.specs.Made.{IsControlOf};
ghost use Rattle.drafts.specs.Txn.{IsDraftedFor};

use crate::key::Key;
use crate::record::{Control, Record};
use byte_map::Bytes;
use collections::{ArcValue, List};
use lease::Lease;
use row_map::{Batch, Expect, ReadView};
use row_write::{PrepareFault, Prepared, RowFault, RowOp, RowOps, RowOutcome, prepare_shared};
use schema_version::Schema;
use std::alloc::{AllocError, Global};
use std::marker::Model;

/// A transaction whose operations the rows that were read accept: what the store compares, and what
/// it then writes. `draft_txn` alone makes one, and it can grow as old as it likes.
pub struct TxnDraft {
    prepared: Prepared,
    mark: Option<Bytes>,
}

// By hand, so that a caller's proof sees one call and not each field's.
impl Drop for TxnDraft {
    fn drop(self) {
        let TxnDraft {
            prepared: _,
            mark: _,
        } = self;
    }
}

impl Model for TxnDraft {
    ghost use Rattle.drafts.specs.Marked.{MarkedTxn, marked_code};

    ghost Value = { MarkedTxn };

    ghost coded = { marked_code };

    ghost use Rattle.drafts.specs.Calls.{IsTxn};

    ghost view = { λ d. record { txn = d.prepared; mark = d.mark } };

    ghost invariant = { λ d. IsTxn d.prepared };
}

/// What a transaction comes to on what was read.
#[derive(Drop)]
pub enum Drafted {
    /// It is to be handed to the store.
    Draft(TxnDraft),
    /// The rows refuse it.
    Refused {
        /// The first operation that they refuse, counted from 0.
        op: usize,
        /// Why.
        why: RowFault,
    },
}

/// A further owner of the mark's name.
fn share_mark(mark: &Option<Bytes>) -> Result<Option<Bytes>, AllocError>
    ensures { IfOk result (λ copy. copy ≡ mark.now) }
{
    match mark {
        None => Ok(None),
        Some(name) => Ok(Some(name.clone()?)),
    }
}

/// What compares that the mark is missing, if there is one.
fn push_mark_read(
    out: &mut Vec<(Key, Option<Record>)>,
    mark: Option<Bytes>,
) -> Result<(), AllocError>
    ensures { OnOk result (out.new.items ≡ out.old.items ++ mark_reads mark) }
{
    if let Some(name) = mark {
        out.push((Key::mark(name), None))?;
    }
    Ok(())
}

/// What puts it.
fn push_mark_write(
    out: &mut Vec<(Key, Option<Record>)>,
    mark: Option<Bytes>,
) -> Result<(), AllocError>
    ensures { OnOk result (out.new.items ≡ out.old.items ++ mark_writes mark) }
{
    if let Some(name) = mark {
        out.push((Key::mark(name), Some(Record::Mark)))?;
    }
    Ok(())
}

impl TxnDraft {
    /// What the store compares and writes of the control records: that the version is still open,
    /// and that the mark is missing, which is then put, if the transaction has one.
    ///
    /// Refused only when out of memory.
    pub fn control(&self, alloc: Global) -> Result<Control, AllocError>
        ensures { IfOk result (λ control. IsControlOf (txn_draft self.now.txn self.now.mark) control) }
    {
        let schema = self.prepared.schema().clone()?;
        let number = self.number();
        let mut reads = Vec::new(alloc);
        reads.push((Key::version(number), Some(Record::Version(schema))))?;
        push_mark_read(&mut reads, share_mark(&self.mark)?)?;
        let mut writes = Vec::new(alloc);
        push_mark_write(&mut writes, share_mark(&self.mark)?)?;
        Ok(Control {
            reads: List::new(reads),
            writes: List::new(writes),
        })
    }

    /// The number of the version under which it runs.
    pub fn number(&self) -> u64
        ensures { result ≡ self.now.txn.lease.version }
    {
        self.prepared.lease().version
    }

    /// The name of its mark, if it has one.
    pub fn mark(&self) -> Option<&Bytes>
        ensures { option_copied result ≡ self.now.mark }
    {
        self.mark.as_ref()
    }

    /// The pairs that the store compares: just what was read.
    pub fn expect(&self) -> &Expect
        ensures { result.now ≡ (txn_draft self.now.txn self.now.mark).expect }
    {
        self.prepared.expect()
    }

    /// The pairs that the store then writes.
    pub fn batch(&self) -> &Batch
        ensures { result.now ≡ (txn_draft self.now.txn self.now.mark).batch }
    {
        self.prepared.batch()
    }

    /// The operations, in order.
    pub fn ops(&self) -> &[RowOp]
        ensures { result.now ≡ self.now.txn.ops }
    {
        self.prepared.ops()
    }

    /// Tells what is known of every draft of a transaction.
    pub fn lemma_drafted(&self)
        ensures { IsTxn self.now.txn }
    {
        let _prepared = &self.prepared;
    }
}

/// Drafts a transaction from a control record and a view: no clock, no lease and no memory of
/// earlier calls.
///
/// - `number`, `schema`: a version as the store had its record, however long ago.
/// - `ops`: at most 64 operations, which the draft then shares; none is copied.
/// - `mark`: a name that no other transaction has, if the draft may be handed in twice, as after an
///   answer that was lost: the store applies it once at most. `None` for no mark.
/// - `view`: the keys that `reads_of` gives for the operations, each with its value or none, as they
///   were read at whatever moments.
///
/// If the store applies the draft, the transaction is committed (`runs_agree`). If it does not, the
/// version was closed, a pair has changed, or the mark is there: read again. Refused as `prepare`
/// is; a refusal gives the operations back.
pub fn draft_txn(
    alloc: Global,
    number: u64,
    schema: ArcValue<Schema>,
    ops: ArcValue<RowOps>,
    mark: Option<Bytes>,
    view: ReadView,
) -> Result<Drafted, (PrepareFault, ArcValue<RowOps>)>
    ensures drafted { IfOk result (λ d. IsDraftedFor number schema ops mark view d) }
    ensures clear { OnOk result (IsClear (Condition schema ops view)) }
    ensures refused { IfErr result (λ e. IsRefusal rank (Condition schema ops view) OutOfMemory e.0) }
    ensures returned { IfErr result (λ e. e.1 ≡ ops) }
{
    // the store's comparison takes the place of the lease
    let lease = Lease {
        version: number,
        granted: 0,
        until: 0,
    };
    let prepared = prepare_shared(alloc, schema, lease, ops, view)?;
    prepared.lemma_made();
    match prepared.outcome() {
        RowOutcome::Done => Ok(Drafted::Draft(TxnDraft { prepared, mark })),
        RowOutcome::Refused { op, why } => Ok(Drafted::Refused { op, why }),
    }
}
