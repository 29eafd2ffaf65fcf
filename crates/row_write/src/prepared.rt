//! Transactions that were prepared.
ghost use Rattle.std.specs.Prelude.{◌≡◌, IfOk};
ghost use Rattle.row_write.specs.Made.{IsMade};

use crate::op::{RowOp, RowOps, RowOutcome};
use collections::ArcValue;
use lease::Lease;
use row_map::{Batch, Expect};
use schema_version::Schema;
use std::alloc::AllocError;
use std::marker::Model;

/// A transaction that was prepared under a schema version from what was read: what it expects to
/// find again, and what it then writes. `prepare` alone makes one, and it can grow as old as it
/// likes.
pub struct Prepared {
    pub(crate) schema: ArcValue<Schema>,
    pub(crate) lease: Lease,
    /// The log shares them.
    pub(crate) ops: ArcValue<RowOps>,
    pub(crate) expect: Expect,
    pub(crate) batch: Batch,
    pub(crate) reported: RowOutcome,
}

// By hand, so that a caller's proof sees one call and not each field's.
impl Drop for Prepared {
    fn drop(self) {
        let Prepared {
            schema: _,
            lease: _,
            ops: _,
            expect: _,
            batch: _,
            reported: _,
        } = self;
    }
}

impl Model for Prepared {
    ghost use Rattle.row_write.specs.Made.{PreparedTxn};
    ghost use Rattle.row_write.specs.Code.{prepared_code};

    ghost Value = { PreparedTxn };

    ghost coded = { prepared_code };

    ghost use Rattle.row_write.specs.Inside.{prepared_of, IsHeld};

    ghost view = { prepared_of };

    ghost invariant = { IsHeld };
}

impl Prepared {
    /// The schema version under which it was prepared.
    pub fn schema(&self) -> &ArcValue<Schema>
        ensures { result.now ≡ self.now.schema }
    {
        &self.schema
    }

    /// The lease that it was given.
    pub fn lease(&self) -> &Lease
        ensures { result.now ≡ self.now.lease }
    {
        &self.lease
    }

    /// Its operations, in order.
    pub fn ops(&self) -> &[RowOp]
        ensures { result.now ≡ self.now.ops }
    {
        self.ops.get().as_slice()
    }

    /// What it expects of the store: just what was read.
    pub fn expect(&self) -> &Expect
        ensures { result.now ≡ self.now.expect }
    {
        &self.expect
    }

    /// What it writes: nothing if an operation is refused.
    pub fn batch(&self) -> &Batch
        ensures { result.now ≡ self.now.batch }
    {
        &self.batch
    }

    /// What the rows say that were read.
    pub fn outcome(&self) -> RowOutcome
        ensures { result ≡ self.now.reported }
    {
        self.reported
    }

    /// Its operations, shared: the log keeps them so, and none is copied. Refused only when out of
    /// memory.
    pub fn ops_shared(&self) -> Result<ArcValue<RowOps>, AllocError>
        ensures { IfOk result (λ ops. ops ≡ self.now.ops) }
    {
        self.ops.clone()
    }

    /// Tells what is known of every prepared transaction.
    pub fn lemma_made(&self)
        ensures { IsMade self.now }
    {
        let _schema = &self.schema;
    }
}
