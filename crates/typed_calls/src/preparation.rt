//! A transaction that was read is prepared.
ghost use Rattle.std.specs.Prelude.{◌≡◌, IfErr, IfOk};
ghost use Rattle.typed_calls.specs.Prepare.{prepare_outcome, IsPreparedFrom, IsUnprepared, Prepares};

use crate::reads::Reads;
use crate::status::{NO_TABLE, NOT_PUBLIC, OUT_OF_MEMORY, TOO_MANY_OPS, VIEW_MISMATCH, WRONG_TYPE};
use byte_map::{Bytes, KeyMap};
use collections::ArcValue;
use row_map::ReadView;
use row_write::{PrepareFault, Prepared, RowOps};
use script_session::ServerLease;
use std::alloc::{AllocError, Global};

/// What the preparation of a transaction came to.
#[repr(C)]
#[derive(Clone, Copy, Drop)]
pub struct PrepareOutcome {
    /// The status.
    pub status: i32,
    /// At `NOT_PUBLIC` the number that was named; else 0.
    pub column: u32,
}

impl PrepareOutcome {
    /// A status without a column.
    pub fn of(status: i32) -> PrepareOutcome
        ensures { result ≡ record { status = status; column = 0 } }
    {
        PrepareOutcome { status, column: 0 }
    }
}

/// What a refused preparation is reported as.
pub fn prepare_outcome(fault: PrepareFault) -> PrepareOutcome
    ensures { result ≡ prepare_outcome fault }
{
    match fault {
        PrepareFault::NoTable => PrepareOutcome::of(NO_TABLE),
        PrepareFault::NotPublic { column } => PrepareOutcome {
            status: NOT_PUBLIC,
            column,
        },
        PrepareFault::WrongType => PrepareOutcome::of(WRONG_TYPE),
        PrepareFault::TooManyOps => PrepareOutcome::of(TOO_MANY_OPS),
        PrepareFault::ViewMismatch => PrepareOutcome::of(VIEW_MISMATCH),
        PrepareFault::Memory => PrepareOutcome::of(OUT_OF_MEMORY),
    }
}

// A further owner of a value, if there is one.
pub(crate) fn value_again(value: &Option<Bytes>) -> Result<Option<Bytes>, AllocError>
    ensures { IfOk result (λ copy. copy ≡ value.now) }
{
    match value {
        Some(value) => Ok(Some(value.clone()?)),
        None => Ok(None),
    }
}

// A view of the same, since what was read may be prepared again.
fn view_again(alloc: Global, view: &ReadView) -> Result<ReadView, AllocError>
    ensures { IfOk result (λ copy. copy ≡ view.now) }
{
    let mut copy = KeyMap::new(alloc);
    let entries = view.entries();
    for (key, value) in entries {
        let value = value_again(value)?;
        copy.insert(key.clone()?, value)?;
    }
    Ok(copy)
}

/// The transaction of operations as it is prepared from what was read.
pub(crate) fn prepare_from(
    alloc: Global,
    held: &ServerLease,
    ops: ArcValue<RowOps>,
    view: ReadView,
) -> Result<Prepared, PrepareOutcome>
    ensures prepared { IfOk result (λ prepared. IsPreparedFrom held.now ops view prepared) }
    ensures refused { IfErr result (λ outcome. IsUnprepared held.now ops view outcome) }
{
    let Ok(schema) = held.schema.clone() else {
        return Err(PrepareOutcome::of(OUT_OF_MEMORY));
    };
    match row_write::prepare_shared(alloc, schema, held.lease, ops, view) {
        Ok(prepared) => Ok(prepared),
        Err((fault, _)) => Err(prepare_outcome(fault)),
    }
}

/// Prepares a transaction that was read: what its operations come to on the rows that were read,
/// and what they then write under the schema of its lease's version. It takes no world and no lock,
/// and what was read may be prepared again.
///
/// Refused, in this order: `NO_TABLE`, `NOT_PUBLIC`, `WRONG_TYPE`, `TOO_MANY_OPS` and
/// `VIEW_MISMATCH` as `row_write::prepare` refuses; `OUT_OF_MEMORY`, which may come in place of any.
pub fn prepare(alloc: Global, reads: &Reads) -> Result<Prepared, PrepareOutcome>
    ensures { Prepares reads.now result }
{
    let Ok(view) = view_again(alloc, &reads.view) else {
        return Err(PrepareOutcome::of(OUT_OF_MEMORY));
    };
    let Ok(ops) = reads.ops.clone() else {
        return Err(PrepareOutcome::of(OUT_OF_MEMORY));
    };
    prepare_from(alloc, &reads.held, ops, view)
}
