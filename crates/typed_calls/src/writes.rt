//! A transaction in one call: its operations are read, prepared and committed.
ghost use Rattle.std.specs.Prelude.{IfErr, IfOk};
ghost use Rattle.typed_calls.specs.Prepare.{IsPreparedFrom, IsUnprepared};
ghost use Rattle.typed_calls.specs.Writes.{IsReadFor, WritesPrepared, WritesRead, WritesOps, WritesWorld, WritesIn};

use crate::bounded::BoundedWorld;
use crate::preparation::{PrepareOutcome, prepare_from};
use crate::refusals::TxnRefusal;
use crate::status::{BAD_CODE, OUT_OF_MEMORY, TOO_FAR};
use collections::ArcValue;
use entry_code::{CodeFault, ops_of};
use row_map::ReadView;
use row_write::{Prepared, RowOps, reads_of};
use script_session::ServerLease;
use script_session::world::{Committed, World};
use std::alloc::{AllocError, Global};

// What the operations read of the world.
fn read_for(
    alloc: Global,
    world: &World,
    held: &ServerLease,
    ops: &RowOps,
) -> Result<ReadView, AllocError>
    ensures { IfOk result (λ view. IsReadFor world.now held.now ops.now view) }
{
    let keys = reads_of(alloc, held.schema.get(), ops.as_slice())?;
    world.read(alloc, &keys)
}

// The transaction as it is prepared from what was read.
fn prepared_from(
    alloc: Global,
    held: &ServerLease,
    ops: RowOps,
    view: ReadView,
) -> Result<Prepared, PrepareOutcome>
    ensures prepared { IfOk result (λ prepared. IsPreparedFrom held.now ops view prepared) }
    ensures refused { IfErr result (λ outcome. IsUnprepared held.now ops view outcome) }
{
    let Ok(ops) = ArcValue::new(alloc, ops) else {
        return Err(PrepareOutcome::of(OUT_OF_MEMORY));
    };
    prepare_from(alloc, held, ops, view)
}

// A prepared transaction is committed to the world.
fn commit_at_once(
    alloc: Global,
    world: &mut World,
    moment: u64,
    prepared: Prepared,
) -> Result<Committed, TxnRefusal>
    ensures { WritesPrepared world.old moment prepared result world.new }
{
    match world.commit(alloc, moment, prepared) {
        Ok(done) => Ok(done),
        Err((fault, _)) => Err(TxnRefusal::Commit(fault)),
    }
}

// What was read is prepared and committed.
fn write_read(
    alloc: Global,
    world: &mut World,
    moment: u64,
    held: &ServerLease,
    ops: RowOps,
    view: ReadView,
) -> Result<Committed, TxnRefusal>
    ensures { WritesRead world.old moment held.now ops view result world.new }
{
    match prepared_from(alloc, held, ops, view) {
        Ok(prepared) => commit_at_once(alloc, world, moment, prepared),
        Err(outcome) => Err(TxnRefusal::Early(outcome)),
    }
}

// The operations are read, prepared and committed.
fn write_ops(
    alloc: Global,
    world: &mut World,
    moment: u64,
    held: &ServerLease,
    ops: RowOps,
) -> Result<Committed, TxnRefusal>
    ensures { WritesOps world.old moment held.now ops result world.new }
{
    match read_for(alloc, world, held, &ops) {
        Ok(view) => write_read(alloc, world, moment, held, ops, view),
        Err(_) => Err(TxnRefusal::of(OUT_OF_MEMORY)),
    }
}

// The same of the operations whose code these bytes are.
fn write_to(
    alloc: Global,
    world: &mut World,
    moment: u64,
    held: &ServerLease,
    code: &[u8],
) -> Result<Committed, TxnRefusal>
    ensures { WritesWorld world.old moment held.now code.now result world.new }
{
    match ops_of(alloc, code) {
        Ok(ops) => write_ops(alloc, world, moment, held, ops),
        Err(CodeFault::Memory) => Err(TxnRefusal::of(OUT_OF_MEMORY)),
        Err(_) => Err(TxnRefusal::of(BAD_CODE)),
    }
}

/// Makes a transaction in one call: reads what its operations read of a world, prepares it, and
/// commits it. That is `read`, `prepare` and `commit` for a caller who holds the world for all three
/// anyway; since nothing comes between, no pair has changed meanwhile.
///
/// - `moment`: the present moment. The one that counts is the greater of it and the moment of the
///   last entry.
/// - `held`: the lease with the schema of its version.
/// - `code`: what `entry_code::ops_bytes` gives for the operations.
///
/// Refused, in this order, and then nothing changes: `TOO_FAR`; `BAD_CODE` if the bytes are the
/// code of no operations; then as `row_write::prepare` refuses:
/// `NO_TABLE`, `NOT_PUBLIC` with the column, `WRONG_TYPE` and `TOO_MANY_OPS`; then as
/// `World::commit` refuses, by its fault: `MOMENT_TOO_LARGE`, `BAD_LEASE`, `LEASE_ENDED` and
/// `WRONG_SCHEMA`; `OUT_OF_MEMORY`, which may come in place of any but `TOO_FAR`.
pub fn write(
    alloc: Global,
    bounded: &mut BoundedWorld,
    moment: u64,
    held: &ServerLease,
    code: &[u8],
) -> Result<Committed, TxnRefusal>
    ensures { WritesIn bounded.old moment held.now code.now result bounded.new }
{
    if bounded.is_too_far(moment) {
        return Err(TxnRefusal::of(TOO_FAR));
    }
    write_to(alloc, &mut bounded.world, moment, held, code)
}
