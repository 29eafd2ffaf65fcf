//! A transaction repeated.
ghost use Rattle.std.specs.Bool.{Decides};
ghost use Rattle.std.specs.Prelude.{◌≡◌, ◌≤◌, IfOk, IfErr, Some, None};
ghost use Rattle.lease.specs.Refusals.{Serves};
ghost use Rattle.replay.specs.declared.entry.What.TheVariants.{Txn};
ghost use Rattle.replay.specs.Replay.{version_at};
ghost use Rattle.row_write.specs.declared.fault.PrepareFault.TheVariants.{Memory as OutOfMemory};
ghost use Rattle.world.specs.declared.commit.CommitFault.TheVariants.{Memory as NoMemory};
ghost use Rattle.world.specs.State.{facts_of, recent};
ghost use Rattle.replica.specs.declared.fault.RepeatFault.TheVariants.{NotNext};
ghost use Rattle.replica.specs.Next.{RepeatAt};
ghost use Rattle.replica.specs.inner.Prepared.{IsPreparedOf, IsUnfit};

use crate::fault::RepeatFault;
use collections::ArcValue;
use lease::Lease;
use row_write::{PrepareFault, Prepared, RowOps, prepare, reads_of};
use schema_version::Schema;
use std::alloc::{AllocError, Global};
use world::{CommitFault, Committed, Receipt, World};

/// A copy of the operations.
fn copy_ops(ops: &RowOps) -> Result<RowOps, AllocError>
    ensures { IfOk result (λ copy. copy ≡ ops.now) }
{
    ops.clone()
}

/// The schema of a version.
fn schema_under(world: &World, version: u64) -> Result<ArcValue<Schema>, RepeatFault>
    ensures found { IfOk result (λ schema. version_at (facts_of world.now) version ≡ Some schema) }
    ensures none { IfErr result (λ fault. fault ≡ NotNext → recent (facts_of world.now) version ≡ None) }
{
    match world.schema(version) {
        Some(schema) => Ok(schema.clone()?),
        None => Err(RepeatFault::NotNext),
    }
}

/// What is reported if the operations are not prepared.
fn prepare_fault(fault: PrepareFault) -> RepeatFault
    ensures { result ≡ NotNext → fault ≡ OutOfMemory → ⊥ }
{
    match fault {
        PrepareFault::Memory => RepeatFault::Memory,
        _ => RepeatFault::NotNext,
    }
}

/// What is reported if the transaction is not committed.
fn commit_fault(fault: &CommitFault) -> RepeatFault
    ensures { result ≡ NotNext → fault.now ≡ NoMemory → ⊥ }
{
    match fault {
        CommitFault::Memory => RepeatFault::Memory,
        _ => RepeatFault::NotNext,
    }
}

/// The same, of operations that come back.
fn prepare_refusal(refusal: (PrepareFault, RowOps)) -> RepeatFault
    ensures { result ≡ NotNext → refusal.0 ≡ OutOfMemory → ⊥ }
{
    prepare_fault(refusal.0)
}

/// The same, of a prepared transaction that comes back.
fn commit_refusal(refusal: (CommitFault, Prepared)) -> RepeatFault
    ensures { result ≡ NotNext → refusal.0 ≡ NoMemory → ⊥ }
{
    commit_fault(&refusal.0)
}

/// Whether the lease serves at the moment.
fn serves(world: &World, now: u64, lease: &Lease) -> bool
    requires { (facts_of world.now).moment ≤ now }
    ensures { Decides result (Serves (facts_of world.now).line lease.now now) }
{
    world.timeline().standing(lease, now).is_ok()
}

/// Prepares the operations under this schema from what is present.
fn prepare_again(
    world: &World,
    alloc: Global,
    schema: ArcValue<Schema>,
    lease: &Lease,
    ops: &RowOps,
) -> Result<Prepared, RepeatFault>
    ensures prepared { IfOk result (λ prepared. IsPreparedOf world.now schema lease.now ops.now prepared) }
    ensures unfit { IfErr result (λ fault. fault ≡ NotNext → IsUnfit world.now schema ops.now) }
{
    let keys = reads_of(alloc, schema.get(), ops.as_slice())?;
    let view = world.read(alloc, &keys)?;
    let copy = copy_ops(ops)?;
    match prepare(alloc, schema, *lease, copy, view) {
        Ok(prepared) => Ok(prepared),
        Err(refusal) => Err(prepare_refusal(refusal)),
    }
}

/// Commits what was prepared of these operations.
fn commit_again(
    world: &mut World,
    alloc: Global,
    now: u64,
    lease: &Lease,
    ops: &RowOps,
    prepared: Prepared,
) -> Result<Receipt, RepeatFault>
    requires later { (facts_of world.old).moment ≤ now }
    requires serves { Serves (facts_of world.old).line lease.now now }
    requires there { version_at (facts_of world.old) lease.now.version ≡ Some prepared.schema }
    requires prepared { IsPreparedOf world.old prepared.schema lease.now ops.now prepared }
    ensures { RepeatAt world.old now (Txn lease.now ops.now) result world.new }
{
    prepared.lemma_made();
    match world.commit(alloc, now, prepared) {
        Ok(Committed::Done(receipt)) => Ok(receipt),
        Ok(Committed::Refused { .. }) => Err(RepeatFault::NotNext),
        Err(refusal) => Err(commit_refusal(refusal)),
    }
}

/// Prepares and commits these operations under this schema.
fn prepare_and_commit(
    world: &mut World,
    alloc: Global,
    now: u64,
    lease: &Lease,
    ops: &RowOps,
    schema: ArcValue<Schema>,
) -> Result<Receipt, RepeatFault>
    requires later { (facts_of world.old).moment ≤ now }
    requires serves { Serves (facts_of world.old).line lease.now now }
    requires there { version_at (facts_of world.old) lease.now.version ≡ Some schema }
    ensures { RepeatAt world.old now (Txn lease.now ops.now) result world.new }
{
    world.lemma_agrees();
    match prepare_again(world, alloc, schema, lease, ops) {
        Ok(prepared) => commit_again(world, alloc, now, lease, ops, prepared),
        Err(fault) => Err(fault),
    }
}

/// Commits these operations under a lease that is still to be looked at.
fn commit_ops(
    world: &mut World,
    alloc: Global,
    now: u64,
    lease: &Lease,
    ops: &RowOps,
) -> Result<Receipt, RepeatFault>
    requires later { (facts_of world.old).moment ≤ now }
    ensures { RepeatAt world.old now (Txn lease.now ops.now) result world.new }
{
    world.lemma_agrees();
    if !serves(world, now, lease) {
        return Err(RepeatFault::NotNext);
    }
    match schema_under(world, lease.version) {
        Ok(schema) => prepare_and_commit(world, alloc, now, lease, ops, schema),
        Err(fault) => Err(fault),
    }
}

/// Repeats the commit of these operations under this lease.
pub(crate) fn repeat_txn(
    world: &mut World,
    alloc: Global,
    now: u64,
    lease: &Lease,
    ops: &ArcValue<RowOps>,
) -> Result<Receipt, RepeatFault>
    requires later { (facts_of world.old).moment ≤ now }
    ensures { RepeatAt world.old now (Txn lease.now ops.now) result world.new }
{
    commit_ops(world, alloc, now, lease, ops.get())
}
