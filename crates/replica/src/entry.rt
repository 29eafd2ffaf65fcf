//! An entry repeated.
ghost use Rattle.std.specs.Bool.{Decides};
ghost use Rattle.std.specs.Prelude.{◌≡◌, ◌≤◌};
ghost use Rattle.collections.specs.Refusal.{IsClear};
ghost use Rattle.lease.specs.Timeline.{granted_at, last_publication};
ghost use Rattle.replay.specs.declared.entry.What.TheVariants.{Lease as Granted, Publish, Begin};
ghost use Rattle.world.specs.Calls.{GrantCondition};
ghost use Rattle.world.specs.State.{facts_of};
ghost use Rattle.replica.specs.Next.{RepeatAt, RepeatStep};

use crate::fault::RepeatFault;
use crate::piece::repeat_piece;
use crate::txn::repeat_txn;
use lease::{Lease, Timeline};
use replay::{Entry, What};
use schema_version::Step;
use std::alloc::Global;
use world::{BeginFault, GrantFault, PublishFault, Receipt, World};

/// Whether this is the lease that is granted at this moment.
fn is_granted(line: &Timeline, lease: &Lease, now: u64) -> bool
    requires { last_publication line.now ≤ now }
    ensures { Decides result (IsClear (GrantCondition now) × (lease.now ≡ granted_at line.now now)) }
{
    match line.grant(now) {
        Ok(granted) => granted == *lease,
        Err(_) => false,
    }
}

/// Repeats the grant of this lease.
fn repeat_lease(
    world: &mut World,
    alloc: Global,
    now: u64,
    lease: &Lease,
) -> Result<Receipt, RepeatFault>
    requires later { (facts_of world.old).moment ≤ now }
    ensures step { RepeatAt world.old now (Granted lease.now) result world.new }
{
    if !is_granted(world.timeline(), lease, now) {
        return Err(RepeatFault::NotNext);
    }
    match world.lease(alloc, now) {
        Ok(grant) => Ok(grant.receipt),
        Err(GrantFault::Memory) => Err(RepeatFault::Memory),
        Err(GrantFault::MomentTooLarge) => Err(RepeatFault::NotNext),
    }
}

/// Repeats the publication of this step.
fn repeat_step(
    world: &mut World,
    alloc: Global,
    now: u64,
    step: &Step,
) -> Result<Receipt, RepeatFault>
    requires later { (facts_of world.old).moment ≤ now }
    ensures step { RepeatAt world.old now (Publish step.now) result world.new }
{
    match world.publish(alloc, now, step) {
        Ok((_, receipt)) => Ok(receipt),
        Err(PublishFault::Memory) => Err(RepeatFault::Memory),
        Err(_) => Err(RepeatFault::NotNext),
    }
}

/// Repeats the begin of this reorganisation.
fn repeat_begin(
    world: &mut World,
    alloc: Global,
    now: u64,
    element: u32,
    pieces: u32,
) -> Result<Receipt, RepeatFault>
    requires later { (facts_of world.old).moment ≤ now }
    ensures step { RepeatAt world.old now (Begin element pieces) result world.new }
{
    match world.begin_reorg(alloc, now, element, pieces) {
        Ok(receipt) => Ok(receipt),
        Err(BeginFault::Memory) => Err(RepeatFault::Memory),
        Err(_) => Err(RepeatFault::NotNext),
    }
}

/// Repeats what a call did, at the moment that counted in it.
fn repeat_call(
    world: &mut World,
    alloc: Global,
    now: u64,
    what: &What,
) -> Result<Receipt, RepeatFault>
    requires later { (facts_of world.old).moment ≤ now }
    ensures step { RepeatAt world.old now what.now result world.new }
{
    match what {
        What::Lease(lease) => repeat_lease(world, alloc, now, lease),
        What::Txn(lease, ops) => repeat_txn(world, alloc, now, lease, ops),
        What::Publish(step) => repeat_step(world, alloc, now, step),
        What::Begin { element, pieces } => repeat_begin(world, alloc, now, *element, *pieces),
        What::Piece {
            element,
            piece,
            cursor,
        } => repeat_piece(world, alloc, now, *element, *piece, cursor),
    }
}

/// A world that repeats the log of another one, entry by entry.
pub trait Repeat {
    ghost use Rattle.std.specs.Prelude.{Result};
    ghost use Rattle.replay.specs.declared.entry.Entry.{Entry};
    ghost use Rattle.world.specs.declared.entry.Receipt.{Receipt};
    ghost use Rattle.replica.specs.declared.fault.RepeatFault.{RepeatFault};

    // what repeating an entry answers, and what it leaves
    ghost step: { Self → Entry → Result Receipt RepeatFault → Self → Type 0 };

    /// Repeats an entry of a world that was opened alike and had the same log: makes the call of
    /// the entry again at the entry's moment, so that the log has exactly this entry more and the
    /// pairs are those that it gives. The lease, the operations, the step or the piece are the
    /// entry's own, so nothing else is needed.
    ///
    /// - `entry`: the entry, as the other world's log or receipt has it, or as it was rebuilt from
    ///   bytes.
    ///
    /// Refused with `NotNext` if no accepted call of this world would add the entry at its moment,
    /// for instance if the last entry has a later moment; or with `Memory`, which may come in its
    /// place. A refusal changes nothing.
    fn repeat(&mut self, alloc: Global, entry: &Entry) -> Result<Receipt, RepeatFault>
        ensures { step self.old entry.now result self.new };
}

impl Repeat for World {
    ghost step = { RepeatStep };

    fn repeat(&mut self, alloc: Global, entry: &Entry) -> Result<Receipt, RepeatFault> {
        let now = entry.moment;
        if now < self.moment() {
            return Err(RepeatFault::NotNext);
        }
        repeat_call(self, alloc, now, entry.what.get())
    }
}
