//! The world's calls for acts that are due: it refuses them only when out of memory or of versions.
ghost use Rattle.std.specs.Prelude.{◌≡◌, ◌≤◌, IfOk, IfErr, OnErr, Ok};
ghost use Rattle.lease.specs.Timeline.{max_moment, newest as newest_number};
ghost use Rattle.replay.specs.Laws.{IsPieceCount};
ghost use Rattle.world.specs.BeginReorg.{BeginStep};
ghost use Rattle.world.specs.Calls.{effective_moment};
ghost use Rattle.world.specs.Publish.{PublishStep, max_versions};
ghost use Rattle.world.specs.State.{facts_of};
ghost use Rattle.rollout.specs.declared.act.Act.TheVariants as act;
ghost use Rattle.rollout.specs.declared.advanced.AdvanceFault.TheVariants as advance_fault;
ghost use Rattle.rollout.specs.Due.{IsDue};
ghost use Rattle.rollout.specs.Advance.{IsMemoryOrVersion};

use crate::advanced::AdvanceFault;
use schema_version::Step;
use std::alloc::{AllocError, Global};
use world::{PublishFault, Receipt, World};

/// Begins a fill or a clear that is due.
pub(crate) fn begin(
    alloc: Global,
    world: &mut World,
    moment: u64,
    element: u32,
    pieces: u32,
) -> Result<Receipt, AllocError>
    requires pieces { IsPieceCount pieces }
    requires moment { effective_moment world.old moment ≤ max_moment }
    requires due { IsDue (facts_of world.old) (effective_moment world.old moment) (act.Begin element) }
    ensures step { IfOk result (λ receipt. BeginStep world.old moment element pieces (Ok receipt) world.new) }
    ensures same { OnErr result (world.new ≡ world.old) }
{
    match world.begin_reorg(alloc, moment, element, pieces) {
        Ok(receipt) => Ok(receipt),
        Err(_) => Err(AllocError),
    }
}

/// Publishes a step that is due.
pub(crate) fn publish(
    alloc: Global,
    world: &mut World,
    moment: u64,
    step: &Step,
) -> Result<(u64, Receipt), AdvanceFault>
    requires moment { effective_moment world.old moment ≤ max_moment }
    requires due { IsDue (facts_of world.old) (effective_moment world.old moment) (act.Publish step.now) }
    ensures step { IfOk result (λ done. PublishStep world.old moment step.now (Ok done) world.new) }
    ensures refused { IfErr result (λ fault. (fault ≡ advance_fault.VersionsSpent → max_versions ≤ newest_number (facts_of world.old).line) × (fault ≡ advance_fault.MomentTooLarge → ⊥) × (fault ≡ advance_fault.BadCount → ⊥)) }
    ensures same { OnErr result (world.new ≡ world.old) }
{
    match world.publish(alloc, moment, step) {
        Ok(done) => Ok(done),
        Err(PublishFault::VersionsSpent) => Err(AdvanceFault::VersionsSpent),
        Err(_) => Err(AdvanceFault::Memory),
    }
}
