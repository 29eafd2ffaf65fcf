//! Changes under way, carried on by one act.
ghost use Rattle.std.specs.Prelude.{◌≡◌};
ghost use Rattle.operator_calls.specs.Advances.{advance_outcome, AdvancesWorld, AdvancesIn, Advances};

use handles::typed_calls::BoundedWorld;
use handles::typed_calls::status::{
    BAD_COUNT, CLOSED, FINISHED, MOMENT_TOO_LARGE, OK, OUT_OF_MEMORY, TOO_FAR, VERSIONS_SPENT,
    WAITING,
};
use handles::world::World;
use handles::{Engine, Handle};
use rollout::{AdvanceFault, Advanced};
use std::alloc::Global;

/// What an advance did.
#[repr(C)]
#[derive(Clone, Copy, Drop)]
pub struct AdvanceOutcome {
    /// The status.
    pub status: i32,
    /// At `WAITING` the moment before which nothing can be done; else 0.
    pub until: u64,
}

impl AdvanceOutcome {
    /// A status without a moment.
    pub(crate) fn of(status: i32) -> AdvanceOutcome
        ensures { result ≡ record { status = status; until = 0 } }
    {
        AdvanceOutcome { status, until: 0 }
    }
}

/// What one act, or its refusal, is reported as.
pub(crate) fn outcome_of(advanced: &Result<Advanced, AdvanceFault>) -> AdvanceOutcome
    ensures { result ≡ advance_outcome advanced.now }
{
    match advanced {
        Ok(Advanced::Waiting { until }) => AdvanceOutcome {
            status: WAITING,
            until: *until,
        },
        Ok(Advanced::Finished) => AdvanceOutcome::of(FINISHED),
        Ok(_) => AdvanceOutcome::of(OK),
        Err(AdvanceFault::BadCount) => AdvanceOutcome::of(BAD_COUNT),
        Err(AdvanceFault::MomentTooLarge) => AdvanceOutcome::of(MOMENT_TOO_LARGE),
        Err(AdvanceFault::VersionsSpent) => AdvanceOutcome::of(VERSIONS_SPENT),
        Err(AdvanceFault::Memory) => AdvanceOutcome::of(OUT_OF_MEMORY),
    }
}

// Does the act that is due in the world.
fn advance_world(
    alloc: Global,
    world: &mut World,
    moment: u64,
    pieces: u32,
    limit: u32,
) -> AdvanceOutcome
    ensures { AdvancesWorld world.old moment pieces limit result world.new }
{
    outcome_of(&rollout::advance(alloc, world, moment, pieces, limit))
}

// Does the act that is due, unless the moment is too far.
fn advance_in(
    alloc: Global,
    bounded: &mut BoundedWorld,
    moment: u64,
    pieces: u32,
    limit: u32,
) -> AdvanceOutcome
    ensures { AdvancesIn bounded.old moment pieces limit result bounded.new }
{
    if bounded.is_too_far(moment) {
        return AdvanceOutcome::of(TOO_FAR);
    }
    advance_world(alloc, &mut bounded.world, moment, pieces, limit)
}

/// Does the act that is due of the changes under way in a world: begins a reorganisation in so many
/// pieces, publishes a step in which all ready elements move on, or works so many items. `OK`, and
/// the log has one entry more; `WAITING`, with the moment before which nothing can be done, or
/// `FINISHED`, which change nothing; else `CLOSED`, `TOO_FAR`, `BAD_COUNT`, `MOMENT_TOO_LARGE`,
/// `VERSIONS_SPENT`, or `OUT_OF_MEMORY`, which may come in place of the one before it. A refusal
/// changes nothing.
pub fn advance(
    alloc: Global,
    world: &mut Handle,
    moment: u64,
    pieces: u32,
    limit: u32,
) -> AdvanceOutcome
    ensures { Advances world.old.place.value moment pieces limit result world.new.place.value }
{
    let Some(mut engine) = world.take(alloc) else {
        return AdvanceOutcome::of(CLOSED);
    };
    let Engine::World(bounded) = &mut *engine else {
        world.put(engine);
        return AdvanceOutcome::of(CLOSED);
    };
    let outcome = advance_in(alloc, bounded, moment, pieces, limit);
    world.put(engine);
    outcome
}
