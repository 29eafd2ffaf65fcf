//! The entry that the act that is due would add to the log, for replicas that agree on it first.
ghost use Rattle.std.specs.Prelude.{◌≡◌, option_map, None};
ghost use Rattle.operator_calls.specs.Dues.{due_entry_of, DuesWorld, DuesBounded, DuesInto, Dues};

use crate::advances::{AdvanceOutcome, outcome_of};
use handles::collections::List;
use handles::typed_calls::BoundedWorld;
use handles::typed_calls::status::{ALREADY_OPEN, CLOSED, OUT_OF_MEMORY, TOO_FAR};
use handles::world::{Entry, World};
use handles::{Engine, Handle, typed_calls};
use rollout::{AdvanceFault, Advanced};
use std::alloc::Global;

// The entry that an act added, if it did one.
fn due_entry_of(advanced: &Result<Advanced, AdvanceFault>) -> Option<&Entry>
    ensures { option_map (λ e. e.now) result ≡ due_entry_of advanced.now }
{
    match advanced {
        Ok(
            Advanced::Began {
                element: _,
                receipt,
            },
        ) => Some(&receipt.entry),
        Ok(
            Advanced::Published {
                version: _,
                receipt,
            },
        ) => Some(&receipt.entry),
        Ok(Advanced::Worked { element: _, done }) => Some(&done.receipt.entry),
        Ok(Advanced::Waiting { until: _ }) | Ok(Advanced::Finished) | Err(_) => None,
    }
}

// The code of the entry that the act that is due would add, or what `advance` answers if none is.
fn due_world(
    alloc: Global,
    world: &World,
    moment: u64,
    pieces: u32,
    limit: u32,
) -> Result<List<u8>, AdvanceOutcome>
    ensures { DuesWorld world.now moment pieces limit result }
{
    let Ok(checkpoint) = world.checkpoint() else {
        return Err(AdvanceOutcome::of(OUT_OF_MEMORY));
    };
    let mut fork = World::open_at(alloc, checkpoint);
    let advanced = rollout::advance(alloc, &mut fork, moment, pieces, limit);
    let Some(entry) = due_entry_of(&advanced) else {
        return Err(outcome_of(&advanced));
    };
    match typed_calls::entry_coded(alloc, entry) {
        Ok(code) => Ok(code),
        Err(status) => Err(AdvanceOutcome::of(status)),
    }
}

// The same, unless the moment is too far.
fn due_bounded(
    alloc: Global,
    bounded: &BoundedWorld,
    moment: u64,
    pieces: u32,
    limit: u32,
) -> Result<List<u8>, AdvanceOutcome>
    ensures { DuesBounded bounded.now moment pieces limit result }
{
    if bounded.is_too_far(moment) {
        return Err(AdvanceOutcome::of(TOO_FAR));
    }
    due_world(alloc, &bounded.world, moment, pieces, limit)
}

// Fills a closed handle with that code.
fn keep_due(
    alloc: Global,
    answer: Result<List<u8>, AdvanceOutcome>,
    bytes: &mut Handle,
) -> AdvanceOutcome
    requires { bytes.old.place.value ≡ None }
    ensures { DuesInto answer result bytes.new.place.value }
{
    match answer {
        Ok(code) => AdvanceOutcome::of(bytes.fill(alloc, Engine::Bytes(code))),
        Err(outcome) => outcome,
    }
}

/// What `advance` would answer now. The world does not change: at `OK` the closed handle `bytes` holds
/// the code of the entry that the act would add to the log, and a world that stands here and repeats
/// that entry is then where the act would have led it. `WAITING` and `FINISHED` leave `bytes` as it
/// was. Else `ALREADY_OPEN` (of `bytes`), and then as `advance`, but that `OUT_OF_MEMORY` may come in
/// place of any after `TOO_FAR`.
pub fn due_entry(
    alloc: Global,
    world: &mut Handle,
    moment: u64,
    pieces: u32,
    limit: u32,
    bytes: &mut Handle,
) -> AdvanceOutcome
    ensures dues { Dues world.old.place.value moment pieces limit bytes.old.place.value result bytes.new.place.value }
    ensures same { world.new.place.value ≡ world.old.place.value }
{
    if bytes.is_open() {
        return AdvanceOutcome::of(ALREADY_OPEN);
    }
    let Some(engine) = world.take(alloc) else {
        return AdvanceOutcome::of(CLOSED);
    };
    let Engine::World(bounded) = &*engine else {
        world.put(engine);
        return AdvanceOutcome::of(CLOSED);
    };
    let answer = due_bounded(alloc, bounded, moment, pieces, limit);
    let outcome = keep_due(alloc, answer, bytes);
    world.put(engine);
    outcome
}
