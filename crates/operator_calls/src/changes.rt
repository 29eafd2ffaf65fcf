//! Schema changes: the publication of a step, and the begin of a reorganisation.
ghost use Rattle.std.specs.Prelude.{◌≡◌};
ghost use Rattle.operator_calls.specs.Changes.{change_outcome, Publishes, PublishesOf, Begins, BeginsOf};

use handles::typed_calls::status::{CLOSED, OK};
use handles::typed_calls::{BoundedWorld, ChangeRefusal};
use handles::{Engine, Handle, typed_calls};
use std::alloc::Global;

/// What a schema change came to.
#[repr(C)]
#[derive(Clone, Copy, Drop)]
pub struct ChangeOutcome {
    /// The status.
    pub status: i32,
    /// At `OK` the number of the version, or the place of the begin's entry; at `DEPENDENT` and
    /// `UNFINISHED` the element; at `TOO_EARLY` and `STILL_USED` the first moment at which the call
    /// is not refused so; else 0.
    pub number: u64,
}

impl ChangeOutcome {
    /// A status alone.
    pub(crate) fn of(status: i32) -> ChangeOutcome
        ensures { result ≡ record { status = status; number = 0 } }
    {
        ChangeOutcome { status, number: 0 }
    }

    // What a change, or its refusal, is reported as.
    fn reported(answer: &Result<u64, ChangeRefusal>) -> ChangeOutcome
        ensures { result ≡ change_outcome answer.now }
    {
        match answer {
            Ok(number) => ChangeOutcome {
                status: OK,
                number: *number,
            },
            Err(refusal) => ChangeOutcome {
                status: refusal.status,
                number: refusal.number,
            },
        }
    }
}

// Publishes the step whose code these bytes are, in the world.
fn publish_in(alloc: Global, bounded: &mut BoundedWorld, moment: u64, step: &[u8]) -> ChangeOutcome
    ensures { PublishesOf bounded.old moment step.now result bounded.new }
{
    let answer = typed_calls::publish(alloc, bounded, moment, step);
    ChangeOutcome::reported(&answer)
}

// Begins a reorganisation in the world.
fn begin_in(
    alloc: Global,
    bounded: &mut BoundedWorld,
    moment: u64,
    element: u32,
    pieces: u32,
) -> ChangeOutcome
    ensures { BeginsOf bounded.old moment element pieces result bounded.new }
{
    let answer = typed_calls::begin_reorg(alloc, bounded, moment, element, pieces);
    ChangeOutcome::reported(&answer)
}

/// Publishes the version that a step gives, by its code, in a world. `OK`, with its number; else
/// `CLOSED`, `TOO_FAR`, `BAD_CODE`, `MOMENT_TOO_LARGE`, `TOO_EARLY`, `UNKNOWN`, `NOT_ADJACENT`,
/// `WRONG_WAY`, `DEPENDENT`, `NAME_TAKEN`, `OVER_LIMIT`, `UNFINISHED`, `VERSIONS_SPENT`, or
/// `OUT_OF_MEMORY`, which may come in place of `BAD_CODE` and those after it. A refusal changes
/// nothing.
pub fn publish(alloc: Global, world: &mut Handle, moment: u64, step: &[u8]) -> ChangeOutcome
    ensures { Publishes world.old.place.value moment step.now result world.new.place.value }
{
    let Some(mut engine) = world.take(alloc) else {
        return ChangeOutcome::of(CLOSED);
    };
    let Engine::World(bounded) = &mut *engine else {
        world.put(engine);
        return ChangeOutcome::of(CLOSED);
    };
    let outcome = publish_in(alloc, bounded, moment, step);
    world.put(engine);
    outcome
}

/// Begins the fill or the clear that an element wants, in so many pieces, in a world. `OK`, with the
/// place of its entry; else `CLOSED`, `TOO_FAR`, `MOMENT_TOO_LARGE`, `NOT_WANTED`, `STILL_USED`,
/// `BEGUN`, `BAD_COUNT` or `OUT_OF_MEMORY`. A refusal changes nothing.
pub fn begin_reorg(
    alloc: Global,
    world: &mut Handle,
    moment: u64,
    element: u32,
    pieces: u32,
) -> ChangeOutcome
    ensures { Begins world.old.place.value moment element pieces result world.new.place.value }
{
    let Some(mut engine) = world.take(alloc) else {
        return ChangeOutcome::of(CLOSED);
    };
    let Engine::World(bounded) = &mut *engine else {
        world.put(engine);
        return ChangeOutcome::of(CLOSED);
    };
    let outcome = begin_in(alloc, bounded, moment, element, pieces);
    world.put(engine);
    outcome
}
