//! Schema changes: the publication of a step, and the begin of a reorganisation.
ghost use Rattle.std.specs.Prelude.{◌≡◌};
ghost use Rattle.typed_calls.specs.Changes.{step_refusal, publish_refusal, begin_refusal, PublishesStep, PublishesWorld, PublishesIn, BeginsWorld, BeginsIn};

use crate::bounded::BoundedWorld;
use crate::status::{
    BAD_CODE, BAD_COUNT, BEGUN, DEPENDENT, MOMENT_TOO_LARGE, NAME_TAKEN, NOT_ADJACENT, NOT_WANTED,
    OUT_OF_MEMORY, OVER_LIMIT, STILL_USED, TOO_EARLY, TOO_FAR, UNFINISHED, UNKNOWN, VERSIONS_SPENT,
    WRONG_WAY,
};
use entry_code::{CodeFault, step_of};
use schema_version::{Step, StepFault};
use script_session::world::{BeginFault, PublishFault, World};
use std::alloc::Global;

/// Why a change was refused: a status, and its number.
#[derive(Clone, Copy, Drop)]
pub struct ChangeRefusal {
    /// The status.
    pub status: i32,
    /// At `DEPENDENT` and `UNFINISHED` the element, at `TOO_EARLY` and `STILL_USED` the first
    /// moment at which the call is not refused so; else 0.
    pub number: u64,
}

impl ChangeRefusal {
    // A status without a number.
    fn of(status: i32) -> ChangeRefusal
        ensures { result ≡ record { status = status; number = 0 } }
    {
        ChangeRefusal { status, number: 0 }
    }
}

/// What a step that is not allowed is reported as.
pub fn step_refusal(fault: StepFault) -> ChangeRefusal
    ensures { result ≡ step_refusal fault }
{
    match fault {
        StepFault::Unknown => ChangeRefusal::of(UNKNOWN),
        StepFault::NotAdjacent => ChangeRefusal::of(NOT_ADJACENT),
        StepFault::WrongWay => ChangeRefusal::of(WRONG_WAY),
        StepFault::Dependent { on } => ChangeRefusal {
            status: DEPENDENT,
            number: u64::from(on),
        },
        StepFault::NameTaken => ChangeRefusal::of(NAME_TAKEN),
        StepFault::Limit => ChangeRefusal::of(OVER_LIMIT),
        StepFault::Memory => ChangeRefusal::of(OUT_OF_MEMORY),
    }
}

// What a refused publication is reported as.
fn publish_refusal(fault: PublishFault) -> ChangeRefusal
    ensures { result ≡ publish_refusal fault }
{
    match fault {
        PublishFault::MomentTooLarge => ChangeRefusal::of(MOMENT_TOO_LARGE),
        PublishFault::TooEarly { earliest } => ChangeRefusal {
            status: TOO_EARLY,
            number: earliest,
        },
        PublishFault::Step(fault) => step_refusal(fault),
        PublishFault::Unfinished { element } => ChangeRefusal {
            status: UNFINISHED,
            number: u64::from(element),
        },
        PublishFault::VersionsSpent => ChangeRefusal::of(VERSIONS_SPENT),
        PublishFault::Memory => ChangeRefusal::of(OUT_OF_MEMORY),
    }
}

// Publishes this step in the world.
fn publish_step(
    alloc: Global,
    world: &mut World,
    moment: u64,
    step: &Step,
) -> Result<u64, ChangeRefusal>
    ensures { PublishesStep world.old moment step.now result world.new }
{
    match world.publish(alloc, moment, step) {
        Ok((version, _)) => Ok(version),
        Err(fault) => Err(publish_refusal(fault)),
    }
}

// Publishes the step whose code these bytes are in the world.
fn publish_to(
    alloc: Global,
    world: &mut World,
    moment: u64,
    code: &[u8],
) -> Result<u64, ChangeRefusal>
    ensures { PublishesWorld world.old moment code.now result world.new }
{
    match step_of(alloc, code) {
        Ok(step) => publish_step(alloc, world, moment, &step),
        Err(CodeFault::Memory) => Err(ChangeRefusal::of(OUT_OF_MEMORY)),
        Err(_) => Err(ChangeRefusal::of(BAD_CODE)),
    }
}

/// Publishes the version that a step gives, in a world, and gives its number.
///
/// - `moment`: the present moment. The one that counts is the greater of it and the moment of the
///   last entry.
/// - `code`: what `entry_code::step_bytes` gives for the step.
///
/// Refused, in this order, and then nothing changes: `TOO_FAR`; `BAD_CODE` if the bytes are the
/// code of no step; then as `World::publish` refuses:
/// `MOMENT_TOO_LARGE`, `TOO_EARLY` with the first moment, the step's own `UNKNOWN`, `NOT_ADJACENT`,
/// `WRONG_WAY`, `DEPENDENT` with the element, `NAME_TAKEN` and `OVER_LIMIT`, `UNFINISHED` with the
/// element, `VERSIONS_SPENT`; `OUT_OF_MEMORY`, which may come in place of any but `TOO_FAR`.
pub fn publish(
    alloc: Global,
    bounded: &mut BoundedWorld,
    moment: u64,
    code: &[u8],
) -> Result<u64, ChangeRefusal>
    ensures { PublishesIn bounded.old moment code.now result bounded.new }
{
    if bounded.is_too_far(moment) {
        return Err(ChangeRefusal::of(TOO_FAR));
    }
    publish_to(alloc, &mut bounded.world, moment, code)
}

// What a refused begin is reported as.
fn begin_refusal(fault: BeginFault) -> ChangeRefusal
    ensures { result ≡ begin_refusal fault }
{
    match fault {
        BeginFault::MomentTooLarge => ChangeRefusal::of(MOMENT_TOO_LARGE),
        BeginFault::NotWanted => ChangeRefusal::of(NOT_WANTED),
        BeginFault::StillUsed { until } => ChangeRefusal {
            status: STILL_USED,
            number: until,
        },
        BeginFault::Begun => ChangeRefusal::of(BEGUN),
        BeginFault::BadCount => ChangeRefusal::of(BAD_COUNT),
        BeginFault::Memory => ChangeRefusal::of(OUT_OF_MEMORY),
    }
}

// Begins a reorganisation in the world.
fn begin_in(
    alloc: Global,
    world: &mut World,
    moment: u64,
    element: u32,
    pieces: u32,
) -> Result<u64, ChangeRefusal>
    ensures { BeginsWorld world.old moment element pieces result world.new }
{
    match world.begin_reorg(alloc, moment, element, pieces) {
        Ok(receipt) => Ok(receipt.place),
        Err(fault) => Err(begin_refusal(fault)),
    }
}

/// Begins the fill or the clear that an element wants, in so many pieces, in a world, and gives the
/// place of its entry.
///
/// - `moment`: the present moment. The one that counts is the greater of it and the moment of the
///   last entry.
/// - `element`: the number of the element.
/// - `pieces`: how many, 1 to 64.
///
/// Refused, in this order, and then nothing changes: `TOO_FAR`; then as `World::begin_reorg` refuses: `MOMENT_TOO_LARGE`, `NOT_WANTED`, `STILL_USED` with the
/// first moment, `BEGUN`, `BAD_COUNT`; `OUT_OF_MEMORY`.
pub fn begin_reorg(
    alloc: Global,
    bounded: &mut BoundedWorld,
    moment: u64,
    element: u32,
    pieces: u32,
) -> Result<u64, ChangeRefusal>
    ensures { BeginsIn bounded.old moment element pieces result bounded.new }
{
    if bounded.is_too_far(moment) {
        return Err(ChangeRefusal::of(TOO_FAR));
    }
    begin_in(alloc, &mut bounded.world, moment, element, pieces)
}
