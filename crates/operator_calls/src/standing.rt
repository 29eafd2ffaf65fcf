//! How far a begun reorganisation is, and how a world stands.
ghost use Rattle.std.specs.Prelude.{◌≡◌, false};
ghost use Rattle.handles.specs.Progress.{reached_at};
ghost use Rattle.operator_calls.specs.Standing.{progress_outcome, Progresses, ShowsStatusOf, ShowsStatus};

use handles::typed_calls::Reached;
use handles::typed_calls::status::{CLOSED, OK};
use handles::world::World;
use handles::{Engine, Handle, Outcome, lay, typed_calls};
use std::alloc::Global;

/// How far a begun reorganisation is.
#[repr(C)]
#[derive(Clone, Copy, Drop)]
pub struct ProgressOutcome {
    /// The status. The other fields are 0 and false if it is not `OK`.
    pub status: i32,
    /// Whether all its pieces have ended.
    pub ended: bool,
    /// The number of the first piece that has not ended; 0 if all have.
    pub next: u32,
    /// How many items are left, of those that are present.
    pub left: u64,
    /// How many items there are, of those that are present.
    pub all: u64,
}

impl ProgressOutcome {
    /// A status alone.
    pub(crate) fn of(status: i32) -> ProgressOutcome
        ensures { result ≡ record { status = status; ended = false; next = 0; left = 0; all = 0 } }
    {
        ProgressOutcome {
            status,
            ended: false,
            next: 0,
            left: 0,
            all: 0,
        }
    }

    // What a progress, or its refusal, is reported as.
    fn reported(answer: &Result<Reached, i32>) -> ProgressOutcome
        ensures { result ≡ progress_outcome answer.now }
    {
        match answer {
            Ok(reached) => ProgressOutcome {
                status: OK,
                ended: reached.ended,
                next: reached.next,
                left: reached.left as u64,
                all: reached.all as u64,
            },
            Err(status) => ProgressOutcome::of(*status),
        }
    }
}

// How far the begun reorganisation of an element is, in the world.
fn progress_of(world: &World, element: u32) -> ProgressOutcome
    ensures { result ≡ progress_outcome (reached_at world.now element) }
{
    ProgressOutcome::reported(&typed_calls::progress(world, element))
}

// Writes as much as fits of the line that tells how the world stands.
fn show_status(alloc: Global, world: &World, out: &mut [u8]) -> Outcome
    ensures { ShowsStatusOf world.now out.old result out.new }
{
    match typed_calls::status_line(alloc, world) {
        Ok(line) => {
            lay(out, line.as_str().as_bytes());
            Outcome {
                status: OK,
                length: line.len(),
            }
        }
        Err(status) => Outcome::refusal(status),
    }
}

/// How far the begun reorganisation of an element is, in a world. `OK`; else `CLOSED`, or
/// `NOT_WANTED` if none has begun or it is over. Nothing changes.
pub fn progress(alloc: Global, world: &mut Handle, element: u32) -> ProgressOutcome
    ensures progresses { Progresses world.old.place.value element result }
    ensures same { world.new.place.value ≡ world.old.place.value }
{
    let Some(engine) = world.take(alloc) else {
        return ProgressOutcome::of(CLOSED);
    };
    let Engine::World(bounded) = &*engine else {
        world.put(engine);
        return ProgressOutcome::of(CLOSED);
    };
    let outcome = progress_of(&bounded.world, element);
    world.put(engine);
    outcome
}

/// Writes how a world stands to `out`, as one line of JSON without a line end, as
/// `script_replies::status_line` describes it, and as much of it as fits. `OK`, with the length of
/// the whole line; else `CLOSED` or `OUT_OF_MEMORY`. Nothing else changes.
pub fn status(alloc: Global, world: &mut Handle, out: &mut [u8]) -> Outcome
    ensures shows { ShowsStatus world.old.place.value out.old result out.new }
    ensures same { world.new.place.value ≡ world.old.place.value }
{
    let Some(engine) = world.take(alloc) else {
        return Outcome::refusal(CLOSED);
    };
    let Engine::World(bounded) = &*engine else {
        world.put(engine);
        return Outcome::refusal(CLOSED);
    };
    let outcome = show_status(alloc, &bounded.world, out);
    world.put(engine);
    outcome
}
