//! Least plans, whose code is written to the caller's bytes.
ghost use Rattle.std.specs.Prelude.{◌≡◌};
ghost use Rattle.operator_calls.specs.Plans.{PlansOf, Plans};

use handles::typed_calls::status::{CLOSED, OK};
use handles::world::World;
use handles::{Engine, Handle, Outcome, lay, typed_calls};
use std::alloc::Global;

// Writes as much of the code of a batch's plan as fits.
fn show_plan(alloc: Global, world: &World, changes: &[u8], out: &mut [u8]) -> Outcome
    ensures { PlansOf world.now changes.now out.old result out.new }
{
    match typed_calls::plan(alloc, world, changes) {
        Ok(code) => {
            lay(out, code.as_slice());
            Outcome {
                status: OK,
                length: code.as_slice().len(),
            }
        }
        Err(status) => Outcome::refusal(status),
    }
}

/// Writes the code of the least plan of a batch of changes, by their code, from the newest version
/// of a world to `out`, and as much of it as fits. `OK`, with the length of the whole code; else
/// `CLOSED`, `BAD_CODE`, `UNKNOWN`, `NAME_TAKEN`, `DEPENDENT`, `IN_CHANGE`, `OVER_LIMIT`, or
/// `OUT_OF_MEMORY`, which may come in place of `BAD_CODE` and those after it. Nothing else changes.
pub fn plan(alloc: Global, world: &mut Handle, changes: &[u8], out: &mut [u8]) -> Outcome
    ensures plans { Plans world.old.place.value changes.now out.old result out.new }
    ensures same { world.new.place.value ≡ world.old.place.value }
{
    let Some(engine) = world.take(alloc) else {
        return Outcome::refusal(CLOSED);
    };
    let Engine::World(bounded) = &*engine else {
        world.put(engine);
        return Outcome::refusal(CLOSED);
    };
    let outcome = show_plan(alloc, &bounded.world, changes, out);
    world.put(engine);
    outcome
}
