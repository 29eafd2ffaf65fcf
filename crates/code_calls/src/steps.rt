//! The steps of a plan, each as a code of its own.
ghost use Rattle.std.specs.Prelude.{◌≡◌, slice_get};
ghost use Rattle.code_calls.specs.Steps.{FindsStep, ShowsStep, ShowsMoves};

use change_plan::PlanStep;
use entry_code::{CodeFault, plan_of, step_bytes};
use handles::{Outcome, lay};
use schema_version::Step;
use std::alloc::Global;
use typed_calls::status::{BAD_CODE, BAD_COUNT, OK, OUT_OF_MEMORY};

// Writes as much of the code of a step as fits.
fn show_moves(alloc: Global, step: &Step, out: &mut [u8]) -> Outcome
    ensures { ShowsMoves step.now out.old result out.new }
{
    let Ok(code) = step_bytes(alloc, step) else {
        return Outcome::refusal(OUT_OF_MEMORY);
    };
    lay(out, code.as_slice());
    Outcome {
        status: OK,
        length: code.len(),
    }
}

// The same of the step of this number.
fn show_step(alloc: Global, steps: &[PlanStep], number: usize, out: &mut [u8]) -> Outcome
    ensures { ShowsStep (slice_get steps.now number) out.old result out.new }
{
    match steps.get(number) {
        Some(planned) => show_moves(alloc, &planned.step, out),
        None => Outcome::refusal(BAD_COUNT),
    }
}

/// Writes as much of the code of a step of a plan to `out` as fits, as `cagzhomul_publish` takes it, and
/// gives its length: so a program need not read the codes of moves to find where a step ends. A
/// refusal leaves `out`.
///
/// - `plan`: the code of a plan, as `cagzhomul_plan` gives it.
/// - `number`: which step, from 0.
///
/// Refused, in this order: `BAD_CODE` if the bytes are the code of no plan; `BAD_COUNT` if it has no
/// step of this number; `OUT_OF_MEMORY`, which may come in place of both.
pub fn plan_step(alloc: Global, plan: &[u8], number: usize, out: &mut [u8]) -> Outcome
    ensures { FindsStep plan.now number out.old result out.new }
{
    match plan_of(alloc, plan) {
        Ok(steps) => show_step(alloc, steps.as_slice(), number, out),
        Err(CodeFault::Memory) => Outcome::refusal(OUT_OF_MEMORY),
        Err(_) => Outcome::refusal(BAD_CODE),
    }
}
