//! The lines of a plan, each in the version that the steps before it give.
ghost use Rattle.std.specs.Prelude.{◌≡◌, ◌++◌, IfOk, OnOk, string_bytes};
ghost use Rattle.schema_version.specs.Moves.{IsAllowed, after_step};
ghost use Rattle.change_plan.specs.Plans.{AreAllowed};
ghost use Rattle.script_replies.specs.PlanLines.{step_line, plan_lines};

use crate::plan_items::join_items;
use change_plan::PlanStep;
use schema_version::{Schema, Step, StepFault};
use std::alloc::{AllocError, Global};

fn push_line(
    alloc: Global,
    out: &mut String,
    schema: &Schema,
    number: u64,
    step: &PlanStep,
) -> Result<(), AllocError>
    ensures { OnOk result (string_bytes out.new ≡ string_bytes out.old ++ step_line schema.now number step.now) }
{
    let items = join_items(alloc, schema, step)?;
    write!(out, "step {number}: {items}\n")
}

// The version that an allowed step gives: no fault but out of memory can come of it.
fn after(schema: &Schema, step: &Step) -> Result<Schema, AllocError>
    requires { IsAllowed schema.now step.now }
    ensures { IfOk result (λ next. next ≡ after_step schema.now step.now) }
{
    match schema.apply(step) {
        Ok(next) => Ok(next),
        Err(StepFault::Memory) => Err(AllocError),
        Err(_) => unreachable!(),
    }
}

// The lines of the steps after the first, which gave this version.
fn push_later(
    alloc: Global,
    out: &mut String,
    mut version: Schema,
    steps: &[PlanStep],
) -> Result<(), AllocError>
    requires { AreAllowed version steps.now }
    ensures { OnOk result (string_bytes out.new ≡ string_bytes out.old ++ plan_lines version 2 steps.now) }
{
    let mut number: u64 = 2;
    for step in steps {
        push_line(alloc, out, &version, number, step)?;
        version = after(&version, &step.step)?;
        number += 1;
    }
    Ok(())
}

/// The steps of a plan, a line each, numbered from 1: `step 3: fill t.i, t.i public`. In a line
/// stand first the fills and the clears that must end before the step, and then its moves, each in
/// its order: a table's name, a dot, the element's name, and of a move the state that it leads to,
/// or `dropping` if it turns. No step is the empty text.
///
/// - `schema`: the version from which the plan starts.
/// - `steps`: the plan, each of whose steps is allowed after those before it. Elements are named as
///   the version has them that the steps before give.
///
/// Refused only when out of memory, and nothing is left then.
///
/// After the schema changes of "Online, Asynchronous Schema Change in F1" (Rae et al., 2013).
pub(crate) fn plan_text(
    alloc: Global,
    schema: &Schema,
    steps: &[PlanStep],
) -> Result<String, AllocError>
    requires allowed { AreAllowed schema.now steps.now }
    ensures { IfOk result (λ text. string_bytes text ≡ plan_lines schema.now 1 steps.now) }
{
    let mut text = String::new(alloc);
    if let [first, rest @ ..] = steps {
        push_line(alloc, &mut text, schema, 1, first)?;
        let version = after(schema, &first.step)?;
        push_later(alloc, &mut text, version, rest)?;
    }
    Ok(text)
}
