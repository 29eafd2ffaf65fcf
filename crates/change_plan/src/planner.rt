//! From a batch of changes to its least plan.
ghost use Rattle.std.specs.Prelude.{◌≡◌, ◌+◌, ◌≤◌, ◌⊎◌, IfOk, IfErr, OnOk, count_by};
ghost use Rattle.schema_version.specs.Names.{max_elements};
ghost use Rattle.change_plan.specs.declared.fault.PlanFault.TheVariants.{Memory};
ghost use Rattle.change_plan.specs.Plans.{IsLeast};
ghost use Rattle.change_plan.specs.Refusals.{IsPlannable, IsRefused, is_addition as is_addition_of};
ghost use Rattle.change_plan.specs.Schedule.{planned_steps};

use crate::change::Change;
use crate::check::check_batch;
use crate::fault::PlanFault;
use crate::least_plan::{LeastPlan, PlanStep};
use crate::numbers::schedules_of;
use crate::steps::steps_of;
use collections::List;
use schema_version::Schema;
use std::alloc::{AllocError, Global};

// Whether the batch can be planned.
fn check(schema: &Schema, next: u32, changes: &[Change]) -> Result<(), PlanFault>
    requires { next ≡ schema.now.next }
    ensures clear { OnOk result (IsPlannable schema.now changes.now) }
    ensures refused { IfErr result (λ f. IsRefused schema.now changes.now f) }
    ensures room { OnOk result (schema.now.next + count_by is_addition_of changes.now ≤ max_elements + 1) }
{
    schema.lemma_known();
    check_batch(schema, next, changes)
}

// The steps of the batch's schedule.
fn make_steps(
    alloc: Global,
    schema: &Schema,
    next: u32,
    changes: &[Change],
) -> Result<Vec<PlanStep>, AllocError>
    requires is_next { next ≡ schema.now.next }
    requires room { next + count_by is_addition_of changes.now ≤ max_elements + 1 }
    ensures { IfOk result (λ steps. steps.items ≡ planned_steps schema.now changes.now) }
{
    let schedules = schedules_of(alloc, schema, next, changes)?;
    steps_of(alloc, &schedules)
}

// The plan, if `next` is the schema's next free number of an element.
fn plan_from(
    alloc: Global,
    schema: &Schema,
    next: u32,
    changes: &[Change],
) -> Result<LeastPlan, PlanFault>
    requires is_next { next ≡ schema.now.next }
    ensures planned_steps { IfOk result (λ p. p.steps ≡ planned_steps schema.now changes.now) }
    ensures least { IfOk result (λ p. IsLeast schema.now changes.now p.steps) }
    ensures clear { OnOk result (IsPlannable schema.now changes.now) }
    ensures refused { IfErr result (λ f. ((f ≡ Memory) × IsPlannable schema.now changes.now) ⊎ IsRefused schema.now changes.now f) }
{
    schema.lemma_known();
    check(schema, next, changes)?;
    let steps = make_steps(alloc, schema, next, changes)?;
    Ok(LeastPlan {
        steps: List::new(steps),
    })
}

/// The least plan of a batch: steps that may be taken one after another, each after the
/// reorganisations that must end before it, at whose end the batch's changes have been made. No
/// plan that does so has fewer steps. A batch with no changes has a plan with no steps.
///
/// - `schema`: the version from which the plan starts.
/// - `changes`: the batch, which is brought about as one. What it abandons turns back in the first
///   step, before which nothing of it needs to end.
///
/// The changes are tried in order, each against the schema and the whole batch. The first faulty
/// one decides by its lowest fault, in the order of `PlanFault`. Memory comes last: all is tried
/// before the first growth. Nothing is changed by a refusal. Whether memory is short is the
/// allocator's word, so no contract can refuse a body that says so of each batch; the tests do.
///
/// After the schema changes of "Online, Asynchronous Schema Change in F1" (Rae et al., 2013).
pub fn plan(alloc: Global, schema: &Schema, changes: &[Change]) -> Result<LeastPlan, PlanFault>
    ensures planned_steps { IfOk result (λ p. p.steps ≡ planned_steps schema.now changes.now) }
    ensures least { IfOk result (λ p. IsLeast schema.now changes.now p.steps) }
    ensures clear { OnOk result (IsPlannable schema.now changes.now) }
    ensures refused { IfErr result (λ f. ((f ≡ Memory) × IsPlannable schema.now changes.now) ⊎ IsRefused schema.now changes.now f) }
{
    plan_from(alloc, schema, schema.next_number(), changes)
}
