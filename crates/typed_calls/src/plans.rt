//! Least plans, by the codes of their changes and of their steps.
ghost use Rattle.std.specs.Prelude.{◌≡◌};
ghost use Rattle.script_session.specs.State.{facts_of};
ghost use Rattle.typed_calls.specs.Plans.{plan_status, PlansFrom, PlansCode};

use crate::status::{
    BAD_CODE, DEPENDENT, IN_CHANGE, NAME_TAKEN, OUT_OF_MEMORY, OVER_LIMIT, UNKNOWN,
};
use change_plan::{Change, PlanFault, plan as least_plan};
use collections::List;
use entry_code::{CodeFault, changes_of, plan_bytes};
use schema_version::Schema;
use script_session::world::World;
use std::alloc::Global;

// What a batch that cannot be planned is reported as.
fn plan_status(fault: PlanFault) -> i32
    ensures { result ≡ plan_status fault }
{
    match fault {
        PlanFault::Unknown => UNKNOWN,
        PlanFault::NameTaken => NAME_TAKEN,
        PlanFault::StillIndexed => DEPENDENT,
        PlanFault::InChange => IN_CHANGE,
        PlanFault::Limit => OVER_LIMIT,
        PlanFault::Memory => OUT_OF_MEMORY,
    }
}

// The code of the least plan of these changes, from this version.
fn plan_from(alloc: Global, schema: &Schema, changes: &[Change]) -> Result<List<u8>, i32>
    ensures { PlansFrom schema.now changes.now result }
{
    match least_plan(alloc, schema, changes) {
        Ok(plan) => match plan_bytes(alloc, plan.steps.as_slice()) {
            Ok(code) => Ok(List::new(code)),
            Err(_) => Err(OUT_OF_MEMORY),
        },
        Err(fault) => Err(plan_status(fault)),
    }
}

/// The code of the least plan of the changes whose code these bytes are, from this version, or the
/// status of its refusal, as `plan` gives it.
pub fn plan_coded(alloc: Global, schema: &Schema, code: &[u8]) -> Result<List<u8>, i32>
    ensures { PlansCode schema.now code.now result }
{
    match changes_of(alloc, code) {
        Ok(changes) => plan_from(alloc, schema, changes.as_slice()),
        Err(CodeFault::Memory) => Err(OUT_OF_MEMORY),
        Err(_) => Err(BAD_CODE),
    }
}

/// The code of the least plan of a batch of changes, from the newest version of a world. Nothing
/// changes.
///
/// - `code`: what `entry_code::changes_bytes` gives for the batch. The plan comes as
///   `entry_code::plan_bytes` gives its steps.
///
/// Refused, in this order: `BAD_CODE` if the bytes are the code of no batch, or of one with a default
/// of more than 1,024 bytes; then as `change_plan::plan` refuses the first change that cannot be
/// planned: `UNKNOWN`, `NAME_TAKEN`, `DEPENDENT` if an index lists the column, `IN_CHANGE`,
/// `OVER_LIMIT`; `OUT_OF_MEMORY`, which may come in place of any.
pub fn plan(alloc: Global, world: &World, code: &[u8]) -> Result<List<u8>, i32>
    ensures { PlansCode (facts_of world.now).newest code.now result }
{
    plan_coded(alloc, world.newest().get(), code)
}
