//! A plan of changes.
ghost use Rattle.std.specs.Prelude.{◌≡◌, ◌++◌, IfOk, OnOk, string_bytes};
ghost use Rattle.change_plan.specs.Plans.{AreAllowed};
ghost use Rattle.script_replies.specs.Plans.{plan_name, steps_text};
ghost use Rattle.script_replies.specs.Texts.{line, refused};

use crate::numbers::push_numbered;
use crate::plan_lines::plan_text;
use change_plan::{PlanFault, PlanStep};
use schema_version::Schema;
use std::alloc::{AllocError, Global};

fn push_plan(out: &mut String, fault: PlanFault) -> Result<(), AllocError>
    ensures { OnOk result (string_bytes out.new ≡ string_bytes out.old ++ plan_name fault) }
{
    match fault {
        PlanFault::Unknown => out.push_str("Unknown"),
        PlanFault::NameTaken => out.push_str("NameTaken"),
        PlanFault::StillIndexed => out.push_str("StillIndexed"),
        PlanFault::InChange => out.push_str("InChange"),
        PlanFault::Limit => out.push_str("Limit"),
        PlanFault::Memory => out.push_str("Memory"),
    }
}

/// The reply if changes have no plan: `refused InChange`.
///
/// - `fault`: why there is none.
pub fn unplanned_line(alloc: Global, fault: PlanFault) -> Result<String, AllocError>
    ensures { IfOk result (λ text. string_bytes text ≡ line (refused (plan_name fault))) }
{
    let mut text = String::new(alloc);
    text.push_str("refused ")?;
    push_plan(&mut text, fault)?;
    text.push_str("\n")?;
    Ok(text)
}

/// A plan: a line for each step, as `plan_text` has it, and then `ok plan STEPS`.
///
/// - `schema`: the version from which the plan starts.
/// - `steps`: the plan, each of whose steps is allowed after those before it.
pub fn steps_text(alloc: Global, schema: &Schema, steps: &[PlanStep]) -> Result<String, AllocError>
    requires allowed { AreAllowed schema.now steps.now }
    ensures { IfOk result (λ text. string_bytes text ≡ steps_text schema.now steps.now) }
{
    let mut text = plan_text(alloc, schema, steps)?;
    push_numbered(&mut text, "ok plan ", steps.len() as u64)?;
    Ok(text)
}
