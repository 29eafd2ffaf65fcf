//! The plan that a script keeps, and its steps.
ghost use Rattle.std.specs.Prelude.{◌≡◌, IfOk, string_bytes};
ghost use mathlib.Core.List.{map as each};
ghost use Rattle.script_grammar.specs.declared.command.Command.TheVariants as command;
ghost use Rattle.script_session.specs.Plan.{left_of};
ghost use Rattle.script_session.specs.Answer.{Answers};
ghost use Rattle.script_session.specs.declared.session.Session.TheVariants.{Running};

use crate::session::{Answer, Opened, refusal, reply};
use change_plan::{PlanStep, plan as least_plan};
use collections::List;
use schema_version::Step;
use script_grammar::NamedChange;
use script_names::changes_of;
use script_replies::world::{PublishFault, Receipt};
use script_replies::{published_line, steps_text, unplanned_line};
use std::alloc::{AllocError, Global};

fn moves_of(alloc: Global, steps: Vec<PlanStep>) -> Result<Vec<Step>, AllocError>
    ensures { IfOk result (λ moves. moves.items ≡ each (λ s. s.step) steps.items) }
{
    let mut moves = Vec::new(alloc);
    for step in steps {
        moves.push(step.step)?;
    }
    Ok(moves)
}

/// `plan`: the least plan of the changes, from the newest version, is printed and kept.
pub(crate) fn plan(
    alloc: Global,
    opened: &mut Opened,
    changes: List<NamedChange>,
) -> Result<Answer, AllocError>
    ensures { IfOk result (λ a. Answers opened.old (command.Plan changes) (string_bytes a.text) a.is_bad (Running opened.new)) }
{
    let schema = opened.world.newest().get();
    let changes = changes_of(alloc, schema, changes)?;
    match least_plan(alloc, schema, changes.as_slice()) {
        Ok(found) => {
            let text = steps_text(alloc, schema, found.steps.as_slice())?;
            let moves = moves_of(alloc, found.steps.into_vec())?;
            opened.plan = List::new(moves);
            Ok(reply(text))
        }
        Err(fault) => {
            let text = unplanned_line(alloc, fault)?;
            Ok(reply(text))
        }
    }
}

// What is left of a plan: a step that was published is taken off.
fn left_of(plan: List<Step>, published: &Result<(u64, Receipt), PublishFault>) -> List<Step>
    ensures { result ≡ left_of plan published.now }
{
    let mut steps = plan.into_vec();
    if published.is_ok() && !steps.is_empty() {
        steps.remove(0);
    }
    List::new(steps)
}

/// `next`: the first step of the kept plan that was not accepted yet is published.
pub(crate) fn next(alloc: Global, opened: &mut Opened, moment: u64) -> Result<Answer, AllocError>
    ensures { IfOk result (λ a. Answers opened.old (command.Next moment) (string_bytes a.text) a.is_bad (Running opened.new)) }
{
    let [step, ..] = opened.plan.as_slice() else {
        return refusal(alloc, "NoPlan");
    };
    let published = opened.world.publish(alloc, moment, step);
    let answer = reply(published_line(alloc, &published)?);
    let plan = std::mem::replace(&mut opened.plan, List::new(Vec::new(alloc)));
    opened.plan = left_of(plan, &published);
    Ok(answer)
}
