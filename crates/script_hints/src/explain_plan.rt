//! The steps that a plan would have.
use crate::refused::{refusal_hint, refusal_of};
use change_plan::{PlanFault, plan};
use collections::List;
use script_grammar::{Command, NamedChange, read_command};
use script_progress::push_reads;
use script_progress::script_names::changes_of;
use script_progress::script_replies::{steps_text, unplanned_line};
use script_progress::script_session::Opened;
use std::alloc::{AllocError, Global};

// When each of so many steps may be published at the earliest.
fn push_moments(out: &mut String, opened: &Opened, steps: usize) -> Result<(), AllocError> {
    let timeline = opened.world.timeline();
    let mut moment = timeline.earliest();
    out.push_str("the steps may be published from these moments on:")?;
    for _step in 0..steps {
        write!(out, " {moment}")?;
        moment = moment.saturating_add(timeline.length());
    }
    Ok(())
}

// What the hint on a refused plan says.
fn plan_hint(
    alloc: Global,
    opened: &Opened,
    line: &str,
    reply: &str,
) -> Result<String, AllocError> {
    let words = reply.strip_prefix("refused ").unwrap_or("");
    let refusal = refusal_of(words.trim_end());
    let read = read_command(alloc, line.as_bytes());
    let hint = match &read {
        Ok(command) => refusal_hint(alloc, opened, command, refusal),
        Err(_) => Ok(String::new(alloc)),
    };
    drop(read);
    hint
}

// The refusal of a plan, and on a line of its own what the hint on it says.
fn refused_text(
    alloc: Global,
    opened: &Opened,
    line: &str,
    fault: PlanFault,
) -> Result<String, AllocError> {
    let mut out = unplanned_line(alloc, fault)?;
    let hint = plan_hint(alloc, opened, line, out.as_str())?;
    out.push_str(hint.as_str())?;
    Ok(out)
}

// The plan of these changes; or else its refusal.
fn plan_text(
    alloc: Global,
    opened: &Opened,
    line: &str,
    changes: List<NamedChange>,
) -> Result<String, AllocError> {
    let schema = opened.world.newest().get();
    let found = changes_of(alloc, schema, changes)?;
    match plan(alloc, schema, found.as_slice()) {
        Ok(found) => {
            let mut out = steps_text(alloc, schema, found.steps.as_slice())?;
            push_moments(&mut out, opened, found.steps.as_slice().len())?;
            push_reads(alloc, &mut out, opened, found.steps.as_slice())?;
            Ok(out)
        }
        Err(fault) => refused_text(alloc, opened, line, fault),
    }
}

// The changes that a line `plan: ..` names.
fn changes_in(alloc: Global, line: &str) -> Option<List<NamedChange>> {
    match read_command(alloc, line.as_bytes()) {
        Ok(Command::Plan { changes }) => Some(changes),
        _ => None,
    }
}

/// The steps of a plan, the moments from which each may be published, and what its fills would
/// read, if that is known; or its refusal with the hint on it. The kept plan stays. Refused only
/// when out of memory.
///
/// - `opened`: the world.
/// - `line`: the line `plan: ..`.
pub(crate) fn plan_explanation(
    alloc: Global,
    opened: &Opened,
    line: &str,
) -> Result<String, AllocError> {
    match changes_in(alloc, line) {
        Some(changes) => plan_text(alloc, opened, line, changes),
        None => "explain plan: add index i on people (town)".to_string(alloc),
    }
}
