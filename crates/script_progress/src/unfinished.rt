//! What is being added or dropped, and what is left of the plan.
use crate::describe::push_standing;
use crate::moves::{push_entered, push_step};
use crate::waiting::{Waiting, push_waiting, waiting_of};
use schema_version::{ElementDef, Move, NewElement, Schema, Step, Way};
use script_views::push_element;
use script_views::script_session::Opened;
use script_views::world::World;
use std::alloc::{AllocError, Global};

/// How many places a bar has.
const PLACES: usize = 20;

/// Whether an element is neither being added nor dropped.
pub fn is_resting(element: &ElementDef) -> bool {
    element.state.is_public() && matches!(element.way, Way::Adding)
}

// Adds a bar of how far the begun reorganisation of an element has come, by its rows or, if there
// are none to go over, by its pieces; nothing if none is begun.
fn push_bar(out: &mut String, world: &World, element: &ElementDef) -> Result<(), AllocError> {
    let Waiting::End(begun) = waiting_of(world, element) else {
        return Ok(());
    };
    let (passed, all) = match begun.rows {
        Some((passed, all)) if all > 0 => (passed, all),
        _ => (begun.ended as usize, begun.pieces),
    };
    let full = passed.saturating_mul(PLACES) / all.max(1);
    out.push_str("  [")?;
    for place in 0..PLACES {
        out.push_str(if place < full { "#" } else { "." })?;
    }
    out.push_str("]")
}

fn push_element_line(
    out: &mut String,
    world: &World,
    element: &ElementDef,
    is_shown: bool,
) -> Result<(), AllocError> {
    push_element(out, world.newest().get(), element.number)?;
    out.push_str("  ")?;
    push_standing(out, element)?;
    out.push_str("  ")?;
    push_waiting(out, world, element)?;
    if is_shown {
        push_bar(out, world, element)?;
    }
    out.push_str("\n")
}

/// Each element in progress, with its state, its way and what it waits for. Refused only when out
/// of memory.
///
/// - `opened`: the world.
/// - `is_shown`: whether someone sees it on a terminal: with a bar for what is begun then.
pub fn progress(alloc: Global, opened: &Opened, is_shown: bool) -> Result<String, AllocError> {
    let mut out = String::new(alloc);
    for element in opened.world.newest().get().elements() {
        if !is_resting(element) {
            push_element_line(&mut out, &opened.world, element, is_shown)?;
        }
    }
    if out.is_empty() {
        out.push_str("nothing is being added or dropped")?;
    }
    Ok(out)
}

// The elements that the plan lets enter: their numbers follow those of the version.
fn entered<'a>(alloc: Global, plan: &'a [Step]) -> Result<Vec<&'a NewElement>, AllocError> {
    let mut found = Vec::new(alloc);
    for step in plan {
        push_entered(&mut found, step)?;
    }
    Ok(found)
}

// Whether a reorganisation of an element has to end before its state may change.
fn wants_work(world: &World, number: u32) -> bool {
    match world.newest().get().element(number) {
        Some(element) if !is_resting(element) => {
            !matches!(waiting_of(world, element), Waiting::Publication(_))
        }
        _ => false,
    }
}

// Whether the next step of the kept plan needs a fill or a clear that has not ended.
fn needs_work(opened: &Opened) -> bool {
    match opened.plan.as_slice() {
        [next, ..] => next.as_slice().iter().any(|made| match made {
            Move::Go { element, .. } => wants_work(&opened.world, *element),
            Move::Enter { .. } | Move::Turn { .. } => false,
        }),
        [] => false,
    }
}

/// The steps that are left of the kept plan, the next one first. Refused only when out of memory.
///
/// - `opened`: the plan, and the world.
pub fn plan_left(alloc: Global, opened: &Opened) -> Result<String, AllocError> {
    let mut out = String::new(alloc);
    let schema = opened.world.newest().get();
    let earliest = opened.world.timeline().earliest();
    let entered = entered(alloc, opened.plan.as_slice())?;
    for step in opened.plan.as_slice() {
        let entered = (schema.next_number(), entered.as_slice());
        push_step(&mut out, opened, &[], entered, step)?;
    }
    if out.is_empty() {
        return "no step of a plan is left".to_string(alloc);
    }
    write!(
        out,
        "next publishes the first of them, from moment {earliest} on"
    )?;
    if needs_work(opened) {
        out.push_str(", once each fill and clear that it needs has ended")?;
    }
    Ok(out)
}

// Whether an element that is being added or dropped is moved on by a step.
fn is_under_way(schema: &Schema, step: &Step) -> bool {
    step.as_slice().iter().any(|made| match made {
        Move::Enter { .. } => false,
        Move::Go { element, .. } | Move::Turn { element } => match schema.element(*element) {
            Some(element) => !is_resting(element),
            None => false,
        },
    })
}

/// That the kept plan is dropped, how many steps are left of it, and what makes one again; empty if there is none, or if what
/// its next step moves is under way. Refused only when out of memory.
///
/// - `opened`: the plan, and the world.
pub fn plan_dropped(alloc: Global, opened: &Opened) -> Result<String, AllocError> {
    let plan = opened.plan.as_slice();
    let Some(next) = plan.first() else {
        return Ok(String::new(alloc));
    };
    if is_under_way(opened.world.newest().get(), next) {
        return Ok(String::new(alloc));
    }
    let steps = plan.len();
    let are = if steps == 1 { "step is" } else { "steps are" };
    format!(in alloc;
        "the plan is dropped, of which {steps} {are} left: `plan: ..` makes one again"
    )
}
