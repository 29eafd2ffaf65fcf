//! The moves of steps, with the names of their elements.
use change_plan::PlanStep;
use keycode::Text;
use schema_version::{Move, NewElement, Schema, Step};
use script_grammar::state_word;
use script_views::push_element;
use script_views::script_session::Opened;
use std::alloc::{AllocError, Global};

/// Adds the elements that enter in a step.
pub(crate) fn push_entered<'a>(
    entered: &mut Vec<&'a NewElement>,
    step: &'a Step,
) -> Result<(), AllocError> {
    for made in step.as_slice() {
        if let Move::Enter { fresh, .. } = made {
            entered.push(fresh)?;
        }
    }
    Ok(())
}

/// The elements that a plan lets enter: their numbers follow those of the version.
pub(crate) fn entered_by<'a>(
    alloc: Global,
    steps: &'a [PlanStep],
) -> Result<Vec<&'a NewElement>, AllocError> {
    let mut found = Vec::new(alloc);
    for step in steps {
        push_entered(&mut found, &step.step)?;
    }
    Ok(found)
}

fn push_fresh(out: &mut String, schema: &Schema, fresh: &NewElement) -> Result<(), AllocError> {
    let table = schema.table_name(fresh.table).unwrap_or("");
    let name = fresh.name.as_str();
    write!(out, "{table}.{name}")
}

// An older version that has the element, if one is at hand: the one before the newest, or that of a
// server's lease. A number names one element for good.
fn older_with(opened: &Opened, number: u32) -> Option<&Schema> {
    let before = opened.world.timeline().newest().saturating_sub(1);
    if let Some(schema) = opened.world.schema(before) {
        if schema.get().element(number).is_some() {
            return Some(schema.get());
        }
    }
    for (_, held) in opened.leases.entries() {
        if held.schema.get().element(number).is_some() {
            return Some(held.schema.get());
        }
    }
    None
}

// The name of an element that has left, if it was kept.
fn gone_name(gone: &[(u32, Text)], number: u32) -> Option<&str> {
    for (left, name) in gone {
        if *left == number {
            return Some(name.as_str());
        }
    }
    None
}

// Adds the name of an element that has left.
fn push_gone(
    out: &mut String,
    opened: &Opened,
    gone: &[(u32, Text)],
    number: u32,
) -> Result<(), AllocError> {
    if let Some(name) = gone_name(gone, number) {
        return out.push_str(name);
    }
    let newest = opened.world.newest().get();
    push_element(out, older_with(opened, number).unwrap_or(newest), number)
}

/// Adds the name of an element of the newest version, of one that enters, or of one that has left
/// since. One that was there at the opening is `element N` if neither `gone` nor a version at hand has it.
/// Refused only when out of memory.
///
/// - `gone`: names of elements that have left, by their numbers.
/// - `entered`: the number of the first that enters, and all that enter.
pub fn push_moved(
    out: &mut String,
    opened: &Opened,
    gone: &[(u32, Text)],
    entered: (u32, &[&NewElement]),
    number: u32,
) -> Result<(), AllocError> {
    let schema = opened.world.newest().get();
    if schema.element(number).is_some() {
        return push_element(out, schema, number);
    }
    let place = number.wrapping_sub(entered.0) as usize;
    match entered.1.get(place) {
        Some(fresh) => push_fresh(out, schema, *fresh),
        None => push_gone(out, opened, gone, number),
    }
}

fn push_move(
    out: &mut String,
    opened: &Opened,
    gone: &[(u32, Text)],
    entered: (u32, &[&NewElement]),
    made: &Move,
) -> Result<(), AllocError> {
    match made {
        Move::Enter { fresh, to } => {
            push_fresh(out, opened.world.newest().get(), fresh)?;
            out.push_str(" ")?;
            out.push_str(state_word(*to))
        }
        Move::Go { element, to } => {
            push_moved(out, opened, gone, entered, *element)?;
            out.push_str(" ")?;
            out.push_str(state_word(*to))
        }
        Move::Turn { element } => {
            push_moved(out, opened, gone, entered, *element)?;
            out.push_str(" dropping")
        }
    }
}

/// Adds the moves of a step in one line.
///
/// - `gone`: names of elements that have left, by their numbers.
/// - `entered`: the number of the first element that enters, and all that enter.
pub(crate) fn push_step(
    out: &mut String,
    opened: &Opened,
    gone: &[(u32, Text)],
    entered: (u32, &[&NewElement]),
    step: &Step,
) -> Result<(), AllocError> {
    for (i, made) in step.as_slice().iter().enumerate() {
        if i > 0 {
            out.push_str(", ")?;
        }
        push_move(out, opened, gone, entered, made)?;
    }
    out.push_str("\n")
}
