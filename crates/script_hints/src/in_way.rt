//! The unfinished change that is in the way of a plan, or that a plan leaves as it is.
use keycode::Text;
use schema_version::{ElementDef, Schema, moves_element};
use script_grammar::{Command, NamedChange, New};
use script_progress::script_session::Opened;
use script_progress::script_views::push_element;
use script_progress::{is_resting, push_standing, push_waiting};
use std::alloc::{AllocError, Global};

// The element of this name, if it is being added or dropped.
fn unfinished<'a>(schema: &'a Schema, table: &Text, name: &Text) -> Option<&'a ElementDef> {
    let number = schema.table(table.as_str())?;
    let element = schema.by_name(number, name.as_str())?;
    if is_resting(element) {
        None
    } else {
        Some(element)
    }
}

fn unfinished_column<'a>(
    schema: &'a Schema,
    table: &Text,
    columns: &[Text],
) -> Option<&'a ElementDef> {
    for column in columns {
        let found = unfinished(schema, table, column);
        if found.is_some() {
            return found;
        }
    }
    None
}

// An index on the column, if one is being added or dropped.
fn unfinished_index<'a>(schema: &'a Schema, table: &Text, column: &Text) -> Option<&'a ElementDef> {
    let table = schema.table(table.as_str())?;
    let column = schema.by_name(table, column.as_str())?.number;
    for element in schema.elements() {
        let mut columns = element.kind.indexed_columns().iter();
        if !is_resting(element) && columns.any(|number| *number == column) {
            return Some(element);
        }
    }
    None
}

fn in_way_of<'a>(schema: &'a Schema, change: &NamedChange) -> Option<&'a ElementDef> {
    match change {
        NamedChange::Add(
            New::Index {
                name,
                table,
                columns,
            },
        ) => match unfinished(schema, table, name) {
            Some(element) => Some(element),
            None => unfinished_column(schema, table, columns.as_slice()),
        },
        NamedChange::Add(New::Column { name, table, .. }) => unfinished(schema, table, name),
        NamedChange::DropIndex(element) => unfinished(schema, &element.table, &element.name),
        NamedChange::DropColumn(element) | NamedChange::Abandon(element) => {
            match unfinished_index(schema, &element.table, &element.name) {
                Some(index) => Some(index),
                None => unfinished(schema, &element.table, &element.name),
            }
        }
    }
}

fn push_unfinished(
    out: &mut String,
    opened: &Opened,
    element: &ElementDef,
    words: &str,
) -> Result<(), AllocError> {
    push_element(out, opened.world.newest().get(), element.number)?;
    out.push_str(words)?;
    push_standing(out, element)?;
    out.push_str(", ")?;
    push_waiting(out, &opened.world, element)
}

/// The unfinished change that is in the way of a refused plan, with what it waits for; `None` if
/// there is none, or if the command is no plan. Refused only when out of memory.
///
/// - `opened`: the world.
/// - `command`: the command.
pub(crate) fn in_the_way(
    alloc: Global,
    opened: &Opened,
    command: &Command,
) -> Result<Option<String>, AllocError> {
    let Command::Plan { changes } = command else {
        return Ok(None);
    };
    for change in changes.as_slice() {
        if let Some(element) = in_way_of(opened.world.newest().get(), change) {
            let mut out = String::new(alloc);
            push_unfinished(&mut out, opened, element, " is in its way: ")?;
            return Ok(Some(out));
        }
    }
    Ok(None)
}

/// The unfinished changes that the kept plan leaves as they are; empty if there are none. Refused
/// only when out of memory.
///
/// - `opened`: the world and the plan.
pub(crate) fn left_out(alloc: Global, opened: &Opened) -> Result<String, AllocError> {
    let mut out = String::new(alloc);
    for element in opened.world.newest().get().elements() {
        let number = element.number;
        let mut steps = opened.plan.as_slice().iter();
        if !is_resting(element) && !steps.any(|step| moves_element(step.as_slice(), number)) {
            if !out.is_empty() {
                out.push_str("\n")?;
            }
            push_unfinished(&mut out, opened, element, " is not in this plan: ")?;
        }
    }
    Ok(out)
}

/// Adds, on a line of its own, that a plan replaces the kept one, if steps of that were left.
/// Refused only when out of memory.
///
/// - `steps`: how many were left.
pub(crate) fn push_replaced(out: &mut String, steps: usize) -> Result<(), AllocError> {
    if steps == 0 {
        return Ok(());
    }
    if !out.is_empty() {
        out.push_str("\n")?;
    }
    let are = if steps == 1 { "step was" } else { "steps were" };
    write!(out, "this plan replaces one of which {steps} {are} left")
}
