//! The columns and indexes of tables, as aligned tables.
use crate::unfinished::is_resting;
use crate::waiting::push_waiting;
use keycode::Text;
use row_map::ColumnType;
use schema_version::{ElementDef, Kind, MAX_TABLES, Schema, Way};
use script_grammar::{push_value, state_word};
use script_views::world::World;
use script_views::{push_nearest, table_names, type_word};
use std::alloc::{AllocError, Global};

fn push_key_columns(out: &mut String, key: &[(Text, ColumnType)]) -> Result<(), AllocError> {
    for (name, column_type) in key {
        let (name, word) = (name.as_str(), type_word(*column_type));
        write!(out, "  {name:<16}  {word:<24}  key\n")?;
    }
    Ok(())
}

fn push_names(out: &mut String, schema: &Schema, numbers: &[u32]) -> Result<(), AllocError> {
    for (i, number) in numbers.iter().enumerate() {
        if i > 0 {
            out.push_str(", ")?;
        }
        match schema.element(*number) {
            Some(element) => out.push_str(element.name.as_str())?,
            None => write!(out, "{number}")?,
        }
    }
    Ok(())
}

// What an element is: its type with its default, or its columns.
fn kind_text(alloc: Global, schema: &Schema, kind: &Kind) -> Result<String, AllocError> {
    let mut out = String::new(alloc);
    match kind {
        Kind::Index(columns) => {
            out.push_str("index (")?;
            push_names(&mut out, schema, columns.as_slice())?;
            out.push_str(")")?;
        }
        Kind::Optional(column) => out.push_str(type_word(*column))?,
        Kind::Required { column, fallback } => {
            out.push_str(type_word(*column))?;
            out.push_str(" default ")?;
            push_value(&mut out, fallback)?;
        }
    }
    Ok(out)
}

/// The word for what an element of this way is: `adding` or `dropping`; nothing of one that is public
/// and is not being dropped.
pub fn way_word(element: &ElementDef) -> Option<&'static str> {
    match (element.way, element.state.is_public()) {
        (Way::Adding, true) => None,
        (Way::Adding, false) => Some("adding"),
        (Way::Dropping, _) => Some("dropping"),
    }
}

/// Adds the state of an element and, if it is being added or dropped, which: `write_only, adding`.
/// Refused only when out of memory.
pub fn push_standing(out: &mut String, element: &ElementDef) -> Result<(), AllocError> {
    out.push_str(state_word(element.state))?;
    match way_word(element) {
        None => Ok(()),
        Some(word) => write!(out, ", {word}"),
    }
}

// Adds an element in a line, with what it waits for if it is being added or dropped.
fn push_element_line(
    alloc: Global,
    out: &mut String,
    world: &World,
    element: &ElementDef,
) -> Result<(), AllocError> {
    let name = element.name.as_str();
    let kind = kind_text(alloc, world.newest().get(), &element.kind)?;
    let kind = kind.as_str();
    write!(out, "  {name:<16}  {kind:<24}  ")?;
    push_standing(out, element)?;
    if !is_resting(element) {
        out.push_str(", ")?;
        push_waiting(out, world, element)?;
    }
    out.push_str("\n")
}

fn push_elements(
    alloc: Global,
    out: &mut String,
    world: &World,
    table: u32,
) -> Result<(), AllocError> {
    for element in world.newest().get().elements() {
        if element.table == table {
            push_element_line(alloc, out, world, element)?;
        }
    }
    Ok(())
}

// Adds by what a row is found, whatever its columns are called.
fn push_key(out: &mut String, key: &[(Text, ColumnType)]) -> Result<(), AllocError> {
    out.push_str("  key = (")?;
    for (i, column) in key.iter().enumerate() {
        if i > 0 {
            out.push_str(", ")?;
        }
        out.push_str(column.0.as_str())?;
    }
    out.push_str(") finds a row\n")
}

fn push_table(
    alloc: Global,
    out: &mut String,
    world: &World,
    number: u32,
) -> Result<(), AllocError> {
    let schema = world.newest().get();
    if let Some(name) = schema.table_name(number) {
        write!(out, "{name}\n")?;
        let key = schema.key_of(number).unwrap_or(&[]);
        push_key_columns(out, key)?;
        push_elements(alloc, out, world, number)?;
        push_key(out, key)?;
    }
    Ok(())
}

fn all_tables(alloc: Global, world: &World) -> Result<String, AllocError> {
    let mut out = String::new(alloc);
    for number in 1..=MAX_TABLES as u32 {
        push_table(alloc, &mut out, world, number)?;
    }
    Ok(out)
}

// That there is no table of this name, and the nearest; a `;` after it is no part of a name.
fn missing_table(alloc: Global, schema: &Schema, table: &str) -> Result<String, AllocError> {
    if table.ends_with(';') {
        return "no `;` ends a line".to_string(alloc);
    }
    let mut out = format!(in alloc; "there is no table {table}")?;
    let names = table_names(alloc, schema)?;
    push_nearest(alloc, &mut out, table, names.as_slice())?;
    Ok(out)
}

/// The columns and indexes of a table of the newest version: name, type or columns, and state, with
/// what an element that is being added or dropped waits for; and by what a row is found. Refused only
/// when out of memory.
///
/// - `world`: the world.
/// - `table`: the table's name; all tables if it is empty.
pub fn description(alloc: Global, world: &World, table: &str) -> Result<String, AllocError> {
    if table.is_empty() {
        return all_tables(alloc, world);
    }
    match world.newest().get().table(table) {
        Some(number) => {
            let mut out = String::new(alloc);
            push_table(alloc, &mut out, world, number)?;
            Ok(out)
        }
        None => missing_table(alloc, world.newest().get(), table),
    }
}
