//! An element of the newest version as JSON, and what it waits for.
use crate::object::{Object, put_list, put_number, put_text};
use keycode::Value as Cell;
use schema_version::{ElementDef, Kind, Schema};
use script_grammar::{push_value, state_word};
use script_progress::world::World;
use script_progress::{Begun, Waiting, is_resting, waiting_of, way_word, work_word};
use script_rows::script_views::type_word;
use serde_json::{Map, Value, put};
use std::alloc::{AllocError, Global};

/// A value of a row, as the language has it. Refused only when out of memory.
pub(crate) fn cell_text(alloc: Global, cell: &Cell) -> Result<String, AllocError> {
    let mut out = String::new(alloc);
    push_value(&mut out, cell)?;
    Ok(out)
}

fn put_begun(alloc: Global, out: &mut Object, begun: Begun) -> Result<(), AllocError> {
    put_text(alloc, out, "for", "end")?;
    put_text(alloc, out, "work", work_word(begun.work))?;
    put_number(alloc, out, "pieces", begun.pieces as u64)?;
    put_number(alloc, out, "ended", u64::from(begun.ended))?;
    put_number(alloc, out, "left", begun.left as u64)?;
    let Some((passed, all)) = begun.rows else {
        return Ok(());
    };
    put_number(alloc, out, "passed", passed as u64)?;
    put_number(alloc, out, "rows", all as u64)
}

fn put_beginning(
    alloc: Global,
    out: &mut Object,
    word: &str,
    from: Option<u64>,
    reads: Option<usize>,
) -> Result<(), AllocError> {
    put_text(alloc, out, "for", "begin")?;
    put_text(alloc, out, "work", word)?;
    if let Some(moment) = from {
        put_number(alloc, out, "from", moment)?;
    }
    match reads {
        Some(rows) => put_number(alloc, out, "reads", rows as u64),
        None => Ok(()),
    }
}

fn put_waiting(alloc: Global, out: &mut Object, waiting: Waiting) -> Result<(), AllocError> {
    match waiting {
        Waiting::End(begun) => put_begun(alloc, out, begun),
        Waiting::Begin { work, from, reads } => {
            put_beginning(alloc, out, work_word(work), from, reads)
        }
        Waiting::Publication(from) => {
            put_text(alloc, out, "for", "publication")?;
            put_number(alloc, out, "from", from)
        }
    }
}

fn waiting_value(alloc: Global, waiting: Waiting) -> Result<Value, AllocError> {
    let mut out = Map::new(alloc);
    put_waiting(alloc, &mut out, waiting)?;
    Ok(Value::Object(out))
}

// The names of an index's columns.
fn column_names(alloc: Global, schema: &Schema, numbers: &[u32]) -> Result<Vec<Value>, AllocError> {
    let mut names = Vec::new(alloc);
    for number in numbers {
        let name = match schema.element(*number) {
            Some(element) => element.name.as_str(),
            None => "",
        };
        names.push(Value::String(name.to_string(alloc)?))?;
    }
    Ok(names)
}

// Puts what an element is: an index with its columns, or a column with its type and its default.
fn put_kind(
    alloc: Global,
    out: &mut Object,
    schema: &Schema,
    kind: &Kind,
) -> Result<(), AllocError> {
    match kind {
        Kind::Index(columns) => {
            put_text(alloc, out, "kind", "index")?;
            let names = column_names(alloc, schema, columns.as_slice())?;
            put_list(alloc, out, "columns", names)
        }
        Kind::Optional(column) => {
            put_text(alloc, out, "kind", "column")?;
            put_text(alloc, out, "type", type_word(*column))
        }
        Kind::Required { column, fallback } => {
            put_text(alloc, out, "kind", "column")?;
            put_text(alloc, out, "type", type_word(*column))?;
            let fallback = cell_text(alloc, fallback)?;
            put_text(alloc, out, "default", fallback.as_str())
        }
    }
}

// Puts whether an element is being added or dropped, and what it waits for then.
fn put_way(
    alloc: Global,
    out: &mut Object,
    world: &World,
    element: &ElementDef,
) -> Result<(), AllocError> {
    if let Some(word) = way_word(element) {
        put_text(alloc, out, "way", word)?;
    }
    if is_resting(element) {
        return Ok(());
    }
    let waits = waiting_value(alloc, waiting_of(world, element))?;
    put(out, alloc, "waits", waits)
}

/// Puts what there is to know of an element of the newest version: `number`, `table`, `name`, `kind`
/// (`column` with `type` and maybe `default`, or `index` with `columns`) and `state`; if it is being added
/// or dropped, `way`, and `waits`: what it waits `for` (`publication`, `begin` or `end` of its `work`), and
/// `from` which moment on that may be. Refused only when out of memory.
pub(crate) fn put_element(
    alloc: Global,
    out: &mut Object,
    world: &World,
    element: &ElementDef,
) -> Result<(), AllocError> {
    let schema = world.newest().get();
    let table = schema.table_name(element.table).unwrap_or("");
    put_number(alloc, out, "number", u64::from(element.number))?;
    put_text(alloc, out, "table", table)?;
    put_text(alloc, out, "name", element.name.as_str())?;
    put_text(alloc, out, "state", state_word(element.state))?;
    put_kind(alloc, out, schema, &element.kind)?;
    put_way(alloc, out, world, element)
}
