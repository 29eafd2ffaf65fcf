//! What a line put and removed, as JSON.
use crate::elements::cell_text;
use audit::key_of;
use keycode::Value as Cell;
use pair_changes::{PairChange, changes_between};
use row_map::{KeyOf, RankedView, read_only_value};
use schema_version::Schema;
use script_progress::script_session::{Opened, Session};
use script_progress::world::{Checkpoint, World};
use serde_json::Value;
use std::alloc::{AllocError, Global};

/// The most rows and pairs of indexes that a world may have for its changes to be looked for, which
/// takes time with all pairs, some 20 ms for as many: nobody should wait for it at a prompt.
const MOST: usize = 100_000;

/// What is kept before a line, so that what it put and removed can be found.
pub enum PairsBefore {
    /// Nothing: it is not asked for, or no world was open.
    Unasked,
    /// Nothing: the world has more than 100,000 rows and pairs of indexes.
    TooMany,
    /// The world as it was, whose pages it shares.
    Kept(Checkpoint),
}

// By hand, so that a caller's proof sees one call and not each field's.
impl Drop for PairsBefore {
    fn drop(self) {
        match self {
            PairsBefore::Unasked | PairsBefore::TooMany => {}
            PairsBefore::Kept(_) => {}
        }
    }
}

// How many rows and pairs of indexes there are. No pair is walked over: theirs are those with an empty
// value, and all keys begin with a letter.
fn counted(world: &World) -> usize {
    world.count_empty(b"".as_slice(), b"\xff".as_slice())
}

impl PairsBefore {
    /// What is kept of a session before a line. It copies no pair, and is refused only when out of
    /// memory.
    ///
    /// - `session`: the session, which is only read.
    pub fn new(session: &Session) -> Result<PairsBefore, AllocError> {
        let Session::Running(opened) = session else {
            return Ok(PairsBefore::Unasked);
        };
        if counted(&opened.world) > MOST {
            return Ok(PairsBefore::TooMany);
        }
        Ok(PairsBefore::Kept(opened.world.checkpoint()?))
    }
}

fn push_text(alloc: Global, out: &mut String, text: &str) -> Result<(), AllocError> {
    let text = Value::try_from_str(alloc, text)?.to_string(alloc)?;
    out.push_str(text.as_str())
}

fn push_cell(alloc: Global, out: &mut String, cell: &Cell) -> Result<(), AllocError> {
    let text = cell_text(alloc, cell)?;
    push_text(alloc, out, text.as_str())
}

// Adds a list of values, as the language has them.
fn push_cells(
    alloc: Global,
    out: &mut String,
    name: &str,
    cells: &[Cell],
) -> Result<(), AllocError> {
    write!(out, ",\"{name}\":[")?;
    for (place, cell) in cells.iter().enumerate() {
        if place > 0 {
            out.push_str(",")?;
        }
        push_cell(alloc, out, cell)?;
    }
    out.push_str("]")
}

// Adds the element's number, 0 for the pair of a row itself, and the table's name.
fn push_place(
    alloc: Global,
    out: &mut String,
    number: u32,
    schema: &Schema,
    table: u32,
) -> Result<(), AllocError> {
    write!(out, "{{\"number\":{number},\"table\":")?;
    push_text(alloc, out, schema.table_name(table).unwrap_or(""))
}

fn push_row(
    alloc: Global,
    out: &mut String,
    schema: &Schema,
    table: u32,
    number: u32,
    key: &[Cell],
) -> Result<(), AllocError> {
    push_place(alloc, out, number, schema, table)?;
    push_cells(alloc, out, "key", key)
}

// Adds the value that bytes encode; nothing, if they are not those of one value.
fn push_value_of(alloc: Global, out: &mut String, bytes: &[u8]) -> Result<(), AllocError> {
    let Some(value) = read_only_value(alloc, bytes)? else {
        return Ok(());
    };
    out.push_str(",\"value\":")?;
    push_cell(alloc, out, &value)
}

// The table of an element, and how many of an index's values are indexed: those before the key.
fn split_of(schema: &Schema, number: u32, values: usize) -> (u32, usize) {
    let Some(element) = schema.element(number) else {
        return (0, values);
    };
    let key = schema.key_of(element.table).unwrap_or(&[]);
    (element.table, values.saturating_sub(key.len()))
}

fn push_index(
    alloc: Global,
    out: &mut String,
    schema: &Schema,
    number: u32,
    values: &[Cell],
) -> Result<(), AllocError> {
    let (table, indexed) = split_of(schema, number, values.len());
    let (values, key) = values.split_at_checked(indexed).unwrap_or((values, &[]));
    push_row(alloc, out, schema, table, number, key)?;
    push_cells(alloc, out, "values", values)
}

fn push_pair(
    alloc: Global,
    out: &mut String,
    schema: &Schema,
    name: &KeyOf,
    value: &[u8],
) -> Result<(), AllocError> {
    match name {
        KeyOf::Exists { table, key } => push_row(alloc, out, schema, *table, 0, key.as_slice()),
        KeyOf::Column {
            table,
            key,
            element,
        } => {
            push_row(alloc, out, schema, *table, *element, key.as_slice())?;
            push_value_of(alloc, out, value)
        }
        KeyOf::Index { element, values } => {
            push_index(alloc, out, schema, *element, values.as_slice())
        }
    }
}

// Adds a pair. No store has a key that is none of the forms of keys; it would be left out.
fn push_entry(
    alloc: Global,
    out: &mut String,
    schema: &Schema,
    key: &[u8],
    value: &[u8],
) -> Result<(), AllocError> {
    let Some(name) = key_of(alloc, key)? else {
        return Ok(());
    };
    if !out.as_str().ends_with('[') {
        out.push_str(",")?;
    }
    push_pair(alloc, out, schema, &name, value)?;
    out.push_str("}")
}

// Adds the pairs that were put.
fn push_put(
    alloc: Global,
    out: &mut String,
    schema: &Schema,
    changes: &[PairChange],
) -> Result<(), AllocError> {
    for change in changes {
        if let Some(value) = &change.after {
            push_entry(alloc, out, schema, change.key.as_slice(), value.as_slice())?;
        }
    }
    Ok(())
}

// Adds the pairs that were removed.
fn push_removed(
    alloc: Global,
    out: &mut String,
    schema: &Schema,
    changes: &[PairChange],
) -> Result<(), AllocError> {
    for change in changes {
        if let Some(value) = &change.before {
            push_entry(alloc, out, schema, change.key.as_slice(), value.as_slice())?;
        }
    }
    Ok(())
}

// Adds the changes: what was removed by the names before, since an element may be gone since.
fn push_changes(
    alloc: Global,
    out: &mut String,
    old: &Schema,
    new: &Schema,
    changes: &[PairChange],
) -> Result<(), AllocError> {
    out.push_str("{\"put\":[")?;
    push_put(alloc, out, new, changes)?;
    out.push_str("],\"removed\":[")?;
    push_removed(alloc, out, old, changes)?;
    out.push_str("]}")
}

fn changes_since(alloc: Global, kept: &Checkpoint, world: &World) -> Result<String, AllocError> {
    let changes = changes_between(alloc, kept, world)?;
    let mut out = String::new(alloc);
    push_changes(
        alloc,
        &mut out,
        kept.newest().get(),
        world.newest().get(),
        changes.as_slice(),
    )?;
    Ok(out)
}

/// What a line put and removed, in JSON: `{"put":[..],"removed":[..]}`, each pair with the element's
/// `number` (0 for the pair of a row itself), its `table`, the row's `key`, for an index its `values`, and
/// the `value` of a column. A pair whose value changed is in both lists. `null` if there were too many
/// pairs to find out, and `None` if it was not asked for. Refused only when out of memory.
///
/// - `before`: what was kept before the line.
/// - `opened`: the world after it, which is only read.
pub fn changes_text(
    alloc: Global,
    before: &PairsBefore,
    opened: &Opened,
) -> Result<Option<String>, AllocError> {
    match before {
        PairsBefore::Unasked => Ok(None),
        PairsBefore::TooMany => Ok(Some("null".to_string(alloc)?)),
        PairsBefore::Kept(kept) => Ok(Some(changes_since(alloc, kept, &opened.world)?)),
    }
}
