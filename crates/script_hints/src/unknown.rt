//! Names of a line on the schema that the newest version does not have.
use keycode::Text;
use schema_version::Schema;
use script_grammar::{ElementName, NamedChange, NamedMove, New};
use script_progress::script_views::{missing_element, missing_table};
use std::alloc::{AllocError, Global};

/// That there is no such table, or no such element of it; `None` if there is. Refused only when out of
/// memory.
///
/// - `schema`: the newest version.
/// - `element`: the name of the element with its table's.
pub(crate) fn unknown_element(
    alloc: Global,
    schema: &Schema,
    element: &ElementName,
) -> Result<Option<String>, AllocError> {
    match missing_table(alloc, schema, &element.table)? {
        Some(out) => Ok(Some(out)),
        None => unknown_part(alloc, schema, &element.table, &element.name),
    }
}

// That a name is a key column, or nothing of the table; `None` if it is a column or an index.
fn unknown_part(
    alloc: Global,
    schema: &Schema,
    table: &Text,
    name: &Text,
) -> Result<Option<String>, AllocError> {
    let number = schema.table(table.as_str()).unwrap_or(0);
    let keys = schema.key_of(number).unwrap_or(&[]);
    if keys.iter().any(|key| key.0.as_str() == name.as_str()) {
        let (table, name) = (table.as_str(), name.as_str());
        let out = format!(in alloc;
            "{name} is a key column of {table}, which no change drops or indexes"
        )?;
        return Ok(Some(out));
    }
    missing_element(alloc, schema, table, name)
}

fn unknown_new(alloc: Global, schema: &Schema, fresh: &New) -> Result<Option<String>, AllocError> {
    let (table, columns): (&Text, &[Text]) = match fresh {
        New::Index { table, columns, .. } => (table, columns.as_slice()),
        New::Column { table, .. } => (table, &[]),
    };
    if let Some(out) = missing_table(alloc, schema, table)? {
        return Ok(Some(out));
    }
    for column in columns {
        if let Some(out) = unknown_part(alloc, schema, table, column)? {
            return Ok(Some(out));
        }
    }
    Ok(None)
}

/// What the moves of a step name that the newest version does not have; `None` if it has all. Refused
/// only when out of memory.
///
/// - `schema`: the newest version.
/// - `moves`: the moves.
pub(crate) fn unknown_move(
    alloc: Global,
    schema: &Schema,
    moves: &[NamedMove],
) -> Result<Option<String>, AllocError> {
    for named in moves {
        let found = match named {
            NamedMove::Enter { fresh, .. } => unknown_new(alloc, schema, fresh)?,
            NamedMove::Go { element, .. } | NamedMove::Turn { element } => {
                unknown_element(alloc, schema, element)?
            }
        };
        if found.is_some() {
            return Ok(found);
        }
    }
    Ok(None)
}

/// What the changes of a plan name that the newest version does not have; `None` if it has all. Refused
/// only when out of memory.
///
/// - `schema`: the newest version.
/// - `changes`: the changes.
pub(crate) fn unknown_change(
    alloc: Global,
    schema: &Schema,
    changes: &[NamedChange],
) -> Result<Option<String>, AllocError> {
    for change in changes {
        let found = match change {
            NamedChange::Add(fresh) => unknown_new(alloc, schema, fresh)?,
            NamedChange::DropIndex(element)
            | NamedChange::DropColumn(element)
            | NamedChange::Abandon(element) => unknown_element(alloc, schema, element)?,
        };
        if found.is_some() {
            return Ok(found);
        }
    }
    Ok(None)
}
