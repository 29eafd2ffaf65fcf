//! Which limit a plan or a step does not keep.
use keycode::{Text, Value};
use row_map::ColumnType;
use schema_version::{MAX_COLUMNS, MAX_INDEXES, MAX_LISTED, MAX_NAME, Schema, elements_like};
use script_grammar::{Command, NamedChange, NamedMove, New};
use script_progress::script_views::type_word;
use std::alloc::{AllocError, Global};

type Found = Result<Option<String>, AllocError>;

fn long_name(alloc: Global, name: &Text) -> Found {
    let (name, len) = (name.as_str(), name.as_bytes().len());
    if len <= MAX_NAME {
        return Ok(None);
    }
    let out = format!(in alloc; "{name} has {len} bytes, and a name at most {MAX_NAME}")?;
    Ok(Some(out))
}

fn wrong_list(alloc: Global, name: &str, columns: &[Text]) -> Found {
    let len = columns.len();
    if len > MAX_LISTED {
        let out = format!(in alloc;
            "{name} lists {len} columns, and an index at most {MAX_LISTED}"
        )?;
        return Ok(Some(out));
    }
    for (i, column) in columns.iter().enumerate() {
        let column = column.as_str();
        if columns.iter().take(i).any(|it| it.as_str() == column) {
            return Ok(Some(format!(in alloc; "{name} lists {column} twice")?));
        }
    }
    Ok(None)
}

// Why a value is no default of a column; `None` if it is one.
fn wrong_default(alloc: Global, name: &str, column: ColumnType, value: &Value) -> Found {
    let word = type_word(column);
    let why = match (column, value) {
        (_, Value::Null) => "null is no default: leave it out",
        (ColumnType::Int, Value::Int(_)) | (ColumnType::Bool, Value::Bool(_)) => return Ok(None),
        (ColumnType::Text, Value::Text(text)) if text.as_bytes().len() <= 1_024 => return Ok(None),
        (ColumnType::Text, Value::Text(_)) => "a text has at most 1,024 bytes",
        _ => "its default is of another type",
    };
    let out = format!(in alloc; "column {name} is {word}, and {why}")?;
    Ok(Some(out))
}

// What is wrong with an element that is to enter, by itself.
fn wrong_new(alloc: Global, fresh: &New) -> Found {
    match fresh {
        New::Index { name, columns, .. } => match long_name(alloc, name)? {
            Some(out) => Ok(Some(out)),
            None => wrong_list(alloc, name.as_str(), columns.as_slice()),
        },
        New::Column {
            name,
            column_type,
            fallback,
            ..
        } => match (long_name(alloc, name)?, fallback) {
            (Some(out), _) => Ok(Some(out)),
            (None, Some(value)) => wrong_default(alloc, name.as_str(), *column_type, value),
            (None, None) => Ok(None),
        },
    }
}

// That a table would have too many elements of a kind.
fn too_many(alloc: Global, schema: &Schema, fresh: &New) -> Found {
    let (table, is_index) = match fresh {
        New::Index { table, .. } => (table.as_str(), true),
        New::Column { table, .. } => (table.as_str(), false),
    };
    let number = schema.table(table).unwrap_or(0);
    let count = elements_like(schema.elements(), number, is_index);
    let (most, word) = if is_index {
        (MAX_INDEXES, "indexes")
    } else {
        (MAX_COLUMNS, "columns beside its key")
    };
    if count < most {
        return Ok(None);
    }
    Ok(Some(format!(in alloc; "{table} has {count} {word}, and a table at most {most}")?))
}

fn limit_of(alloc: Global, schema: &Schema, fresh: &New) -> Found {
    match wrong_new(alloc, fresh)? {
        Some(out) => Ok(Some(out)),
        None => too_many(alloc, schema, fresh),
    }
}

/// Which limit a refused plan or step does not keep; `None` if none of its elements is over one by
/// itself. Refused only when out of memory.
///
/// - `schema`: the newest version.
/// - `command`: the command.
pub(crate) fn limit_hint(alloc: Global, schema: &Schema, command: &Command) -> Found {
    let mut found = None;
    match command {
        Command::Plan { changes } => {
            for change in changes.as_slice() {
                if let (NamedChange::Add(fresh), None) = (change, &found) {
                    found = limit_of(alloc, schema, fresh)?;
                }
            }
        }
        Command::Publish { moves, .. } => {
            for named in moves.as_slice() {
                if let (NamedMove::Enter { fresh, .. }, None) = (named, &found) {
                    found = limit_of(alloc, schema, fresh)?;
                }
            }
        }
        _ => {}
    }
    Ok(found)
}
