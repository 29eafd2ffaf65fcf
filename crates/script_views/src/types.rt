//! Values and the columns that take them, in words.
use keycode::{Text, Value};
use row_map::{ColumnType, fits};
use script_grammar::push_value;
use std::alloc::{AllocError, Global};

/// The word for a type, as the grammar has it.
///
/// - `column_type`: the type.
pub fn type_word(column_type: ColumnType) -> &'static str {
    match column_type {
        ColumnType::Int => "int",
        ColumnType::Text => "text",
        ColumnType::Bool => "bool",
    }
}

// What a value is, in words.
fn kind_word(value: &Value) -> &'static str {
    match value {
        Value::Null => "null",
        Value::Int(_) => "int",
        Value::Text(text) if text.as_bytes().len() > 1_024 => "a text over 1,024 bytes",
        Value::Text(_) => "text",
        Value::Bool(_) => "bool",
    }
}

/// Why a column does not take a value; `None` if it does. Refused only when out of memory.
///
/// - `name`: the column's name.
/// - `column_type`: its type.
/// - `value`: the value, other than null.
pub(crate) fn misfit(
    alloc: Global,
    name: &Text,
    column_type: ColumnType,
    value: &Value,
) -> Result<Option<String>, AllocError> {
    if fits(column_type, value) {
        return Ok(None);
    }
    let name = name.as_str();
    let wanted = type_word(column_type);
    let mut out = format!(in alloc; "column {name} is {wanted}, and ")?;
    let kind = kind_word(value);
    if matches!(value, Value::Null) || kind.len() > 4 {
        write!(out, "the value is {kind}")?;
    } else {
        push_value(&mut out, value)?;
        write!(out, " is {kind}")?;
    }
    Ok(Some(out))
}

/// Why a tuple is no primary key of these columns; `None` if it is one. Refused only when out of
/// memory.
///
/// - `columns`: the names and types of the key's columns.
/// - `key`: the tuple.
pub(crate) fn key_misfit(
    alloc: Global,
    columns: &[(Text, ColumnType)],
    key: &[Value],
) -> Result<Option<String>, AllocError> {
    let wanted = columns.len();
    let given = key.len();
    if wanted != given {
        let out = format!(in alloc; "key values: {wanted} wanted, {given} given")?;
        return Ok(Some(out));
    }
    for (column, value) in columns.iter().zip(key) {
        if let Some(out) = misfit(alloc, &column.0, column.1, value)? {
            return Ok(Some(out));
        }
    }
    Ok(None)
}
