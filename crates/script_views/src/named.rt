//! Names and values of a line that a version of the schema does not have or take.
ghost use Rattle.std.specs.Prelude.{◌≡◌, ◌++◌, IfOk, codes, option_map, string_bytes};
ghost use Rattle.script_views.specs.Unknown.{MissingElement, MissingTable, NamesNoElement};

use crate::near::push_nearest;
use crate::types::{key_misfit, misfit};
use keycode::{Text, Value};
use schema_version::{ElementDef, MAX_TABLES, Schema};
use script_grammar::{Condition, Operation, Selection, state_word};
use script_session::script_names::{element_number, table_number};
use std::alloc::{AllocError, Global};

/// What is looked for in a line: the refusal names it.
#[derive(Clone, Copy, PartialEq, Eq)]
pub enum Wrong {
    /// A table that is not there.
    Table,
    /// A column that is not there, or not public.
    Column,
    /// A value of another type.
    Type,
}

type Found = Result<Option<String>, AllocError>;

/// The names of all tables. Refused only when out of memory.
///
/// - `schema`: the version.
pub fn table_names<'a>(alloc: Global, schema: &'a Schema) -> Result<Vec<&'a str>, AllocError> {
    let mut names = Vec::new(alloc);
    for number in 1..=MAX_TABLES as u32 {
        if let Some(name) = schema.table_name(number) {
            names.push(name)?;
        }
    }
    Ok(names)
}

fn element_names<'a>(
    alloc: Global,
    schema: &'a Schema,
    table: u32,
) -> Result<Vec<&'a str>, AllocError> {
    let mut names = Vec::new(alloc);
    for element in schema.elements() {
        if element.table == table {
            names.push(element.name.as_str())?;
        }
    }
    Ok(names)
}

/// That there is no table of this name, and the nearest one; `None` if there is. Refused only when
/// out of memory.
///
/// - `schema`: the version.
/// - `table`: the name.
pub fn missing_table(
    alloc: Global,
    schema: &Schema,
    table: &Text,
) -> Result<Option<String>, AllocError>
    ensures { IfOk result (λ found. MissingTable schema.now table.now (option_map string_bytes found)) }
{
    if table_number(schema, table) > 0 {
        return Ok(None);
    }
    let name = table.as_str();
    let mut out = format!(in alloc; "there is no table {name}")?;
    let names = table_names(alloc, schema)?;
    push_nearest(alloc, &mut out, name, names.as_slice())?;
    Ok(Some(out))
}

fn no_element_text(alloc: Global, table: &str, name: &str) -> Result<String, AllocError>
    ensures { IfOk result (λ text. string_bytes text ≡ table.now ++ codes " has no column or index " ++ name.now) }
{
    let mut out = table.to_string(alloc)?;
    out.push_str(" has no column or index ")?;
    out.push_str(name)?;
    Ok(out)
}

fn key_column_text(alloc: Global, table: &str, name: &str) -> Result<String, AllocError>
    ensures { IfOk result (λ text. NamesNoElement table.now name.now (string_bytes text)) }
{
    let mut out = name.to_string(alloc)?;
    out.push_str(" is a key column of ")?;
    out.push_str(table)?;
    out.push_str(": rows show it, and key = (..) or the tuple after the table gives it")?;
    Ok(out)
}

// That the table of this number has no element of this name, and the nearest one; or that it is a
// key column.
pub(crate) fn other_text(
    alloc: Global,
    schema: &Schema,
    number: u32,
    table: &str,
    name: &str,
) -> Result<String, AllocError>
    ensures { IfOk result (λ text. NamesNoElement table.now name.now (string_bytes text)) }
{
    let keys = schema.key_of(number).unwrap_or(&[]);
    if keys.iter().any(|key| key.0.as_str() == name) {
        return key_column_text(alloc, table, name);
    }
    let mut out = no_element_text(alloc, table, name)?;
    let names = element_names(alloc, schema, number)?;
    push_nearest(alloc, &mut out, name, names.as_slice())?;
    Ok(out)
}

/// That the table has no element of this name, and the nearest one; `None` if it has, or if there
/// is no such table. Refused only when out of memory.
///
/// - `schema`: the version.
/// - `table`: the name of the table.
/// - `name`: the name of the column or index.
pub fn missing_element(
    alloc: Global,
    schema: &Schema,
    table: &Text,
    name: &Text,
) -> Result<Option<String>, AllocError>
    ensures { IfOk result (λ found. MissingElement schema.now table.now name.now (option_map string_bytes found)) }
{
    let number = table_number(schema, table);
    if number == 0 {
        return Ok(None);
    }
    if element_number(schema, number, name) > 0 {
        return Ok(None);
    }
    let out = other_text(alloc, schema, number, table.as_str(), name.as_str())?;
    Ok(Some(out))
}

// That a column is not public, or no column; `None` if it is public.
fn hidden(alloc: Global, element: &ElementDef) -> Found {
    let name = element.name.as_str();
    if element.kind.is_index() {
        return Ok(Some(format!(in alloc; "{name} is an index, no column")?));
    }
    if element.state.is_public() {
        return Ok(None);
    }
    let state = state_word(element.state);
    let out = format!(in alloc;
        "column {name} is {state} in the version of this lease, and used once it is public"
    )?;
    Ok(Some(out))
}

// What is wrong with a column and the value that it is given or compared with.
fn wrong_cell(
    alloc: Global,
    schema: &Schema,
    table: &Text,
    cell: (&Text, Option<&Value>),
    wrong: Wrong,
) -> Found {
    let (name, value) = cell;
    let Some(number) = schema.table(table.as_str()) else {
        return Ok(None);
    };
    let Some(element) = schema.by_name(number, name.as_str()) else {
        return if wrong == Wrong::Column {
            missing_element(alloc, schema, table, name)
        } else {
            Ok(None)
        };
    };
    if wrong == Wrong::Column {
        return hidden(alloc, element);
    }
    match (element.kind.column_type(), value) {
        (Some(_), None | Some(Value::Null)) | (None, _) => Ok(None),
        (Some(column_type), Some(value)) => misfit(alloc, name, column_type, value),
    }
}

fn wrong_key(alloc: Global, schema: &Schema, table: &Text, key: &[Value]) -> Found {
    let Some(number) = schema.table(table.as_str()) else {
        return Ok(None);
    };
    match schema.key_of(number) {
        Some(columns) => key_misfit(alloc, columns, key),
        None => Ok(None),
    }
}

fn repeated(alloc: Global, sets: &[(Text, Value)]) -> Found {
    for (i, cell) in sets.iter().enumerate() {
        if sets
            .iter()
            .skip(i + 1)
            .any(|other| other.0.as_str() == cell.0.as_str())
        {
            let name = cell.0.as_str();
            return Ok(Some(format!(in alloc; "column {name} is set twice")?));
        }
    }
    Ok(None)
}

fn wrong_sets(
    alloc: Global,
    schema: &Schema,
    table: &Text,
    sets: &[(Text, Value)],
    wrong: Wrong,
) -> Found {
    for cell in sets {
        let cell = (&cell.0, Some(&cell.1));
        if let Some(out) = wrong_cell(alloc, schema, table, cell, wrong)? {
            return Ok(Some(out));
        }
    }
    if wrong == Wrong::Type {
        return repeated(alloc, sets);
    }
    Ok(None)
}

fn wrong_operation(alloc: Global, schema: &Schema, operation: &Operation, wrong: Wrong) -> Found {
    let none: &[(Text, Value)] = &[];
    let (table, key, sets) = match operation {
        Operation::Insert { table, key, sets } => (table, key, sets.as_slice()),
        Operation::Update { table, key, sets } => (table, key, sets.as_slice()),
        Operation::Delete { table, key } => (table, key, none),
    };
    if wrong == Wrong::Table {
        return missing_table(alloc, schema, table);
    }
    if wrong == Wrong::Type {
        if let Some(out) = wrong_key(alloc, schema, table, key.as_slice())? {
            return Ok(Some(out));
        }
    }
    wrong_sets(alloc, schema, table, sets, wrong)
}

/// What is wrong with the first of the operations that has such a fault; `None` if none has. Refused
/// only when out of memory.
///
/// - `schema`: the schema of the server's lease.
/// - `operations`: the operations of a transaction.
/// - `wrong`: the fault.
pub fn wrong_operations(
    alloc: Global,
    schema: &Schema,
    operations: &[Operation],
    wrong: Wrong,
) -> Result<Option<String>, AllocError> {
    for operation in operations {
        if let Some(out) = wrong_operation(alloc, schema, operation, wrong)? {
            return Ok(Some(out));
        }
    }
    Ok(None)
}

// That a bound is null; `None` if neither is.
fn null_bound(alloc: Global, column: &Text, bounds: [&Option<Value>; 2]) -> Found {
    if !bounds
        .iter()
        .any(|bound| matches!(bound, Some(Value::Null)))
    {
        return Ok(None);
    }
    let name = column.as_str();
    let out = format!(in alloc;
        "no value is above or below null; `{name} = null` finds the rows without one"
    )?;
    Ok(Some(out))
}

fn wrong_condition(
    alloc: Global,
    schema: &Schema,
    table: &Text,
    condition: &Condition,
    wrong: Wrong,
) -> Found {
    match condition {
        Condition::Key(key) if wrong == Wrong::Type => {
            wrong_key(alloc, schema, table, key.as_slice())
        }
        Condition::Key(_) => Ok(None),
        Condition::Equal { column, value } => {
            wrong_cell(alloc, schema, table, (column, Some(value)), wrong)
        }
        Condition::Between { column, low, high } => {
            for bound in [low, high] {
                let cell = (column, bound.as_ref());
                if let Some(out) = wrong_cell(alloc, schema, table, cell, wrong)? {
                    return Ok(Some(out));
                }
            }
            if wrong == Wrong::Type {
                null_bound(alloc, column, [low, high])
            } else {
                Ok(None)
            }
        }
    }
}

fn wrong_columns(alloc: Global, schema: &Schema, table: &Text, columns: &[Text]) -> Found {
    for column in columns {
        let cell = (column, None);
        if let Some(out) = wrong_cell(alloc, schema, table, cell, Wrong::Column)? {
            return Ok(Some(out));
        }
    }
    Ok(None)
}

/// What is wrong with a selection that has such a fault; `None` if it has none. Refused only when
/// out of memory.
///
/// - `schema`: the schema of the server's lease.
/// - `selection`: what the query asks for.
/// - `wrong`: the fault.
pub fn wrong_selection(
    alloc: Global,
    schema: &Schema,
    selection: &Selection,
    wrong: Wrong,
) -> Result<Option<String>, AllocError> {
    let table = &selection.table;
    if wrong == Wrong::Table {
        return missing_table(alloc, schema, table);
    }
    if let (Some(columns), Wrong::Column) = (&selection.columns, wrong) {
        if let Some(out) = wrong_columns(alloc, schema, table, columns.as_slice())? {
            return Ok(Some(out));
        }
    }
    for condition in selection.conditions.as_slice() {
        if let Some(out) = wrong_condition(alloc, schema, table, condition, wrong)? {
            return Ok(Some(out));
        }
    }
    Ok(None)
}
