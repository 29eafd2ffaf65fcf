//! What `open` will refuse of the declarations.
use crate::accepted::{KEY_COLUMN, begin};
use keycode::Text;
use lease::MAX_LENGTH;
use row_map::ColumnType;
use schema_version::{
    MAX_COLUMNS, MAX_INDEXES, MAX_KEY_COLUMNS, MAX_LISTED, MAX_NAME, MAX_TABLES, TableDef,
};
use script_grammar::Command;
use script_progress::script_session::Declarations;
use script_progress::script_views::push_nearest;
use std::alloc::{AllocError, Global};

// Adds that a count is past its limit, if it is.
fn push_count(
    out: &mut String,
    front: (&str, &'static str),
    count: usize,
    back: &'static str,
    most: usize,
) -> Result<(), AllocError> {
    if count <= most {
        return Ok(());
    }
    begin(out)?;
    let (name, verb) = front;
    write!(out, "{name} {verb} {count}{back} at most {most}")
}

fn push_length(out: &mut String, name: &Text) -> Result<(), AllocError> {
    let len = name.as_bytes().len();
    push_count(
        out,
        (name.as_str(), "has"),
        len,
        " bytes, and a name",
        MAX_NAME,
    )
}

fn has_named<T>(items: &[(Text, T)], name: &str) -> bool {
    items.iter().any(|item| item.0.as_str() == name)
}

// Adds which names of these columns are too long, or are those of other columns: of one of `before`
// or of one that comes earlier.
fn push_columns(
    out: &mut String,
    table: &str,
    before: &[(Text, ColumnType)],
    columns: &[(Text, ColumnType)],
) -> Result<(), AllocError> {
    for (i, column) in columns.iter().enumerate() {
        let name = column.0.as_str();
        push_length(out, &column.0)?;
        if has_named(before, name) || columns.iter().take(i).any(|it| it.0.as_str() == name) {
            begin(out)?;
            write!(out, "{table} has two columns {name}")?;
        }
    }
    Ok(())
}

fn push_counts(out: &mut String, table: &TableDef) -> Result<(), AllocError> {
    let front = (table.name.as_str(), "has");
    let keys = " key columns, and a table";
    push_count(out, front, table.key.len(), keys, MAX_KEY_COLUMNS)?;
    let others = " columns beside its key, and a table";
    push_count(out, front, table.columns.len(), others, MAX_COLUMNS)
}

// Adds what is wrong with the name of a table, and with its place among those that were declared.
fn push_table_name(
    out: &mut String,
    tables: &[TableDef],
    place: usize,
    name: &Text,
) -> Result<(), AllocError> {
    push_length(out, name)?;
    let number = place.saturating_add(1);
    let front = (name.as_str(), "is table");
    push_count(out, front, number, ", and there are", MAX_TABLES)?;
    let name = name.as_str();
    if tables.iter().take(place).any(|it| it.name.as_str() == name) {
        begin(out)?;
        write!(out, "there is a table {name} already")?;
    }
    Ok(())
}

// Adds what is wrong with a table, but for its indexes.
fn push_table(out: &mut String, tables: &[TableDef], place: usize) -> Result<(), AllocError> {
    let Some(table) = tables.get(place) else {
        return Ok(());
    };
    push_table_name(out, tables, place, &table.name)?;
    push_counts(out, table)?;
    let name = table.name.as_str();
    push_columns(out, name, &[], table.key.as_slice())?;
    push_columns(out, name, table.key.as_slice(), table.columns.as_slice())
}

// Adds that the table has no such column, or has it in its key.
fn push_missing(
    alloc: Global,
    out: &mut String,
    table: &TableDef,
    column: &str,
) -> Result<(), AllocError> {
    let name = table.name.as_str();
    begin(out)?;
    if has_named(table.key.as_slice(), column) {
        return write!(
            out,
            "{column} is a key column of {name}, and an index lists other columns"
        );
    }
    write!(out, "{name} has no column {column}")?;
    let mut names = Vec::new(alloc);
    for it in table.columns.as_slice() {
        names.push(it.0.as_str())?;
    }
    push_nearest(alloc, out, column, names.as_slice())
}

// Adds which columns an index lists twice, and which are none of its table.
fn push_listed(
    alloc: Global,
    out: &mut String,
    table: &TableDef,
    index: &str,
    listed: &[Text],
) -> Result<(), AllocError> {
    for (i, column) in listed.iter().enumerate() {
        let name = column.as_str();
        if listed.iter().take(i).any(|it| it.as_str() == name) {
            begin(out)?;
            write!(out, "{index} lists {name} twice")?;
        } else if !has_named(table.columns.as_slice(), name) {
            push_missing(alloc, out, table, name)?;
        }
    }
    Ok(())
}

// Whether a column or an earlier index of the table has the name of the index at this place.
fn is_taken(table: &TableDef, place: usize, name: &str) -> bool {
    let mut earlier = table.indexes.as_slice().iter().take(place);
    has_named(table.key.as_slice(), name)
        || has_named(table.columns.as_slice(), name)
        || earlier.any(|it| it.0.as_str() == name)
}

fn push_index_name(
    out: &mut String,
    table: &TableDef,
    place: usize,
    index: &Text,
) -> Result<(), AllocError> {
    push_length(out, index)?;
    let (name, index) = (table.name.as_str(), index.as_str());
    let number = place.saturating_add(1);
    let words = " indexes, and a table";
    push_count(out, (name, "has"), number, words, MAX_INDEXES)?;
    if is_taken(table, place, index) {
        begin(out)?;
        write!(out, "{name} has a column or index {index} already")?;
    }
    Ok(())
}

// Adds what is wrong with the index at this place of a table.
fn push_index(
    alloc: Global,
    out: &mut String,
    table: &TableDef,
    place: usize,
) -> Result<(), AllocError> {
    let Some(index) = table.indexes.as_slice().get(place) else {
        return Ok(());
    };
    push_index_name(out, table, place, &index.0)?;
    let (name, listed) = (index.0.as_str(), index.1.as_slice());
    let words = " columns, and an index";
    push_count(out, (name, "lists"), listed.len(), words, MAX_LISTED)?;
    push_listed(alloc, out, table, name, listed)
}

// The first table of a name: a line `index` is put there.
fn first_named<'a>(tables: &'a [TableDef], name: &str) -> Option<&'a TableDef> {
    tables.iter().find(|it| it.name.as_str() == name)
}

// Adds that a table has a column that no condition can name: one of the name `key` that is not its
// whole key.
fn push_key_column(out: &mut String, table: &TableDef) -> Result<(), AllocError> {
    let is_part = table.key.len() > 1 && has_named(table.key.as_slice(), "key");
    if is_part || has_named(table.columns.as_slice(), "key") {
        begin(out)?;
        out.push_str(KEY_COLUMN)?;
    }
    Ok(())
}

/// What `open` will refuse of what a line has declared, a line for each fault, and that a column is
/// named as the key is; empty if there is nothing to say. Refused only when out of memory.
///
/// - `declared`: the declarations, the line's among them.
/// - `command`: the line's command.
pub(crate) fn declared_hint(
    alloc: Global,
    declared: &Declarations,
    command: &Command,
) -> Result<String, AllocError> {
    let mut out = String::new(alloc);
    let tables = declared.tables.as_slice();
    match command {
        Command::Table { .. } => {
            push_table(&mut out, tables, tables.len().saturating_sub(1))?;
            if let Some(table) = tables.last() {
                push_key_column(&mut out, table)?;
            }
        }
        Command::Index { table, .. } => {
            if let Some(table) = first_named(tables, table.as_str()) {
                let place = table.indexes.len().saturating_sub(1);
                push_index(alloc, &mut out, table, place)?;
            }
        }
        Command::Length(length) if *length == 0 || *length > MAX_LENGTH => {
            write!(out, "a length is from 1 to {MAX_LENGTH}")?;
        }
        _ => {}
    }
    Ok(out)
}

// Adds the faults of one declaration, each on a line that begins with its words.
fn push_under(
    out: &mut String,
    named: (&'static str, &str),
    table: &str,
    faults: &str,
) -> Result<(), AllocError> {
    let (kind, name) = named;
    let on = if table.is_empty() { "" } else { " on " };
    for fault in faults.lines() {
        begin(out)?;
        write!(out, "{kind} {name}{on}{table}: {fault}")?;
    }
    Ok(())
}

// Adds what is wrong with the table at this place.
fn push_table_faults(
    alloc: Global,
    out: &mut String,
    tables: &[TableDef],
    place: usize,
    name: &str,
) -> Result<(), AllocError> {
    let mut faults = String::new(alloc);
    push_table(&mut faults, tables, place)?;
    push_under(out, ("table", name), "", faults.as_str())
}

// Adds what is wrong with the index at this place of a table.
fn push_index_faults(
    alloc: Global,
    out: &mut String,
    table: &TableDef,
    place: usize,
    name: &str,
) -> Result<(), AllocError> {
    let mut faults = String::new(alloc);
    push_index(alloc, &mut faults, table, place)?;
    push_under(out, ("index", name), table.name.as_str(), faults.as_str())
}

fn push_faults(
    alloc: Global,
    out: &mut String,
    tables: &[TableDef],
    place: usize,
    table: &TableDef,
) -> Result<(), AllocError> {
    push_table_faults(alloc, out, tables, place, table.name.as_str())?;
    for (i, index) in table.indexes.as_slice().iter().enumerate() {
        push_index_faults(alloc, out, table, i, index.0.as_str())?;
    }
    Ok(())
}

/// Each declaration that `open` refuses `BadTable`, and why, a line each; empty if it refuses none.
/// Refused only when out of memory.
///
/// - `tables`: what was declared.
pub(crate) fn opening_faults(alloc: Global, tables: &[TableDef]) -> Result<String, AllocError> {
    if tables.is_empty() {
        return "no table is declared".to_string(alloc);
    }
    let mut out = String::new(alloc);
    for (place, table) in tables.iter().enumerate() {
        push_faults(alloc, &mut out, tables, place, table)?;
    }
    if !out.is_empty() {
        out.push_str("\nall must be declared again")?;
    }
    Ok(out)
}
