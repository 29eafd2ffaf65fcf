//! The rows that a query answers.
ghost use Rattle.std.specs.Prelude.{◌≡◌, ◌==◌, ◌++◌, IfOk, OnOk, codes, string_bytes};
ghost use Rattle.std.specs.List.{find, flat_map};
ghost use Rattle.std.specs.Option.{option_copied};
ghost use mathlib.Core.List.{map};
ghost use Rattle.script_grammar.specs.Print.{value_text};
ghost use Rattle.row_query.specs.Answer.{is_named};
ghost use Rattle.script_replies.specs.Rows.{is_shown, shown, joined, value_or_null, cell_text, cells_text, row_line, rows_text};

use crate::numbers::push_numbered;
use keycode::{Text, Value};
use row_map::Row;
use row_query::Query;
use schema_version::{ElementDef, Schema};
use script_grammar::push_value;
use std::alloc::{AllocError, Global};

fn is_named(columns: &[u32], number: u32) -> bool
    ensures { result ≡ is_named columns.now number }
{
    columns.iter().any(|c| number == *c)
}

fn is_shown(query: &Query, element: &ElementDef) -> bool
    ensures { result ≡ is_shown query.now element.now }
{
    element.is_public_column(query.table) && is_named(query.columns.as_slice(), element.number)
}

// The columns that a query shows, by rising number, each with its name.
fn shown_columns(
    alloc: Global,
    schema: &Schema,
    query: &Query,
) -> Result<Vec<(u32, Text)>, AllocError>
    ensures { IfOk result (λ columns. columns.items ≡ shown schema.now query.now) }
{
    let mut columns = Vec::new(alloc);
    for element in schema.elements() {
        if is_shown(query, element) {
            columns.push((element.number, element.name.clone()?))?;
        }
    }
    Ok(columns)
}

// Values, a comma before each.
fn push_more_values(out: &mut String, values: &[Value]) -> Result<(), AllocError>
    ensures { OnOk result (string_bytes out.new ≡ string_bytes out.old ++ flat_map (λ t. codes ", " ++ t) (map value_text values.now)) }
{
    for value in values {
        out.push_str(", ")?;
        push_value(out, value)?;
    }
    Ok(())
}

fn push_key(out: &mut String, key: &[Value]) -> Result<(), AllocError>
    ensures { OnOk result (string_bytes out.new ≡ string_bytes out.old ++ joined (map value_text key.now)) }
{
    let [first, others @ ..] = key else {
        return Ok(());
    };
    push_value(out, first)?;
    push_more_values(out, others)
}

fn find_cell(cells: &[(u32, Value)], number: u32) -> Option<&(u32, Value)>
    ensures { option_copied result ≡ find (λ cell. cell.0 == number) cells.now }
{
    cells.iter().find(|cell| cell.0 == number)
}

fn push_found(out: &mut String, cell: Option<&(u32, Value)>) -> Result<(), AllocError>
    ensures { OnOk result (string_bytes out.new ≡ string_bytes out.old ++ value_text (value_or_null (option_copied cell.entry))) }
{
    match cell {
        None => out.push_str("null"),
        Some(cell) => push_value(out, &cell.1),
    }
}

fn push_cell(out: &mut String, row: &Row, column: &(u32, Text)) -> Result<(), AllocError>
    ensures { OnOk result (string_bytes out.new ≡ string_bytes out.old ++ cell_text row.now column.now) }
{
    let cell = find_cell(row.cells.as_slice(), column.0);
    out.push_str(column.1.as_str())?;
    out.push_str(" = ")?;
    push_found(out, cell)?;
    Ok(())
}

// Cells, a comma before each.
fn push_more_cells(out: &mut String, row: &Row, columns: &[(u32, Text)]) -> Result<(), AllocError>
    ensures { OnOk result (string_bytes out.new ≡ string_bytes out.old ++ flat_map (λ t. codes ", " ++ t) (map (cell_text row.now) columns.now)) }
{
    for column in columns {
        out.push_str(", ")?;
        push_cell(out, row, column)?;
    }
    Ok(())
}

fn push_cells(out: &mut String, row: &Row, columns: &[(u32, Text)]) -> Result<(), AllocError>
    ensures { OnOk result (string_bytes out.new ≡ string_bytes out.old ++ cells_text (map (cell_text row.now) columns.now)) }
{
    let [first, others @ ..] = columns else {
        return Ok(());
    };
    out.push_str(" ")?;
    push_cell(out, row, first)?;
    push_more_cells(out, row, others)
}

fn push_row(out: &mut String, row: &Row, columns: &[(u32, Text)]) -> Result<(), AllocError>
    ensures { OnOk result (string_bytes out.new ≡ string_bytes out.old ++ row_line columns.now row.now) }
{
    out.push_str("row (")?;
    push_key(out, row.key.as_slice())?;
    out.push_str(")")?;
    push_cells(out, row, columns)?;
    out.push_str("\n")
}

fn push_rows(out: &mut String, rows: &[Row], columns: &[(u32, Text)]) -> Result<(), AllocError>
    ensures { OnOk result (string_bytes out.new ≡ string_bytes out.old ++ flat_map (row_line columns.now) rows.now) }
{
    for row in rows {
        push_row(out, row, columns)?;
    }
    Ok(())
}

/// The rows of a query: a line `row (KEY) COLUMN = VALUE, ..` for each, and then `ok rows ROWS`.
/// The line of a row has the public columns of the table that the query names, by rising number,
/// `null` if the row has no value; it is `row (KEY)` if there is none.
///
/// - `schema`: the version under which the query was asked, which has the columns' names.
/// - `query`: the query.
/// - `rows`: what was answered.
pub fn rows_text(
    alloc: Global,
    schema: &Schema,
    query: &Query,
    rows: &[Row],
) -> Result<String, AllocError>
    ensures { IfOk result (λ text. string_bytes text ≡ rows_text (shown schema.now query.now) rows.now) }
{
    let columns = shown_columns(alloc, schema, query)?;
    let mut text = String::new(alloc);
    push_rows(&mut text, rows, columns.as_slice())?;
    push_numbered(&mut text, "ok rows ", rows.len() as u64)?;
    Ok(text)
}
