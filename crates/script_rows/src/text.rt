//! A page of rows in words.
use crate::line::{RowsLine, read_rows_line};
use crate::page::{Page, PageRow, read_page};
use crate::pairs::{Found, PairOf};
use schema_version::Schema;
use script_grammar::push_value;
use script_views::script_session::Opened;
use script_views::{missing_table, push_tuple};
use std::alloc::{AllocError, Global};

// An element by its name: a column with its value, or an index that has the row's pair.
fn push_pair(out: &mut String, schema: &Schema, pair: &PairOf) -> Result<(), AllocError> {
    let Some(element) = schema.element(pair.number) else {
        return Ok(());
    };
    let name = element.name.as_str();
    match &pair.found {
        Found::Nothing => write!(out, "  {name} -"),
        Found::Pair => write!(out, "  {name} +"),
        Found::Value(value) => {
            write!(out, "  {name} = ")?;
            push_value(out, value)
        }
    }
}

fn push_row(out: &mut String, schema: &Schema, row: &PageRow) -> Result<(), AllocError> {
    push_tuple(out, row.key.as_slice())?;
    for pair in row.pairs.as_slice() {
        push_pair(out, schema, pair)?;
    }
    out.push_str("\n")
}

fn page_text(alloc: Global, schema: &Schema, page: &Page) -> Result<String, AllocError> {
    let mut out = String::new(alloc);
    for row in page.rows.as_slice() {
        push_row(&mut out, schema, row)?;
    }
    match &page.next {
        Some(key) => {
            out.push_str("the next row is ")?;
            push_tuple(&mut out, key.as_slice())?;
        }
        None if page.rows.len() == 0 => out.push_str("no row is there")?,
        None => {}
    }
    Ok(out)
}

/// The page that a line asks for, if the newest version has its table. Refused only when out of memory.
///
/// - `opened`: the world, which is only read.
/// - `line`: what the line asks for.
pub fn page_of(
    alloc: Global,
    opened: &Opened,
    line: &RowsLine,
) -> Result<Option<Page>, AllocError> {
    let schema = opened.world.newest().get();
    let Some(table) = schema.table(line.table.as_str()) else {
        return Ok(None);
    };
    let from = line.from.as_slice();
    let page = read_page(alloc, schema, &opened.world, table, from, line.limit)?;
    Ok(Some(page))
}

/// What a line `rows TABLE [from KEY] limit N` shows: each row by its key with each element of the table
/// by the newest version, a column with its value, an index with `+` if the row's pair is there, and `-`
/// for no pair; and the key of the next row. If the line is no such line, that it is none. Refused only
/// when out of memory.
///
/// - `opened`: the world, which is only read.
/// - `line`: the line without its ending.
pub fn rows_view(alloc: Global, opened: &Opened, line: &str) -> Result<String, AllocError> {
    let Some(asked) = read_rows_line(alloc, line.as_bytes())? else {
        return "rows TABLE limit N, or rows TABLE from KEY limit N: 1 to 1,000 rows".to_string(
            alloc,
        );
    };
    let schema = opened.world.newest().get();
    if let Some(missing) = missing_table(alloc, schema, &asked.table)? {
        return Ok(missing);
    }
    match page_of(alloc, opened, &asked)? {
        Some(page) => page_text(alloc, schema, &page),
        None => Ok(String::new(alloc)),
    }
}
