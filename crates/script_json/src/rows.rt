//! A page of rows as JSON.
use crate::elements::cell_text;
use crate::object::{Object, put_flag, put_list, put_number, put_text};
use keycode::Value as Cell;
use script_progress::script_session::Opened;
use script_rows::{Found, Page, PageRow, PairOf, page_of, read_rows_line};
use serde_json::{Map, Value};
use std::alloc::{AllocError, Global};

// Values as the language has them.
fn cells_of(alloc: Global, cells: &[Cell]) -> Result<Vec<Value>, AllocError> {
    let mut texts = Vec::new(alloc);
    for cell in cells {
        texts.push(Value::String(cell_text(alloc, cell)?))?;
    }
    Ok(texts)
}

fn put_found(alloc: Global, out: &mut Object, found: &Found) -> Result<(), AllocError> {
    put_flag(alloc, out, "present", !matches!(found, Found::Nothing))?;
    match found {
        Found::Value(value) => {
            let text = cell_text(alloc, value)?;
            put_text(alloc, out, "value", text.as_str())
        }
        Found::Pair | Found::Nothing => Ok(()),
    }
}

fn pair_values(alloc: Global, pairs: &[PairOf]) -> Result<Vec<Value>, AllocError> {
    let mut values = Vec::new(alloc);
    for pair in pairs {
        let mut out = Map::new(alloc);
        put_number(alloc, &mut out, "number", u64::from(pair.number))?;
        put_found(alloc, &mut out, &pair.found)?;
        values.push(Value::Object(out))?;
    }
    Ok(values)
}

fn put_row(alloc: Global, out: &mut Object, row: &PageRow) -> Result<(), AllocError> {
    let key = cells_of(alloc, row.key.as_slice())?;
    put_list(alloc, out, "key", key)?;
    let pairs = pair_values(alloc, row.pairs.as_slice())?;
    put_list(alloc, out, "pairs", pairs)
}

fn row_values(alloc: Global, rows: &[PageRow]) -> Result<Vec<Value>, AllocError> {
    let mut values = Vec::new(alloc);
    for row in rows {
        let mut out = Map::new(alloc);
        put_row(alloc, &mut out, row)?;
        values.push(Value::Object(out))?;
    }
    Ok(values)
}

fn put_page(alloc: Global, out: &mut Object, page: &Page) -> Result<(), AllocError> {
    let rows = row_values(alloc, page.rows.as_slice())?;
    put_list(alloc, out, "rows", rows)?;
    let Some(key) = &page.next else {
        return Ok(());
    };
    let next = cells_of(alloc, key.as_slice())?;
    put_list(alloc, out, "next", next)
}

fn page_value(alloc: Global, page: &Page) -> Result<Value, AllocError> {
    let mut out = Map::new(alloc);
    put_page(alloc, &mut out, page)?;
    Ok(Value::Object(out))
}

/// The page that a line `rows TABLE [from KEY] limit N` asks for: its `rows`, each with its `key` and
/// the `pairs` of the table's elements (`number`, whether it is `present`, and the `value` of a column), and
/// the key of the `next` row if there is one. `None` if it is no such line, or there is no such table.
/// Refused only when out of memory.
///
/// - `opened`: the world.
/// - `line`: the line without its ending.
pub(crate) fn rows_value(
    alloc: Global,
    opened: &Opened,
    line: &str,
) -> Result<Option<Value>, AllocError> {
    let Some(asked) = read_rows_line(alloc, line.as_bytes())? else {
        return Ok(None);
    };
    match page_of(alloc, opened, &asked)? {
        Some(page) => Ok(Some(page_value(alloc, &page)?)),
        None => Ok(None),
    }
}
