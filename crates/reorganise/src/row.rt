//! The row of an item, as the pairs that were read encode it.
ghost use Rattle.std.specs.Prelude.{◌≡◌, IfOk};
ghost use Rattle.reorganise.specs.Batches.{but_null as but_null_of, cell_in, cells_in, typed_in, one_cell as one_cell_of, cells_for, row_in};

use byte_map::{Bytes, KeyMap};
use collections::List;
use keycode::{Value, Values};
use row_map::{ColumnType, Row, column_key, read_cell, read_typed_value};
use schema_version::{ElementDef, Kind};
use std::alloc::{AllocError, Global};

/// A value that is not Null.
fn but_null(value: Option<Value>) -> Option<Value>
    ensures { result ≡ but_null_of value }
{
    match value {
        Some(Value::Null) => None,
        value => value,
    }
}

/// The value of a row in a column, if its pair encodes one.
fn cell(
    alloc: Global,
    pairs: &KeyMap<Bytes>,
    table: u32,
    key: &[Value],
    column: u32,
) -> Result<Option<Value>, AllocError>
    ensures { IfOk result (λ v. v ≡ cell_in pairs.now table key.now column) }
{
    Ok(but_null(read_cell(alloc, pairs, table, key, column)?))
}

/// The cells of a row in these columns.
fn cells(
    alloc: Global,
    pairs: &KeyMap<Bytes>,
    table: u32,
    key: &[Value],
    columns: &[u32],
) -> Result<List<(u32, Value)>, AllocError>
    ensures { IfOk result (λ cells. cells ≡ cells_in pairs.now table key.now columns.now) }
{
    let mut cells = Vec::new(alloc);
    for column in columns {
        if let Some(value) = cell(alloc, pairs, table, key, *column)? {
            cells.push((*column, value))?;
        }
    }
    Ok(List::new(cells))
}

/// The value of a row in a column of this type, if its pair encodes one.
fn typed_cell(
    alloc: Global,
    pairs: &KeyMap<Bytes>,
    kind: ColumnType,
    table: u32,
    key: &[Value],
    column: u32,
) -> Result<Option<Value>, AllocError>
    ensures { IfOk result (λ v. v ≡ typed_in pairs.now kind table key.now column) }
{
    let name = column_key(alloc, table, key, column)?;
    match pairs.get(name.as_slice()) {
        None => Ok(None),
        Some(bytes) => read_typed_value(alloc, kind, bytes.as_slice()),
    }
}

/// One cell, if there is a value for it.
fn one_cell(
    alloc: Global,
    column: u32,
    value: Option<Value>,
) -> Result<List<(u32, Value)>, AllocError>
    ensures { IfOk result (λ cells. cells ≡ one_cell_of column value) }
{
    let mut cells = Vec::new(alloc);
    if let Some(value) = value {
        cells.push((column, value))?;
    }
    Ok(List::new(cells))
}

/// The cells of a row that the element's pair is made from: those of an index's columns, or that of
/// a required column.
fn needed_cells(
    alloc: Global,
    pairs: &KeyMap<Bytes>,
    element: &ElementDef,
    key: &[Value],
) -> Result<List<(u32, Value)>, AllocError>
    ensures { IfOk result (λ found. found ≡ cells_for pairs.now element.now key.now element.now.kind) }
{
    match &element.kind {
        Kind::Index(columns) => cells(alloc, pairs, element.table, key, columns.as_slice()),
        Kind::Optional(_) => Ok(List::new(Vec::new(alloc))),
        Kind::Required { column, .. } => {
            let value = typed_cell(alloc, pairs, *column, element.table, key, element.number)?;
            one_cell(alloc, element.number, value)
        }
    }
}

/// The row of a primary key, with the cells that the element's pair is made from, in the element's
/// order.
pub(crate) fn row(
    alloc: Global,
    pairs: &KeyMap<Bytes>,
    element: &ElementDef,
    key: Values,
) -> Result<Row, AllocError>
    ensures { IfOk result (λ row. row ≡ row_in pairs.now element.now key) }
{
    let cells = needed_cells(alloc, pairs, element, key.as_slice())?;
    Ok(Row { key, cells })
}
