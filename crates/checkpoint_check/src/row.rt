//! The rows that a store's pairs store.
ghost use Rattle.std.specs.Prelude.{◌≡◌, IfOk, option_map, filter_map};
ghost use Rattle.schema_version.specs.Version.{live};
ghost use Rattle.checkpoint.specs.Stored.{is_stored as is_stored_of, stored_type as stored_type_of, value_of_pair};
ghost use Rattle.checkpoint_check.specs.inner.Judged.{stored_cell as stored_cell_of, stored_row as stored_row_of};

use collections::List;
use keycode::{Value, Values};
use row_map::{ColumnType, Near, PairView, Row, column_key, read_typed_value};
use schema_version::{ElementDef, Schema, Way};
use std::alloc::{AllocError, Global};

// The value of a pair, if it is one value of the type and no more.
fn decode_value(
    alloc: Global,
    kind: ColumnType,
    bytes: Option<&[u8]>,
) -> Result<Option<Value>, AllocError>
    ensures { IfOk result (λ value. value ≡ value_of_pair kind (option_map (λ b. b.now) bytes.entry)) }
{
    match bytes {
        None => Ok(None),
        Some(bytes) => read_typed_value(alloc, kind, bytes),
    }
}

// Whether a column's pairs are values of the rows: it is public, or was.
fn is_stored(element: &ElementDef) -> bool
    ensures { result ≡ is_stored_of element.now }
{
    element.state.is_public() || matches!(element.way, Way::Dropping)
}

// The type of such a column of the table.
fn stored_type(element: &ElementDef, table: u32) -> Option<ColumnType>
    ensures { result ≡ stored_type_of table element.now }
{
    if element.table != table || !is_stored(element) {
        return None;
    }
    element.kind.column_type()
}

// The cell that a row has for an element.
fn stored_cell<V: PairView>(
    alloc: Global,
    view: &V,
    near: &mut Near,
    table: u32,
    key: &[Value],
    element: &ElementDef,
) -> Result<Option<(u32, Value)>, AllocError>
    ensures { IfOk result (λ cell. cell ≡ stored_cell_of (V.pairs view.now) table key.now element.now) }
{
    let Some(kind) = stored_type(element, table) else {
        return Ok(None);
    };
    let at = column_key(alloc, table, key, element.number)?;
    match decode_value(alloc, kind, view.get_near(at.as_slice(), near))? {
        Some(value) => Ok(Some((element.number, value))),
        None => Ok(None),
    }
}

fn stored_cells<V: PairView>(
    alloc: Global,
    elements: &[ElementDef],
    view: &V,
    near: &mut Near,
    table: u32,
    key: &[Value],
) -> Result<Vec<(u32, Value)>, AllocError>
    ensures { IfOk result (λ cells. cells.items ≡ filter_map (stored_cell_of (V.pairs view.now) table key.now) elements.now) }
{
    let mut cells = Vec::new(alloc);
    for element in elements {
        if let Some(cell) = stored_cell(alloc, view, near, table, key, element)? {
            cells.push(cell)?;
        }
    }
    Ok(cells)
}

fn copy_of(value: &Value) -> Result<Value, AllocError>
    ensures { IfOk result (λ copy. copy ≡ value.now) }
{
    value.clone()
}

// A copy of a key's values.
fn copy_values(alloc: Global, values: &[Value]) -> Result<Values, AllocError>
    ensures { IfOk result (λ copy. copy ≡ values.now) }
{
    let mut copy = Vec::with_capacity(alloc, values.len())?;
    for value in values {
        copy.push(copy_of(value)?)?;
    }
    Ok(List::new(copy))
}

/// The row of a primary key, as the pairs store it: the values of its table's columns that are
/// public, or were. Refused only when out of memory.
pub(crate) fn stored_row<V: PairView>(
    alloc: Global,
    newest: &Schema,
    view: &V,
    near: &mut Near,
    table: u32,
    key: &[Value],
) -> Result<Row, AllocError>
    ensures { IfOk result (λ row. row ≡ stored_row_of newest.now (V.pairs view.now) table key.now) }
{
    let cells = stored_cells(alloc, newest.elements(), view, near, table, key)?;
    Ok(Row {
        key: copy_values(alloc, key)?,
        cells: List::new(cells),
    })
}
