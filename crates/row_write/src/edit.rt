//! The row that an operation leaves.
ghost use Rattle.std.specs.Prelude.{◌≡◌, ◌++◌, [], IfOk, IfSome, OnOk, option_map};
ghost use Rattle.std.specs.FinMap as map;
ghost use Rattle.element_state.specs.Operations.{cells_of};
ghost use Rattle.row_write.specs.Plain.{cell_of, key_of, with_cells as with_cells_of};
ghost use Rattle.row_write.specs.inner.Changes.{left_of};
ghost use Rattle.row_write.specs.inner.View.{with_prefix};
ghost use Rattle.row_write.specs.inner.Run.{cells_in, cells_but};

use crate::op::RowOp;
use collections::List;
use keycode::{Value, Values};
use row_map::Row;
use std::alloc::{AllocError, Global};

fn copy_value(value: &Value) -> Result<Value, AllocError>
    ensures { IfOk result (λ copy. copy ≡ value.now) }
{
    value.clone()
}

/// A copy of a key.
pub(crate) fn copy_key(key: &Values) -> Result<Values, AllocError>
    ensures { IfOk result (λ copy. copy ≡ key.now) }
{
    key.clone()
}

fn copy_cells(cells: &List<(u32, Value)>) -> Result<List<(u32, Value)>, AllocError>
    ensures { IfOk result (λ copy. copy ≡ cells.now) }
{
    cells.clone()
}

/// Takes the cell of a column away.
fn forget(cells: &mut Vec<(u32, Value)>, number: u32)
    ensures { cells.new.items ≡ cells_but number cells.old.items }
{
    cells.retain(|cell| cell.0 != number);
}

/// Adds a cell. Null is none.
fn push_value(out: &mut Vec<(u32, Value)>, number: u32, value: &Value) -> Result<(), AllocError>
    ensures { OnOk result (out.new.items ≡ out.old.items ++ with_prefix number (cell_of value.now) []) }
{
    match value {
        Value::Null => Ok(()),
        Value::Int(_) | Value::Text(_) | Value::Bool(_) => {
            let copy = copy_value(value)?;
            out.push((number, copy))?;
            Ok(())
        }
    }
}

/// Gives one column another value.
fn set_cell(cells: &mut Vec<(u32, Value)>, number: u32, value: &Value) -> Result<(), AllocError>
    ensures { OnOk result (cells.new.items ≡ cells_but number cells.old.items ++ with_prefix number (cell_of value.now) []) }
{
    forget(cells, number);
    push_value(cells, number, value)
}

/// The cells with the named values.
fn with_cells(
    cells: Vec<(u32, Value)>,
    named: &[(u32, Value)],
) -> Result<Vec<(u32, Value)>, AllocError>
    ensures { IfOk result (λ next. cells_in next.items ≡ with_cells_of (cells_in cells.items) named.now) }
{
    let mut next = cells;
    for (number, value) in named {
        set_cell(&mut next, *number, value)?;
    }
    Ok(next)
}

fn new_row(
    key: &Values,
    cells: Vec<(u32, Value)>,
    named: &[(u32, Value)],
) -> Result<Row, AllocError>
    ensures key { IfOk result (λ row. row.key ≡ key.now) }
    ensures cells { IfOk result (λ row. cells_of row ≡ with_cells_of (cells_in cells.items) named.now) }
{
    let cells = List::new(with_cells(cells, named)?);
    let key = copy_key(key)?;
    Ok(Row { key, cells })
}

/// The row that an insert leaves.
pub(crate) fn inserted_row(
    alloc: Global,
    key: &Values,
    named: &[(u32, Value)],
) -> Result<Row, AllocError>
    ensures key { IfOk result (λ row. row.key ≡ key.now) }
    ensures cells { IfOk result (λ row. cells_of row ≡ with_cells_of map.empty named.now) }
{
    new_row(key, Vec::with_capacity(alloc, named.len())?, named)
}

/// The row that an update leaves.
pub(crate) fn updated_row(
    old: &Row,
    key: &Values,
    named: &[(u32, Value)],
) -> Result<Row, AllocError>
    ensures key { IfOk result (λ row. row.key ≡ key.now) }
    ensures cells { IfOk result (λ row. cells_of row ≡ with_cells_of (cells_of old.now) named.now) }
{
    let cells = copy_cells(&old.cells)?;
    new_row(key, cells.into_vec(), named)
}

/// The row that an operation leaves of the old one, if it leaves one.
pub(crate) fn left_row(
    alloc: Global,
    old: Option<&Row>,
    op: &RowOp,
) -> Result<Option<Row>, AllocError>
    ensures key { IfOk result (λ new. IfSome new (λ row. row.key ≡ key_of op.now)) }
    ensures cells { IfOk result (λ new. option_map cells_of new ≡ left_of (option_map (λ r. cells_of r.now) old.entry) op.now) }
{
    match op {
        RowOp::Insert { key, cells, .. } => {
            Ok(Some(inserted_row(alloc, key, cells.as_slice())?))
        }
        RowOp::Update { key, cells, .. } => match old {
            Some(old) => Ok(Some(updated_row(old, key, cells.as_slice())?)),
            None => Ok(None),
        },
        RowOp::Delete { .. } => Ok(None),
    }
}
