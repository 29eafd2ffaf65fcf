//! The rows that a view encodes.
ghost use Rattle.std.specs.Prelude.{◌≡◌, ◌++◌, [], Some, IfOk, IfErr, OnOk, option_map, length};
ghost use Rattle.std.specs.FinMap as map;
ghost use Rattle.keycode.specs.declared.value.Value.{Value};
ghost use Rattle.row_map.specs.Cell.{IsTypedEncoding};
ghost use Rattle.row_write.specs.inner.View.{IsMissed, IsCell, IsThere, with_prefix, AreCells, visible_at, IsVisible, IsExistsKey, AreHeld};

use crate::fault::PrepareFault;
use crate::op::RowOp;
use byte_map::Bytes;
use collections::List;
use keycode::Value;
use row_map::{ColumnType, ReadView, column_key, read_typed_value};
use std::alloc::{AllocError, Global};

/// The one value that the bytes encode, which has to be of the type.
fn encoded_value(alloc: Global, kind: ColumnType, bytes: &[u8]) -> Result<Value, PrepareFault>
    ensures found { IfOk result (λ value. IsTypedEncoding kind bytes.now value) }
    ensures missed { IfErr result (IsMissed ((value : Value) → ¬ (IsTypedEncoding kind bytes.now value))) }
{
    let found = read_typed_value(alloc, kind, bytes)?;
    match found {
        Some(value) => Ok(value),
        None => Err(PrepareFault::ViewMismatch),
    }
}

/// A column's cell, from what was read at its key. A row that isn't there has none.
fn visible_cell(
    alloc: Global,
    kind: ColumnType,
    there: bool,
    visible: Option<&Option<Bytes>>,
) -> Result<Option<Value>, PrepareFault>
    ensures found { IfOk result (λ cell. IsCell kind there (option_map (λ s. s.now) visible.entry) cell) }
    ensures missed { IfErr result (IsMissed ((cell : _) → ¬ (IsCell kind there (option_map (λ s. s.now) visible.entry) cell))) }
{
    match visible {
        None => Err(PrepareFault::ViewMismatch),
        Some(None) => Ok(None),
        Some(Some(bytes)) => {
            if there {
                Ok(Some(encoded_value(alloc, kind, bytes.as_slice())?))
            } else {
                Err(PrepareFault::ViewMismatch)
            }
        }
    }
}

/// Whether a row is there, from what was read at the key of its `exists` pair.
fn visible_presence(visible: Option<&Option<Bytes>>) -> Result<bool, PrepareFault>
    ensures found { IfOk result (λ there. IsThere (option_map (λ s. s.now) visible.entry) there) }
    ensures missed { IfErr result (IsMissed ((there : _) → ¬ (IsThere (option_map (λ s. s.now) visible.entry) there))) }
{
    match visible {
        None => Err(PrepareFault::ViewMismatch),
        Some(None) => Ok(false),
        Some(Some(bytes)) => {
            if bytes.is_empty() {
                Ok(true)
            } else {
                Err(PrepareFault::ViewMismatch)
            }
        }
    }
}

fn read_cell(
    alloc: Global,
    view: &ReadView,
    op: &RowOp,
    there: bool,
    number: u32,
    kind: ColumnType,
) -> Result<Option<Value>, PrepareFault>
    ensures found { IfOk result (λ cell. IsCell kind there (visible_at view.now op.now number) cell) }
    ensures missed { IfErr result (IsMissed ((cell : _) → ¬ (IsCell kind there (visible_at view.now op.now number) cell))) }
{
    let key = column_key(alloc, op.table(), op.key().as_slice(), number)?;
    visible_cell(alloc, kind, there, view.get(key.as_slice()))
}

fn push_cell(
    cells: &mut Vec<(u32, Value)>,
    number: u32,
    cell: Option<Value>,
) -> Result<(), AllocError>
    ensures { OnOk result (cells.new.items ≡ cells.old.items ++ with_prefix number cell []) }
{
    if let Some(value) = cell {
        cells.push((number, value))?;
    }
    Ok(())
}

fn read_cells(
    alloc: Global,
    view: &ReadView,
    op: &RowOp,
    there: bool,
    columns: &[(u32, ColumnType)],
) -> Result<List<(u32, Value)>, PrepareFault>
    ensures found { IfOk result (λ cells. AreCells there (visible_at view.now op.now) columns.now cells) }
    ensures missed { IfErr result (IsMissed ((cells : _) → ¬ (AreCells there (visible_at view.now op.now) columns.now cells))) }
{
    let mut cells = Vec::new(alloc);
    for (number, kind) in columns {
        let cell = read_cell(alloc, view, op, there, *number, *kind)?;
        push_cell(&mut cells, *number, cell)?;
    }
    Ok(List::new(cells))
}

/// Whether the operation's row is there, and its cells of these columns, by a look-up of each key.
///
/// - `exists`: the key of the row's `exists` pair.
pub(crate) fn read_row(
    alloc: Global,
    view: &ReadView,
    op: &RowOp,
    columns: &[(u32, ColumnType)],
    exists: &Bytes,
) -> Result<(bool, List<(u32, Value)>), PrepareFault>
    requires { IsExistsKey op.now exists.now }
    ensures found { IfOk result (λ row. IsVisible view.now op.now columns.now row.0 row.1) }
    ensures missed { IfErr result (IsMissed ((there : _) (cells : _) → ¬ (IsVisible view.now op.now columns.now there cells))) }
{
    let there = visible_presence(view.get(exists.as_slice()))?;
    let cells = read_cells(alloc, view, op, there, columns)?;
    Ok((there, cells))
}

/// Whether the row is there, from the entry of its `exists` pair.
pub(crate) fn presence_in(entry: &(Bytes, Option<Bytes>)) -> Result<bool, PrepareFault>
    ensures found { IfOk result (λ there. IsThere (Some entry.now.1) there) }
    ensures missed { IfErr result (IsMissed ((there : _) → ¬ (IsThere (Some entry.now.1) there))) }
{
    visible_presence(Some(&entry.1))
}

/// A column's cell, from the entry of its pair.
fn cell_in(
    alloc: Global,
    kind: ColumnType,
    there: bool,
    entry: &(Bytes, Option<Bytes>),
) -> Result<Option<Value>, PrepareFault>
    ensures found { IfOk result (λ cell. IsCell kind there (Some entry.now.1) cell) }
    ensures missed { IfErr result (IsMissed ((cell : _) → ¬ (IsCell kind there (Some entry.now.1) cell))) }
{
    visible_cell(alloc, kind, there, Some(&entry.1))
}

/// The cells of columns, from the entries of their pairs in the columns' order.
pub(crate) fn cells_in(
    alloc: Global,
    there: bool,
    entries: &[(Bytes, Option<Bytes>)],
    columns: &[(u32, ColumnType)],
) -> Result<List<(u32, Value)>, PrepareFault>
    requires { length entries.now ≡ length columns.now }
    ensures found { IfOk result (λ cells. (visible : _) → AreHeld visible columns.now entries.now → AreCells there visible columns.now cells) }
    ensures missed { IfErr result (IsMissed ((visible : _) → AreHeld visible columns.now entries.now → (cells : _) → ¬ (AreCells there visible columns.now cells))) }
{
    let mut cells = Vec::new(alloc);
    for i in 0..columns.len() {
        let (number, kind) = columns[i];
        let cell = cell_in(alloc, kind, there, &entries[i])?;
        push_cell(&mut cells, number, cell)?;
    }
    Ok(List::new(cells))
}
