//! Whether operations are of known tables, public columns and their types.
ghost use Rattle.std.specs.Prelude.{◌≡◌, ◌==◌, true, None};
ghost use Rattle.std.specs.List.{list_any, AllByRecursion};
ghost use Rattle.keycode.specs.Valid.{IsValue, AreValues};
ghost use Rattle.row_write.specs.inner.Checks.{first_hidden as first_hidden_of, suits as suits_of, suits_all as suits_all_of, is_key_for as is_key_for_of, are_distinct, is_typed as is_typed_of, op_check, ops_check, AreKnown, AreKnownUntil};

use crate::fault::PrepareFault;
use crate::op::RowOp;
use crate::values::names;
use keycode::{Text, Value};
use row_map::{ColumnType, fits};
use schema_version::{ElementDef, Schema, public_column_type};

/// The first named number that is no public column of the table.
fn first_hidden(elements: &[ElementDef], table: u32, cells: &[(u32, Value)]) -> Option<u32>
    ensures { result ≡ first_hidden_of elements.now table cells.now }
{
    for (number, _value) in cells {
        if public_column_type(elements, table, *number).is_none() {
            return Some(*number);
        }
    }
    None
}

fn suits(kind: Option<ColumnType>, value: &Value) -> bool
    ensures test { result ≡ suits_of kind value.now }
    ensures known { result ≡ true → IsValue value.now }
{
    match kind {
        None => false,
        Some(kind) => fits(kind, value) || matches!(value, Value::Null),
    }
}

/// Whether the named values are of their columns' types, or Null.
fn suits_all(elements: &[ElementDef], table: u32, cells: &[(u32, Value)]) -> bool
    ensures test { result ≡ suits_all_of elements.now table cells.now }
    ensures known { result ≡ true → AllByRecursion (λ c. IsValue c.1) cells.now }
{
    for (number, value) in cells {
        if !suits(public_column_type(elements, table, *number), value) {
            return false;
        }
    }
    true
}

/// Whether the values are a key of the table.
fn is_key_for(columns: &[(Text, ColumnType)], key: &[Value]) -> bool
    ensures test { result ≡ is_key_for_of columns.now key.now }
    ensures known { result ≡ true → AreValues key.now }
{
    if columns.len() != key.len() {
        return false;
    }
    for i in 0..key.len() {
        if !fits(columns[i].1, &key[i]) {
            return false;
        }
    }
    true
}

/// Whether no column is named twice.
fn is_distinct(cells: &[(u32, Value)]) -> bool
    ensures { result ≡ are_distinct cells.now }
{
    match cells {
        [] => true,
        [first, rest @ ..] => !names(rest, first.0) && is_distinct(rest),
    }
}

fn is_typed(columns: &[(Text, ColumnType)], elements: &[ElementDef], op: &RowOp) -> bool
    ensures test { result ≡ is_typed_of columns.now elements.now op.now }
    ensures known { result ≡ true → AreKnown op.now }
{
    is_key_for(columns, op.key().as_slice())
        && suits_all(elements, op.table(), op.cells())
        && is_distinct(op.cells())
}

/// The operation's lowest fault.
fn op_fault(schema: &Schema, op: &RowOp) -> Option<PrepareFault>
    ensures test { result ≡ op_check schema.now op.now }
    ensures known { result ≡ None → AreKnown op.now }
{
    let Some(columns) = schema.key_of(op.table()) else {
        return Some(PrepareFault::NoTable);
    };
    let elements = schema.elements();
    if let Some(column) = first_hidden(elements, op.table(), op.cells()) {
        return Some(PrepareFault::NotPublic { column });
    }
    if is_typed(columns, elements, op) {
        None
    } else {
        Some(PrepareFault::WrongType)
    }
}

/// The fault of the first operation with one.
pub(crate) fn first_fault(schema: &Schema, ops: &[RowOp]) -> Option<PrepareFault>
    ensures test { result ≡ ops_check schema.now ops.now }
    ensures known { AreKnownUntil schema.now ops.now }
{
    for op in ops {
        if let Some(fault) = op_fault(schema, op) {
            return Some(fault);
        }
    }
    None
}
