//! The first wrong value of a transaction.
ghost use Rattle.std.specs.Prelude.{◌≡◌, ◌==◌, None, is_some, IfSome, IfNone};
ghost use Rattle.std.specs.List.{list_any, AllByRecursion};
ghost use Rattle.keycode.specs.Valid.{IsValue};
ghost use Rattle.row_write.specs.declared.fault.PrepareFault.TheVariants.{WrongType};
ghost use Rattle.row_write.specs.Plain.{table_of, key_of as key_of_op, named_of};
ghost use Rattle.row_write.specs.Prepare.{IsFirstOpFault};
ghost use Rattle.row_write.specs.inner.Checks.{first_hidden, AreKnown};
ghost use Rattle.value_faults.specs.Faults.{wrong_named as wrong_named_of, named_again as named_again_of, named_twice as named_twice_of, wrong_operation as wrong_operation_of, IsTxnFault};
ghost use Rattle.value_faults.specs.inner.Found.{op_found as op_found_of, ops_found, AreKnownUntil};

use crate::fault::{ValueCause, ValueFault};
use crate::finding::{Finding, of_cause};
use crate::values::{Rule, wrong_for, wrong_key};
use keycode::{Text, Value, Values};
use row_map::ColumnType;
use row_write::RowOp;
use schema_version::{ElementDef, Schema, public_column_type};

fn table_of(op: &RowOp) -> u32
    ensures { result ≡ table_of op.now }
{
    match op {
        RowOp::Insert { table, .. } => *table,
        RowOp::Update { table, .. } => *table,
        RowOp::Delete { table, .. } => *table,
    }
}

fn key_of(op: &RowOp) -> &Values
    ensures { result.now ≡ key_of_op op.now }
{
    match op {
        RowOp::Insert { key, .. } => key,
        RowOp::Update { key, .. } => key,
        RowOp::Delete { key, .. } => key,
    }
}

fn cells_of(op: &RowOp) -> &[(u32, Value)]
    ensures { result.now ≡ named_of op.now }
{
    match op {
        RowOp::Insert { cells, .. } => cells.as_slice(),
        RowOp::Update { cells, .. } => cells.as_slice(),
        RowOp::Delete { .. } => &[],
    }
}

// Whether a named number is no public column of the table.
fn has_hidden(elements: &[ElementDef], table: u32, cells: &[(u32, Value)]) -> bool
    ensures { result ≡ is_some (first_hidden elements.now table cells.now) }
{
    for (number, _value) in cells {
        if public_column_type(elements, table, *number).is_none() {
            return true;
        }
    }
    false
}

// The first named value that is wrong.
fn wrong_named(elements: &[ElementDef], table: u32, cells: &[(u32, Value)]) -> Option<ValueCause>
    ensures test { result ≡ wrong_named_of elements.now table cells.now }
    ensures known { result ≡ None → AllByRecursion (λ c. IsValue c.1) cells.now }
{
    for (number, value) in cells {
        let kind = public_column_type(elements, table, *number);
        if let Some(cause) = wrong_for(Rule::TypedOrNull, *number, kind, value) {
            return Some(cause);
        }
    }
    None
}

fn names(cells: &[(u32, Value)], number: u32) -> bool
    ensures { result ≡ list_any (λ c. number == c.0) cells.now }
{
    cells.iter().any(|c| number == c.0)
}

// The column, if one of these has its number.
fn named_again(column: u32, rest: &[(u32, Value)]) -> Option<ValueCause>
    ensures { result ≡ named_again_of column rest.now }
{
    if names(rest, column) {
        Some(ValueCause::NamedTwice { column })
    } else {
        None
    }
}

// The first named column that is named again after it.
fn named_twice(cells: &[(u32, Value)]) -> Option<ValueCause>
    ensures { result ≡ named_twice_of cells.now }
{
    for i in 0..cells.len() {
        if let Some(cause) = named_again(cells[i].0, &cells[i + 1..]) {
            return Some(cause);
        }
    }
    None
}

// What is wrong first with the values of an operation.
fn wrong_operation(
    columns: &[(Text, ColumnType)],
    elements: &[ElementDef],
    op: &RowOp,
) -> Option<ValueCause>
    ensures test { result ≡ wrong_operation_of columns.now elements.now op.now }
    ensures known { result ≡ None → AreKnown op.now }
{
    if let Some(cause) = wrong_key(Rule::Typed, columns, key_of(op).as_slice()) {
        return Some(cause);
    }
    let cells = cells_of(op);
    if let Some(cause) = wrong_named(elements, table_of(op), cells) {
        return Some(cause);
    }
    named_twice(cells)
}

fn op_found(schema: &Schema, op: &RowOp) -> Finding
    ensures test { result ≡ op_found_of schema.now op.now }
    ensures known { result ≡ Finding.Clear → AreKnown op.now }
{
    let Some(columns) = schema.key_of(table_of(op)) else {
        return Finding::Other;
    };
    let elements = schema.elements();
    if has_hidden(elements, table_of(op), cells_of(op)) {
        return Finding::Other;
    }
    of_cause(wrong_operation(columns, elements, op))
}

// The first operation with a fault, if that is a wrong value.
fn first_wrong(schema: &Schema, ops: &[RowOp]) -> Option<ValueFault>
    ensures test { result ≡ ops_found 0 schema.now ops.now }
    ensures known { AreKnownUntil schema.now ops.now }
{
    for item in 0..ops.len() {
        match op_found(schema, &ops[item]) {
            Finding::Clear => {}
            Finding::Other => return None,
            Finding::Wrong(cause) => return Some(ValueFault { item, cause }),
        }
    }
    None
}

/// The wrong value that a transaction is refused for: there is one exactly if `row_write::prepare`
/// refuses the operations by `WrongType`.
///
/// It is of the operation that decides. Of this operation it is the first of: its key has another
/// number of values than the table's key has columns; a value of its key is not one of its column's
/// type, as Null never is; a named value is neither one of its column's type nor Null; a named
/// column is named again after it.
///
/// - `schema`: the version under which the transaction is to run.
/// - `ops`: its operations.
///
/// It takes no memory.
pub fn txn_fault(schema: &Schema, ops: &[RowOp]) -> Option<ValueFault>
    ensures found { IfSome result (λ fault. IsTxnFault schema.now ops.now fault) }
    ensures none { IfNone result (¬ (IsFirstOpFault schema.now ops.now WrongType)) }
{
    schema.lemma_known();
    first_wrong(schema, ops)
}
