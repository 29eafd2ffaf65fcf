//! Equality of a transaction's operations. That the derived `==` decides is not found by search,
//! for the lists inside.
ghost use Rattle.std.specs.Bool.{Decides};
ghost use Rattle.std.specs.Prelude.{◌≡◌, length};

use crate::op::RowOp;
use keycode::Value;

fn is_same_value(a: &Value, b: &Value) -> bool
    ensures { Decides result (a.now ≡ b.now) }
{
    a == b
}

// Whether these are the same values in the same order.
fn are_same_values(a: &[Value], b: &[Value]) -> bool
    ensures { Decides result (a.now ≡ b.now) }
{
    match (a, b) {
        ([], []) => true,
        ([first, rest @ ..], [other, others @ ..]) => {
            is_same_value(first, other) && are_same_values(rest, others)
        }
        _ => false,
    }
}

fn is_same_cell(a: &(u32, Value), b: &(u32, Value)) -> bool
    ensures { Decides result (a.now ≡ b.now) }
{
    a.0 == b.0 && is_same_value(&a.1, &b.1)
}

// Whether these are the same cells in the same order.
fn are_same_cells(a: &[(u32, Value)], b: &[(u32, Value)]) -> bool
    ensures { Decides result (a.now ≡ b.now) }
{
    match (a, b) {
        ([], []) => true,
        ([first, rest @ ..], [other, others @ ..]) => {
            is_same_cell(first, other) && are_same_cells(rest, others)
        }
        _ => false,
    }
}

// Whether two operations are the same.
fn is_same_op(a: &RowOp, b: &RowOp) -> bool
    ensures { Decides result (a.now ≡ b.now) }
{
    match (a, b) {
        (
            RowOp::Insert { table, key, cells },
            RowOp::Insert {
                table: second,
                key: other,
                cells: others,
            },
        ) => {
            table == second
                && are_same_values(key.as_slice(), other.as_slice())
                && are_same_cells(cells.as_slice(), others.as_slice())
        }
        (
            RowOp::Update { table, key, cells },
            RowOp::Update {
                table: second,
                key: other,
                cells: others,
            },
        ) => {
            table == second
                && are_same_values(key.as_slice(), other.as_slice())
                && are_same_cells(cells.as_slice(), others.as_slice())
        }
        (
            RowOp::Delete { table, key },
            RowOp::Delete {
                table: second,
                key: other,
            },
        ) => table == second && are_same_values(key.as_slice(), other.as_slice()),
        _ => false,
    }
}

/// Whether these are the same operations in the same order, with the same values. Never refused.
pub fn are_same_ops(a: &[RowOp], b: &[RowOp]) -> bool
    ensures { Decides result (a.now ≡ b.now) }
{
    match (a, b) {
        ([], []) => true,
        ([first, rest @ ..], [other, others @ ..]) => {
            is_same_op(first, other) && are_same_ops(rest, others)
        }
        _ => false,
    }
}
