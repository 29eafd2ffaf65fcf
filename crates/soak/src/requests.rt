//! What the servers are asked.
ghost use Rattle.std.specs.Prelude.{◌≤◌};

use crate::table::{COLUMN, TABLE};
use collections::{ArcValue, List};
use keycode::Value;
use row_write::{RowOp, RowOps};
use server::Request;
use std::alloc::{AllocError, Global};

/// What a request does to its row.
#[derive(Clone, Copy)]
pub(crate) enum Verb {
    /// It inserts the row.
    Insert,
    /// It updates the row.
    Update,
}

/// The moment of the update of this number: a hundred in turn have the same.
pub(crate) fn moment_of(number: u64) -> u64 {
    number / 100
}

// insert, or update, t (ROW) set a = VALUE
fn write(alloc: Global, verb: Verb, row: u32, value: u32) -> Result<RowOps, AllocError> {
    let table = TABLE;
    let key = List::new(vec![in alloc; Value::Int(i64::from(row))]?);
    let cells = List::new(vec![in alloc; (COLUMN, Value::Int(i64::from(value)))]?);
    let op = match verb {
        Verb::Insert => RowOp::Insert { table, key, cells },
        Verb::Update => RowOp::Update { table, key, cells },
    };
    Ok(List::new(vec![in alloc; op]?))
}

// Rows are inserted in turn, at moment 0, and updated in steps of 7. Each turn over the rows gives a
// row another one of seven values.
fn request_of(alloc: Global, verb: Verb, number: u64, rows: u32) -> Result<Request, AllocError>
    requires { 1 ≤ rows }
{
    let (step, moment) = match verb {
        Verb::Insert => (1, 0),
        Verb::Update => (7, moment_of(number)),
    };
    let row = number.wrapping_mul(step) % u64::from(rows);
    let value = row.wrapping_add(number / u64::from(rows)) % 7;
    let ops = ArcValue::new(alloc, write(alloc, verb, row as u32, value as u32)?)?;
    Ok(Request { moment, ops })
}

/// The requests from one number on, before another.
pub(crate) fn requests(
    alloc: Global,
    verb: Verb,
    from: u64,
    to: u64,
    rows: u32,
) -> Result<Vec<Request>, AllocError>
    requires { 1 ≤ rows }
{
    let mut requests = Vec::new(alloc);
    for number in from..to {
        requests.push(request_of(alloc, verb, number, rows)?)?;
    }
    Ok(requests)
}
