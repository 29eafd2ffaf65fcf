//! The row for which an operation is refused.
use keycode::{Text, Value};
use row_write::{Prepared, RowFault, RowOp, RowOutcome};
use script_grammar::{Command, Operation};
use script_progress::script_session::{Opened, Pending};
use script_progress::script_views::push_tuple;
use std::alloc::{AllocError, Global};

/// Words on a row that is inserted again.
const THERE: &str = " is there already";

/// Words on a row that is changed and is missing.
const NOT_THERE: &str = " is not there";

fn row_named(operation: &Operation) -> (&str, &[Value]) {
    match operation {
        Operation::Insert { table, key, .. }
        | Operation::Update { table, key, .. }
        | Operation::Delete { table, key } => (table.as_str(), key.as_slice()),
    }
}

fn row_text(
    alloc: Global,
    row: (&str, &[Value]),
    words: &'static str,
) -> Result<String, AllocError> {
    let (table, key) = row;
    let mut out = table.to_string(alloc)?;
    out.push_str(" ")?;
    push_tuple(&mut out, key)?;
    out.push_str(words)?;
    Ok(out)
}

/// Which row an operation of a transaction is refused for; empty for any other reply. Refused only
/// when out of memory.
///
/// - `command`: the command.
/// - `reply`: its reply.
pub(crate) fn row_hint(
    alloc: Global,
    command: &Command,
    reply: &str,
) -> Result<String, AllocError> {
    let operations = match command {
        Command::Txn { operations, .. } | Command::Prepare { operations, .. } => {
            operations.as_slice()
        }
        _ => return Ok(String::new(alloc)),
    };
    let words = reply.strip_prefix("ok refused ").unwrap_or("").trim_end();
    let (number, name) = words.split_once(' ').unwrap_or((words, ""));
    let place = number.parse::<usize>().unwrap_or(usize::MAX);
    match (operations.get(place), name) {
        (Some(operation), "Duplicate") => row_text(alloc, row_named(operation), THERE),
        (Some(operation), "NoRow") => row_text(alloc, row_named(operation), NOT_THERE),
        _ => Ok(String::new(alloc)),
    }
}

fn row_of_op<'a>(prepared: &'a Prepared, op: &'a RowOp) -> (&'a str, &'a [Value]) {
    match op {
        RowOp::Insert { table, key, .. }
        | RowOp::Update { table, key, .. }
        | RowOp::Delete { table, key } => {
            let name = prepared.schema().get().table_name(*table).unwrap_or("");
            (name, key.as_slice())
        }
    }
}

fn prepared_row(alloc: Global, prepared: &Prepared) -> Result<String, AllocError> {
    let RowOutcome::Refused { op, why } = prepared.outcome() else {
        return Ok(String::new(alloc));
    };
    let words = match why {
        RowFault::Duplicate => THERE,
        RowFault::NoRow => NOT_THERE,
    };
    match prepared.ops().get(op) {
        Some(op) => row_text(alloc, row_of_op(prepared, op), words),
        None => Ok(String::new(alloc)),
    }
}

/// Which row an operation of prepared work is refused for; empty if none is. Refused only when out
/// of memory.
///
/// - `opened`: the session's world, with the work.
/// - `name`: the name of the work.
pub(crate) fn work_row(alloc: Global, opened: &Opened, name: &Text) -> Result<String, AllocError> {
    match opened.pending.get(name.as_bytes()) {
        Some(Pending::Txn(prepared)) => prepared_row(alloc, prepared),
        _ => Ok(String::new(alloc)),
    }
}
