//! Operations of transactions as literals.
use crate::fixtures::{Plain, key, value};
use Plain::Int;
use Verb::{Delete, Insert, Update};
use collections::List;
use keycode::Value;
use row_write::RowOp;
use std::alloc::{AllocError, Global};

/// What an operation does.
#[derive(Clone, Copy)]
pub(crate) enum Verb {
    Insert,
    Update,
    Delete,
}

/// An operation as a literal: what it does, the table, the key and the cells.
pub(crate) type Op<'a> = (Verb, u32, Plain, &'a [(u32, Plain)]);

fn cells(alloc: Global, plain: &[(u32, Plain)]) -> Result<List<(u32, Value)>, AllocError> {
    let mut cells = Vec::new(alloc);
    for (column, content) in plain {
        cells.push((*column, value(alloc, *content)?))?;
    }
    Ok(List::new(cells))
}

fn operation(alloc: Global, (verb, table, id, plain): Op) -> Result<RowOp, AllocError> {
    let key = key(alloc, id)?;
    let cells = cells(alloc, plain)?;
    Ok(match verb {
        Insert => RowOp::Insert { table, key, cells },
        Update => RowOp::Update { table, key, cells },
        Delete => RowOp::Delete { table, key },
    })
}

/// These operations, in this order.
pub(crate) fn operations(alloc: Global, plain: &[Op]) -> Result<Vec<RowOp>, AllocError> {
    let mut ops = Vec::new(alloc);
    for op in plain {
        ops.push(operation(alloc, *op)?)?;
    }
    Ok(ops)
}

/// An insert of row 1.
pub(crate) const ONE: Op<'static> = (Insert, 1, Int(1), &[]);

/// An insert of row 2.
pub(crate) const TWO: Op<'static> = (Insert, 1, Int(2), &[]);
