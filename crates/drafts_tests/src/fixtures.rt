//! The worked table, its operations and its steps. Element 1 is the column a, element 2 the index
//! that enters.

use byte_map::Bytes;
use collections::List;
use keycode::{Text, Value};
use row_map::ColumnType;
use row_write::{RowOp, RowOps};
use schema_version::{DeclareFault, ElementState, Kind, Move, NewElement, Schema, Step, TableDef};
use std::alloc::{AllocError, Global};

/// Prints the line from which on the step for refusals counts allocations.
pub(crate) fn mark<R: Print>(rt: &R) -> bool {
    rt.println("from here on").is_ok()
}

fn named(alloc: Global, name: &str) -> Result<Text, AllocError> {
    Ok(Text::new(String::from_str(alloc, name)?))
}

// NAME int
fn column(alloc: Global, name: &str) -> Result<List<(Text, ColumnType)>, AllocError> {
    Ok(List::new(vec![in alloc; (named(alloc, name)?, ColumnType::Int)]?))
}

/// table t (id int key, a int)
pub(crate) fn first_schema(alloc: Global) -> Result<Schema, AllocError> {
    let table = TableDef {
        name: named(alloc, "t")?,
        key: column(alloc, "id")?,
        columns: column(alloc, "a")?,
        indexes: List::new(Vec::new(alloc)),
    };
    let tables = vec![in alloc; table]?;
    match Schema::declared(alloc, tables.as_slice()) {
        Ok(schema) => Ok(schema),
        Err(DeclareFault::BadTable | DeclareFault::Memory) => Err(AllocError),
    }
}

/// insert t (ID) set a = 5
pub(crate) fn insert(alloc: Global, id: i64) -> Result<RowOps, AllocError> {
    let insert = RowOp::Insert {
        table: 1,
        key: List::new(vec![in alloc; Value::Int(id)]?),
        cells: List::new(vec![in alloc; (1, Value::Int(5))]?),
    };
    Ok(List::new(vec![in alloc; insert]?))
}

/// A step of the index.
#[derive(Clone, Copy)]
pub(crate) enum Change {
    /// add index i on t (a)
    Enter,
    /// move i to STATE
    Go(ElementState),
    /// drop i, before it is public
    Turn,
}

/// The step of one move.
pub(crate) fn step(alloc: Global, change: Change) -> Result<Step, AllocError> {
    let change = match change {
        Change::Enter => Move::Enter {
            fresh: NewElement {
                table: 1,
                name: named(alloc, "i")?,
                kind: Kind::Index(List::new(vec![in alloc; 1u32]?)),
            },
            to: ElementState::DeleteOnly,
        },
        Change::Go(to) => Move::Go { element: 2, to },
        Change::Turn => Move::Turn { element: 2 },
    };
    Ok(List::new(vec![in alloc; change]?))
}

/// These keys, as an owner has them.
pub(crate) fn bytes_of(alloc: Global, keys: &[&[u8]]) -> Result<Vec<Bytes>, AllocError> {
    let mut out = Vec::new(alloc);
    for key in keys {
        out.push(Bytes::from_slice(alloc, key)?)?;
    }
    Ok(out)
}
