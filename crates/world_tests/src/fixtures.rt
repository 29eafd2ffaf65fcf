//! The worked table, its operations, a query and its steps. Element 1 is the column a, element 2
//! the index that enters.

use collections::List;
use keycode::{Text, Value};
use lease::Lease;
use row_map::{ColumnType, Row};
use row_query::{Cond, Query};
use row_write::{RowOp, RowOps};
use schema_version::{ElementState, Kind, Move, NewElement, Step, TableDef};
use std::alloc::{AllocError, Global};
use world::{Config, OpenFault, World};

/// The lease that is granted at 0 on version 1.
pub(crate) const FIRST: Lease = Lease {
    version: 1,
    granted: 0,
    until: 10,
};

/// Prints the line from which on the step for refusals counts allocations.
pub(crate) fn mark<R: Print>(rt: &R) -> bool {
    rt.println("from here on").is_ok()
}

fn named(alloc: Global, name: &str) -> Result<Text, AllocError> {
    Ok(Text::new(String::from_str(alloc, name)?))
}

// NAME int
fn column(alloc: Global, name: &str) -> Result<List<(Text, ColumnType)>, AllocError> {
    Ok(List::new(vec![in alloc; (named(alloc, name)?, ColumnType::Int)]?))
}

// table t (id int key, a int)
fn table(alloc: Global) -> Result<TableDef, AllocError> {
    Ok(TableDef {
        name: named(alloc, "t")?,
        key: column(alloc, "id")?,
        columns: column(alloc, "a")?,
        indexes: List::new(Vec::new(alloc)),
    })
}

// That table, leases of ten moments.
fn config(alloc: Global) -> Result<Config, AllocError> {
    let tables = List::new(vec![in alloc; table(alloc)?]?);
    Ok(Config { length: 10, tables })
}

fn opened_once(alloc: Global) -> Result<World, OpenFault> {
    World::open(alloc, &config(alloc)?)
}

/// A world of that table, asked for once more if memory was short.
pub(crate) fn opened(alloc: Global) -> Result<World, OpenFault> {
    match opened_once(alloc) {
        Err(OpenFault::Memory) => opened_once(alloc),
        reported => reported,
    }
}

/// insert t (ID) set a = A
pub(crate) fn insert(alloc: Global, id: i64, a: i64) -> Result<RowOps, AllocError> {
    let insert = RowOp::Insert {
        table: 1,
        key: List::new(vec![in alloc; Value::Int(id)]?),
        cells: List::new(vec![in alloc; (1, Value::Int(a))]?),
    };
    Ok(List::new(vec![in alloc; insert]?))
}

/// select a from t where a = 5
pub(crate) fn a_is_5(alloc: Global) -> Result<Query, AllocError> {
    let value = Value::Int(5);
    Ok(Query {
        table: 1,
        columns: List::new(vec![in alloc; 1]?),
        conditions: List::new(vec![in alloc; Cond::Equal { column: 1, value }]?),
    })
}

// Whether the row has this key and a = 5.
fn is_row(row: &Row, id: i64) -> bool {
    match (row.key.as_slice(), row.cells.as_slice()) {
        ([Value::Int(key)], [(column, Value::Int(a))]) => (*key, *column, *a) == (id, 1, 5),
        _ => false,
    }
}

/// Rows 1 and 3, and no other.
pub(crate) fn are_1_and_3(rows: &[Row]) -> bool {
    match rows {
        [first, second] => is_row(first, 1) && is_row(second, 3),
        _ => false,
    }
}

/// add index NAME on t (a)
pub(crate) fn entering(alloc: Global, name: &str) -> Result<Step, AllocError> {
    let fresh = NewElement {
        table: 1,
        name: named(alloc, name)?,
        kind: Kind::Index(List::new(vec![in alloc; 1u32]?)),
    };
    let to = ElementState::DeleteOnly;
    Ok(List::new(vec![in alloc; Move::Enter { fresh, to }]?))
}

/// move ELEMENT to STATE
pub(crate) fn going(alloc: Global, element: u32, to: ElementState) -> Result<Step, AllocError> {
    Ok(List::new(vec![in alloc; Move::Go { element, to }]?))
}

/// Whether a step is published.
pub(crate) fn is_published(
    alloc: Global,
    world: &mut World,
    moment: u64,
    step: Result<Step, AllocError>,
) -> bool {
    match step {
        Ok(step) => world.publish(alloc, moment, &step).is_ok(),
        Err(AllocError) => false,
    }
}
