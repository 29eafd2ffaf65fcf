//! A world of the table t, with the primary key `id` and the column `a`, both numbers, and rows.
use collections::List;
use keycode::{Text, Value};
use lease::Lease;
use row_map::ColumnType;
use row_page::KeyRange;
use row_query::{Cond, Query};
use row_write::{Prepared, RowOp, RowOps, prepare, reads_of};
use schema_version::TableDef;
use std::alloc::{AllocError, Global};
use world::{Config, World};

/// The lease on version 1 that is granted at 0.
pub const FIRST: Lease = Lease {
    version: 1,
    granted: 0,
    until: 10,
};

/// Prints the line from which on the step for refusals counts allocations.
pub fn mark<R: Print>(rt: &R) -> bool {
    rt.println("from here on").is_ok()
}

fn named(alloc: Global, name: &str) -> Result<Text, AllocError> {
    Ok(Text::new(String::from_str(alloc, name)?))
}

fn column(alloc: Global, name: &str) -> Result<List<(Text, ColumnType)>, AllocError> {
    Ok(List::new(vec![in alloc; (named(alloc, name)?, ColumnType::Int)]?))
}

fn table(alloc: Global) -> Result<TableDef, AllocError> {
    Ok(TableDef {
        name: named(alloc, "t")?,
        key: column(alloc, "id")?,
        columns: column(alloc, "a")?,
        indexes: List::new(Vec::new(alloc)),
    })
}

fn opened(alloc: Global) -> Option<World> {
    let table = table(alloc).ok()?;
    let tables = List::new(vec![in alloc; table].ok()?);
    let config = Config { length: 10, tables };
    World::open(alloc, &config).ok()
}

// insert t (ID) set a = A
fn insert(alloc: Global, id: i64, a: i64) -> Result<RowOps, AllocError> {
    let insert = RowOp::Insert {
        table: 1,
        key: List::new(vec![in alloc; Value::Int(id)]?),
        cells: List::new(vec![in alloc; (1, Value::Int(a))]?),
    };
    Ok(List::new(vec![in alloc; insert]?))
}

fn prepared(alloc: Global, world: &World, row: (i64, i64)) -> Option<Prepared> {
    let ops = insert(alloc, row.0, row.1).ok()?;
    let keys = reads_of(alloc, world.newest().get(), ops.as_slice()).ok()?;
    let view = world.read(alloc, &keys).ok()?;
    let schema = world.newest().clone().ok()?;
    prepare(alloc, schema, FIRST, ops, view).ok()
}

/// Whether the row was inserted under the first lease, at 0.
pub fn inserts(alloc: Global, world: &mut World, row: (i64, i64)) -> bool {
    match prepared(alloc, world, row) {
        Some(work) => world.commit(alloc, 0, work).is_ok(),
        None => false,
    }
}

/// The rows by `id` and `a`.
pub static ROWS: [(i64, i64); 5] = [(1, 5), (2, 6), (3, 5), (4, 5), (5, 6)];

/// The world with these rows and the first lease.
pub fn with_rows(alloc: Global) -> Option<World> {
    let mut world = opened(alloc)?;
    if world.lease(alloc, 0).is_err() {
        return None;
    }
    for row in &ROWS {
        if !inserts(alloc, &mut world, *row) {
            return None;
        }
    }
    Some(world)
}

/// select a from t where a = 5
pub fn a_is_5(alloc: Global) -> Result<Query, AllocError> {
    let value = Value::Int(5);
    Ok(Query {
        table: 1,
        columns: List::new(vec![in alloc; 1]?),
        conditions: List::new(vec![in alloc; Cond::Equal { column: 1, value }]?),
    })
}

/// The rows after this one, or all.
pub fn after(alloc: Global, id: Option<i64>) -> Result<KeyRange, AllocError> {
    let before = None;
    match id {
        None => Ok(KeyRange {
            after: None,
            before,
        }),
        Some(id) => Ok(KeyRange {
            after: Some(List::new(vec![in alloc; Value::Int(id)]?)),
            before,
        }),
    }
}
