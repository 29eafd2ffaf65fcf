//! Worlds of table 1, and what is asked of one.
use collections::List;
use keycode::{Text, Value};
use lease::Lease;
use reorganise::{PreparedPiece, prepare_piece};
use row_map::{ColumnType, Row};
use row_query::{Cond, Query};
use row_write::{Prepared, RowOp, RowOps, prepare, reads_of};
use schema_version::{ElementState, Kind, Move, NewElement, Step, TableDef};
use std::alloc::{AllocError, Global};
use world::{Config, World};

/// The lease on version 1 that is granted at 0.
pub(crate) const FIRST: Lease = Lease {
    version: 1,
    granted: 0,
    until: 10,
};

/// The lease on version 3, the one before the newest, that is granted at 30.
pub(crate) const THIRD: Lease = Lease {
    version: 3,
    granted: 30,
    until: 40,
};

/// Prints the line from which on the step for refusals counts allocations.
pub(crate) fn mark<R: Print>(rt: &R) -> bool {
    rt.println("from here on").is_ok()
}

fn named(alloc: Global, name: &str) -> Result<Text, AllocError> {
    Ok(Text::new(String::from_str(alloc, name)?))
}

fn column(alloc: Global, name: &str) -> Result<List<(Text, ColumnType)>, AllocError> {
    Ok(List::new(vec![in alloc; (named(alloc, name)?, ColumnType::Int)]?))
}

// table t (id int key, COLUMN int)
fn table(alloc: Global, name: &str) -> Result<TableDef, AllocError> {
    Ok(TableDef {
        name: named(alloc, "t")?,
        key: column(alloc, "id")?,
        columns: column(alloc, name)?,
        indexes: List::new(Vec::new(alloc)),
    })
}

/// A world of that table, with leases of 10.
pub(crate) fn opened(alloc: Global, column: &str) -> Option<World> {
    let table = table(alloc, column).ok()?;
    let tables = List::new(vec![in alloc; table].ok()?);
    let config = Config { length: 10, tables };
    World::open(alloc, &config).ok()
}

// insert t (ID) set a = A
fn insert(alloc: Global, id: i64, a: i64) -> Result<RowOps, AllocError> {
    let insert = RowOp::Insert {
        table: 1,
        key: List::new(vec![in alloc; Value::Int(id)]?),
        cells: List::new(vec![in alloc; (1, Value::Int(a))]?),
    };
    Ok(List::new(vec![in alloc; insert]?))
}

fn prepared(alloc: Global, world: &World, row: (i64, i64)) -> Option<Prepared> {
    let ops = insert(alloc, row.0, row.1).ok()?;
    let keys = reads_of(alloc, world.newest().get(), ops.as_slice()).ok()?;
    let view = world.read(alloc, &keys).ok()?;
    let schema = world.newest().clone().ok()?;
    prepare(alloc, schema, FIRST, ops, view).ok()
}

// An insert under the first lease, at 0.
fn inserts(alloc: Global, world: &mut World, row: (i64, i64)) -> bool {
    match prepared(alloc, world, row) {
        Some(work) => world.commit(alloc, 0, work).is_ok(),
        None => false,
    }
}

// add NAME to t
fn entering(alloc: Global, name: &str, kind: Kind) -> Result<Step, AllocError> {
    let fresh = NewElement {
        table: 1,
        name: named(alloc, name)?,
        kind,
    };
    let to = ElementState::DeleteOnly;
    Ok(List::new(vec![in alloc; Move::Enter { fresh, to }]?))
}

fn index_enters(alloc: Global) -> Result<Step, AllocError> {
    let kind = Kind::Index(List::new(vec![in alloc; 1u32]?));
    entering(alloc, "i", kind)
}

fn index_goes_on(alloc: Global) -> Result<Step, AllocError> {
    let to = ElementState::WriteOnly;
    Ok(List::new(vec![in alloc; Move::Go { element: 2, to }]?))
}

fn column_enters(alloc: Global) -> Result<Step, AllocError> {
    entering(alloc, "b", Kind::Optional(ColumnType::Int))
}

fn publishes(
    alloc: Global,
    world: &mut World,
    moment: u64,
    step: Result<Step, AllocError>,
) -> bool {
    match step {
        Ok(step) => world.publish(alloc, moment, &step).is_ok(),
        Err(AllocError) => false,
    }
}

// One row of the one piece of the fill.
fn piece(alloc: Global, world: &World) -> Option<PreparedPiece> {
    let view = world.read_piece(alloc, 2, 0, 1).ok()?;
    prepare_piece(alloc, view).ok()
}

fn fills_a_row(alloc: Global, world: &mut World) -> bool {
    match piece(alloc, world) {
        Some(piece) => world.commit_piece(alloc, 30, piece).is_ok(),
        None => false,
    }
}

fn has_rows(alloc: Global, world: &mut World) -> bool {
    world.lease(alloc, 0).is_ok()
        && inserts(alloc, world, (1, 5))
        && inserts(alloc, world, (2, 6))
        && inserts(alloc, world, (3, 5))
}

// Ten entries, of which the last is at 31.
fn has_come_on(alloc: Global, world: &mut World) -> bool {
    has_rows(alloc, world)
        && publishes(alloc, world, 10, index_enters(alloc))
        && publishes(alloc, world, 20, index_goes_on(alloc))
        && world.lease(alloc, 30).is_ok()
        && world.begin_reorg(alloc, 30, 2, 1).is_ok()
        && fills_a_row(alloc, world)
        && publishes(alloc, world, 31, column_enters(alloc))
}

/// The world whose checkpoint is worked out by hand.
pub(crate) fn worked(alloc: Global) -> Option<World> {
    let mut world = opened(alloc, "a")?;
    if has_come_on(alloc, &mut world) {
        Some(world)
    } else {
        None
    }
}

// select a from t where a = 5
fn a_is_5(alloc: Global) -> Result<Query, AllocError> {
    let value = Value::Int(5);
    Ok(Query {
        table: 1,
        columns: List::new(vec![in alloc; 1]?),
        conditions: List::new(vec![in alloc; Cond::Equal { column: 1, value }]?),
    })
}

// Whether the row has this key, and 5 in `a`.
fn is_row(row: &Row, id: i64) -> bool {
    match (row.key.as_slice(), row.cells.as_slice()) {
        ([Value::Int(key)], [(column, Value::Int(a))]) => (*key, *column, *a) == (id, 1, 5),
        _ => false,
    }
}

// Whether these are the rows of these keys.
fn are_rows(rows: &[Row], ids: &[i64]) -> bool {
    if rows.len() != ids.len() {
        return false;
    }
    for i in 0..rows.len() {
        if !is_row(&rows[i], ids[i]) {
            return false;
        }
    }
    true
}

/// Whether the rows with 5 in `a` are those of these keys, as a query under the lease finds them.
pub(crate) fn finds(alloc: Global, world: &World, moment: u64, lease: &Lease, ids: &[i64]) -> bool {
    let Ok(query) = a_is_5(alloc) else {
        return false;
    };
    match world.query(alloc, moment, lease, &query) {
        Ok(rows) => are_rows(rows.as_slice(), ids),
        Err(_) => false,
    }
}

/// Whether a check finds so many rows, no pair missing and none without a reason.
pub(crate) fn is_sound(alloc: Global, world: &World, rows: u64) -> bool {
    match world.check(alloc) {
        Ok(found) => (found.rows, found.missing, found.extra) == (rows, 0, 0),
        Err(AllocError) => false,
    }
}
