//! The worked table, its operations, the query of all of it, and the index that enters.

use collections::List;
use keycode::{Text, Value};
use lease::Lease;
use row_map::{ColumnType, Row};
use row_query::Query;
use row_write::{Prepared, RowOp, RowOps, prepare, reads_of};
use schema_version::{ElementState, Kind, Move, NewElement, Step, TableDef};
use shared_rollout::world::{Config, OpenFault, World};
use std::alloc::{AllocError, Global};

/// The lease that is granted at 0 on version 1.
pub(crate) const FIRST: Lease = Lease {
    version: 1,
    granted: 0,
    until: 10,
};

/// Prints the line from which on the step for refusals counts allocations.
pub(crate) fn mark<R: Print>(rt: &R) -> bool {
    rt.println("from here on").is_ok()
}

fn named(alloc: Global, name: &str) -> Result<Text, AllocError> {
    Ok(Text::new(String::from_str(alloc, name)?))
}

// NAME int, for each of the names
fn columns_of(alloc: Global, names: &[&str]) -> Result<List<(Text, ColumnType)>, AllocError> {
    let mut columns = Vec::new(alloc);
    for name in names {
        columns.push((named(alloc, *name)?, ColumnType::Int))?;
    }
    Ok(List::new(columns))
}

// table t (id int key, NAME int, ..)
fn table(alloc: Global, names: &[&str]) -> Result<TableDef, AllocError> {
    Ok(TableDef {
        name: named(alloc, "t")?,
        key: columns_of(alloc, &["id"])?,
        columns: columns_of(alloc, names)?,
        indexes: List::new(Vec::new(alloc)),
    })
}

fn config(alloc: Global, names: &[&str]) -> Result<Config, AllocError> {
    let tables = List::new(vec![in alloc; table(alloc, names)?]?);
    Ok(Config { length: 10, tables })
}

/// A world of table t with these columns beside its key, and with leases of ten moments.
pub(crate) fn opened(alloc: Global, names: &[&str]) -> Result<World, OpenFault> {
    World::open(alloc, &config(alloc, names)?)
}

/// What is prepared of operations over what the world has now, under a lease.
pub(crate) fn prepared_in(
    alloc: Global,
    world: &World,
    lease: Lease,
    ops: &RowOps,
) -> Option<Prepared> {
    let schema = world.schema(lease.version)?;
    let keys = reads_of(alloc, schema.get(), ops.as_slice()).ok()?;
    let view = world.read(alloc, &keys).ok();
    drop(keys);
    let view = view?;
    let ops = ops.clone().ok()?;
    prepare(alloc, schema.clone().ok()?, lease, ops, view).ok()
}

/// insert t (ID) set a = VALUE
pub(crate) fn insert(alloc: Global, id: i64, value: i64) -> Result<RowOps, AllocError> {
    let insert = RowOp::Insert {
        table: 1,
        key: List::new(vec![in alloc; Value::Int(id)]?),
        cells: List::new(vec![in alloc; (1, Value::Int(value))]?),
    };
    Ok(List::new(vec![in alloc; insert]?))
}

/// update t (ID) set a = VALUE
pub(crate) fn update(alloc: Global, id: i64, value: i64) -> Result<RowOps, AllocError> {
    let update = RowOp::Update {
        table: 1,
        key: List::new(vec![in alloc; Value::Int(id)]?),
        cells: List::new(vec![in alloc; (1, Value::Int(value))]?),
    };
    Ok(List::new(vec![in alloc; update]?))
}

/// delete t (ID)
pub(crate) fn delete(alloc: Global, id: i64) -> Result<RowOps, AllocError> {
    let delete = RowOp::Delete {
        table: 1,
        key: List::new(vec![in alloc; Value::Int(id)]?),
    };
    Ok(List::new(vec![in alloc; delete]?))
}

/// select a from t
pub(crate) fn whole_table(alloc: Global) -> Result<Query, AllocError> {
    Ok(Query {
        table: 1,
        columns: List::new(vec![in alloc; 1]?),
        conditions: List::new(Vec::new(alloc)),
    })
}

/// The index on t (a).
pub(crate) fn index(alloc: Global) -> Result<Kind, AllocError> {
    Ok(Kind::Index(List::new(vec![in alloc; 1u32]?)))
}

/// add this to t, with this name
pub(crate) fn enter(alloc: Global, name: &str, kind: Kind) -> Result<Move, AllocError> {
    let name = named(alloc, name)?;
    Ok(Move::Enter {
        fresh: NewElement {
            table: 1,
            name,
            kind,
        },
        to: ElementState::DeleteOnly,
    })
}

/// add index i on t (a): element 2, since 1 is the column
pub(crate) fn entering(alloc: Global) -> Result<Step, AllocError> {
    let index = enter(alloc, "i", index(alloc)?)?;
    Ok(List::new(vec![in alloc; index]?))
}

/// move t.i to STATE
pub(crate) fn going(alloc: Global, to: ElementState) -> Result<Step, AllocError> {
    Ok(List::new(vec![in alloc; Move::Go { element: 2, to }]?))
}

// Whether the row has this key and this value of a.
fn is_row(row: &Row, id: i64, value: i64) -> bool {
    match (row.key.as_slice(), row.cells.as_slice()) {
        ([Value::Int(key)], [(column, Value::Int(a))]) => (*key, *column, *a) == (id, 1, value),
        _ => false,
    }
}

/// Whether there are these rows, of which there is one at most.
pub(crate) fn are(rows: &[Row], wanted: &[(i64, i64)]) -> bool {
    match (rows, wanted) {
        ([], []) => true,
        ([row], [(id, value)]) => is_row(row, *id, *value),
        _ => false,
    }
}
