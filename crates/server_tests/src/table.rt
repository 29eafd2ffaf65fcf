//! The worked table, a request on it, and a world that has it.

use collections::{ArcValue, List};
use keycode::{Text, Value};
use row_map::ColumnType;
use row_write::RowOp;
use schema_version::TableDef;
use server::Request;
use server::world::{Config, OpenFault, World};
use std::alloc::{AllocError, Global};

/// Prints the line from which on the step for refusals counts allocations.
pub(crate) fn mark<R: Print>(rt: &R) -> bool {
    rt.println("from here on").is_ok()
}

/// The text of a name.
pub(crate) fn named(alloc: Global, name: &str) -> Result<Text, AllocError> {
    Ok(Text::new(String::from_str(alloc, name)?))
}

// table t (id int key, a int)
fn config(alloc: Global) -> Result<Config, AllocError> {
    let table = TableDef {
        name: named(alloc, "t")?,
        key: List::new(vec![in alloc; (named(alloc, "id")?, ColumnType::Int)]?),
        columns: List::new(vec![in alloc; (named(alloc, "a")?, ColumnType::Int)]?),
        indexes: List::new(Vec::new(alloc)),
    };
    let tables = List::new(vec![in alloc; table]?);
    Ok(Config { length: 10, tables })
}

/// A world of that table, with leases of ten moments.
pub(crate) fn opened(alloc: Global) -> Result<World, OpenFault> {
    World::open(alloc, &config(alloc)?)
}

/// insert t (ID) set a = 7, at moment 0
pub(crate) fn insert(alloc: Global, id: i64) -> Result<Request, AllocError> {
    let insert = RowOp::Insert {
        table: 1,
        key: List::new(vec![in alloc; Value::Int(id)]?),
        cells: List::new(vec![in alloc; (1, Value::Int(7))]?),
    };
    let ops = ArcValue::new(alloc, List::new(vec![in alloc; insert]?))?;
    Ok(Request { moment: 0, ops })
}

/// update t (ID) set a = VALUE, at moment 30
pub(crate) fn update(alloc: Global, id: i64, value: i64) -> Result<Request, AllocError> {
    let update = RowOp::Update {
        table: 1,
        key: List::new(vec![in alloc; Value::Int(id)]?),
        cells: List::new(vec![in alloc; (1, Value::Int(value))]?),
    };
    let ops = ArcValue::new(alloc, List::new(vec![in alloc; update]?))?;
    Ok(Request { moment: 30, ops })
}
