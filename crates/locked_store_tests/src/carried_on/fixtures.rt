//! A world of one table with five rows, and the step that begins three changes at once. Elements 1
//! and 2 are the columns a and b, 3 is the index and 4 the column that enter.

use crate::fixtures;
use crate::fixtures::{FIRST, enter, index, prepared_in, update};
use collections::{ArcValue, List};
use keycode::Value;
use row_map::ColumnType;
use row_write::{RowOp, RowOps};
use schema_version::{ElementState, Kind, Move, Step};
use server::Request;
use shared_rollout::world::World;
use std::alloc::{AllocError, Global};

/// insert t (ID) set a = ID, or, of a row that is there, update t (ID) set a = ID + 1
pub(crate) fn request(alloc: Global, id: i64, is_there: bool) -> Result<Request, AllocError> {
    let ops = if is_there {
        update(alloc, id, id.wrapping_add(1))?
    } else {
        fixtures::insert(alloc, id, id)?
    };
    let ops = ArcValue::new(alloc, ops)?;
    Ok(Request { moment: 10, ops })
}

// insert t (ID) set a = ID, b = 5
fn insert(alloc: Global, id: i64) -> Result<RowOps, AllocError> {
    let insert = RowOp::Insert {
        table: 1,
        key: List::new(vec![in alloc; Value::Int(id)]?),
        cells: List::new(vec![in alloc; (1u32, Value::Int(id)), (2u32, Value::Int(5))]?),
    };
    Ok(List::new(vec![in alloc; insert]?))
}

// The insert at moment 1, under version 1.
fn add_row(alloc: Global, world: &mut World, id: i64) -> Option<()> {
    let ops = insert(alloc, id).ok()?;
    let work = prepared_in(alloc, world, FIRST, &ops);
    drop(ops);
    match world.commit(alloc, 1, work?) {
        Ok(_) => Some(()),
        Err(_) => None,
    }
}

// add index by_a on t (a); add column c int default 7; drop column b
fn first_step(alloc: Global) -> Result<Step, AllocError> {
    let by_a = enter(alloc, "by_a", index(alloc)?)?;
    let required = Kind::Required {
        column: ColumnType::Int,
        fallback: Value::Int(7),
    };
    let c = enter(alloc, "c", required)?;
    let b = Move::Go {
        element: 2,
        to: ElementState::DeleteOnly,
    };
    Ok(List::new(vec![in alloc; by_a, c, b]?))
}

// The five rows, and the step that begins the changes.
fn begin_changes(alloc: Global, world: &mut World) -> Option<()> {
    for id in 1..6i64 {
        add_row(alloc, world, id)?;
    }
    let step = first_step(alloc).ok()?;
    match world.publish(alloc, 10, &step) {
        Ok(_) => Some(()),
        Err(_) => None,
    }
}

/// The world at moment 10, with the three changes under way.
pub(crate) fn with_changes(alloc: Global) -> Option<World> {
    let mut world = fixtures::opened(alloc, &["a", "b"]).ok()?;
    match begin_changes(alloc, &mut world) {
        Some(()) => Some(world),
        None => None,
    }
}

/// The states of the elements 2, 3 and 4.
pub(crate) fn states(world: &World) -> (ElementState, ElementState, ElementState) {
    let schema = world.newest().get();
    (schema.state(2), schema.state(3), schema.state(4))
}

/// Whether the audit finds so many rows, and no entry missing or left over.
pub(crate) fn is_whole(alloc: Global, world: &World, rows: u64) -> bool {
    match world.check(alloc) {
        Ok(report) => report.rows == rows && report.missing == 0 && report.extra == 0,
        Err(_) => false,
    }
}
