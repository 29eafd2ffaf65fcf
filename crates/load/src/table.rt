//! The table of a load, its rows, and the steps of its index.

use crate::fault::LoadFault;
use collections::{ArcValue, List};
use keycode::{Text, Value};
use row_map::ColumnType;
use row_write::{RowOp, RowOps};
use schema_version::{ElementState, Kind, Move, NewElement, Step, TableDef};
use server::Request;
use server::world::{Config, OpenFault, World};
use std::alloc::{AllocError, Global};

/// The number of the table.
const TABLE: u32 = 1;

/// The number of its column a.
const COLUMN: u32 = 1;

/// The number that the index gets.
pub(crate) const INDEX: u32 = 2;

/// How many moments a lease lasts.
const LENGTH: u64 = 10;

/// How many values the column has.
const VALUES: u32 = 7;

fn text_of(alloc: Global, name: &str) -> Result<Text, AllocError> {
    Ok(Text::new(String::from_str(alloc, name)?))
}

// table t (id int key, a int)
fn config(alloc: Global) -> Result<Config, AllocError> {
    let table = TableDef {
        name: text_of(alloc, "t")?,
        key: List::new(vec![in alloc; (text_of(alloc, "id")?, ColumnType::Int)]?),
        columns: List::new(vec![in alloc; (text_of(alloc, "a")?, ColumnType::Int)]?),
        indexes: List::new(Vec::new(alloc)),
    };
    let tables = List::new(vec![in alloc; table]?);
    Ok(Config {
        length: LENGTH,
        tables,
    })
}

/// A world with the table and no rows.
pub(crate) fn open_world(alloc: Global) -> Result<World, LoadFault> {
    match World::open(alloc, &config(alloc)?) {
        Ok(world) => Ok(world),
        Err(OpenFault::Memory) => Err(LoadFault::Memory),
        Err(_) => Err(LoadFault::Refused),
    }
}

// insert t (ROW) set a = ROW mod 7
fn insert(alloc: Global, row: u32) -> Result<RowOps, AllocError> {
    let insert = RowOp::Insert {
        table: TABLE,
        key: List::new(vec![in alloc; Value::Int(i64::from(row))]?),
        cells: List::new(vec![in alloc; (COLUMN, Value::Int(i64::from(row % VALUES)))]?),
    };
    Ok(List::new(vec![in alloc; insert]?))
}

/// An insert at moment 0 for each row.
pub(crate) fn inserts(alloc: Global, rows: u32) -> Result<Vec<Request>, AllocError> {
    let mut requests = Vec::new(alloc);
    for row in 0..rows {
        requests.push(Request {
            moment: 0,
            ops: ArcValue::new(alloc, insert(alloc, row)?)?,
        })?;
    }
    Ok(requests)
}

/// The step by which the index i on (a) enters.
pub(crate) fn index_step(alloc: Global) -> Result<Step, AllocError> {
    let fresh = NewElement {
        table: TABLE,
        name: text_of(alloc, "i")?,
        kind: Kind::Index(List::new(vec![in alloc; COLUMN]?)),
    };
    let to = ElementState::DeleteOnly;
    Ok(List::new(vec![in alloc; Move::Enter { fresh, to }]?))
}

/// The step that takes the index into this state.
pub(crate) fn state_step(alloc: Global, to: ElementState) -> Result<Step, AllocError> {
    let element = INDEX;
    Ok(List::new(vec![in alloc; Move::Go { element, to }]?))
}
