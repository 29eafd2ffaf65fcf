//! The table people (id int key, town text, age int), its rows, and the step that begins three
//! changes.

use collections::{ArcValue, List};
use keycode::{Text, Value};
use lease::Lease;
use row_map::{ColumnType, ReadView};
use row_write::{Prepared, RowOp, RowOps, prepare, reads_of};
use schema_version::{ElementState, Kind, Move, NewElement, Schema, TableDef};
use server::Request;
use shared_rollout::world::{Committed, Config, Receipt, World};
use std::alloc::{AllocError, Global};

/// The number of the table.
const TABLE: u32 = 1;

/// The column town.
const TOWN: u32 = 1;

/// The column age, which is dropped.
const AGE: u32 = 2;

/// The index by_town, which enters.
const BY_TOWN: u32 = 3;

/// The moment of the step that begins the changes.
pub(crate) const BEGIN: u64 = 10;

/// The lease under which the first rows are inserted.
const FIRST: Lease = Lease {
    version: 1,
    granted: 0,
    until: 10,
};

/// The towns, in turn.
const TOWNS: [&str; 3] = ["Bern", "Lyon", "Turin"];

/// The name of an element of the example.
pub(crate) fn name_of(element: u32) -> &'static str {
    match element {
        TOWN => "people.town",
        AGE => "people.age",
        BY_TOWN => "people.by_town",
        _ => "people.score",
    }
}

fn text_of(alloc: Global, name: &str) -> Result<Text, AllocError> {
    Ok(Text::new(String::from_str(alloc, name)?))
}

// A column of this name and type.
fn column(alloc: Global, name: &str, column: ColumnType) -> Result<(Text, ColumnType), AllocError> {
    Ok((text_of(alloc, name)?, column))
}

// table people (id int key, town text, age int)
fn people(alloc: Global) -> Result<TableDef, AllocError> {
    let key = vec![in alloc; column(alloc, "id", ColumnType::Int)?]?;
    let columns = vec![in alloc;
        column(alloc, "town", ColumnType::Text)?,
        column(alloc, "age", ColumnType::Int)?,
    ]?;
    let name = text_of(alloc, "people")?;
    Ok(TableDef {
        name,
        key: List::new(key),
        columns: List::new(columns),
        indexes: List::new(Vec::new(alloc)),
    })
}

fn config(alloc: Global) -> Result<Config, AllocError> {
    Ok(Config {
        length: 10,
        tables: List::new(vec![in alloc; people(alloc)?]?),
    })
}

// town = TOWN, and age = AGE if there is one
fn cells(alloc: Global, id: u32, age: Option<i64>) -> Result<Vec<(u32, Value)>, AllocError> {
    let town = text_of(alloc, TOWNS[(id % 3) as usize])?;
    let mut cells = vec![in alloc; (TOWN, Value::Text(town))]?;
    if let Some(age) = age {
        cells.push((AGE, Value::Int(age)))?;
    }
    Ok(cells)
}

// insert people (ID) set town = TOWN, and age = AGE if there is one
fn insert(alloc: Global, id: u32, age: Option<i64>) -> Result<RowOps, AllocError> {
    let key = vec![in alloc; Value::Int(i64::from(id))]?;
    let cells = cells(alloc, id, age)?;
    let insert = RowOp::Insert {
        table: TABLE,
        key: List::new(key),
        cells: List::new(cells),
    };
    Ok(List::new(vec![in alloc; insert]?))
}

// What the keys of these operations have.
fn view_of(alloc: Global, world: &World, schema: &Schema, ops: &RowOps) -> Option<ReadView> {
    let keys = reads_of(alloc, schema, ops.as_slice()).ok()?;
    world.read(alloc, &keys).ok()
}

// These operations, prepared under the first lease.
fn prepared(alloc: Global, world: &World, ops: RowOps) -> Option<Prepared> {
    let schema = world.newest().clone().ok()?;
    let view = view_of(alloc, world, schema.get(), &ops)?;
    prepare(alloc, schema, FIRST, ops, view).ok()
}

// The insert at moment 1, before anything changes: people have an age then.
fn add_row(alloc: Global, world: &mut World, id: u32) -> Option<()> {
    let work = prepared(alloc, world, insert(alloc, id, Some(30)).ok()?)?;
    match world.commit(alloc, 1, work) {
        Ok(Committed::Done(_)) => Some(()),
        _ => None,
    }
}

/// An insert at moment 0 for each of so many rows from this number on.
pub(crate) fn inserts(alloc: Global, from: u32, count: u32) -> Result<Vec<Request>, AllocError> {
    let mut requests = Vec::new(alloc);
    for row in 0..count {
        requests.push(Request {
            moment: 0,
            ops: ArcValue::new(alloc, insert(alloc, from.wrapping_add(row), None)?)?,
        })?;
    }
    Ok(requests)
}

// add index by_town on people (town)
fn by_town(alloc: Global) -> Result<NewElement, AllocError> {
    let columns = vec![in alloc; TOWN]?;
    Ok(NewElement {
        table: TABLE,
        name: text_of(alloc, "by_town")?,
        kind: Kind::Index(List::new(columns)),
    })
}

// add column score int default 0 to people
fn score(alloc: Global) -> Result<NewElement, AllocError> {
    Ok(NewElement {
        table: TABLE,
        name: text_of(alloc, "score")?,
        kind: Kind::Required {
            column: ColumnType::Int,
            fallback: Value::Int(0),
        },
    })
}

// Both, and the drop of people.age.
fn first_step(alloc: Global) -> Result<List<Move>, AllocError> {
    let to = ElementState::DeleteOnly;
    let (index, score) = (by_town(alloc)?, score(alloc)?);
    Ok(List::new(vec![in alloc;
        Move::Enter { fresh: index, to },
        Move::Enter { fresh: score, to },
        Move::Go { element: AGE, to },
    ]?))
}

// Inserts so many rows and begins the three changes.
fn begin_changes(alloc: Global, world: &mut World, rows: u32) -> Option<Receipt> {
    for id in 0..rows {
        add_row(alloc, world, id)?;
    }
    let step = first_step(alloc).ok()?;
    let (_, receipt) = world.publish(alloc, BEGIN, &step).ok()?;
    Some(receipt)
}

/// A world with so many rows, in which the three changes have begun, and the receipt of the step.
pub(crate) fn world_with_changes(alloc: Global, rows: u32) -> Option<(World, Receipt)> {
    let mut world = World::open(alloc, &config(alloc).ok()?).ok()?;
    let receipt = begin_changes(alloc, &mut world, rows)?;
    Some((world, receipt))
}
