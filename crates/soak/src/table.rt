//! The table of a soak.

use crate::fault::SoakFault;
use collections::List;
use keycode::Text;
use row_map::ColumnType;
use schema_version::TableDef;
use shared_rollout::world::{Config, OpenFault, World};
use std::alloc::{AllocError, Global};

/// The number of the table.
pub(crate) const TABLE: u32 = 1;

/// The number of its column a.
pub(crate) const COLUMN: u32 = 1;

/// How many moments a lease lasts.
pub(crate) const LENGTH: u64 = 10;

/// A name as the engine takes it.
pub(crate) fn text_of(alloc: Global, name: &str) -> Result<Text, AllocError> {
    Ok(Text::new(String::from_str(alloc, name)?))
}

// table t (id int key, a int)
fn config(alloc: Global) -> Result<Config, AllocError> {
    let table = TableDef {
        name: text_of(alloc, "t")?,
        key: List::new(vec![in alloc; (text_of(alloc, "id")?, ColumnType::Int)]?),
        columns: List::new(vec![in alloc; (text_of(alloc, "a")?, ColumnType::Int)]?),
        indexes: List::new(Vec::new(alloc)),
    };
    let tables = List::new(vec![in alloc; table]?);
    Ok(Config {
        length: LENGTH,
        tables,
    })
}

/// A world with the table and no rows.
pub(crate) fn open_world(alloc: Global) -> Result<World, SoakFault> {
    match World::open(alloc, &config(alloc)?) {
        Ok(world) => Ok(world),
        Err(OpenFault::Memory) => Err(SoakFault::Memory),
        Err(_) => Err(SoakFault::Refused),
    }
}
