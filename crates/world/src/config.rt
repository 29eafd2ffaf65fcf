//! With what a world is opened.
use collections::List;
use schema_version::TableDef;

/// With what a world is opened.
#[derive(Drop)]
pub struct Config {
    /// For how long a lease is granted, in moments.
    pub length: u64,
    /// The tables of version 1, in the order of their numbers.
    pub tables: List<TableDef>,
}
