//! The names within a table.
ghost use Rattle.std.specs.Prelude.{◌≡◌, ◌+◌, ◌≤◌, ◌++◌, length, bytes_eq};
ghost use Rattle.std.specs.List.{list_any};
ghost use Rattle.schema_version.specs.Declare.{names_of};
ghost use Rattle.schema_version.specs.Names.{is_among, max_key_columns, max_columns, max_indexes};
ghost use Rattle.schema_version.specs.inner.AcceptTables.{names_in};
ghost use Rattle.table_faults.specs.inner.Search.{names_cause as names_cause_of};
ghost use Rattle.table_faults.specs.inner.Parts.{part_cause as part_cause_of};

use crate::fault::TableCause;
use collections::List;
use keycode::Text;
use row_map::ColumnType;
use schema_version::{TableDef, is_name};

/// Whether one of these has the name.
pub(crate) fn is_named<T>(items: &[(Text, T)], name: &[u8]) -> bool
    ensures { result ≡ is_among name.now (names_in items.now) }
{
    any_named(items, name)
}

fn any_named<T>(items: &[(Text, T)], name: &[u8]) -> bool
    ensures { result ≡ list_any (λ i. bytes_eq i.0 name.now) items.now }
{
    items.iter().any(|i| i.0.as_bytes() == name)
}

// Whether one of these, of these columns or of these indexes has the name.
fn stands_again<T>(
    items: &[(Text, T)],
    columns: &[(Text, ColumnType)],
    indexes: &[(Text, List<Text>)],
    name: &[u8],
) -> bool
    ensures { result ≡ is_among name.now (names_in items.now ++ (names_in columns.now ++ names_in indexes.now)) }
{
    is_named(items, name) || is_named(columns, name) || is_named(indexes, name)
}

// The first of these names that is no name, or that stands again: after it, or among these columns
// and indexes.
//
// - `first`: the place of the first of these names.
fn part_cause<T>(
    first: usize,
    items: &[(Text, T)],
    columns: &[(Text, ColumnType)],
    indexes: &[(Text, List<Text>)],
) -> Option<TableCause>
    requires few { first + length items.now ≤ max_key_columns + max_columns + max_indexes }
    ensures { result ≡ part_cause_of first (names_in items.now) (names_in columns.now ++ names_in indexes.now) }
{
    for i in 0..items.len() {
        let name = items[i].0.as_bytes();
        let place = first + i;
        if !is_name(name) {
            return Some(TableCause::Name { place });
        }
        if stands_again(&items[i + 1..], columns, indexes, name) {
            return Some(TableCause::NameTwice { place });
        }
    }
    None
}

/// The first name of a table that is no name, or that stands again after it.
pub(crate) fn names_cause(table: &TableDef) -> Option<TableCause>
    requires key { length table.now.key ≤ max_key_columns }
    requires columns { length table.now.columns ≤ max_columns }
    requires indexes { length table.now.indexes ≤ max_indexes }
    ensures { result ≡ names_cause_of 0 (names_of table.now) }
{
    let key = table.key.as_slice();
    let columns = table.columns.as_slice();
    let indexes = table.indexes.as_slice();
    if let Some(cause) = part_cause(0, key, columns, indexes) {
        return Some(cause);
    }
    if let Some(cause) = part_cause(key.len(), columns, &[], indexes) {
        return Some(cause);
    }
    part_cause(key.len() + columns.len(), indexes, &[], &[])
}
