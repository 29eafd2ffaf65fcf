//! What the indexes of a table list.
ghost use Rattle.std.specs.Prelude.{◌≡◌};
ghost use Rattle.schema_version.specs.Names.{is_among};
ghost use Rattle.schema_version.specs.inner.AcceptTables.{names_in};
ghost use Rattle.table_faults.specs.inner.Search.{listed_cause as listed_cause_of, index_cause as index_cause_of, indexes_cause as indexes_cause_of};

use crate::fault::TableCause;
use crate::names::is_named;
use keycode::Text;
use row_map::ColumnType;
use schema_version::{MAX_LISTED, TableDef};

fn is_listed(names: &[Text], name: &[u8]) -> bool
    ensures { result ≡ is_among name.now names.now }
{
    names.iter().any(|n| n.as_bytes() == name)
}

// The first of the listed columns that is listed again after it, or that is no such column.
fn listed_cause(index: usize, columns: &[(Text, ColumnType)], listed: &[Text]) -> Option<TableCause>
    ensures { result ≡ listed_cause_of index 0 (names_in columns.now) listed.now }
{
    for place in 0..listed.len() {
        let name = listed[place].as_bytes();
        if is_listed(&listed[place + 1..], name) {
            return Some(TableCause::ListedTwice { index, place });
        }
        if !is_named(columns, name) {
            return Some(TableCause::NotAColumn { index, place });
        }
    }
    None
}

fn index_cause(index: usize, columns: &[(Text, ColumnType)], listed: &[Text]) -> Option<TableCause>
    ensures { result ≡ index_cause_of index (names_in columns.now) listed.now }
{
    if listed.is_empty() || MAX_LISTED < listed.len() {
        return Some(TableCause::ListLength { index });
    }
    listed_cause(index, columns, listed)
}

/// What is wrong with the first of a table's indexes that may not be declared.
pub(crate) fn indexes_cause(table: &TableDef) -> Option<TableCause>
    ensures { result ≡ indexes_cause_of 0 (names_in table.now.columns) table.now.indexes }
{
    let columns = table.columns.as_slice();
    let indexes = table.indexes.as_slice();
    for index in 0..indexes.len() {
        if let Some(cause) = index_cause(index, columns, indexes[index].1.as_slice()) {
            return Some(cause);
        }
    }
    None
}
