//! The first fault of tables as they are declared.
ghost use Rattle.std.specs.Prelude.{◌≡◌, MatchOption, bytes_eq};
ghost use Rattle.std.specs.List.{list_any};
ghost use Rattle.schema_version.specs.declared.table.TableDef.{TableDef as Declared};
ghost use Rattle.schema_version.specs.Declare.{IsLawful};
ghost use Rattle.schema_version.specs.Names.{is_among};
ghost use Rattle.schema_version.specs.inner.AcceptTables.{table_names};
ghost use Rattle.table_faults.specs.Faults.{IsFinding};
ghost use Rattle.table_faults.specs.inner.Search.{size_cause as size_cause_of, table_cause as table_cause_of, tables_cause as tables_cause_of, declaration_fault as fault_of};

use crate::fault::{TableCause, TableFault};
use crate::lists::indexes_cause;
use crate::names::names_cause;
use schema_version::{MAX_COLUMNS, MAX_INDEXES, MAX_KEY_COLUMNS, MAX_TABLES, TableDef, is_name};

fn is_table_named(tables: &[TableDef], name: &[u8]) -> bool
    ensures { result ≡ is_among name.now (table_names tables.now) }
{
    any_table_named(tables, name)
}

fn any_table_named(tables: &[TableDef], name: &[u8]) -> bool
    ensures { result ≡ list_any (λ (t : Declared). bytes_eq t.name name.now) tables.now }
{
    tables.iter().any(|t| t.name.as_bytes() == name)
}

fn size_cause(table: &TableDef) -> Option<TableCause>
    ensures { result ≡ size_cause_of table.now }
{
    if table.key.len() < 1 || MAX_KEY_COLUMNS < table.key.len() {
        return Some(TableCause::KeyLength);
    }
    if MAX_COLUMNS < table.columns.len() {
        return Some(TableCause::TooManyColumns);
    }
    if MAX_INDEXES < table.indexes.len() {
        return Some(TableCause::TooManyIndexes);
    }
    None
}

// What is wrong with a table that comes before those.
fn table_cause(later: &[TableDef], table: &TableDef) -> Option<TableCause>
    ensures { result ≡ table_cause_of (table_names later.now) table.now }
{
    let name = table.name.as_bytes();
    if !is_name(name) {
        return Some(TableCause::TableName);
    }
    if is_table_named(later, name) {
        return Some(TableCause::TableTwice);
    }
    if let Some(cause) = size_cause(table) {
        return Some(cause);
    }
    if let Some(cause) = names_cause(table) {
        return Some(cause);
    }
    indexes_cause(table)
}

fn tables_cause(tables: &[TableDef]) -> Option<TableFault>
    ensures { result ≡ tables_cause_of 0 tables.now }
{
    for table in 0..tables.len() {
        if let Some(cause) = table_cause(&tables[table + 1..], &tables[table]) {
            return Some(TableFault { table, cause });
        }
    }
    None
}

// The first fault of the tables, by going over them.
fn first_fault(tables: &[TableDef]) -> Option<TableFault>
    ensures { result ≡ fault_of tables.now }
{
    if tables.is_empty() {
        return Some(TableFault {
            table: 0,
            cause: TableCause::NoTable,
        });
    }
    if MAX_TABLES < tables.len() {
        return Some(TableFault {
            table: MAX_TABLES,
            cause: TableCause::TooManyTables,
        });
    }
    tables_cause(tables)
}

/// Why the tables may not be declared: the first fault, and the table that has it. None if and only
/// if they may be declared, which is exactly when `Schema::declared` does not answer BadTable.
///
/// NoTable and TooManyTables come first. Then the tables are tried in their order, each for the
/// other causes in the order of `TableCause`, but part by part: each of its names, by place, for
/// Name and then for NameTwice; each of its indexes for ListLength, and then each place of the list
/// for ListedTwice before NotAColumn.
///
/// It takes no memory.
pub fn declaration_fault(tables: &[TableDef]) -> Option<TableFault>
    ensures first { IsFinding tables.now result }
    ensures decides { MatchOption result (IsLawful tables.now) (λ _. ¬ (IsLawful tables.now)) }
{
    first_fault(tables)
}
