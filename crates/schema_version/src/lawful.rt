//! Which declarations are lawful.
ghost use Rattle.std.specs.Prelude.{◌≡◌, not, bytes_eq};
ghost use Rattle.std.specs.List.{list_all, list_any};
ghost use Rattle.schema_version.specs.declared.table.TableDef.{TableDef as Declared};
ghost use Rattle.schema_version.specs.Names.{is_name as is_name_of, is_among, is_distinct};
ghost use Rattle.schema_version.specs.inner.AcceptTables.{names_in, table_names, are_apart as are_apart_of, has_fair_sizes as has_fair_sizes_of, has_names as has_names_of, has_own_names as has_own_names_of, has_names_apart as has_names_apart_of, is_lawful_list as is_lawful_list_of, has_lawful_lists as has_lawful_lists_of, is_lawful_table as is_lawful_table_of, are_lawful as are_lawful_of};

use crate::limits::{MAX_COLUMNS, MAX_INDEXES, MAX_KEY_COLUMNS, MAX_TABLES};
use crate::names::{is_name, is_name_list};
use crate::table::TableDef;
use keycode::Text;

// Whether one of these has the name.
pub(crate) fn has_named<T>(items: &[(Text, T)], name: &[u8]) -> bool
    ensures { result ≡ is_among name.now (names_in items.now) }
{
    any_named(items, name)
}

fn any_named<T>(items: &[(Text, T)], name: &[u8]) -> bool
    ensures { result ≡ list_any (λ i. bytes_eq i.0 name.now) items.now }
{
    items.iter().any(|i| i.0.as_bytes() == name)
}

// Whether each of these has a name of its own.
pub(crate) fn are_distinct<T>(items: &[(Text, T)]) -> bool
    ensures { result ≡ is_distinct (names_in items.now) }
{
    match items {
        [] => true,
        [first, rest @ ..] => !has_named(rest, first.0.as_bytes()) && are_distinct(rest),
    }
}

// Whether each of these has a name that may be given.
pub(crate) fn are_names<T>(items: &[(Text, T)]) -> bool
    ensures { result ≡ list_all is_name_of (names_in items.now) }
{
    all_named_well(items)
}

fn all_named_well<T>(items: &[(Text, T)]) -> bool
    ensures { result ≡ list_all (λ i. is_name_of i.0) items.now }
{
    items.iter().all(|i| is_name(i.0.as_bytes()))
}

// Whether no name of the first is one of the others.
fn are_apart<T, U>(items: &[(Text, T)], others: &[(Text, U)]) -> bool
    ensures { result ≡ are_apart_of (names_in items.now) (names_in others.now) }
{
    all_apart(items, others)
}

fn all_apart<T, U>(items: &[(Text, T)], others: &[(Text, U)]) -> bool
    ensures { result ≡ list_all (λ i. not (is_among i.0 (names_in others.now))) items.now }
{
    items.iter().all(|i| !has_named(others, i.0.as_bytes()))
}

fn are_columns<T>(columns: &[(Text, T)], names: &[Text]) -> bool
    ensures { result ≡ list_all (λ name. is_among name (names_in columns.now)) names.now }
{
    names.iter().all(|n| has_named(columns, n.as_bytes()))
}

// Whether an index may list these.
fn is_lawful_list<T>(columns: &[(Text, T)], names: &[Text]) -> bool
    ensures { result ≡ is_lawful_list_of (names_in columns.now) names.now }
{
    is_name_list(names) && are_columns(columns, names)
}

fn has_fair_sizes(table: &TableDef) -> bool
    ensures { result ≡ has_fair_sizes_of table.now }
{
    1 <= table.key.len()
        && table.key.len() <= MAX_KEY_COLUMNS
        && table.columns.len() <= MAX_COLUMNS
        && table.indexes.len() <= MAX_INDEXES
}

fn has_names(table: &TableDef) -> bool
    ensures { result ≡ has_names_of table.now }
{
    is_name(table.name.as_bytes())
        && are_names(table.key.as_slice())
        && are_names(table.columns.as_slice())
        && are_names(table.indexes.as_slice())
}

fn has_own_names(table: &TableDef) -> bool
    ensures { result ≡ has_own_names_of table.now }
{
    are_distinct(table.key.as_slice())
        && are_distinct(table.columns.as_slice())
        && are_distinct(table.indexes.as_slice())
}

fn has_names_apart(table: &TableDef) -> bool
    ensures { result ≡ has_names_apart_of table.now }
{
    let key = table.key.as_slice();
    let columns = table.columns.as_slice();
    let indexes = table.indexes.as_slice();
    are_apart(key, columns) && are_apart(key, indexes) && are_apart(columns, indexes)
}

fn has_lawful_lists(table: &TableDef) -> bool
    ensures { result ≡ has_lawful_lists_of table.now }
{
    table.indexes.as_slice().iter().all(|i| is_lawful_list(
        table.columns.as_slice(),
        i.1.as_slice(),
    ))
}

fn is_lawful_table(table: &TableDef) -> bool
    ensures { result ≡ is_lawful_table_of table.now }
{
    has_fair_sizes(table)
        && has_names(table)
        && has_own_names(table)
        && has_names_apart(table)
        && has_lawful_lists(table)
}

fn is_table_named(tables: &[TableDef], name: &[u8]) -> bool
    ensures { result ≡ is_among name.now (table_names tables.now) }
{
    any_table_named(tables, name)
}

fn any_table_named(tables: &[TableDef], name: &[u8]) -> bool
    ensures { result ≡ list_any (λ (t : Declared). bytes_eq t.name name.now) tables.now }
{
    tables.iter().any(|t| t.name.as_bytes() == name)
}

fn are_tables_distinct(tables: &[TableDef]) -> bool
    ensures { result ≡ is_distinct (table_names tables.now) }
{
    match tables {
        [] => true,
        [first, rest @ ..] => !is_table_named(rest, first.name.as_bytes())
            && are_tables_distinct(rest),
    }
}

fn are_lawful_tables(tables: &[TableDef]) -> bool
    ensures { result ≡ list_all is_lawful_table_of tables.now }
{
    tables.iter().all(|t| is_lawful_table(t))
}

/// Whether the tables may be declared.
pub(crate) fn are_lawful(tables: &[TableDef]) -> bool
    ensures { result ≡ are_lawful_of tables.now }
{
    1 <= tables.len()
        && tables.len() <= MAX_TABLES
        && are_tables_distinct(tables)
        && are_lawful_tables(tables)
}
