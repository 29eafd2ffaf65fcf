//! A version from its parts: whether they are those of a sound version, and the maps that hold them.
ghost use Rattle.std.specs.Prelude.{◌≡◌, ◌+◌, ◌≤◌, length, map, ◌++◌, IfOk, OnOk, IsTrue};
ghost use Rattle.std.specs.List.{list_all};
ghost use Rattle.std.specs.Option.{option_copied};
ghost use Rattle.std.specs.String.{string_bytes};
ghost use Rattle.schema_version.specs.Edges.{is_filled};
ghost use Rattle.schema_version.specs.Held.{table_held};
ghost use Rattle.schema_version.specs.Names.{is_distinct};
ghost use Rattle.schema_version.specs.Restored.{table_with, numbered};
ghost use Rattle.schema_version.specs.inner.AcceptTables.{names_in};
ghost use Rattle.schema_version.specs.inner.RestoreTests.{is_key as is_key_of, is_table as is_table_of, are_tables as are_tables_of, part_at as part_at_of, is_placed as is_placed_in, is_in_room as is_in_room_of, have_room as have_room_of, rise_from as rise_from_of, may_stand as may_stand_of, key_lacks as key_lacks_of, has_columns as has_columns_of, is_fair_element as is_fair_element_of, have_own_names as have_own_names_of, paired, are_few as are_few_of, are_fair as are_fair_of, are_parts as are_parts_of};

use crate::columns::public_column_type;
use crate::element::{ElementDef, ElementState, Way};
use crate::lawful::{are_distinct, are_names, has_named};
use crate::limits::{MAX_COLUMNS, MAX_ELEMENTS, MAX_INDEXES, MAX_KEY_COLUMNS, MAX_TABLES};
use crate::moves::{any_named, elements_like, is_fair_kind};
use crate::names::is_name;
use crate::table::Columns;
use indexmap::IndexMap;
use keycode::Text;
use row_map::ColumnType;
use std::alloc::{AllocError, Global};

fn is_key(key: &[(Text, ColumnType)]) -> bool
    ensures { result ≡ is_key_of key.now }
{
    1 <= key.len() && key.len() <= MAX_KEY_COLUMNS && are_names(key) && are_distinct(key)
}

fn is_table(part: &(Text, Columns)) -> bool
    ensures { result ≡ is_table_of part.now }
{
    is_name(part.0.as_bytes()) && is_key(part.1.as_slice())
}

fn are_all_tables(tables: &[(Text, Columns)]) -> bool
    ensures { result ≡ list_all is_table_of tables.now }
{
    tables.iter().all(|t| is_table(t))
}

fn are_tables(tables: &[(Text, Columns)]) -> bool
    ensures { result ≡ are_tables_of tables.now }
{
    1 <= tables.len()
        && tables.len() <= MAX_TABLES
        && are_all_tables(tables)
        && are_distinct(tables)
}

// The table of this number, from 1.
fn part_at(tables: &[(Text, Columns)], number: u32) -> Option<&(Text, Columns)>
    ensures { option_copied result ≡ part_at_of tables.now number }
{
    if number == 0 {
        return None;
    }
    tables.get(number as usize - 1)
}

fn is_placed(tables: &[(Text, Columns)], element: &ElementDef) -> bool
    ensures { result ≡ is_placed_in tables.now element.now }
{
    part_at(tables, element.table).is_some()
}

fn are_placed(tables: &[(Text, Columns)], elements: &[ElementDef]) -> bool
    ensures { result ≡ list_all (is_placed_in tables.now) elements.now }
{
    elements.iter().all(|e| is_placed(tables, e))
}

// Whether the table has few enough indexes, or else columns.
fn is_in_room(elements: &[ElementDef], table: u32, index: bool) -> bool
    ensures { result ≡ is_in_room_of elements.now table index }
{
    let most = if index { MAX_INDEXES } else { MAX_COLUMNS };
    elements_like(elements, table, index) <= most
}

// Whether each of these tables, which are numbered from `number` on, has few enough columns and
// indexes.
fn have_room(number: u32, tables: &[(Text, Columns)], elements: &[ElementDef]) -> bool
    requires { number + length tables.now ≤ 100 }
    ensures { result ≡ have_room_of number tables.now elements.now }
{
    match tables {
        [] => true,
        [_, rest @ ..] => is_in_room(elements, number, false)
            && is_in_room(elements, number, true)
            && have_room(number + 1, rest, elements),
    }
}

// Whether the numbers rise, from `least` on, and were given.
fn rise_from(least: u32, next: u32, elements: &[ElementDef]) -> bool
    ensures { result ≡ rise_from_of least next elements.now }
{
    let mut free = least;
    for element in elements {
        if element.number < free || element.number >= next {
            return false;
        }
        free = element.number + 1;
    }
    true
}

// Whether a live element may be in its state, on its way.
fn may_stand(element: &ElementDef) -> bool
    ensures { result ≡ may_stand_of (is_filled element.now.kind) element.now.state element.now.way }
{
    match (element.state, element.way) {
        (ElementState::Absent, _) | (ElementState::Public, Way::Dropping) => false,
        (ElementState::DeleteOnly, _) | (ElementState::Public, Way::Adding) => true,
        (ElementState::WriteOnly, _) => element.kind.is_filled(),
    }
}

// Whether the element's table is there, and no column of its key has the element's name.
fn key_lacks(tables: &[(Text, Columns)], element: &ElementDef) -> bool
    ensures { result ≡ key_lacks_of (part_at_of tables.now element.now.table) element.now.name }
{
    match part_at(tables, element.table) {
        Some(part) => !has_named(part.1.as_slice(), element.name.as_bytes()),
        None => false,
    }
}

fn has_columns(elements: &[ElementDef], element: &ElementDef) -> bool
    ensures { result ≡ has_columns_of elements.now element.now }
{
    element.kind.indexed_columns().iter().all(|c| {
        public_column_type(elements, element.table, *c).is_some()
    })
}

fn is_fair_element(
    tables: &[(Text, Columns)],
    elements: &[ElementDef],
    element: &ElementDef,
) -> bool
    ensures { result ≡ is_fair_element_of tables.now elements.now element.now }
{
    may_stand(element)
        && is_name(element.name.as_bytes())
        && key_lacks(tables, element)
        && is_fair_kind(&element.kind)
        && has_columns(elements, element)
}

fn are_all_fair(tables: &[(Text, Columns)], elements: &[ElementDef]) -> bool
    ensures { result ≡ list_all (is_fair_element_of tables.now elements.now) elements.now }
{
    elements
        .iter()
        .all(|e| is_fair_element(tables, elements, e))
}

fn have_own_names(elements: &[ElementDef]) -> bool
    ensures { result ≡ have_own_names_of elements.now }
{
    match elements {
        [] => true,
        [first, rest @ ..] => !any_named(rest, first.table, first.name.as_bytes())
            && have_own_names(rest),
    }
}

// The tests that bound how much the others have to do.
fn are_few(tables: &[(Text, Columns)], elements: &[ElementDef], next: u32) -> bool
    ensures { result ≡ are_few_of tables.now elements.now next }
{
    1 <= next
        && next as usize <= MAX_ELEMENTS + 1
        && are_tables(tables)
        && are_placed(tables, elements)
        && have_room(1, tables, elements)
}

fn are_fair(tables: &[(Text, Columns)], elements: &[ElementDef], next: u32) -> bool
    ensures { result ≡ are_fair_of tables.now elements.now next }
{
    rise_from(1, next, elements) && are_all_fair(tables, elements) && have_own_names(elements)
}

/// Whether some sound version has these tables, these live elements by rising number, and this next
/// free number.
pub(crate) fn are_parts(tables: &[(Text, Columns)], elements: &[ElementDef], next: u32) -> bool
    ensures { result ≡ are_parts_of tables.now elements.now next }
{
    are_few(tables, elements, next) && are_fair(tables, elements, next)
}

/// Holds the tables under their names.
pub(crate) fn hold_parts(
    alloc: Global,
    tables: &[(Text, Columns)],
) -> Result<IndexMap<String, Columns>, AllocError>
    requires { IsTrue (is_distinct (names_in tables.now)) }
    ensures { IfOk result (λ held. map table_held held.entries ≡ map table_with tables.now) }
{
    let mut held = IndexMap::new(alloc);
    for part in tables {
        held.insert(part.0.clone()?.into_string(), part.1.clone()?)?;
    }
    Ok(held)
}

/// Holds the elements under their numbers.
pub(crate) fn hold_elements(
    alloc: Global,
    next: u32,
    elements: &[ElementDef],
) -> Result<IndexMap<u32, ElementDef>, AllocError>
    requires rising { IsTrue (rise_from_of 1 next elements.now) }
    ensures { IfOk result (λ held. held.entries ≡ numbered elements.now) }
{
    let mut held = IndexMap::new(alloc);
    for element in elements {
        held.insert(element.number, element.clone()?)?;
    }
    Ok(held)
}

fn copy_part(name: &String, key: &Columns) -> Result<(Text, Columns), AllocError>
    ensures { IfOk result (λ part. part ≡ (string_bytes name.now, key.now)) }
{
    Ok((Text::new(name.clone()?), key.clone()?))
}

/// Adds a copy of each name with its key.
pub(crate) fn push_parts(
    out: &mut Vec<(Text, Columns)>,
    names: &[String],
    keys: &[Columns],
) -> Result<(), AllocError>
    ensures { OnOk result (out.new.items ≡ out.old.items ++ paired (map string_bytes names.now) keys.now) }
{
    match names {
        [] => Ok(()),
        [name, later_names @ ..] => match keys {
            [] => Ok(()),
            [key, later_keys @ ..] => {
                out.push(copy_part(name, key)?)?;
                push_parts(out, later_names, later_keys)
            }
        },
    }
}
