//! Version 1, from the tables that are declared.
ghost use Rattle.std.specs.Prelude.{◌≡◌, ◌+◌, ◌≤◌, ◌++◌, map, length, IfOk, OnOk, IsTrue, []};
ghost use Rattle.std.specs.List.{list_all};
ghost use Rattle.schema_version.specs.Version.{Version};
ghost use Rattle.schema_version.specs.Held.{IsHeld, holding, table_held};
ghost use Rattle.schema_version.specs.Names.{is_distinct};
ghost use Rattle.schema_version.specs.inner.AcceptTables.{has_fair_sizes, table_names};
ghost use Rattle.schema_version.specs.Declare.{number_of as number_in, column_move as column_move_of, index_move as index_move_of, moves_of, entries_of, enter_public, enter_tables as enter_tables_of, table_of};

use crate::apply::make_all;
use crate::element::{ElementDef, ElementState, Kind, NewElement};
use crate::step::Move;
use crate::table::{Columns, TableDef};
use collections::List;
use indexmap::IndexMap;
use keycode::Text;
use row_map::ColumnType;
use std::alloc::{AllocError, Global};

// The number of the column of this name, if the first of these columns has this number; 0 if there
// is none.
fn number_of(first: u32, columns: &[(Text, ColumnType)], name: &[u8]) -> u32
    requires { first + length columns.now ≤ 2000 }
    ensures { result ≡ number_in first columns.now name.now }
{
    match columns {
        [] => 0,
        [column, rest @ ..] => {
            if column.0.as_bytes() == name {
                first
            } else {
                number_of(first + 1, rest, name)
            }
        }
    }
}

fn numbers_of(
    alloc: Global,
    first: u32,
    columns: &[(Text, ColumnType)],
    names: &[Text],
) -> Result<Vec<u32>, AllocError>
    requires { first + length columns.now ≤ 2000 }
    ensures { IfOk result (λ numbers. numbers.items ≡ map (number_in first columns.now) names.now) }
{
    let mut numbers = Vec::new(alloc);
    for name in names {
        numbers.push(number_of(first, columns, name.as_bytes()))?;
    }
    Ok(numbers)
}

fn column_move(table: u32, column: &(Text, ColumnType)) -> Result<Move, AllocError>
    ensures { IfOk result (λ a. a ≡ column_move_of table column.now) }
{
    Ok(Move::Enter {
        fresh: NewElement {
            table,
            name: column.0.clone()?,
            kind: Kind::Optional(column.1),
        },
        to: ElementState::Public,
    })
}

fn index_move(
    alloc: Global,
    table: u32,
    first: u32,
    columns: &[(Text, ColumnType)],
    index: &(Text, List<Text>),
) -> Result<Move, AllocError>
    requires { first + length columns.now ≤ 2000 }
    ensures { IfOk result (λ a. a ≡ index_move_of table first columns.now index.now) }
{
    Ok(Move::Enter {
        fresh: NewElement {
            table,
            name: index.0.clone()?,
            kind: Kind::Index(List::new(numbers_of(alloc, first, columns, index.1.as_slice())?)),
        },
        to: ElementState::Public,
    })
}

fn add_columns(
    moves: &mut Vec<Move>,
    table: u32,
    columns: &[(Text, ColumnType)],
) -> Result<(), AllocError>
    ensures { OnOk result (moves.new.items ≡ moves.old.items ++ map (column_move_of table) columns.now) }
{
    for column in columns {
        moves.push(column_move(table, column)?)?;
    }
    Ok(())
}

fn add_indexes(
    alloc: Global,
    moves: &mut Vec<Move>,
    table: u32,
    first: u32,
    columns: &[(Text, ColumnType)],
    indexes: &[(Text, List<Text>)],
) -> Result<(), AllocError>
    requires { first + length columns.now ≤ 2000 }
    ensures { OnOk result (moves.new.items ≡ moves.old.items ++ map (index_move_of table first columns.now) indexes.now) }
{
    for index in indexes {
        moves.push(index_move(alloc, table, first, columns, index)?)?;
    }
    Ok(())
}

// The moves by which a table's columns and indexes enter, if the first of them gets this number.
fn table_moves(
    alloc: Global,
    number: u32,
    first: u32,
    table: &TableDef,
) -> Result<Vec<Move>, AllocError>
    requires { first + length table.now.columns ≤ 2000 }
    ensures { IfOk result (λ moves. moves.items ≡ moves_of number first table.now) }
{
    let columns = table.columns.as_slice();
    let mut moves = Vec::new(alloc);
    add_columns(&mut moves, number, columns)?;
    add_indexes(
        alloc,
        &mut moves,
        number,
        first,
        columns,
        table.indexes.as_slice(),
    )?;
    Ok(moves)
}

// Enters the columns and indexes of a table, and gives the next number after them.
fn enter_table(
    alloc: Global,
    elements: &mut IndexMap<u32, ElementDef>,
    number: u32,
    first: u32,
    table: &TableDef,
) -> Result<u32, AllocError>
    requires held { IsHeld elements.old.entries first }
    requires fair { IsTrue (has_fair_sizes table.now) }
    requires few { first ≤ 1000 }
    ensures held { IfOk result (λ next. IsHeld elements.new.entries next) }
    ensures few { IfOk result (λ next. next ≤ first + 48) }
    ensures after { (version : Version) → IfOk result (λ next. holding version elements.new.entries next ≡ enter_public (holding version elements.old.entries first) (entries_of number first table.now)) }
{
    let moves = table_moves(alloc, number, first, table)?;
    make_all(elements, first, &moves)
}

/// Enters the columns and indexes of all tables.
pub(crate) fn enter_tables(
    alloc: Global,
    elements: &mut IndexMap<u32, ElementDef>,
    tables: &[TableDef],
) -> Result<u32, AllocError>
    requires empty { elements.old.entries ≡ [] }
    requires fair { IsTrue (list_all has_fair_sizes tables.now) }
    requires few { length tables.now ≤ 16 }
    ensures held { IfOk result (λ next. IsHeld elements.new.entries next) }
    ensures after { (version : Version) → IfOk result (λ next. holding version elements.new.entries next ≡ enter_tables_of 1 (holding version [] 1) tables.now) }
{
    let mut next = 1;
    for (i, table) in tables.iter().enumerate() {
        next = enter_table(alloc, elements, i as u32 + 1, next, table)?;
    }
    Ok(next)
}

/// Holds the tables under their names.
pub(crate) fn hold_tables(
    alloc: Global,
    tables: &[TableDef],
) -> Result<IndexMap<String, Columns>, AllocError>
    requires { IsTrue (is_distinct (table_names tables.now)) }
    ensures { IfOk result (λ held. map table_held held.entries ≡ map table_of tables.now) }
{
    let mut held = IndexMap::new(alloc);
    for table in tables {
        held.insert(table.name.clone()?.into_string(), table.key.clone()?)?;
    }
    Ok(held)
}
