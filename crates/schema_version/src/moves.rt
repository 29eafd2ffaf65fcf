//! What is asked of elements and of the moves of a step.
ghost use Rattle.std.specs.Prelude.{◌≡◌, ◌==◌, ◌&&◌, count_by, bytes_eq, option_map};
ghost use Rattle.std.specs.List.{list_any, find};
ghost use Rattle.schema_version.specs.Version.{is_like as is_like_of, is_named as is_named_of};
ghost use Rattle.schema_version.specs.Moves.{moves_element as moves_element_of, is_move_of as is_move_of_number, is_entry as is_entry_of, is_entry_like as is_entry_like_of, is_distinct as is_distinct_of};
ghost use Rattle.schema_version.specs.Checks.{is_entry_named as is_entry_named_of, lists as lists_of, is_fair_kind as is_fair_kind_of};
ghost use Rattle.schema_version.specs.declared.element.ElementDef.{ElementDef as ElementDefinition};

use crate::element::{ElementDef, Kind};
use crate::limits::MAX_LISTED;
use crate::step::Move;
use keycode::Text;
use row_map::{ColumnType, fits};

/// Whether the step takes the element of this number to another state or turns it back. An entered
/// element has no number before.
pub fn moves_element(step: &[Move], number: u32) -> bool
    ensures { result ≡ moves_element_of step.now number }
{
    step.iter().any(|a| is_move_of(a, number))
}

fn is_move_of(a: &Move, number: u32) -> bool
    ensures { result ≡ is_move_of_number number a.now }
{
    match a {
        Move::Enter { .. } => false,
        Move::Go { element, .. } | Move::Turn { element } => *element == number,
    }
}

/// Whether this is an element of the table under the name.
pub(crate) fn is_named(element: &ElementDef, table: u32, name: &[u8]) -> bool
    ensures { result ≡ is_named_of table name.now element.now }
{
    element.table == table && element.name.as_bytes() == name
}

/// Whether one of these is an element of the table under the name.
pub(crate) fn any_named(elements: &[ElementDef], table: u32, name: &[u8]) -> bool
    ensures { result ≡ list_any (is_named_of table name.now) elements.now }
{
    elements.iter().any(|e| is_named(e, table, name))
}

/// Whether one of these columns has the name.
pub(crate) fn any_column_named(columns: &[(Text, ColumnType)], name: &[u8]) -> bool
    ensures { result ≡ list_any (λ column. bytes_eq column.0 name.now) columns.now }
{
    columns.iter().any(|c| c.0.as_bytes() == name)
}

/// The first of these elements that is an index which lists the column.
pub(crate) fn first_listing(elements: &[ElementDef], column: u32) -> Option<u32>
    ensures { result ≡ option_map (λ (e : ElementDefinition). e.number) (find (lists_of column) elements.now) }
{
    elements
        .iter()
        .find(|e| lists(*e, column))
        .map(|e| e.number)
}

/// Whether the element is an index that lists the column.
pub(crate) fn lists(element: &ElementDef, column: u32) -> bool
    ensures { result ≡ lists_of column element.now }
{
    contains(element.kind.indexed_columns(), column)
}

fn is_entry(a: &Move) -> bool
    ensures { result ≡ is_entry_of a.now }
{
    matches!(a, Move::Enter { .. })
}

/// How many elements enter.
pub(crate) fn entries(moves: &[Move]) -> usize
    ensures { result ≡ count_by is_entry_of moves.now }
{
    moves.iter().filter(|a| is_entry(*a)).count()
}

fn is_entry_like(a: &Move, table: u32, index: bool) -> bool
    ensures { result ≡ is_entry_like_of table index a.now }
{
    match a {
        Move::Enter { fresh, .. } => fresh.table == table && fresh.kind.is_like(index),
        Move::Go { .. } | Move::Turn { .. } => false,
    }
}

/// How many indexes of the table enter, or else how many columns.
pub(crate) fn entries_like(moves: &[Move], table: u32, index: bool) -> usize
    ensures { result ≡ count_by (is_entry_like_of table index) moves.now }
{
    moves
        .iter()
        .filter(|a| is_entry_like(*a, table, index))
        .count()
}

/// How many of the elements are indexes of the table of this number, or else, where `index` is
/// false, how many are its columns.
pub fn elements_like(elements: &[ElementDef], table: u32, index: bool) -> usize
    ensures { result ≡ count_by (λ (element : ElementDefinition). (element.table == table) && is_like_of index element.kind) elements.now }
{
    elements
        .iter()
        .filter(|e| e.table == table && e.kind.is_like(index))
        .count()
}

fn is_entry_named(a: &Move, table: u32, name: &[u8]) -> bool
    ensures { result ≡ is_entry_named_of table name.now a.now }
{
    match a {
        Move::Enter { fresh, .. } => fresh.table == table && fresh.name.as_bytes() == name,
        Move::Go { .. } | Move::Turn { .. } => false,
    }
}

/// Whether an element of this name enters the table.
pub(crate) fn enters_named(moves: &[Move], table: u32, name: &[u8]) -> bool
    ensures { result ≡ list_any (is_entry_named_of table name.now) moves.now }
{
    moves.iter().any(|a| is_entry_named(a, table, name))
}

/// Whether the number is among these.
pub(crate) fn contains(numbers: &[u32], number: u32) -> bool
    ensures { result ≡ list_any (◌==◌ number) numbers.now }
{
    numbers.iter().any(|n| number == *n)
}

/// Whether no number stands twice.
pub(crate) fn is_distinct(numbers: &[u32]) -> bool
    ensures { result ≡ is_distinct_of numbers.now }
{
    match numbers {
        [] => true,
        [first, rest @ ..] => !contains(rest, *first) && is_distinct(rest),
    }
}

/// Whether an index lists 1 to 4 distinct columns, and the default of a required column is a value
/// of its type: not Null, and no text of more than 1,024 bytes.
#[tactic(auto, using(crate::proofs::Decides::passes_so))]
pub fn is_fair_kind(kind: &Kind) -> bool
    ensures { result ≡ is_fair_kind_of kind.now }
{
    match kind {
        Kind::Index(columns) => 1 <= columns.len()
            && columns.len() <= MAX_LISTED
            && is_distinct(columns.as_slice()),
        Kind::Optional(_) => true,
        Kind::Required { column, fallback } => fits(*column, fallback),
    }
}
