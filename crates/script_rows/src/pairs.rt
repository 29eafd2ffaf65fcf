//! The pair of an element for a row.
use audit::row_at;
use collections::List;
use element_state::{AnyElement, Element};
use keycode::{Value, Values};
use row_map::{Near, PairView, Row, column_key, read_only_value};
use schema_version::{ElementDef, Schema};
use std::alloc::{AllocError, Global};

/// What the store has of an element for a row.
#[derive(Drop)]
pub enum Found {
    /// No pair.
    Nothing,
    /// The pair that the row gives an index.
    Pair,
    /// The value of a column.
    Value(Value),
}

/// An element of a row's table, and what the store has of it for the row.
#[derive(Drop)]
pub struct PairOf {
    /// The number of the element.
    pub number: u32,
    /// What the store has.
    pub found: Found,
}

// The value of a column in a row.
fn cell_of<V: PairView>(
    alloc: Global,
    view: &V,
    table: u32,
    key: &[Value],
    number: u32,
) -> Result<Found, AllocError> {
    let at = column_key(alloc, table, key, number)?;
    let Some(bytes) = view.get(at.as_slice()) else {
        return Ok(Found::Nothing);
    };
    match read_only_value(alloc, bytes)? {
        Some(value) => Ok(Found::Value(value)),
        None => Ok(Found::Nothing),
    }
}

// Whether the store has the pair that a row gives an index.
fn entry_of<V: PairView>(
    alloc: Global,
    schema: &Schema,
    view: &V,
    element: &ElementDef,
    row: &Row,
) -> Result<Found, AllocError> {
    let index = AnyElement::of(alloc, schema, element)?;
    let Some((key, _)) = index.fill_of(alloc, row)? else {
        return Ok(Found::Nothing);
    };
    match view.get(key.as_slice()) {
        Some(_) => Ok(Found::Pair),
        None => Ok(Found::Nothing),
    }
}

/// What the store has for a row of each element of its table, by rising number. Refused only when out
/// of memory.
///
/// - `schema`: the version by which the pairs are read.
/// - `view`: the store.
/// - `table`: the number of the table.
/// - `key`: the values of the row's primary key.
pub(crate) fn pairs_of<V: PairView>(
    alloc: Global,
    schema: &Schema,
    view: &V,
    table: u32,
    key: &Values,
) -> Result<List<PairOf>, AllocError> {
    let mut near = Near::new();
    let row = row_at(alloc, schema, view, &mut near, table, key.as_slice())?;
    let mut pairs = List::new(Vec::new(alloc));
    for element in schema.elements() {
        if element.table != table {
            continue;
        }
        let number = element.number;
        let found = if element.kind.is_index() {
            entry_of(alloc, schema, view, element, &row)?
        } else {
            cell_of(alloc, view, table, key.as_slice(), number)?
        };
        pairs.push(PairOf { number, found })?;
    }
    Ok(pairs)
}
