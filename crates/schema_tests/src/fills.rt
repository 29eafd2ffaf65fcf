//! What fills an element from a row, and a row's cells, on elements of a version and by themselves.
use crate::elements::{
    AT_FIVE, AT_NULL, EIGHT_AT_FIVE, EIGHT_AT_SIX, FIVE, REQUIRED, SIX, SIX_AT_NULL, alone,
    are_lawful, row,
};
use crate::make::{G_AND_J_COME, TABLE_T, mark, version};
use byte_map::Bytes;
use element_state::{AnyElement, Element, cell};
use keycode::Value;
use row_map::Row;
use schema_version::Schema;
use std::alloc::{AllocError, Global};
use std::test::*;

/// Whether the version has it, an element, the column and row 1's value in it, and the pair with
/// which the row fills the element.
type Filled = (
    bool,
    u32,
    u32,
    Option<i64>,
    Option<(&'static [u8], &'static [u8])>,
);

static FILLS: [Filled; 12] = [
    // A column that a row may lack is not filled.
    (false, 1, 1, Some(5), None),
    (false, 1, 1, None, None),
    (false, 2, 1, Some(5), Some((AT_FIVE, &[]))),
    (false, 2, 1, None, Some((AT_NULL, &[]))),
    (false, 3, 3, Some(6), Some((REQUIRED, SIX))),
    (false, 3, 3, None, Some((REQUIRED, FIVE))),
    // The value in another column is not its own.
    (false, 3, 1, Some(6), Some((REQUIRED, FIVE))),
    (true, 6, 1, None, Some((SIX_AT_NULL, &[]))),
    (true, 8, 7, Some(6), Some((EIGHT_AT_SIX, &[]))),
    // The default of the column 7 is in the index over it, if the row has no value.
    (true, 8, 7, None, Some((EIGHT_AT_FIVE, &[]))),
    (true, 8, 1, Some(6), Some((EIGHT_AT_FIVE, &[]))),
    (true, 1, 1, Some(6), None),
];

fn in_version(alloc: Global, schema: &Schema, number: u32) -> Result<AnyElement, AllocError> {
    match schema.element(number) {
        Some(definition) => AnyElement::of(alloc, schema, definition),
        None => Err(AllocError),
    }
}

/// The element of this number in a version, or by itself.
fn element(alloc: Global, of_version: bool, number: u32) -> Result<AnyElement, AllocError> {
    if !of_version {
        return alone(alloc, number);
    }
    match version(alloc, &TABLE_T, G_AND_J_COME) {
        Ok(schema) => in_version(alloc, &schema, number),
        Err(_) => Err(AllocError),
    }
}

/// Whether the row has just this value, in this column.
fn has_cell(row: &Row, column: u32, value: Option<i64>) -> bool {
    let same = match (cell(row, column), value) {
        (Some(Value::Int(found)), Some(value)) => *found == value,
        (None, None) => true,
        _ => false,
    };
    same && cell(row, 2).is_none()
}

fn is_pair(pair: &Option<(Bytes, Bytes)>, want: Option<(&[u8], &[u8])>) -> bool {
    match (pair, want) {
        (Some(pair), Some((key, value))) => {
            pair.0.as_slice() == key && pair.1.as_slice() == value
        }
        (None, None) => true,
        _ => false,
    }
}

fn fills(alloc: Global, element: &AnyElement, case: &Filled) -> Result<bool, AllocError> {
    let row = row(alloc, 1, case.2, case.3)?;
    let pair = element.fill_of(alloc, &row)?;
    Ok(has_cell(&row, case.2, case.3) && is_pair(&pair, case.4))
}

/// The element's own number is reported, a row's cells are found, and what is filled has the pair
/// that is wanted.
fn reads(alloc: Global, case: &Filled) -> Result<bool, AllocError> {
    let element = element(alloc, case.0, case.1)?;
    are_lawful(&element);
    Ok(element.number() == case.1 && fills(alloc, &element, case)?)
}

/// The same, asked once more if memory was short.
fn reads_at_last(alloc: Global, case: &Filled) -> bool {
    match reads(alloc, case) {
        Err(AllocError) => reads(alloc, case) == Ok(true),
        reported => reported == Ok(true),
    }
}

#[test]
fn under_refusal_fills_and_cells(rt: HostRuntime) {
    assert!(rt; mark(&rt));
    for row in 0..FILLS.len() {
        assert!(rt; reads_at_last(rt.alloc(), &FILLS[row]), "row {row}");
    }
}
