//! Each cell of the table of writes, on rows made by hand. Table 1 has the column 1, the index 2
//! over it, and the required column 3 with the default 5. The expected bytes are worked out by
//! hand: a number is 02 and its eight bytes with the highest bit set.
ghost use Rattle.std.specs.Prelude.{◌≡◌, IfOk, [], ◌∷◌};
ghost use Rattle.keycode.specs.declared.value.Value.TheVariants.{Int};

use crate::make::{G_AND_J_COME, TABLE_T, mark, version};
use Operation::{Delete, Insert, Update};
use byte_map::Bytes;
use collections::List;
use element_state::{
    AnyElement, Element, cell, clear_leaves_none, core_keeps, cover_stays, exact_stays,
    fill_covers, nothing_grows, subset_stays, two_versions_stay,
};
use keycode::{Text, Value};
use row_map::{Batch, ColumnType, Row, Write};
use schema_version::ElementState::{self, Absent, DeleteOnly, Public, WriteOnly};
use schema_version::{ElementDef, Kind, Schema, Way};
use std::alloc::{AllocError, Global};
use std::test::*;

/// The pair of the column in row 1: 52, table, key, element.
const COLUMN: &[u8] = &[0x52, 0, 0, 0, 1, 2, 0x80, 0, 0, 0, 0, 0, 0, 1, 0, 0, 0, 1];
/// The same of the required column.
pub(crate) const REQUIRED: &[u8] = &[0x52, 0, 0, 0, 1, 2, 0x80, 0, 0, 0, 0, 0, 0, 1, 0, 0, 0, 3];
/// The value 5, which is the default too.
pub(crate) const FIVE: &[u8] = &[2, 0x80, 0, 0, 0, 0, 0, 0, 5];
/// The value 6.
pub(crate) const SIX: &[u8] = &[2, 0x80, 0, 0, 0, 0, 0, 0, 6];
/// The index's pair of row 1 if the value is 5: 58, element, value, key.
pub(crate) const AT_FIVE: &[u8] = &[
    0x58, 0, 0, 0, 2, 2, 0x80, 0, 0, 0, 0, 0, 0, 5, 2, 0x80, 0, 0, 0, 0, 0, 0, 1,
];
/// The same if it is 6.
const AT_SIX: &[u8] = &[
    0x58, 0, 0, 0, 2, 2, 0x80, 0, 0, 0, 0, 0, 0, 6, 2, 0x80, 0, 0, 0, 0, 0, 0, 1,
];
/// The same if there is none: Null is 01.
pub(crate) const AT_NULL: &[u8] = &[0x58, 0, 0, 0, 2, 1, 2, 0x80, 0, 0, 0, 0, 0, 0, 1];

/// The pairs of the index 6 over the column 1, and of the index 8 over the required column 7.
pub(crate) const SIX_AT_NULL: &[u8] = &[0x58, 0, 0, 0, 6, 1, 2, 0x80, 0, 0, 0, 0, 0, 0, 1];

pub(crate) const EIGHT_AT_FIVE: &[u8] = &[
    0x58, 0, 0, 0, 8, 2, 0x80, 0, 0, 0, 0, 0, 0, 5, 2, 0x80, 0, 0, 0, 0, 0, 0, 1,
];

pub(crate) const EIGHT_AT_SIX: &[u8] = &[
    0x58, 0, 0, 0, 8, 2, 0x80, 0, 0, 0, 0, 0, 0, 6, 2, 0x80, 0, 0, 0, 0, 0, 0, 1,
];

/// What is done with row 1.
#[derive(Clone, Copy)]
enum Operation {
    Insert,
    Update,
    Delete,
}

/// A key with the value that is put, or none if its pair goes.
type Wrote = (&'static [u8], Option<&'static [u8]>);

/// An element, its state, an operation, the value of row 1 in the column before it and after it,
/// and what it writes for the element.
type Case = (
    u32,
    ElementState,
    Operation,
    Option<i64>,
    Option<i64>,
    &'static [Wrote],
);

static WRITES: [Case; 32] = [
    (2, Absent, Insert, None, Some(5), &[]),
    (2, Absent, Update, Some(5), Some(6), &[]),
    (2, Absent, Delete, Some(5), None, &[]),
    (1, Absent, Insert, None, Some(5), &[]),
    (1, Absent, Update, Some(5), Some(6), &[]),
    (1, Absent, Delete, Some(5), None, &[]),
    (2, DeleteOnly, Insert, None, Some(5), &[]),
    (2, DeleteOnly, Update, Some(5), Some(6), &[(AT_FIVE, None)]),
    (2, DeleteOnly, Update, Some(5), Some(5), &[]),
    (2, DeleteOnly, Delete, Some(6), None, &[(AT_SIX, None)]),
    (2, WriteOnly, Insert, None, Some(5), &[(AT_FIVE, Some(&[]))]),
    (
        2,
        WriteOnly,
        Update,
        Some(5),
        Some(6),
        &[(AT_FIVE, None), (AT_SIX, Some(&[]))],
    ),
    (2, WriteOnly, Update, Some(5), Some(5), &[]),
    (2, WriteOnly, Delete, Some(6), None, &[(AT_SIX, None)]),
    (2, Public, Insert, None, Some(5), &[(AT_FIVE, Some(&[]))]),
    (2, Public, Insert, None, None, &[(AT_NULL, Some(&[]))]),
    (
        2,
        Public,
        Update,
        Some(5),
        Some(6),
        &[(AT_FIVE, None), (AT_SIX, Some(&[]))],
    ),
    (2, Public, Update, Some(5), Some(5), &[]),
    (2, Public, Delete, Some(6), None, &[(AT_SIX, None)]),
    (1, DeleteOnly, Insert, None, Some(5), &[]),
    (1, DeleteOnly, Update, Some(5), Some(6), &[]),
    (1, DeleteOnly, Delete, Some(6), None, &[(COLUMN, None)]),
    (1, Public, Insert, None, None, &[]),
    (1, Public, Insert, None, Some(5), &[(COLUMN, Some(FIVE))]),
    (1, Public, Update, Some(5), Some(5), &[]),
    (1, Public, Update, None, None, &[]),
    (1, Public, Update, Some(5), Some(6), &[(COLUMN, Some(SIX))]),
    (1, Public, Update, Some(6), None, &[(COLUMN, None)]),
    (1, Public, Update, None, Some(5), &[(COLUMN, Some(FIVE))]),
    (1, Public, Delete, Some(5), None, &[(COLUMN, None)]),
    // A removal of a pair that is not there is noted too.
    (1, Public, Delete, None, None, &[(COLUMN, None)]),
    (1, DeleteOnly, Delete, None, None, &[(COLUMN, None)]),
];

/// The same of the required column.
static REQUIRED_WRITES: [Case; 21] = [
    (3, Absent, Insert, None, Some(6), &[]),
    (3, Absent, Update, Some(5), Some(6), &[]),
    (3, Absent, Delete, Some(6), None, &[]),
    (3, DeleteOnly, Insert, None, Some(6), &[]),
    (3, DeleteOnly, Update, Some(5), Some(6), &[]),
    (3, DeleteOnly, Delete, Some(6), None, &[(REQUIRED, None)]),
    (3, DeleteOnly, Delete, None, None, &[(REQUIRED, None)]),
    // If no transaction reads it yet, a row that enters has the default.
    (
        3,
        WriteOnly,
        Insert,
        None,
        Some(6),
        &[(REQUIRED, Some(FIVE))],
    ),
    (3, WriteOnly, Insert, None, None, &[(REQUIRED, Some(FIVE))]),
    (3, WriteOnly, Update, Some(5), Some(6), &[]),
    (3, WriteOnly, Update, Some(6), None, &[]),
    (3, WriteOnly, Delete, Some(6), None, &[(REQUIRED, None)]),
    (3, Public, Insert, None, Some(6), &[(REQUIRED, Some(SIX))]),
    (3, Public, Insert, None, None, &[(REQUIRED, Some(FIVE))]),
    (
        3,
        Public,
        Update,
        Some(5),
        Some(6),
        &[(REQUIRED, Some(SIX))],
    ),
    (3, Public, Update, Some(6), None, &[(REQUIRED, Some(FIVE))]),
    (3, Public, Update, None, Some(6), &[(REQUIRED, Some(SIX))]),
    // The default's own value is what a row has that lacks one.
    (3, Public, Update, None, Some(5), &[]),
    (3, Public, Update, Some(5), None, &[]),
    (3, Public, Update, Some(6), Some(6), &[]),
    (3, Public, Delete, None, None, &[(REQUIRED, None)]),
];

/// The row of a key, with a value in a column or none.
pub(crate) fn row(
    alloc: Global,
    key: i64,
    column: u32,
    value: Option<i64>,
) -> Result<Row, AllocError>
    ensures { IfOk result (λ r. r.key ≡ Int key ∷ []) }
{
    let key = List::new(vec![in alloc; Value::Int(key)]?);
    let cells = match value {
        None => Vec::new(alloc),
        Some(value) => vec![in alloc; (column, Value::Int(value))]?,
    };
    Ok(Row {
        key,
        cells: List::new(cells),
    })
}

fn kind(alloc: Global, number: u32) -> Result<Kind, AllocError> {
    Ok(match number {
        1 => Kind::Optional(ColumnType::Int),
        2 => Kind::Index(List::new(vec![in alloc; 1]?)),
        _ => Kind::Required {
            column: ColumnType::Int,
            fallback: Value::Int(5),
        },
    })
}

/// The column 1, the index 2, or else the required column of this number, without a version.
pub(crate) fn alone(alloc: Global, number: u32) -> Result<AnyElement, AllocError> {
    let definition = ElementDef {
        number,
        table: 1,
        name: Text::new(String::new(alloc)),
        kind: kind(alloc, number)?,
        state: Public,
        way: Way::Adding,
    };
    AnyElement::alone(alloc, &definition)
}

/// The column of which an element without a version has the values.
fn column_of(number: u32) -> u32 {
    if number == 2 { 1 } else { number }
}

fn is_value(value: &Option<Bytes>, want: Option<&[u8]>) -> bool {
    match (value, want) {
        (Some(value), Some(want)) => value.as_slice() == want,
        (None, None) => true,
        _ => false,
    }
}

fn are_writes(writes: &[Write], want: &[Wrote]) -> bool {
    match (writes, want) {
        ([], []) => true,
        ([first, rest @ ..], [wanted, others @ ..]) => {
            first.0.as_slice() == wanted.0
                && is_value(&first.1, wanted.1)
                && are_writes(rest, others)
        }
        _ => false,
    }
}

fn note(
    alloc: Global,
    element: &AnyElement,
    case: &Case,
    old: &Row,
    new: &Row,
    batch: &mut Batch,
) -> Result<(), AllocError>
    requires { old.now.key ≡ new.now.key }
{
    match case.2 {
        Insert => element.on_insert(alloc, case.1, new, batch),
        Update => element.on_update(alloc, case.1, old, new, batch),
        Delete => element.on_delete(alloc, case.1, old, batch),
    }
}

/// Whether a batch that has the writes of the case has them twice then; asked once more if memory
/// was short and it has them once.
fn writes_again(
    alloc: Global,
    element: &AnyElement,
    case: &Case,
    old: &Row,
    new: &Row,
    batch: &mut Batch,
) -> bool
    requires { old.now.key ≡ new.now.key }
{
    let noted = match note(alloc, element, case, old, new, batch) {
        Err(AllocError) if are_writes(batch.writes(), case.5) => {
            note(alloc, element, case, old, new, batch)
        }
        noted => noted,
    };
    let writes = batch.writes();
    let (first, second) = writes.split_at(case.5.len().min(writes.len()));
    noted.is_ok() && are_writes(first, case.5) && are_writes(second, case.5)
}

/// Whether an empty batch gets the writes of the case, and then once more. It stays empty if memory
/// was short.
fn writes(
    alloc: Global,
    element: &AnyElement,
    case: &Case,
    old: &Row,
    new: &Row,
) -> Result<bool, AllocError>
    requires { old.now.key ≡ new.now.key }
{
    let mut batch = Batch::new(alloc);
    match note(alloc, element, case, old, new, &mut batch) {
        Ok(()) => Ok(
            are_writes(batch.writes(), case.5)
                && writes_again(alloc, element, case, old, new, &mut batch),
        ),
        Err(AllocError) if batch.writes().is_empty() => Err(AllocError),
        Err(AllocError) => Ok(false),
    }
}

fn writes_of_rows(alloc: Global, element: &AnyElement, case: &Case) -> Result<bool, AllocError> {
    let column = column_of(case.0);
    let old = row(alloc, 1, column, case.3)?;
    let new = row(alloc, 1, column, case.4)?;
    writes(alloc, element, case, &old, &new)
}

fn holds_once(alloc: Global, case: &Case) -> Result<bool, AllocError> {
    let element = alone(alloc, case.0)?;
    writes_of_rows(alloc, &element, case)
}

/// The same, asked once more if memory was short.
fn holds(alloc: Global, case: &Case) -> bool {
    match holds_once(alloc, case) {
        Err(AllocError) => holds_once(alloc, case) == Ok(true),
        reported => reported == Ok(true),
    }
}

#[test]
fn under_refusal_operations(rt: HostRuntime) {
    assert!(rt; mark(&rt));
    for row in 0..WRITES.len() {
        assert!(rt; holds(rt.alloc(), &WRITES[row]), "row {row}");
    }
    for row in 0..REQUIRED_WRITES.len() {
        assert!(rt;
            holds(rt.alloc(), &REQUIRED_WRITES[row]),
            "row {row} of a required column"
        );
    }
}

pub(crate) fn are_lawful(element: &AnyElement) {
    subset_stays(element);
    exact_stays(element);
    nothing_grows(element);
    cover_stays(element);
    two_versions_stay(element);
    fill_covers(element);
    clear_leaves_none(element);
    core_keeps();
}
