//! Checks of one element in stores that no list of calls could give.
use crate::fixtures::{
    A_1, A_2, A_3, EMPTY, FIVE, I_5_1, I_6_1, I_6_2, I_7_3, I_NULL_1, Pairs, R_1, R_2, R_3, R_4,
    ROW_1, ROW_2, ROW_3, SIX, mark, stepped, store,
};
use collections::List;
use element_check::{ElementReport, check_element};
use keycode::{Value, Values};
use row_map::{KeyOf, column_key, exists_key, index_key};
use schema_version::ElementState::{self, Absent, DeleteOnly, Public, WriteOnly};
use std::alloc::{AllocError, Global};

/// The keys of a pair of row 1 for the index, as if it were a column, and of one of the table 2 for
/// the column `a`.
const I_AS_COLUMN: &[u8] = b"\x52\0\0\0\x01\x02\x80\0\0\0\0\0\0\x01\0\0\0\x02";

const A_ELSEWHERE: &[u8] = b"\x52\0\0\0\x02\x02\x80\0\0\0\0\0\0\x01\0\0\0\x01";

/// How many rows lack their pair and how many pairs are too much, and the first of both: the
/// numbers of the rows and the keys of the pairs.
type Want = Option<(u64, u64, &'static [i64], &'static [&'static [u8]])>;

/// Whether this is the primary key of the row of a number.
fn is_row(key: &[Value], number: i64) -> bool {
    match key {
        [Value::Int(found)] => *found == number,
        _ => false,
    }
}

fn are_rows(rows: &[Values], wanted: &[i64]) -> bool {
    for (row, number) in rows.iter().zip(wanted) {
        if !is_row(row.as_slice(), *number) {
            return false;
        }
    }
    rows.len() == wanted.len()
}

/// Whether the bytes encode the key.
fn is_key(alloc: Global, key: &KeyOf, wanted: &[u8]) -> Result<bool, AllocError> {
    let encoded = match key {
        KeyOf::Exists { table, key } => exists_key(alloc, *table, key.as_slice())?,
        KeyOf::Column {
            table,
            key,
            element,
        } => column_key(alloc, *table, key.as_slice(), *element)?,
        KeyOf::Index { element, values } => index_key(alloc, *element, values.as_slice(), &[])?,
    };
    Ok(encoded.as_slice() == wanted)
}

fn are_keys(alloc: Global, keys: &[KeyOf], wanted: &[&[u8]]) -> Result<bool, AllocError> {
    for (key, bytes) in keys.iter().zip(wanted) {
        if !is_key(alloc, key, bytes)? {
            return Ok(false);
        }
    }
    Ok(keys.len() == wanted.len())
}

fn is_report(alloc: Global, report: Option<ElementReport>, want: Want) -> Result<bool, AllocError> {
    match (report, want) {
        (None, None) => Ok(true),
        (Some(report), Some((missing, extra, rows, keys))) => Ok(
            report.missing == missing
                && report.extra == extra
                && are_rows(report.missing_rows.as_slice(), rows)
                && are_keys(alloc, report.extra_keys.as_slice(), keys)?,
        ),
        _ => Ok(false),
    }
}

/// The element that goes through states before the check, these states, the number that the check
/// is of, and how many rows and keys it keeps.
type Asked = (u32, &'static [ElementState], u32, usize);

fn is_answer(
    alloc: Global,
    (element, states, number, most): Asked,
    pairs: Pairs,
    want: Want,
) -> Result<bool, AllocError> {
    let store = store(alloc, pairs)?;
    let schema = stepped(alloc, element, states)?;
    let report = check_element(alloc, &schema, &store, number, most)?;
    is_report(alloc, report, want)
}

/// The same, asked once more if memory was short.
fn is_answer_at_last(
    alloc: Global,
    asked: Asked,
    pairs: Pairs,
    want: Want,
) -> Result<bool, AllocError> {
    match is_answer(alloc, asked, pairs, want) {
        Err(AllocError) => is_answer(alloc, asked, pairs, want),
        reported => reported,
    }
}

/// Row 1 has its pair of the index; row 2 gives it I_6_2, and row 3, without a value, that of Null:
/// both are missing.
const HALF_FILLED: Pairs<'static> = &[
    (ROW_1, EMPTY),
    (A_1, FIVE),
    (ROW_2, EMPTY),
    (A_2, SIX),
    (ROW_3, EMPTY),
    (I_5_1, EMPTY),
];

/// Row 1 has its pair of the index; there are no rows 2 and 3 to give it the others.
const WITHOUT_ROWS: Pairs<'static> = &[
    (ROW_1, EMPTY),
    (A_1, FIVE),
    (I_5_1, EMPTY),
    (I_6_2, EMPTY),
    (I_7_3, EMPTY),
];

/// What is asked, the pairs, and the report. A row is missing if its `exists` pair is there and its
/// pair of the element is not, by the fixture's codes; a key is too much if it has the element's
/// number and is not the one of a row that is there.
static CHECKS: [(&str, Asked, Pairs, Want); 15] = [
    ("no pair", (2, &[], 2, 9), &[], Some((0, 0, &[], &[]))),
    (
        "a half-filled index",
        (2, &[WriteOnly], 2, 9),
        HALF_FILLED,
        Some((2, 0, &[2, 3], &[])),
    ),
    (
        "one row kept",
        (2, &[WriteOnly], 2, 1),
        HALF_FILLED,
        Some((2, 0, &[2], &[])),
    ),
    (
        "pairs of rows that are not there",
        (2, &[], 2, 9),
        WITHOUT_ROWS,
        Some((0, 2, &[], &[I_6_2, I_7_3])),
    ),
    (
        "one key kept",
        (2, &[], 2, 1),
        WITHOUT_ROWS,
        Some((0, 2, &[], &[I_6_2])),
    ),
    (
        "none kept",
        (2, &[], 2, 0),
        WITHOUT_ROWS,
        Some((0, 2, &[], &[])),
    ),
    // Row 1 has 5, and the index has it under 6.
    (
        "a stale pair of the index",
        (2, &[], 2, 9),
        &[(ROW_1, EMPTY), (A_1, FIVE), (I_6_1, EMPTY)],
        Some((1, 1, &[1], &[I_6_1])),
    ),
    // A row gives the index a pair with no value.
    (
        "an index's pair with a value",
        (2, &[], 2, 9),
        &[(ROW_1, EMPTY), (A_1, FIVE), (I_5_1, FIVE)],
        Some((1, 1, &[1], &[I_5_1])),
    ),
    (
        "a delete-only index",
        (2, &[WriteOnly, DeleteOnly], 2, 9),
        &[
            (ROW_1, EMPTY),
            (A_1, FIVE),
            (ROW_2, EMPTY),
            (A_2, SIX),
            (I_6_1, EMPTY),
            (I_6_2, EMPTY),
        ],
        Some((1, 1, &[1], &[I_6_1])),
    ),
    (
        "a column's pair under the number of an index",
        (2, &[], 2, 9),
        &[(ROW_1, EMPTY), (I_AS_COLUMN, FIVE), (I_NULL_1, EMPTY)],
        Some((0, 1, &[], &[I_AS_COLUMN])),
    ),
    (
        "an index that has gone",
        (2, &[WriteOnly, DeleteOnly, Absent], 2, 9),
        HALF_FILLED,
        None,
    ),
    ("no such element", (2, &[], 9, 9), HALF_FILLED, None),
    // Row 1 has no value, and lacks nothing; row 3 is not there, and the last pair is of table 2.
    (
        "an optional column",
        (2, &[], 1, 9),
        &[
            (ROW_1, EMPTY),
            (ROW_2, EMPTY),
            (A_2, SIX),
            (A_3, FIVE),
            (A_ELSEWHERE, FIVE),
        ],
        Some((0, 2, &[], &[A_3, A_ELSEWHERE])),
    ),
    // Row 1 has no pair, and that of row 3 is a Bool; row 4 is not there.
    (
        "a write-only required column",
        (3, &[WriteOnly], 3, 9),
        &[
            (ROW_1, EMPTY),
            (ROW_2, EMPTY),
            (R_2, SIX),
            (ROW_3, EMPTY),
            (R_3, b"\x04\x01"),
            (R_4, FIVE),
        ],
        Some((2, 1, &[1, 3], &[R_4])),
    ),
    // The pair of row 2 is cut.
    (
        "a public required column",
        (3, &[WriteOnly, Public], 3, 9),
        &[
            (ROW_1, EMPTY),
            (R_1, FIVE),
            (ROW_2, EMPTY),
            (R_2, b"\x02\x80"),
        ],
        Some((1, 0, &[2], &[])),
    ),
];

#[test]
fn under_refusal_elements_are_checked(rt: HostRuntime) {
    assert!(rt; mark(&rt));
    for (name, asked, pairs, want) in &CHECKS {
        assert!(rt;
            is_answer_at_last(rt.alloc(), *asked, *pairs, *want) == Ok(true),
            "{name}"
        );
    }
}
