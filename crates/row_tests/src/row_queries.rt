//! Queries, by the paths that they take and by what they refuse.
use crate::fixtures::{
    A_1, A_3, A_4, EMPTY, FIVE, I_5_1, I_5_3, I_9_4, I_NULL_2, NINE, Pairs, Plain, R_1, R_2, R_3,
    R_4, ROW_1, ROW_2, ROW_3, ROW_4, SIX, key, mark, stepped, store, value,
};
use Asked::{Between, Equal, Key};
use Plain::{Int, Null, Text};
use QueryFault::WrongType;
use Stand::{Holed, Indexed, Required, Scanned};
use byte_map::{Bytes, KeyMap};
use collections::List;
use keycode::Value;
use row_map::Row;
use row_query::{Cond, Path, Query, QueryFault, answer, path_of};
use schema_version::ElementState::{Public, WriteOnly};
use schema_version::Schema;
use std::alloc::{AllocError, Global};

/// A condition as a literal: a key, or the column with its value or its bounds.
#[derive(Clone, Copy)]
enum Asked {
    Key(Plain),
    Equal(u32, Plain),
    Between(u32, Option<Plain>, Option<Plain>),
}

fn bound(alloc: Global, plain: Option<Plain>) -> Result<Option<Value>, AllocError> {
    match plain {
        Some(plain) => Ok(Some(value(alloc, plain)?)),
        None => Ok(None),
    }
}

fn condition(alloc: Global, asked: Asked) -> Result<Cond, AllocError> {
    match asked {
        Asked::Key(plain) => Ok(Cond::Key(key(alloc, plain)?)),
        Asked::Equal(column, plain) => Ok(Cond::Equal {
            column,
            value: value(alloc, plain)?,
        }),
        Asked::Between(column, low, high) => Ok(Cond::Between {
            column,
            low: bound(alloc, low)?,
            high: bound(alloc, high)?,
        }),
    }
}

/// A query of one column of a table.
fn query(alloc: Global, table: u32, column: u32, asked: &[Asked]) -> Result<Query, AllocError> {
    let mut conditions = Vec::new(alloc);
    for asked in asked {
        conditions.push(condition(alloc, *asked)?)?;
    }
    Ok(Query {
        table,
        columns: List::new(vec![in alloc; column]?),
        conditions: List::new(conditions),
    })
}

/// The rows (1) with a = 5, (2), (3) with a = 5 and (4) with a = 9, without the index's pairs.
const ROWS: Pairs<'static> = &[
    (ROW_1, EMPTY),
    (A_1, FIVE),
    (ROW_2, EMPTY),
    (ROW_3, EMPTY),
    (A_3, FIVE),
    (ROW_4, EMPTY),
    (A_4, NINE),
];

/// The same with the index's pairs.
const INDEXED: Pairs<'static> = &[
    (ROW_1, EMPTY),
    (A_1, FIVE),
    (ROW_2, EMPTY),
    (ROW_3, EMPTY),
    (A_3, FIVE),
    (ROW_4, EMPTY),
    (A_4, NINE),
    (I_5_1, EMPTY),
    (I_NULL_2, EMPTY),
    (I_5_3, EMPTY),
    (I_9_4, EMPTY),
];

/// The same without the index's pair of row (3), as no calls leave it: only a query that goes by
/// the index misses that row.
const HOLED: Pairs<'static> = &[
    (ROW_1, EMPTY),
    (A_1, FIVE),
    (ROW_2, EMPTY),
    (ROW_3, EMPTY),
    (A_3, FIVE),
    (ROW_4, EMPTY),
    (A_4, NINE),
    (I_5_1, EMPTY),
    (I_NULL_2, EMPTY),
    (I_9_4, EMPTY),
];

/// The rows (1) with r = 6, (2) with r = 5, (3) without a value of its own, whose pair has the
/// default 5, and (4) with r = 9.
const WITH_R: Pairs<'static> = &[
    (ROW_1, EMPTY),
    (R_1, SIX),
    (ROW_2, EMPTY),
    (R_2, FIVE),
    (ROW_3, EMPTY),
    (R_3, FIVE),
    (ROW_4, EMPTY),
    (R_4, NINE),
];

/// What is in the schema and in the store.
#[derive(Clone, Copy)]
enum Stand {
    /// The index is public and has its pairs.
    Indexed,
    /// The index is public and lacks a pair.
    Holed,
    /// The index is write-only and has none.
    Scanned,
    /// The required column `r` is public.
    Required,
}

fn pairs(stand: Stand) -> Pairs<'static> {
    match stand {
        Indexed => INDEXED,
        Holed => HOLED,
        Scanned => ROWS,
        Required => WITH_R,
    }
}

fn schema(alloc: Global, stand: Stand) -> Result<Schema, AllocError> {
    match stand {
        Indexed | Holed => stepped(alloc, 2, &[]),
        Scanned => stepped(alloc, 2, &[WriteOnly]),
        Required => stepped(alloc, 3, &[WriteOnly, Public]),
    }
}

/// The key of a row and its value in the one column that is named; 0 in place of what is no number.
fn content(row: &Row, named: u32) -> (i64, Option<i64>) {
    let id = match row.key.as_slice() {
        [Value::Int(id)] => *id,
        _ => 0,
    };
    match row.cells.as_slice() {
        [] => (id, None),
        [(column, Value::Int(content))] if *column == named => (id, Some(*content)),
        _ => (id, Some(0)),
    }
}

fn are_rows(rows: &[Row], named: u32, wanted: &[(i64, Option<i64>)]) -> bool {
    for (row, wanted) in rows.iter().zip(wanted) {
        if content(row, named) != *wanted {
            return false;
        }
    }
    rows.len() == wanted.len()
}

/// The path of a query of one column, if it finds these rows.
fn found(
    alloc: Global,
    schema: &Schema,
    store: &KeyMap<Bytes>,
    (query, column): (&Query, u32),
    wanted: &[(i64, Option<i64>)],
) -> Result<Option<Path>, QueryFault> {
    let rows = answer(alloc, schema, store, query)?;
    if are_rows(rows.as_slice(), column, wanted) {
        Ok(Some(path_of(schema, query)))
    } else {
        Ok(None)
    }
}

/// The same of a query of one column of a table.
fn answered_once(
    alloc: Global,
    stand: Stand,
    (table, column): (u32, u32),
    asked: &[Asked],
    wanted: &[(i64, Option<i64>)],
) -> Result<Option<Path>, QueryFault> {
    let query = query(alloc, table, column, asked)?;
    let store = store(alloc, pairs(stand))?;
    let schema = schema(alloc, stand)?;
    found(alloc, &schema, &store, (&query, column), wanted)
}

/// The same, asked once more if memory was short.
fn answered(
    alloc: Global,
    stand: Stand,
    place: (u32, u32),
    asked: &[Asked],
    wanted: &[(i64, Option<i64>)],
) -> Result<Option<Path>, QueryFault> {
    match answered_once(alloc, stand, place, asked, wanted) {
        Err(QueryFault::Memory) => answered_once(alloc, stand, place, asked, wanted),
        reported => reported,
    }
}

/// What is asked of the column 1 of table 1, the path and the rows.
static FOUND: [(&str, Stand, &[Asked], Path, &[(i64, Option<i64>)]); 8] = [
    (
        "a value",
        Indexed,
        &[Equal(1, Int(5))],
        Path::Index(2),
        &[(1, Some(5)), (3, Some(5))],
    ),
    (
        "by the index indeed",
        Holed,
        &[Equal(1, Int(5))],
        Path::Index(2),
        &[(1, Some(5))],
    ),
    (
        "not by the index if there is no condition",
        Holed,
        &[],
        Path::Scan,
        &[(1, Some(5)), (2, None), (3, Some(5)), (4, Some(9))],
    ),
    (
        "no value",
        Indexed,
        &[Equal(1, Null)],
        Path::Index(2),
        &[(2, None)],
    ),
    (
        "a key",
        Indexed,
        &[Between(1, Some(Int(6)), None), Key(Int(4))],
        Path::Key,
        &[(4, Some(9))],
    ),
    (
        "both ends, and no Null",
        Indexed,
        &[Between(1, Some(Int(5)), Some(Int(9)))],
        Path::Index(2),
        &[(1, Some(5)), (3, Some(5)), (4, Some(9))],
    ),
    (
        "no condition",
        Indexed,
        &[],
        Path::Scan,
        &[(1, Some(5)), (2, None), (3, Some(5)), (4, Some(9))],
    ),
    (
        "an index that is not read",
        Scanned,
        &[Equal(1, Int(5))],
        Path::Scan,
        &[(1, Some(5)), (3, Some(5))],
    ),
];

/// The same of the column `r`.
static REQUIRED_FOUND: [(&str, &[Asked], Path, &[(i64, Option<i64>)]); 5] = [
    (
        "the default",
        &[Equal(3, Int(5))],
        Path::Scan,
        &[(2, Some(5)), (3, Some(5))],
    ),
    ("no row lacks a value", &[Equal(3, Null)], Path::Scan, &[]),
    (
        "the default as a bound",
        &[Between(3, None, Some(Int(6)))],
        Path::Scan,
        &[(1, Some(6)), (2, Some(5)), (3, Some(5))],
    ),
    (
        "a key of a row with the default",
        &[Key(Int(3))],
        Path::Key,
        &[(3, Some(5))],
    ),
    (
        "the default where nothing is asked",
        &[],
        Path::Scan,
        &[(1, Some(6)), (2, Some(5)), (3, Some(5)), (4, Some(9))],
    ),
];

#[test]
fn under_refusal_rows_are_found_by_a_path(rt: HostRuntime) {
    assert!(rt; mark(&rt));
    for (name, stand, asked, path, wanted) in &FOUND {
        let found = answered(rt.alloc(), *stand, (1, 1), *asked, *wanted);
        assert!(rt; found == Ok(Some(*path)), "{name}");
    }
    for (name, asked, path, wanted) in &REQUIRED_FOUND {
        let found = answered(rt.alloc(), Required, (1, 3), *asked, *wanted);
        assert!(rt; found == Ok(Some(*path)), "{name}");
    }
}

/// A table and a column, the conditions, and the first fault.
static REFUSED: [(&str, (u32, u32), &[Asked], QueryFault); 7] = [
    ("another type", (1, 1), &[Equal(1, Text("x"))], WrongType),
    (
        "Null as a bound",
        (1, 1),
        &[Between(1, None, Some(Null))],
        WrongType,
    ),
    ("Null as a key", (1, 1), &[Key(Null)], WrongType),
    ("no table", (2, 7), &[], QueryFault::NoTable),
    (
        "a named index",
        (1, 2),
        &[Equal(1, Text("x"))],
        QueryFault::NotPublic { column: 2 },
    ),
    (
        "the first condition",
        (1, 1),
        &[Equal(1, Text("x")), Equal(3, Null)],
        WrongType,
    ),
    (
        "the other way round",
        (1, 1),
        &[Equal(3, Null), Equal(1, Text("x"))],
        QueryFault::NotPublic { column: 3 },
    ),
];

#[test]
fn under_refusal_the_first_fault_of_a_query_is_reported(rt: HostRuntime) {
    assert!(rt; mark(&rt));
    for (name, place, asked, fault) in &REFUSED {
        let refused = answered(rt.alloc(), Indexed, *place, *asked, &[]);
        assert!(rt; refused == Err(*fault), "{name}");
    }
}
