//! Which value of a query is wrong.
use crate::wrong_values::{Found, Given, Wrong, literal, schema, value, values};
use Asked::{Between, Equal, Key};
use ColumnType as T;
use Given::{Bool, Int, Letters, Null};
use Wrong::{At, For, Length};
use collections::List;
use keycode::Value;
use row_map::ColumnType;
use row_query::{Cond, Query};
use std::alloc::{AllocError, Global};
use value_faults::query_fault;

/// A condition as a literal: a key, or the column with its value or its bounds.
#[derive(Clone, Copy)]
enum Asked<'a> {
    Key(&'a [Given]),
    Equal(u32, Given),
    Between(u32, Option<Given>, Option<Given>),
}

fn bound(alloc: Global, given: Option<Given>) -> Result<Option<Value>, AllocError> {
    match given {
        Some(given) => Ok(Some(value(alloc, given)?)),
        None => Ok(None),
    }
}

fn condition(alloc: Global, asked: Asked) -> Result<Cond, AllocError> {
    match asked {
        Asked::Key(given) => Ok(Cond::Key(values(alloc, given)?)),
        Asked::Equal(column, given) => Ok(Cond::Equal {
            column,
            value: value(alloc, given)?,
        }),
        Asked::Between(column, low, high) => Ok(Cond::Between {
            column,
            low: bound(alloc, low)?,
            high: bound(alloc, high)?,
        }),
    }
}

/// The first wrong value of a query of these columns of a table.
fn wrong_asked(
    alloc: Global,
    (table, columns): (u32, &[u32]),
    asked: &[Asked],
) -> Result<Found, AllocError> {
    let mut conditions = Vec::new(alloc);
    for asked in asked {
        conditions.push(condition(alloc, *asked)?)?;
    }
    let query = Query {
        table,
        columns: List::new(Vec::from_slice(alloc, columns)?),
        conditions: List::new(conditions),
    };
    let schema = schema(alloc)?;
    Ok(literal(query_fault(&schema, &query)))
}

/// A table and its columns, the conditions, and what is wrong.
static ASKED: [(&str, (u32, &[u32]), &[Asked], Found); 17] = [
    ("no condition", (1, &[1, 2, 3]), &[], None),
    (
        "no wrong value",
        (1, &[1]),
        &[
            Key(&[Int(1), Letters(1025)]),
            Equal(1, Null),
            Equal(2, Letters(1025)),
            Between(2, None, Some(Letters(1025))),
            Between(1, Some(Int(5)), None),
        ],
        None,
    ),
    (
        "a short key",
        (1, &[1]),
        &[Key(&[Null])],
        Some((0, Length(1))),
    ),
    (
        "a value of a key",
        (1, &[1]),
        &[Key(&[Int(1), Int(1)])],
        Some((0, At(1, T::Text, Some(T::Int)))),
    ),
    (
        "Null in a key",
        (1, &[1]),
        &[Key(&[Null, Null])],
        Some((0, At(0, T::Int, None))),
    ),
    (
        "a value",
        (1, &[1]),
        &[Equal(2, Bool(true))],
        Some((0, For(2, T::Text, Some(T::Bool)))),
    ),
    (
        "the low bound",
        (1, &[1]),
        &[Between(1, Some(Letters(1)), Some(Bool(true)))],
        Some((0, For(1, T::Int, Some(T::Text)))),
    ),
    (
        "the high bound",
        (1, &[1]),
        &[Between(1, Some(Int(5)), Some(Bool(true)))],
        Some((0, For(1, T::Int, Some(T::Bool)))),
    ),
    (
        "Null as the high bound",
        (1, &[1]),
        &[Between(3, None, Some(Null))],
        Some((0, For(3, T::Bool, None))),
    ),
    (
        "the second condition",
        (1, &[1]),
        &[Equal(1, Int(5)), Equal(3, Int(5)), Key(&[])],
        Some((1, For(3, T::Bool, Some(T::Int)))),
    ),
    (
        "a wrong value, and then an index as a column",
        (1, &[1]),
        &[Key(&[]), Equal(4, Int(5))],
        Some((0, Length(0))),
    ),
    (
        "an index as a column, and then a wrong value",
        (1, &[1]),
        &[Equal(4, Int(5)), Key(&[])],
        None,
    ),
    (
        "bounds of no column",
        (1, &[1]),
        &[Between(9, Some(Null), None), Key(&[])],
        None,
    ),
    (
        "a hidden column among those named",
        (1, &[1, 4]),
        &[Key(&[])],
        None,
    ),
    ("no table", (2, &[1]), &[Key(&[])], None),
    (
        "no column named",
        (1, &[]),
        &[Key(&[])],
        Some((0, Length(0))),
    ),
    (
        "a column named twice",
        (1, &[1, 1]),
        &[Equal(1, Null)],
        None,
    ),
];

#[test]
fn the_first_wrong_value_of_a_query_is_found(rt: HostRuntime) {
    for (name, place, asked, want) in &ASKED {
        assert!(rt;
            wrong_asked(rt.alloc(), *place, *asked) == Ok(*want),
            "{name}"
        );
    }
}
