//! Which value of a transaction is wrong. Table 1, named t, has the primary key (id, name) and the
//! columns `a`, `b` and `c`, which are the elements 1 to 3: a number, a text and a truth value, as
//! `id` is a number and `name` a text. Its index `i` on `a` is element 4.
use crate::fixtures::text;
use crate::operations::Verb;
use ColumnType as T;
use Given::{Bool, Int, Letters, Null};
use Verb::{Delete, Insert, Update};
use Wrong::{At, For, Length, Twice};
use collections::List;
use keycode::{Text, Value, Values};
use row_map::ColumnType;
use row_write::RowOp;
use schema_version::{Columns, Schema, TableDef};
use std::alloc::{AllocError, Global};
use value_faults::{ValueCause, ValueFault, txn_fault};

/// What is wrong, as a literal.
#[derive(Clone, Copy, PartialEq, Eq)]
pub(crate) enum Wrong {
    /// A key of this many values.
    Length(usize),
    /// The value at this place of a key: the type of its column, and its own.
    At(usize, ColumnType, Option<ColumnType>),
    /// The value for this column, likewise.
    For(u32, ColumnType, Option<ColumnType>),
    /// This column is named twice.
    Twice(u32),
}

/// The item, and what is wrong there.
pub(crate) type Found = Option<(usize, Wrong)>;

fn cause_literal(cause: ValueCause) -> Wrong {
    match cause {
        ValueCause::KeyLength { given } => Length(given),
        ValueCause::KeyValue {
            place,
            wanted,
            given,
        } => At(place, wanted, given),
        ValueCause::ColumnValue {
            column,
            wanted,
            given,
        } => For(column, wanted, given),
        ValueCause::NamedTwice { column } => Twice(column),
    }
}

pub(crate) fn literal(fault: Option<ValueFault>) -> Found {
    match fault {
        Some(fault) => Some((fault.item, cause_literal(fault.cause))),
        None => None,
    }
}

/// A value as a literal: a text by its number of letters.
#[derive(Clone, Copy)]
pub(crate) enum Given {
    Null,
    Int(i64),
    Letters(usize),
    Bool(bool),
}

pub(crate) fn value(alloc: Global, given: Given) -> Result<Value, AllocError> {
    match given {
        Given::Null => Ok(Value::Null),
        Given::Int(number) => Ok(Value::Int(number)),
        Given::Letters(count) => Ok(Value::Text(Text::new("x".repeat(alloc, count)?))),
        Given::Bool(truth) => Ok(Value::Bool(truth)),
    }
}

pub(crate) fn values(alloc: Global, given: &[Given]) -> Result<Values, AllocError> {
    let mut values = Vec::new(alloc);
    for given in given {
        values.push(value(alloc, *given)?)?;
    }
    Ok(List::new(values))
}

fn cells(alloc: Global, given: &[(u32, Given)]) -> Result<List<(u32, Value)>, AllocError> {
    let mut cells = Vec::new(alloc);
    for (column, content) in given {
        cells.push((*column, value(alloc, *content)?))?;
    }
    Ok(List::new(cells))
}

fn columns(alloc: Global, plain: &[(&str, ColumnType)]) -> Result<Columns, AllocError> {
    let mut columns = Vec::new(alloc);
    for (name, kind) in plain {
        columns.push((text(alloc, *name)?, *kind))?;
    }
    Ok(List::new(columns))
}

fn indexes(alloc: Global) -> Result<List<(Text, List<Text>)>, AllocError> {
    let a = text(alloc, "a")?;
    let listed = List::new(vec![in alloc; a]?);
    let name = text(alloc, "i")?;
    Ok(List::new(vec![in alloc; (name, listed)]?))
}

pub(crate) fn schema(alloc: Global) -> Result<Schema, AllocError> {
    let name = text(alloc, "t")?;
    let key = columns(alloc, &[("id", T::Int), ("name", T::Text)])?;
    let columns = columns(alloc, &[("a", T::Int), ("b", T::Text), ("c", T::Bool)])?;
    let indexes = indexes(alloc)?;
    let table = TableDef {
        name,
        key,
        columns,
        indexes,
    };
    let tables = vec![in alloc; table]?;
    match Schema::declared(alloc, tables.as_slice()) {
        Ok(schema) => Ok(schema),
        Err(_) => Err(AllocError),
    }
}

/// An operation as a literal: what it does, the table, the key and the cells.
type Op<'a> = (Verb, u32, &'a [Given], &'a [(u32, Given)]);

fn operation(alloc: Global, (verb, table, key, named): Op) -> Result<RowOp, AllocError> {
    let key = values(alloc, key)?;
    let cells = cells(alloc, named)?;
    Ok(match verb {
        Insert => RowOp::Insert { table, key, cells },
        Update => RowOp::Update { table, key, cells },
        Delete => RowOp::Delete { table, key },
    })
}

/// The first wrong value of these operations.
fn wrong_given(alloc: Global, plain: &[Op]) -> Result<Found, AllocError> {
    let mut ops = Vec::new(alloc);
    for op in plain {
        ops.push(operation(alloc, *op)?)?;
    }
    let schema = schema(alloc)?;
    Ok(literal(txn_fault(&schema, ops.as_slice())))
}

/// A key of the table.
const KEY: &[Given] = &[Int(1), Letters(1)];

/// Operations, and what is wrong with a key or a value.
static VALUES: [(&str, &[Op], Found); 14] = [
    ("no operation", &[], None),
    (
        "no wrong value",
        &[
            (
                Insert,
                1,
                &[Int(1), Letters(1024)],
                &[(2, Letters(1024)), (1, Int(5)), (3, Null)],
            ),
            (Delete, 1, KEY, &[]),
        ],
        None,
    ),
    (
        "a short key, before its values",
        &[(Insert, 1, &[Null], &[(1, Bool(true))])],
        Some((0, Length(1))),
    ),
    (
        "a long key",
        &[(Delete, 1, &[Int(1), Letters(1), Int(1)], &[])],
        Some((0, Length(3))),
    ),
    (
        "the first value of a key",
        &[(Update, 1, &[Bool(true), Int(1)], &[])],
        Some((0, At(0, T::Int, Some(T::Bool)))),
    ),
    (
        "the second value of a key, before the named values",
        &[(Insert, 1, &[Int(1), Int(1)], &[(1, Bool(true))])],
        Some((0, At(1, T::Text, Some(T::Int)))),
    ),
    (
        "Null in a key",
        &[(Delete, 1, &[Null, Letters(1)], &[])],
        Some((0, At(0, T::Int, None))),
    ),
    (
        "a text in a key that is too long",
        &[(Delete, 1, &[Int(1), Letters(1025)], &[])],
        Some((0, At(1, T::Text, Some(T::Text)))),
    ),
    (
        "the first named value, before a column twice",
        &[(
            Insert,
            1,
            KEY,
            &[(1, Int(5)), (3, Letters(1)), (2, Bool(true)), (1, Int(5))],
        )],
        Some((0, For(3, T::Bool, Some(T::Text)))),
    ),
    (
        "a named text that is too long",
        &[(Update, 1, KEY, &[(2, Letters(1025))])],
        Some((0, For(2, T::Text, Some(T::Text)))),
    ),
    (
        "the first column that is named again",
        &[(
            Insert,
            1,
            KEY,
            &[(3, Null), (1, Int(5)), (2, Null), (2, Null), (1, Int(5))],
        )],
        Some((0, Twice(1))),
    ),
    (
        "the second operation",
        &[
            (Insert, 1, KEY, &[]),
            (Update, 1, KEY, &[(1, Letters(1))]),
            (Delete, 1, &[], &[]),
        ],
        Some((1, For(1, T::Int, Some(T::Text)))),
    ),
    (
        "the first of two",
        &[(Delete, 1, &[], &[]), (Delete, 2, &[], &[])],
        Some((0, Length(0))),
    ),
    (
        "no table, and then a wrong key",
        &[(Delete, 2, &[Null], &[]), (Delete, 1, &[], &[])],
        None,
    ),
];

/// Operations that are refused for a hidden column.
static HIDDEN: [(&str, &[Op]); 3] = [
    (
        "in an earlier operation",
        &[(Update, 1, KEY, &[(4, Int(1))]), (Delete, 1, &[], &[])],
    ),
    (
        "after a wrong value",
        &[(Insert, 1, KEY, &[(1, Bool(true)), (4, Int(1))])],
    ),
    (
        "with a wrong key",
        &[(Insert, 1, &[Null], &[(1, Int(5)), (9, Null)])],
    ),
];

#[test]
fn the_first_wrong_value_of_a_transaction_is_found(rt: HostRuntime) {
    for (name, ops, want) in &VALUES {
        assert!(rt; wrong_given(rt.alloc(), *ops) == Ok(*want), "{name}");
    }
    for (name, ops) in &HIDDEN {
        assert!(rt; wrong_given(rt.alloc(), *ops) == Ok(None), "{name}");
    }
}
