//! The keys of a row's pairs, made and known.
use crate::fixtures::{Plain, bytes, mark, value};
use Plain::{Bool, Int, Null, Text};
use keycode::Value;
use row_keys::{column_key_of, is_column_key, is_exists_key};
use std::alloc::{AllocError, Global};

/// A row's table and primary key, the key of its `exists` pair, and that of its pair for the column
/// 258.
type Row<'a> = (u32, &'a [Plain], &'a [u8], &'a [u8]);

/// The values of a key in bytes: a number is 02 and its eight bytes with the highest bit flipped; a
/// text 03 and its bytes, each 0 followed by 255, and then 0 and 1; a truth value 04 and 0 or 1;
/// Null 01.
const ROWS: &[Row] = &[
    (
        1,
        &[Int(7)],
        b"R\0\0\0\x01\x02\x80\0\0\0\0\0\0\x07\0\0\0\0",
        b"R\0\0\0\x01\x02\x80\0\0\0\0\0\0\x07\0\0\x01\x02",
    ),
    (
        256,
        &[Int(7)],
        b"R\0\0\x01\0\x02\x80\0\0\0\0\0\0\x07\0\0\0\0",
        b"R\0\0\x01\0\x02\x80\0\0\0\0\0\0\x07\0\0\x01\x02",
    ),
    (
        1,
        &[Int(-1), Bool(true)],
        b"R\0\0\0\x01\x02\x7f\xff\xff\xff\xff\xff\xff\xff\x04\x01\0\0\0\0",
        b"R\0\0\0\x01\x02\x7f\xff\xff\xff\xff\xff\xff\xff\x04\x01\0\0\x01\x02",
    ),
    (
        1,
        &[Text("a"), Bool(false)],
        b"R\0\0\0\x01\x03a\0\x01\x04\0\0\0\0\0",
        b"R\0\0\0\x01\x03a\0\x01\x04\0\0\0\x01\x02",
    ),
    (
        1,
        &[Text("a\0b"), Null],
        b"R\0\0\0\x01\x03a\0\xffb\0\x01\x01\0\0\0\0",
        b"R\0\0\0\x01\x03a\0\xffb\0\x01\x01\0\0\x01\x02",
    ),
    (
        1,
        &[Text("Neuschwanstein-Hohenschwangau")],
        b"R\0\0\0\x01\x03Neuschwanstein-Hohenschwangau\0\x01\0\0\0\0",
        b"R\0\0\0\x01\x03Neuschwanstein-Hohenschwangau\0\x01\0\0\x01\x02",
    ),
];

fn values(alloc: Global, plain: &[Plain]) -> Result<Vec<Value>, AllocError> {
    let mut values = Vec::new(alloc);
    for one in plain {
        values.push(value(alloc, *one)?)?;
    }
    Ok(values)
}

/// Whether of all keys of the table just the row's own is that of its `exists` pair.
fn is_found(alloc: Global, (table, key, exists, column): Row) -> Result<bool, AllocError> {
    let key = values(alloc, key)?;
    for (_, _, other, _) in ROWS {
        if is_exists_key(other, table, key.as_slice()) != (*other == exists) {
            return Ok(false);
        }
    }
    Ok(!is_exists_key(column, table, key.as_slice()))
}

/// Whether the row's `exists` key makes the column's, and knows it alone.
fn is_column(alloc: Global, (_, _, exists, column): Row) -> Result<bool, AllocError> {
    for (_, _, _, other) in ROWS {
        if is_column_key(other, exists, 258) != (*other == column) {
            return Ok(false);
        }
    }
    let made = column_key_of(alloc, &bytes(alloc, exists)?, 258)?;
    Ok(made.as_slice() == column && !is_column_key(column, exists, 257))
}

fn are_right(alloc: Global) -> Result<bool, AllocError> {
    for row in ROWS {
        if !is_found(alloc, *row)? || !is_column(alloc, *row)? {
            return Ok(false);
        }
    }
    Ok(true)
}

/// The same, asked once more if memory was short.
fn are_right_at_last(alloc: Global) -> Result<bool, AllocError> {
    match are_right(alloc) {
        Err(AllocError) => are_right(alloc),
        reported => reported,
    }
}

#[test]
fn under_refusal_keys_of_rows(rt: HostRuntime) {
    assert!(rt; mark(&rt));
    assert!(rt; are_right_at_last(rt.alloc()) == Ok(true));
}
