//! The key code: a Null is 01, a number 02 and its eight bytes with the highest bit flipped, a text
//! 03 and its bytes and 00 01, with each 00 as 00 FF, a truth value 04 and its byte.
use crate::fixtures::mark;
use keycode::{KeyFault, Value, decode, encode};
use row_map::{ColumnType, read_only_value, read_typed_value};
use std::alloc::{AllocError, Global};

/// A value as a literal.
#[derive(Clone, Copy)]
enum Plain {
    Null,
    Int(i64),
    Text(&'static str),
    Bool(bool),
}

use Plain::{Bool, Int, Null, Text};

fn is_value(value: &Value, plain: Plain) -> bool {
    match (value, plain) {
        (Value::Null, Null) => true,
        (Value::Int(found), Int(wanted)) => *found == wanted,
        (Value::Text(found), Text(wanted)) => found.as_str() == wanted,
        (Value::Bool(found), Bool(wanted)) => *found == wanted,
        _ => false,
    }
}

fn are_values(values: &[Value], plain: &[Plain]) -> bool {
    for (value, plain) in values.iter().zip(plain) {
        if !is_value(value, *plain) {
            return false;
        }
    }
    values.len() == plain.len()
}

/// How many bytes the values take that so many are read of, if they are these and are encoded so
/// again, or the fault.
fn taken(
    alloc: Global,
    bytes: &[u8],
    count: usize,
    plain: &[Plain],
) -> Result<Option<usize>, KeyFault> {
    let (values, taken) = decode(alloc, bytes, count)?;
    let again = encode(alloc, values.as_slice())?;
    if are_values(values.as_slice(), plain)
        && again.len() == taken
        && bytes.starts_with(again.as_slice())
    {
        Ok(Some(taken))
    } else {
        Ok(None)
    }
}

/// The same, asked once more if memory was short.
fn reported(
    alloc: Global,
    bytes: &[u8],
    count: usize,
    plain: &[Plain],
) -> Result<Option<usize>, KeyFault> {
    match taken(alloc, bytes, count, plain) {
        Err(KeyFault::Memory) => taken(alloc, bytes, count, plain),
        reported => reported,
    }
}

/// Bytes, how many values are read of their start, these, and how many bytes they take.
const LISTS: &[(&[u8], usize, &[Plain], Result<Option<usize>, KeyFault>)] = &[
    (
        b"\x02\x7f\xff\xff\xff\xff\xff\xff\xff\x02\x80\0\0\0\0\0\0\0",
        2,
        &[Int(-1), Int(0)],
        Ok(Some(18)),
    ),
    (b"", 0, &[], Ok(Some(0))),
    (b"\x01\x01", 1, &[Null], Ok(Some(1))),
    (b"\x03a\0\x01", 1, &[Text("a")], Ok(Some(4))),
    (
        b"\x01\x04\0\x04\x01\x01",
        4,
        &[Null, Bool(false), Bool(true), Null],
        Ok(Some(6)),
    ),
    (
        b"\x04\x01\x03a\0\xffb\0\x01\x01",
        3,
        &[Bool(true), Text("a\0b"), Null],
        Ok(Some(10)),
    ),
    (b"", 1, &[], Err(KeyFault::Short)),
    (b"\x02\x80\0", 1, &[], Err(KeyFault::Short)),
    (b"\x03a\0", 1, &[], Err(KeyFault::Short)),
    (b"\x05", 1, &[], Err(KeyFault::BadTag)),
    (b"\x04\x02", 1, &[], Err(KeyFault::BadTag)),
    (b"\x03a\0\x02", 1, &[], Err(KeyFault::BadEscape)),
    (b"\x03\xff\0\x01", 1, &[], Err(KeyFault::NotUtf8)),
];

// What is reported of a text of so many letters, which is encoded whatever its length.
fn letters_read(alloc: Global, count: usize) -> Result<usize, KeyFault> {
    let text = Value::Text(keycode::Text::new("x".repeat(alloc, count)?));
    let bytes = encode(alloc, &[text])?;
    let (_, taken) = decode(alloc, bytes.as_slice(), 1)?;
    Ok(taken)
}

/// The same, asked once more if memory was short.
fn letters_reported(alloc: Global, count: usize) -> Result<usize, KeyFault> {
    match letters_read(alloc, count) {
        Err(KeyFault::Memory) => letters_read(alloc, count),
        reported => reported,
    }
}

#[test]
fn under_refusal_lists_are_read_and_encoded_so(rt: HostRuntime) {
    assert!(rt; mark(&rt));
    assert!(rt; letters_reported(rt.alloc(), 1_024) == Ok(1_027));
    assert!(rt; letters_reported(rt.alloc(), 1_025) == Err(KeyFault::TextTooLong));
    for (bytes, count, plain, want) in LISTS {
        assert!(rt;
            reported(rt.alloc(), bytes, *count, plain) == *want,
            "{count} of {bytes:?}"
        );
    }
}

fn is_found(found: &Option<Value>, plain: Option<Plain>) -> bool {
    match (found, plain) {
        (None, None) => true,
        (Some(value), Some(plain)) => is_value(value, plain),
        _ => false,
    }
}

/// Bytes, the one value that they encode, a type, and the value if it is of this type.
type Encoding = (&'static [u8], Option<Plain>, ColumnType, Option<Plain>);

fn is_read(alloc: Global, encoding: &Encoding) -> Result<bool, AllocError> {
    let (bytes, plain, kind, typed) = *encoding;
    let one = read_only_value(alloc, bytes)?;
    let other = read_typed_value(alloc, kind, bytes)?;
    Ok(is_found(&one, plain) && is_found(&other, typed))
}

/// The same, asked once more if memory was short.
fn is_read_at_last(alloc: Global, encoding: &Encoding) -> Result<bool, AllocError> {
    match is_read(alloc, encoding) {
        Err(AllocError) => is_read(alloc, encoding),
        reported => reported,
    }
}

const FIVE: &[u8] = b"\x02\x80\0\0\0\0\0\0\x05";

const SPELLINGS: &[Encoding] = &[
    (FIVE, Some(Int(5)), ColumnType::Int, Some(Int(5))),
    (FIVE, Some(Int(5)), ColumnType::Bool, None),
    (
        b"\x03a\0\x01",
        Some(Text("a")),
        ColumnType::Text,
        Some(Text("a")),
    ),
    (b"\x01", Some(Null), ColumnType::Int, None),
    (b"\x04\x01\x04\x01", None, ColumnType::Bool, None),
    (b"\x05", None, ColumnType::Int, None),
];

#[test]
fn under_refusal_bytes_encode_one_value(rt: HostRuntime) {
    assert!(rt; mark(&rt));
    for encoding in SPELLINGS {
        let (bytes, _, _, _) = *encoding;
        assert!(rt;
            is_read_at_last(rt.alloc(), encoding) == Ok(true),
            "{bytes:?}"
        );
    }
}
