//! Where the keys of a row are in a view, without making one: those that are met are compared with
//! the values of its primary key. Nothing rests on it, since what is found there is tested.
use byte_map::{Bytes, words};
use keycode::{Value, encode_int};
use std::cmp::Ordering;

/// The bytes after these, if they begin with them, and else how they stand to them.
fn after<'a>(bytes: &'a [u8], first: &[u8]) -> Result<&'a [u8], Ordering> {
    let (front, rest) = bytes.split_at(bytes.len().min(first.len()));
    match words::compare(front, first) {
        Ordering::Equal => Ok(rest),
        order => Err(order),
    }
}

/// The same for the encoding of an integer, among those of others.
fn after_int(bytes: &[u8], n: i64) -> Result<&[u8], Ordering> {
    if bytes.len() < 9 {
        return Err(Ordering::Less);
    }
    match words::word(bytes, 1).cmp(&words::word(&encode_int(n), 1)) {
        Ordering::Equal => Ok(&bytes[9..]),
        order => Err(order),
    }
}

/// The same for a text's bytes, each 0 of which is followed by 255.
fn after_each<'a>(bytes: &'a [u8], text: &[u8]) -> Result<&'a [u8], Ordering> {
    let mut rest = bytes;
    for byte in text {
        rest = after(rest, &[*byte])?;
        if *byte == 0 {
            rest = after(rest, &[255])?;
        }
    }
    Ok(rest)
}

/// The same for the encoding of a text, among those of others.
fn after_text<'a>(bytes: &'a [u8], text: &[u8], is_plain: bool) -> Result<&'a [u8], Ordering> {
    let Some((_, content)) = bytes.split_first() else {
        return Err(Ordering::Less);
    };
    let end = if is_plain {
        after(content, text)?
    } else {
        after_each(content, text)?
    };
    after(end, &[0, 1])
}

/// The same for the encoding of a value, among those of others of its type.
fn after_value<'a>(bytes: &'a [u8], value: &Value, is_plain: bool) -> Result<&'a [u8], Ordering> {
    match value {
        Value::Null => after(bytes, &[1]),
        Value::Int(n) => after_int(bytes, *n),
        Value::Text(text) => after_text(bytes, text.as_bytes(), is_plain),
        Value::Bool(b) => after(bytes, &[4, u8::from(*b)]),
    }
}

/// The same for the beginning of a key of a row of the table, among those of others.
fn after_table(key: &[u8], table: u32) -> Result<&[u8], Ordering> {
    let Some((front, rest)) = key.split_first_chunk::<5>() else {
        return Err(Ordering::Less);
    };
    match u32::from_be_bytes([front[1], front[2], front[3], front[4]]).cmp(&table) {
        Ordering::Equal => Ok(rest),
        order => Err(order),
    }
}

/// The same for a row's key without the number of its column.
fn after_row<'a>(
    key: &'a [u8],
    table: u32,
    primary: &[Value],
    is_plain: bool,
) -> Result<&'a [u8], Ordering> {
    let mut rest = after_table(key, table)?;
    for value in primary {
        rest = after_value(rest, value, is_plain)?;
    }
    Ok(rest)
}

/// Whether there is no 0 in a value that is a text.
fn has_no_zero(value: &Value) -> bool {
    match value {
        Value::Text(text) => text.as_bytes().iter().all(|b| *b != 0),
        _ => true,
    }
}

/// Where the keys of a row begin among these, if they are there.
pub(crate) fn sought_place(
    entries: &[(Bytes, Option<Bytes>)],
    table: u32,
    primary: &[Value],
) -> usize {
    let is_plain = primary.iter().all(|value| has_no_zero(value));
    entries.partition_point(|entry| {
        matches!(
            after_row(entry.0.as_slice(), table, primary, is_plain),
            Err(Ordering::Less)
        )
    })
}
