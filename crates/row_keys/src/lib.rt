//! The keys of a row's pairs, made from that of its `exists` pair and known by it: so a transaction
//! encodes the values of a primary key once.
#![tactic(auto)]

ghost use Rattle.std.specs.Prelude.{◌≡◌, ◌≤◌, length, ◌==◌, ◌++◌, ◌∷◌, [], List, ℕ, not, IfOk, option_map};
ghost use Rattle.std.specs.Bool.{Decides};
ghost use Rattle.std.specs.Int.{w32, to_be_bytes};
ghost use Rattle.std.specs.List.{list_all};
ghost use Rattle.keycode.specs.declared.value.Value.{Value};
ghost use Rattle.keycode.specs.Code.{code, codes_of, escape, escaped, text_code};
ghost use Rattle.row_map.specs.Keys.{row_code};
ghost use Rattle.row_keys.specs.inner.After.{IsAfter};

use byte_map::{Bytes, words};
use keycode::{Value, encode_int};
use std::alloc::{AllocError, Global};

/// These bytes and four more, which fit in a key that takes no memory of its own.
fn with_four_near(alloc: Global, front: &[u8], four: &[u8; 4]) -> Result<Bytes, AllocError>
    requires { length front.now ≤ 26 }
    ensures { IfOk result (λ bytes. bytes ≡ front.now ++ four.now) }
{
    let end = front.len() + 4;
    let mut room = [0u8; 30];
    room[..front.len()].copy_from_slice(front);
    room[front.len()..end].copy_from_slice(four);
    Bytes::from_slice(alloc, &room[..end])
}

/// These bytes and four more.
fn with_four(alloc: Global, front: &[u8], four: &[u8; 4]) -> Result<Bytes, AllocError>
    ensures { IfOk result (λ bytes. bytes ≡ front.now ++ four.now) }
{
    if front.len() <= 26 {
        return with_four_near(alloc, front, four);
    }
    let mut out = Vec::with_capacity(alloc, front.len().saturating_add(4))?;
    out.extend_from_slice(front)?;
    out.extend_from_slice(four)?;
    Bytes::new(out)
}

/// The key of the row's pair for a column. Refused only when out of memory.
///
/// - `exists`: the key of its `exists` pair, which differs in the last four bytes.
/// - `number`: the number of the column.
pub fn column_key_of(alloc: Global, exists: &Bytes, number: u32) -> Result<Bytes, AllocError>
    ensures { IfOk result (λ key. (table : ℕ) (primary : List Value) → exists.now ≡ row_code table primary 0 → key ≡ row_code table primary number) }
{
    let bytes = exists.as_slice();
    let front = bytes.split_at(bytes.len().saturating_sub(4)).0;
    with_four(alloc, front, &number.to_be_bytes())
}

/// The bytes after these, if they begin with them.
fn after<'a>(bytes: &'a [u8], first: &[u8]) -> Option<&'a [u8]>
    ensures { IsAfter first.now bytes.now (option_map (λ s. s.now) result) }
{
    if bytes.len() < first.len() {
        return None;
    }
    let (front, rest) = bytes.split_at(first.len());
    if words::is_same(front, first) {
        Some(rest)
    } else {
        None
    }
}

/// Whether a key is that of the row's pair for a column.
///
/// - `exists`: the key of its `exists` pair, which differs in the last four bytes.
/// - `number`: the number of the column.
pub fn is_column_key(key: &[u8], exists: &[u8], number: u32) -> bool
    ensures { (table : ℕ) (primary : List Value) → exists.now ≡ row_code table primary 0 → Decides result (key.now ≡ row_code table primary number) }
{
    let front = exists.split_at(exists.len().saturating_sub(4)).0;
    match after(key, front) {
        Some(end) => words::is_same(end, &number.to_be_bytes()),
        None => false,
    }
}

/// Whether there is no 0 in a text.
fn has_no_zero(text: &[u8]) -> bool
    ensures { result ≡ list_all (λ (b : ℕ). not (b == 0)) text.now }
{
    text.iter().all(|b| *b != 0)
}

/// The bytes after one of a text, which is followed by 255 if it is 0.
fn after_byte(bytes: &[u8], byte: u8) -> Option<&[u8]>
    ensures { IsAfter (escape byte) bytes.now (option_map (λ s. s.now) result) }
{
    if byte == 0 {
        after(bytes, &[0, 255])
    } else {
        after(bytes, &[byte])
    }
}

/// The bytes after those of a text, each 0 of which is followed by 255, one by one.
fn after_each<'a>(bytes: &'a [u8], text: &[u8]) -> Option<&'a [u8]>
    ensures { IsAfter (escaped text.now) bytes.now (option_map (λ s. s.now) result) }
{
    let mut rest = bytes;
    for byte in text {
        let Some(more) = after_byte(rest, *byte) else {
            return None;
        };
        rest = more;
    }
    Some(rest)
}

/// The bytes after those of a text, each 0 of which is followed by 255, if they begin with these.
fn after_escaped<'a>(bytes: &'a [u8], text: &[u8]) -> Option<&'a [u8]>
    ensures { IsAfter (escaped text.now) bytes.now (option_map (λ s. s.now) result) }
{
    // Most texts have no 0.
    if has_no_zero(text) {
        after(bytes, text)
    } else {
        after_each(bytes, text)
    }
}

/// The bytes after the encoding of a text, if they begin with it.
fn after_text<'a>(bytes: &'a [u8], text: &[u8]) -> Option<&'a [u8]>
    ensures { IsAfter (3 ∷ text_code text.now) bytes.now (option_map (λ s. s.now) result) }
{
    let Some(content) = after(bytes, &[3]) else {
        return None;
    };
    let Some(end) = after_escaped(content, text) else {
        return None;
    };
    after(end, &[0, 1])
}

/// The bytes after the encoding of a value, if they begin with it.
fn after_value<'a>(bytes: &'a [u8], value: &Value) -> Option<&'a [u8]>
    ensures { IsAfter (code value.now) bytes.now (option_map (λ s. s.now) result) }
{
    match value {
        Value::Null => after(bytes, &[1]),
        Value::Int(n) => after(bytes, &encode_int(*n)),
        Value::Text(text) => after_text(bytes, text.as_bytes()),
        Value::Bool(b) => after(bytes, &[4, u8::from(*b)]),
    }
}

/// The bytes after the encodings of values, if they begin with them.
fn after_values<'a>(bytes: &'a [u8], values: &[Value]) -> Option<&'a [u8]>
    ensures { IsAfter (codes_of values.now) bytes.now (option_map (λ s. s.now) result) }
{
    let mut rest = bytes;
    for value in values {
        let Some(more) = after_value(rest, value) else {
            return None;
        };
        rest = more;
    }
    Some(rest)
}

/// Whether these bytes are four zeros.
fn are_four_zeros(bytes: &[u8]) -> bool
    ensures { Decides result (bytes.now ≡ 0 ∷ 0 ∷ 0 ∷ 0 ∷ []) }
{
    words::is_same(bytes, &[0, 0, 0, 0])
}

/// The bytes after the beginning of a key of a row of the table, if they begin so.
fn after_table(key: &[u8], table: u32) -> Option<&[u8]>
    ensures { IsAfter (82 ∷ to_be_bytes w32 table) key.now (option_map (λ s. s.now) result) }
{
    let t = table.to_be_bytes();
    after(key, &[b'R', t[0], t[1], t[2], t[3]])
}

/// Whether a key is that of the `exists` pair of a row.
///
/// - `table`: the number of the row's table.
/// - `primary`: the values of its primary key.
pub fn is_exists_key(key: &[u8], table: u32, primary: &[Value]) -> bool
    ensures { Decides result (key.now ≡ row_code table primary.now 0) }
{
    let Some(values) = after_table(key, table) else {
        return false;
    };
    match after_values(values, primary) {
        Some(end) => are_four_zeros(end),
        None => false,
    }
}
