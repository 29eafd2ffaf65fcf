//! Reading the parts of a key.
ghost use Rattle.std.specs.Prelude.{◌≡◌, List, [], length, IfOk, Ok};
ghost use Rattle.keycode.specs.declared.value.Value.{Value};
ghost use Rattle.keycode.specs.Read.{Gives};
ghost use Rattle.row_map.specs.declared.key.KeyOf.{KeyOf};
ghost use Rattle.row_map.specs.Keys.{key_code, IsKey};
ghost use Rattle.row_map.specs.ReadKey.{number_at, until_zero, until_end, with_number, last_number, row_key_at, index_key_at, key_at};

use crate::key::KeyOf;
use collections::List;
use keycode::{KeyFault, Values, read_value};
use std::alloc::Global;

/// The number of four bytes, and the bytes after it.
#[tactic(auto, unfolding(crate::specs::ReadKey::number_at))]
fn read_number(bytes: &[u8]) -> Result<(u32, &[u8]), KeyFault>
    ensures { Gives (λ x. (x.0, x.1.now)) result (number_at bytes.now) }
{
    if bytes.len() < 4 {
        return Err(KeyFault::Short);
    }
    let (prefix, rest) = bytes.split_at(4);
    let number = u32::from_be_bytes([prefix[0], prefix[1], prefix[2], prefix[3]]);
    Ok((number, rest))
}

/// The number that ends a key.
#[tactic(auto, unfolding(crate::specs::ReadKey::last_number))]
fn read_last_number(bytes: &[u8]) -> Result<u32, KeyFault>
    ensures { Gives (λ x. x) result (last_number bytes.now) }
{
    let (number, rest) = read_number(bytes)?;
    if rest.is_empty() {
        Ok(number)
    } else {
        Err(KeyFault::BadTag)
    }
}

/// The values before a 0 that is in a value's place.
fn read_until_zero(alloc: Global, bytes: &[u8]) -> Result<(Values, &[u8]), KeyFault>
    ensures { Gives (λ x. (x.0, x.1.now)) result (until_zero (length bytes.now) [] bytes.now) }
{
    let mut values = Vec::new(alloc);
    let mut rest = bytes;
    loop {
        match rest {
            [] => return Err(KeyFault::Short),
            [0, ..] => return Ok((List::new(values), rest)),
            [_, ..] => {
                let (value, after) = read_value(alloc, rest)?;
                values.push(value)?;
                rest = after;
            }
        }
    }
}

/// The values up to the end.
fn read_until_end(alloc: Global, bytes: &[u8]) -> Result<Values, KeyFault>
    ensures { Gives (λ x. x) result (until_end (length bytes.now) [] bytes.now) }
{
    let mut values = Vec::new(alloc);
    let mut rest = bytes;
    while !rest.is_empty() {
        let (value, after) = read_value(alloc, rest)?;
        values.push(value)?;
        rest = after;
    }
    Ok(List::new(values))
}

/// The key of a pair of a row, after its first byte.
#[tactic(auto, unfolding(crate::specs::ReadKey::row_key_at, crate::specs::ReadKey::with_number))]
fn read_row_key(alloc: Global, bytes: &[u8]) -> Result<KeyOf, KeyFault>
    ensures { Gives (λ x. x) result (row_key_at bytes.now) }
{
    let (table, rest) = read_number(bytes)?;
    let (key, rest) = read_until_zero(alloc, rest)?;
    let element = read_last_number(rest)?;
    if key.len() < 1 || key.len() > 4 {
        return Err(KeyFault::BadTag);
    }
    if element == 0 {
        Ok(KeyOf::Exists { table, key })
    } else {
        Ok(KeyOf::Column {
            table,
            key,
            element,
        })
    }
}

/// The key of a pair of an index, after its first byte.
#[tactic(auto, unfolding(crate::specs::ReadKey::index_key_at, crate::specs::ReadKey::with_number))]
fn read_index_key(alloc: Global, bytes: &[u8]) -> Result<KeyOf, KeyFault>
    ensures { Gives (λ x. x) result (index_key_at bytes.now) }
{
    let (element, rest) = read_number(bytes)?;
    let values = read_until_end(alloc, rest)?;
    if values.len() < 2 || values.len() > 8 {
        return Err(KeyFault::BadTag);
    }
    Ok(KeyOf::Index { element, values })
}

/// The key by its first byte.
#[tactic(auto, unfolding(crate::specs::ReadKey::key_at))]
fn key(alloc: Global, bytes: &[u8]) -> Result<KeyOf, KeyFault>
    ensures { Gives (λ x. x) result (key_at bytes.now) }
{
    match bytes {
        [] => Err(KeyFault::Short),
        [b'R', rest @ ..] => read_row_key(alloc, rest),
        [b'X', rest @ ..] => read_index_key(alloc, rest),
        [_, ..] => Err(KeyFault::BadTag),
    }
}

/// Reads what `bytes` are the key of, with no look at a schema: whether the table and the element
/// are there is not asked. The fault that is met first from the left is the refusal. `Short`: the
/// bytes end within the key, or where a value of a row's key has to begin. `BadTag`: the first byte
/// is neither R nor X, a byte that begins no value is in a value's place, bytes stand after a row's
/// element number, or, asked last, the values are not 1 to 4 of a row or 2 to 8 of an index.
/// `BadEscape`, `TextTooLong` and `NotUtf8`: of a text among the values. `Memory` may come in place
/// of any answer.
pub fn read_key(alloc: Global, bytes: &[u8]) -> Result<KeyOf, KeyFault>
    // What is read is encoded so.
    ensures found { IfOk result (λ k. IsKey k × (bytes.now ≡ key_code k)) }
    // What is encoded so is read, unless memory runs out.
    ensures only { (k : KeyOf) → IsKey k → bytes.now ≡ key_code k → Gives (λ x. x) result (Ok k) }
    // A fault is the first one from the left.
    ensures exact { Gives (λ x. x) result (key_at bytes.now) }
{
    key(alloc, bytes)
}
