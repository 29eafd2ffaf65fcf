//! From bytes back to values.
ghost use Rattle.std.specs.Prelude.{◌≡◌, ℕ, List, [], drop, length, ◌<◌, ◌≤◌, IfOk, Ok};
ghost use Rattle.keycode.specs.declared.value.Value.{Value};
ghost use Rattle.keycode.specs.Valid.{IsPrefix};
ghost use Rattle.keycode.specs.Read.{Gives, unflipped, int_at, bool_at, content_at, after_zero, with_byte, text_of, value_at, values_at};

use crate::fault::KeyFault;
use crate::run::count_run;
use crate::text::Text;
use crate::value::Value;
use crate::values::Values;
use std::alloc::Global;

/// The most bytes of a text that is read, where an escaped 0 counts once.
pub const TEXT_LIMIT: usize = 1024;

/// The number whose sign bit was flipped.
fn unflip(n: u64) -> i64
    ensures { result ≡ unflipped n }
{
    if n < 1 << 63 {
        (n as i64) - i64::MAX - 1
    } else {
        (n - (1 << 63)) as i64
    }
}

/// The number of eight bytes, and the bytes after it.
#[tactic(auto, unfolding(crate::specs::Read::int_at))]
fn read_int(bytes: &[u8]) -> Result<(Value, &[u8]), KeyFault>
    ensures { Gives (λ x. (x.0, x.1.now)) result (int_at bytes.now) }
{
    if bytes.len() < 8 {
        return Err(KeyFault::Short);
    }
    let (prefix, rest) = bytes.split_at(8);
    let number = u64::from_be_bytes([
        prefix[0], prefix[1], prefix[2], prefix[3], prefix[4], prefix[5], prefix[6], prefix[7],
    ]);
    Ok((Value::Int(unflip(number)), rest))
}

/// The truth value of one byte, and the bytes after it.
#[tactic(auto, unfolding(crate::specs::Read::bool_at))]
fn read_bool(bytes: &[u8]) -> Result<(Value, &[u8]), KeyFault>
    ensures { Gives (λ x. (x.0, x.1.now)) result (bool_at bytes.now) }
{
    match bytes {
        [] => Err(KeyFault::Short),
        [0, rest @ ..] => Ok((Value::Bool(false), rest)),
        [1, rest @ ..] => Ok((Value::Bool(true), rest)),
        [_, ..] => Err(KeyFault::BadTag),
    }
}

/// The content of a text with a byte more.
#[tactic(auto, unfolding(crate::specs::Read::with_byte))]
fn push_content(mut content: Vec<u8>, b: u8) -> Result<Vec<u8>, KeyFault>
    ensures { Gives (λ x. x.items) result (with_byte content.items b) }
{
    if content.len() >= TEXT_LIMIT {
        return Err(KeyFault::TextTooLong);
    }
    content.push(b)?;
    Ok(content)
}

/// The text of a content that ended, beside the bytes after it.
#[tactic(auto, unfolding(crate::specs::Read::text_of))]
fn end_text(content: Vec<u8>, rest: &[u8]) -> Result<(Text, &[u8]), KeyFault>
    ensures { Gives (λ x. (x.0, x.1.now)) result (text_of content.items rest.entry.now) }
{
    match Text::from_utf8(content) {
        Some(text) => Ok((text, rest)),
        None => Err(KeyFault::NotUtf8),
    }
}

/// What a text begins with, up to its first 0 or its end, as most texts end there, and the bytes after
/// it; nothing of one that is too long.
fn first_run(alloc: Global, bytes: &[u8]) -> Result<(Vec<u8>, &[u8]), std::alloc::AllocError>
    ensures same { IfOk result (λ x. content_at x.0.items x.1.now ≡ content_at [] bytes.now) }
    ensures shorter { IfOk result (λ x. length x.1.now ≤ length bytes.now) }
{
    let count = count_run(bytes);
    if count > TEXT_LIMIT {
        return Ok((Vec::new(alloc), bytes));
    }
    let (run, rest) = bytes.split_at(count);
    let mut content = Vec::with_capacity(alloc, count)?;
    content.extend_from_slice(run)?;
    Ok((content, rest))
}

/// The text after its first byte, up to its end, and the bytes after it.
#[tactic(auto, unfolding(crate::specs::Read::content_at))]
fn read_text(alloc: Global, bytes: &[u8]) -> Result<(Text, &[u8]), KeyFault>
    ensures { Gives (λ x. (x.0, x.1.now)) result (content_at [] bytes.now) }
{
    let (run, after) = first_run(alloc, bytes)?;
    let mut content = run;
    let mut rest = after;
    loop {
        match rest {
            [] => return Err(KeyFault::Short),
            [0] => return Err(KeyFault::Short),
            [0, 0xff, after @ ..] => {
                content = push_content(content, 0)?;
                rest = after;
            }
            [0, 1, after @ ..] => return end_text(content, after),
            [0, _, ..] => return Err(KeyFault::BadEscape),
            [b, after @ ..] => {
                content = push_content(content, *b)?;
                rest = after;
            }
        }
    }
}

/// Reads one value at the prefix of `bytes`, and gives it with the bytes after it. The fault that
/// is met first from the left is the refusal: `Short`, `BadTag`, `BadEscape`, `TextTooLong` or
/// `NotUtf8`, each as `KeyFault` says; `Memory` may come in place of any answer.
pub fn read_value(alloc: Global, bytes: &[u8]) -> Result<(Value, &[u8]), KeyFault>
    ensures shorter { IfOk result (λ x. length x.1.now < length bytes.now) }
    ensures exact { Gives (λ x. (x.0, x.1.now)) result (value_at bytes.now) }
{
    value(alloc, bytes)
}

/// The value by its first byte, and the bytes after it.
#[tactic(auto, unfolding(crate::specs::Read::value_at))]
fn value(alloc: Global, bytes: &[u8]) -> Result<(Value, &[u8]), KeyFault>
    ensures { Gives (λ x. (x.0, x.1.now)) result (value_at bytes.now) }
{
    match bytes {
        [] => Err(KeyFault::Short),
        [1, rest @ ..] => Ok((Value::Null, rest)),
        [2, rest @ ..] => read_int(rest),
        [3, rest @ ..] => {
            let (text, rest) = read_text(alloc, rest)?;
            Ok((Value::Text(text), rest))
        }
        [4, rest @ ..] => read_bool(rest),
        [_, ..] => Err(KeyFault::BadTag),
    }
}

/// As many values as are asked for, and the bytes after them.
fn read_values(alloc: Global, bytes: &[u8], count: usize) -> Result<(Values, &[u8]), KeyFault>
    ensures { Gives (λ x. (x.0, x.1.now)) result (values_at [] count bytes.now) }
{
    let mut values = Vec::new(alloc);
    let mut rest = bytes;
    for _ in 0..count {
        let (value, after) = read_value(alloc, rest)?;
        values.push(value)?;
        rest = after;
    }
    Ok((Values::new(values), rest))
}

/// Reads `count` values at the prefix of `bytes`, and gives them with the number of bytes that they
/// take; bytes after them are not looked at. Each list of values has one encoding, and no other
/// bytes are read as it. The fault that is met first from the left is the refusal: `Short`,
/// `BadTag`, `BadEscape`, `TextTooLong` or `NotUtf8`, each as `KeyFault` says; `Memory` may come in
/// place of any answer.
pub fn decode(alloc: Global, bytes: &[u8], count: usize) -> Result<(Values, usize), KeyFault>
    // What is read stands at the prefix.
    ensures found { IfOk result (λ x. IsPrefix bytes.now count x.0 x.1) }
    // What stands at the prefix is read, unless memory runs out.
    ensures only { (vs : List Value) (n : ℕ) → IsPrefix bytes.now count vs n → Gives (λ x. x) result (Ok (vs, n)) }
    // A fault is the first one from the left.
    ensures exact { Gives (λ x. (x.0, drop x.1 bytes.now)) result (values_at [] count bytes.now) }
{
    let (values, rest) = read_values(alloc, bytes, count)?;
    Ok((values, bytes.len() - rest.len()))
}
