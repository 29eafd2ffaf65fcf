//! From values to bytes.
ghost use Rattle.std.specs.Prelude.{◌≡◌, ◌++◌, OnOk, IfOk};
ghost use Rattle.keycode.specs.declared.value.Value.TheVariants.{Int};
ghost use Rattle.keycode.specs.Code.{flipped, escaped, text_code, code, codes_of};

use crate::run::count_run;
use crate::value::Value;
use std::alloc::{AllocError, Global};

/// The number with its sign bit flipped.
fn flip(n: i64) -> u64
    ensures { result ≡ flipped n }
{
    if n >= 0 {
        (n as u64) + (1 << 63)
    } else {
        (n + i64::MAX + 1) as u64
    }
}

/// The encoding of a whole number: 2, and its eight bytes, the highest first, with the sign bit
/// flipped. Never refused.
pub fn encode_int(n: i64) -> [u8; 9]
    ensures { result ≡ code (Int n) }
{
    let b = flip(n).to_be_bytes();
    [2, b[0], b[1], b[2], b[3], b[4], b[5], b[6], b[7]]
}

/// Adds the bytes of a text, each 0 followed by 255.
fn push_escaped(out: &mut Vec<u8>, text: &[u8]) -> Result<(), AllocError>
    ensures { OnOk result (out.new.items ≡ out.old.items ++ escaped text.now) }
{
    // Most texts have no 0.
    if count_run(text) == text.len() {
        out.extend_from_slice(text)?;
        return Ok(());
    }
    for b in text {
        out.push(*b)?;
        if *b == 0 {
            out.push(0xff)?;
        }
    }
    Ok(())
}

/// Adds the bytes of a text, each 0 followed by 255, and then 0 and 1.
fn push_text(out: &mut Vec<u8>, text: &[u8]) -> Result<(), AllocError>
    ensures { OnOk result (out.new.items ≡ out.old.items ++ text_code text.now) }
{
    push_escaped(out, text)?;
    out.extend_from_slice(&[0, 1])
}

/// Adds the encoding of `value` to `out`: a byte for its kind, and then its content. Refused only
/// when out of memory; `out` then ends in a part of the encoding.
pub fn push_value(out: &mut Vec<u8>, value: &Value) -> Result<(), AllocError>
    ensures { OnOk result (out.new.items ≡ out.old.items ++ code value.now) }
{
    match value {
        Value::Null => out.push(1)?,
        Value::Int(n) => out.extend_from_slice(&encode_int(*n))?,
        Value::Text(text) => {
            out.reserve(text.as_bytes().len().saturating_add(3))?;
            out.push(3)?;
            push_text(out, text.as_bytes())?;
        }
        Value::Bool(b) => {
            out.push(4)?;
            out.push(u8::from(*b))?;
        }
    }
    Ok(())
}

/// Adds the encodings of `values` to `out`, one after the other. Refused only when out of memory;
/// `out` then ends in a part of the encodings.
pub fn push_values(out: &mut Vec<u8>, values: &[Value]) -> Result<(), AllocError>
    ensures { OnOk result (out.new.items ≡ out.old.items ++ codes_of values.now) }
{
    for value in values {
        push_value(out, value)?;
    }
    Ok(())
}

/// The one encoding of `values` in bytes: of each value a byte for its kind and then its content,
/// one after the other. A Null is 1; a number is 2 and its eight bytes, the highest first, with the
/// sign bit flipped; a text of whatever length is 3 and its bytes, each 0 followed by 255, and then
/// 0 and 1; a truth value is 4 and 0 or 1. Spellings stand by bytes as the lists do by `compare`.
/// Refused only when out of memory.
pub fn encode(alloc: Global, values: &[Value]) -> Result<Vec<u8>, AllocError>
    ensures { IfOk result (λ bytes. bytes.items ≡ codes_of values.now) }
{
    let mut out = Vec::new(alloc);
    push_values(&mut out, values)?;
    Ok(out)
}
