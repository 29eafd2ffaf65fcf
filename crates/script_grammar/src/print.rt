//! How states, bytes and values are printed.
ghost use Rattle.std.specs.Prelude.{◌≡◌, ◌++◌, ◌<◌, OnOk, string_bytes};
ghost use Rattle.std.specs.Char.{digit_char};
ghost use Rattle.script_grammar.specs.Print.{hex, quoted, state_word, value_text};

use keycode::Value;
use schema_version::ElementState;
use std::alloc::AllocError;

/// The word for a state, as the grammar has it.
pub fn state_word(state: ElementState) -> &'static str
    ensures { result.now ≡ state_word state }
{
    match state {
        ElementState::Absent => "absent",
        ElementState::DeleteOnly => "delete_only",
        ElementState::WriteOnly => "write_only",
        ElementState::Public => "public",
    }
}

fn hex_digit(digit: u8) -> char
    requires { digit < 16 }
    ensures { result ≡ digit_char digit }
{
    char::from_digit(u32::from(digit), 16).unwrap()
}

/// Adds bytes to a text in lower-case hexadecimal, two digits a byte.
///
/// The only refusal is running out of memory; it may leave a part of the digits after the text.
pub fn push_hex(out: &mut String, bytes: &[u8]) -> Result<(), AllocError>
    ensures { OnOk result (string_bytes out.new ≡ string_bytes out.old ++ hex bytes.now) }
{
    for byte in bytes {
        out.push(hex_digit(*byte / 16))?;
        out.push(hex_digit(*byte % 16))?;
    }
    Ok(())
}

fn push_quoted(out: &mut String, text: &str) -> Result<(), AllocError>
    ensures { OnOk result (string_bytes out.new ≡ string_bytes out.old ++ quoted text.now) }
{
    out.push('\'')?;
    let mut rest = text;
    while let Some((before, after)) = rest.split_once('\'') {
        out.push_str(before)?;
        out.push_str("''")?;
        rest = after;
    }
    out.push_str(rest)?;
    out.push('\'')?;
    Ok(())
}

/// Adds a value to a text as the grammar has it: a number in decimal, a text in quotes with each
/// quote in it doubled, `true`, `false` and `null`.
///
/// The only refusal is running out of memory; it may leave a part of the value after the text.
pub fn push_value(out: &mut String, value: &Value) -> Result<(), AllocError>
    ensures { OnOk result (string_bytes out.new ≡ string_bytes out.old ++ value_text value.now) }
{
    match value {
        Value::Null => out.push_str("null")?,
        Value::Int(number) => write!(out, "{number}")?,
        Value::Text(text) => push_quoted(out, text.as_str())?,
        Value::Bool(true) => out.push_str("true")?,
        Value::Bool(false) => out.push_str("false")?,
    }
    Ok(())
}
