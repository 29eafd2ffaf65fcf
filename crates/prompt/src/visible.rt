//! Texts as a terminal is shown them.
ghost use Rattle.std.specs.Prelude.{◌≡◌, ◌++◌, IfOk, OnOk};
ghost use Rattle.std.specs.List.{flat_map};
ghost use Rattle.prompt.specs.Conversation.{escaped_byte, is_control, visible_byte};

use script_grammar::push_hex;
use std::alloc::{AllocError, Global};

// Whether a byte controls a terminal; a line feed ends a line.
fn is_control(byte: u8) -> bool
    ensures { result ≡ is_control byte }
{
    byte == 127 || (byte < 32 && byte != 10)
}

// Adds a byte as `\x1b`.
fn push_escaped(alloc: Global, out: &mut Vec<u8>, byte: u8) -> Result<(), AllocError>
    ensures { OnOk result (out.new.items ≡ out.old.items ++ escaped_byte byte) }
{
    let mut digits = String::new(alloc);
    push_hex(&mut digits, &[byte])?;
    out.extend_from_slice(b"\\x")?;
    out.extend_from_slice(digits.as_str().as_bytes())
}

fn push_visible_byte(alloc: Global, out: &mut Vec<u8>, byte: u8) -> Result<(), AllocError>
    ensures { OnOk result (out.new.items ≡ out.old.items ++ visible_byte byte) }
{
    if is_control(byte) {
        return push_escaped(alloc, out, byte);
    }
    out.push(byte)?;
    Ok(())
}

/// A text as a terminal is shown it: a byte that would control it, other than a line feed, is written
/// as `\x1b`. Refused only when out of memory.
///
/// - `text`: the text.
pub(crate) fn visible(alloc: Global, text: &[u8]) -> Result<Vec<u8>, AllocError>
    ensures { IfOk result (λ shown. shown.items ≡ flat_map visible_byte text.now) }
{
    let mut shown = Vec::new(alloc);
    for byte in text {
        push_visible_byte(alloc, &mut shown, *byte)?;
    }
    Ok(shown)
}
