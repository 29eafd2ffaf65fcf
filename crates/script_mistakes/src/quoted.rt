//! Texts without their quotes, or in others.
use std::alloc::AllocError;

/// The longest text that is written out as it should be, in bytes.
const LONGEST: usize = 64;

fn text_of(piece: &[u8]) -> &str {
    std::str::from_utf8(piece).unwrap_or("")
}

fn bare_len(bytes: &[u8]) -> usize {
    for (i, byte) in bytes.iter().enumerate() {
        if matches!(*byte, b' ' | b',' | b';' | b')') {
            return i;
        }
    }
    bytes.len()
}

// What is between single quotes after one letter, as in `E'x'`.
fn prefixed_text(rest: &str) -> Option<&str> {
    let (letter, quoted) = rest.split_once('\'')?;
    if letter.len() != 1 {
        return None;
    }
    let (text, _) = quoted.split_once('\'')?;
    Some(text)
}

// The text that is meant: what is between double quotes, or a bare word.
fn meant_text(rest: &[u8]) -> &str {
    match text_of(rest).split_once('"') {
        Some(("", quoted)) => {
            let (text, _) = quoted.split_once('"').unwrap_or((quoted, ""));
            text
        }
        _ => match rest.split_at_checked(bare_len(rest)) {
            Some((bare, _)) => text_of(bare),
            None => "",
        },
    }
}

// Adds a text in single quotes, with each in it twice.
fn push_quoted(out: &mut String, text: &str) -> Result<(), AllocError> {
    out.push_str("'")?;
    for (i, part) in text.split('\'').enumerate() {
        if i > 0 {
            out.push_str("''")?;
        }
        out.push_str(part)?;
    }
    out.push_str("'")
}

/// Adds the text in single quotes that is meant. Refused only when out of memory.
///
/// - `out`: the text after which it is put.
/// - `rest`: the line from the text on.
pub(crate) fn push_unquoted(out: &mut String, rest: &[u8]) -> Result<(), AllocError> {
    let text = match prefixed_text(text_of(rest)) {
        Some(text) => text,
        None => meant_text(rest),
    };
    out.push_str("; texts are in single quotes: `")?;
    push_quoted(out, if text.len() > LONGEST { ".." } else { text })?;
    out.push_str("`")
}
