//! A line cut into pieces, each with its column.
use std::alloc::{AllocError, Global};

/// A word, a number, a text in quotes or a mark.
#[derive(Clone, Copy)]
pub(crate) struct Piece<'a> {
    /// Where it begins, in bytes, from 1.
    pub column: usize,
    /// Its bytes.
    pub text: &'a [u8],
    /// The line from there on.
    pub rest: &'a [u8],
}

fn is_word_byte(byte: u8) -> bool {
    byte.is_ascii_alphanumeric() || byte == b'_'
}

fn count_word(bytes: &[u8]) -> usize {
    for (i, byte) in bytes.iter().enumerate() {
        if !is_word_byte(*byte) {
            return i;
        }
    }
    bytes.len()
}

// How many bytes a text has after its first quote. A doubled quote is one of them.
fn count_quoted(bytes: &[u8]) -> usize {
    let mut is_closed = false;
    for (i, byte) in bytes.iter().enumerate() {
        if *byte == b'\'' {
            is_closed = !is_closed;
        } else if is_closed {
            return i;
        }
    }
    bytes.len()
}

fn count_foreign(bytes: &[u8]) -> usize {
    for (i, byte) in bytes.iter().enumerate() {
        if byte.is_ascii() {
            return i;
        }
    }
    bytes.len()
}

// How many bytes a piece has after its first.
fn count_rest(first: u8, after: &[u8]) -> usize {
    if is_word_byte(first) || first == b'-' {
        count_word(after)
    } else if first == b'\'' {
        count_quoted(after)
    } else if !first.is_ascii() {
        count_foreign(after)
    } else if matches!(first, b'<' | b'>') && after.first() == Some(&b'=') {
        1
    } else {
        0
    }
}

/// The pieces of a line. Refused only when out of memory.
///
/// - `line`: the line without its ending.
pub(crate) fn pieces_of<'a>(alloc: Global, line: &'a [u8]) -> Result<Vec<Piece<'a>>, AllocError> {
    let mut pieces = Vec::new(alloc);
    let mut rest = line;
    let mut column = 1usize;
    for _byte in line {
        let Some((first, after)) = rest.split_first() else {
            return Ok(pieces);
        };
        let len = if *first == b' ' {
            0
        } else {
            count_rest(*first, after)
        };
        let Some((text, behind)) = rest.split_at_checked(len.saturating_add(1)) else {
            return Ok(pieces);
        };
        if *first != b' ' {
            pieces.push(Piece { column, text, rest })?;
        }
        rest = behind;
        column = column.saturating_add(text.len());
    }
    Ok(pieces)
}
