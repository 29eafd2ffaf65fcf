//! Key columns that are not the first of a table.
use crate::pieces::Piece;
use std::alloc::{AllocError, Global};

fn text_at<'a>(pieces: &[Piece<'a>], place: usize) -> &'a str {
    match pieces.get(place) {
        Some(piece) => std::str::from_utf8(piece.text).unwrap_or(""),
        None => "",
    }
}

// The place of the first key column that comes after another column, in `table NAME ( ..`, whose
// first column is at 3.
fn late_key(pieces: &[Piece<'_>]) -> Option<usize> {
    for place in 6..pieces.len() {
        if text_at(pieces, place - 1) == ","
            && text_at(pieces, place - 2) != "key"
            && text_at(pieces, place.saturating_add(2)) == "key"
        {
            return Some(place);
        }
    }
    None
}

/// What is wrong with a line in which each piece may be where it is: the key columns of a table are
/// not the first. Refused only when out of memory.
///
/// - `pieces`: the pieces of the line.
pub(crate) fn key_hint(alloc: Global, pieces: &[Piece<'_>]) -> Result<String, AllocError> {
    if pieces.first().map_or(1, |piece| piece.column) > 1 {
        return "1: a line begins with its first word: take the spaces out".to_string(alloc);
    }
    if text_at(pieces, 0) != "table" {
        return "it is no line of a script".to_string(alloc);
    }
    let (words, place) = match late_key(pieces) {
        Some(place) => ("key columns come first", place),
        None => ("a table begins with its key column", 3),
    };
    let name = text_at(pieces, place);
    let kind = text_at(pieces, place.saturating_add(1));
    format!(in alloc; "{words}: `{name} {kind} key`")
}
