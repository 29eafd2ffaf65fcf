//! What does here what a line asks for in the words of other databases.
use crate::foreign_lines::{LINES, PROMPT_LINES};
use crate::foreign_words::WORDS;
use crate::pieces::Piece;
use crate::rules::RULES;
use crate::stop::{Stop, has_rule, others};

fn text_of(piece: &[u8]) -> &str {
    std::str::from_utf8(piece).unwrap_or("")
}

// Whether a piece is the word of a pattern: one of several with `/` between them, `_` for any piece, or `$`
// for the end of the line.
fn is_piece(word: &str, piece: Option<&Piece<'_>>) -> bool {
    let Some(piece) = piece else {
        return word == "$";
    };
    let found = text_of(piece.text);
    if word == "_" || word == found {
        return true;
    }
    word.len() > 1 && word.split('/').any(|it| it.eq_ignore_ascii_case(found))
}

fn are_pieces(words: &str, pieces: &[Piece<'_>]) -> bool {
    for (i, word) in words.split(' ').enumerate() {
        if !is_piece(word, pieces.get(i)) {
            return false;
        }
    }
    true
}

// Whether the pieces from a stop on are those of a pattern; after `^` it begins with the one before the
// stop.
fn is_found(words: &str, stop: &Stop<'_>, pieces: &[Piece<'_>]) -> bool {
    match words.strip_prefix('^') {
        Some(words) => {
            let (before, words) = words.split_once(' ').unwrap_or((words, "_"));
            before.eq_ignore_ascii_case(text_of(stop.before)) && are_pieces(words, pieces)
        }
        None => are_pieces(words, pieces),
    }
}

// Whether a place is the one that is named after `@`, or any for `*`, or else one at which this is
// expected.
fn is_place(name: &str, stop: &Stop<'_>) -> bool {
    match name.strip_prefix('@') {
        Some(place) => place == stop.place,
        None => {
            name == "*"
                || has_rule(RULES, stop.place, name)
                || has_rule(others(stop.may_omit), stop.place, name)
        }
    }
}

// The text of the first row of a table for this stop, which is not at the first word.
fn inner_text(stop: &Stop<'_>, pieces: &[Piece<'_>]) -> Option<&'static str> {
    for row in WORDS.lines() {
        let (places, rest) = row.split_once('|').unwrap_or((row, ""));
        let (words, text) = rest.split_once('|').unwrap_or((rest, ""));
        if is_found(words, stop, pieces) && places.split('+').any(|name| is_place(name, stop)) {
            return Some(text);
        }
    }
    None
}

// The text of the first row of a table whose pattern the first words of a line are.
fn first_text(table: &'static str, pieces: &[Piece<'_>]) -> Option<&'static str> {
    for row in table.lines() {
        let (words, text) = row.split_once('|').unwrap_or((row, ""));
        if are_pieces(words, pieces) {
            return Some(text);
        }
    }
    None
}

/// What does here what the words from a stop on ask for elsewhere, or that there is none.
///
/// - `stop`: where the line stops being one of a script.
/// - `pieces`: the pieces of the line from there on.
pub(crate) fn foreign_text(stop: &Stop<'_>, pieces: &[Piece<'_>]) -> Option<&'static str> {
    if stop.place.is_empty() {
        if stop.may_omit {
            let found = first_text(PROMPT_LINES, pieces);
            if found.is_some() {
                return found;
            }
        }
        let found = first_text(LINES, pieces);
        if found.is_some() {
            return found;
        }
    }
    inner_text(stop, pieces)
}
