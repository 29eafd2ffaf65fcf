//! Where a line stops being one of a script.
use crate::numbers::{bounds_of, fits, is_number};
use crate::pieces::Piece;
use crate::rules::{LEFT_OUT, RULES, rule_of};

/// The place at which only the end of the line is expected.
const END: &str = "end";

/// Where a line stops being one of a script.
#[derive(Clone, Copy)]
pub(crate) struct Stop<'a> {
    /// The place, by the rules.
    pub place: &'static str,
    /// What is there; empty at the end of the line.
    pub piece: Piece<'a>,
    /// What is before it.
    pub before: &'a [u8],
    /// Whether `at M` may be left out.
    pub may_omit: bool,
}

fn is_constant(piece: &[u8]) -> bool {
    let word = std::str::from_utf8(piece).unwrap_or("");
    word == "true" || word == "false" || word == "null"
}

// Whether a text that begins with a quote ends with one: a quote in it is doubled.
fn is_closed(piece: &[u8]) -> bool {
    let mut is_closed = true;
    for byte in piece {
        if *byte == b'\'' {
            is_closed = !is_closed;
        }
    }
    is_closed
}

fn is_value(piece: &[u8]) -> bool {
    if is_number(piece) {
        fits("VALUE", piece)
    } else if piece.first() == Some(&b'\'') {
        is_closed(piece)
    } else {
        is_constant(piece)
    }
}

// Whether a piece is the word that a rule names, or a name if that is in capitals.
fn is_word(what: &str, piece: &[u8]) -> bool {
    let first = piece.first().copied().unwrap_or(b' ');
    match what.as_bytes() {
        [head, ..] if head.is_ascii_uppercase() => first.is_ascii_alphabetic(),
        word => piece == word,
    }
}

// Whether a piece is what a rule names.
fn is_taken(what: &str, piece: &[u8]) -> bool {
    if what == "END" {
        false
    } else if what == "VALUE" {
        is_value(piece)
    } else if bounds_of(what).is_some() {
        is_number(piece) && fits(what, piece)
    } else {
        is_word(what, piece)
    }
}

/// The rules beside those of a script: none, or those of a prompt.
///
/// - `may_omit`: whether `at M` may be left out.
pub(crate) fn others(may_omit: bool) -> &'static str {
    if may_omit { LEFT_OUT } else { "" }
}

// The place after a piece, by the rules of one table.
fn next_in(table: &'static str, place: &str, piece: &[u8]) -> Option<&'static str> {
    for line in table.lines() {
        let (at, what, next) = rule_of(line);
        if at == place && is_taken(what, piece) {
            return Some(next);
        }
    }
    None
}

fn next_place(place: &str, piece: &[u8], may_omit: bool) -> Option<&'static str> {
    match next_in(RULES, place, piece) {
        Some(next) => Some(next),
        None => next_in(others(may_omit), place, piece),
    }
}

/// Whether a rule of a table has this at this place.
///
/// - `table`: the table.
/// - `place`: the place.
/// - `wanted`: what the rule names.
pub(crate) fn has_rule(table: &'static str, place: &str, wanted: &str) -> bool {
    for line in table.lines() {
        let (at, what, _) = rule_of(line);
        if at == place && what == wanted {
            return true;
        }
    }
    false
}

// The stop at the end of a line that may not end there. A `;` that may be followed by more is taken
// for what ends the line.
fn end_stop<'a>(place: &'static str, last: Piece<'a>, column: usize, may_omit: bool) -> Stop<'a> {
    let before = last.text;
    if before == b";".as_slice() {
        return Stop {
            place: END,
            piece: last,
            before: b"",
            may_omit,
        };
    }
    let piece = Piece {
        column,
        text: b"",
        rest: b"",
    };
    Stop {
        place,
        piece,
        before,
        may_omit,
    }
}

/// The first place at which a line is none of a script; `None` if the rules find none.
///
/// - `pieces`: the pieces of the line.
/// - `end`: the column after the last one.
/// - `may_omit`: whether `at M` may be left out.
pub(crate) fn stop_of<'a>(pieces: &[Piece<'a>], end: usize, may_omit: bool) -> Option<Stop<'a>> {
    let mut place = "";
    let mut last = Piece {
        column: 1,
        text: b"",
        rest: b"",
    };
    for piece in pieces {
        let before = last.text;
        last = *piece;
        match next_place(place, last.text, may_omit) {
            Some(next) => place = next,
            None => {
                let piece = last;
                return Some(Stop {
                    place,
                    piece,
                    before,
                    may_omit,
                });
            }
        }
    }
    if has_rule(RULES, place, "END") || has_rule(others(may_omit), place, "END") {
        None
    } else {
        Some(end_stop(place, last, end, may_omit))
    }
}
