//! Which mistake is likely behind what was found.
use crate::foreign::foreign_text;
use crate::forms::form_of;
use crate::numbers::is_number;
use crate::odd::{Odd, odd_first, push_odd};
use crate::pieces::pieces_of;
use crate::quoted::push_unquoted;
use crate::rules::{RULES, rule_of};
use crate::stop::{Stop, has_rule};
use crate::table::row_in_any_case;
use script_views::push_nearest;
use std::alloc::{AllocError, Global};

/// Types of other languages, and those that are meant.
const TYPES: &str = "\
int|int\n\
integer|int\n\
bigint|int\n\
smallint|int\n\
number|int\n\
serial|int\n\
long|int\n\
text|text\n\
varchar|text\n\
char|text\n\
string|text\n\
bool|bool\n\
boolean|bool\n";

/// The constants.
const CONSTANTS: &str = "\
true|true\n\
false|false\n\
null|null\n";

/// What a rule calls a name.
const NAMES: &str = "NAME TABLE COLUMN SERVER WORK";

/// Which mistake it is.
#[derive(Clone, Copy)]
enum Mistake {
    /// A character that looks like another or like nothing.
    Odd(Odd),
    /// A `;` ends the line.
    Semicolon,
    /// The words are those of another database; this does it here.
    Foreign(&'static str),
    /// A type of another language; this one is meant.
    Type(&'static str),
    /// A text without its quotes, or in others.
    Unquoted,
    /// A text without its last quote.
    Open,
    /// A constant in capitals.
    Constant(&'static str),
    /// Values that are to be computed.
    Expression,
    /// A number with a fraction, a date or the like.
    Unwhole,
    /// What is no name.
    Name,
    /// None of these.
    Other,
}

fn first_of(piece: &[u8]) -> u8 {
    piece.first().copied().unwrap_or(b' ')
}

fn text_of(piece: &[u8]) -> &str {
    std::str::from_utf8(piece).unwrap_or("")
}

fn value_mistake(piece: &[u8]) -> Mistake {
    let first = first_of(piece);
    if let Some(word) = row_in_any_case(CONSTANTS, text_of(piece)) {
        Mistake::Constant(word)
    } else if first == b'\'' {
        Mistake::Open
    } else if first == b'"' || first.is_ascii_alphabetic() || !first.is_ascii() {
        Mistake::Unquoted
    } else if first.is_ascii_digit() || matches!(first, b'.' | b'-' | b'+') {
        Mistake::Unwhole
    } else {
        Mistake::Other
    }
}

fn type_mistake(piece: &[u8]) -> Mistake {
    match row_in_any_case(TYPES, text_of(piece)) {
        Some(word) => Mistake::Type(word),
        None => Mistake::Other,
    }
}

// Whether a value may be before this place.
fn is_after_value(place: &str) -> bool {
    for line in RULES.lines() {
        let (_, what, next) = rule_of(line);
        if what == "VALUE" && next == place {
            return true;
        }
    }
    false
}

// Whether what was found goes on with a number, as a fraction or a date does.
fn goes_on(stop: &Stop<'_>) -> bool {
    matches!(first_of(stop.piece.text), b'.' | b'-' | b'+' | b'/' | b':')
        && is_number(stop.before)
        && is_after_value(stop.place)
}

// Whether what was found goes on with a value, as a sum does.
fn computes(stop: &Stop<'_>) -> bool {
    let piece = stop.piece.text;
    is_after_value(stop.place)
        && (matches!(first_of(piece), b'+' | b'*' | b'%' | b'|') || piece == b"-".as_slice())
}

// Whether a name may be at a place.
fn wants_name(place: &str) -> bool {
    for line in RULES.lines() {
        let (at, what, _) = rule_of(line);
        if at == place && NAMES.split(' ').any(|name| name == what) {
            return true;
        }
    }
    false
}

// Whether what was found is meant for a name, or for the rest of the one before it.
fn is_misnamed(stop: &Stop<'_>) -> bool {
    let piece = stop.piece.text;
    let first = first_of(piece);
    if wants_name(stop.place) {
        return !first.is_ascii()
            || first.is_ascii_digit()
            || matches!(first, b'"' | b'\'' | b'`' | b'[' | b'_');
    }
    let is_more = !first.is_ascii() || (first == b'-' && piece.len() > 1);
    is_more && first_of(stop.before).is_ascii_alphabetic()
}

// The mistake in what has a meaning here alone.
fn own_mistake(stop: &Stop<'_>) -> Mistake {
    let piece = stop.piece.text;
    if has_rule(RULES, stop.place, "int") {
        type_mistake(piece)
    } else if has_rule(RULES, stop.place, "VALUE") {
        value_mistake(piece)
    } else if computes(stop) {
        Mistake::Expression
    } else if goes_on(stop) {
        Mistake::Unwhole
    } else if is_misnamed(stop) {
        Mistake::Name
    } else {
        Mistake::Other
    }
}

fn mistake_at(alloc: Global, stop: &Stop<'_>) -> Result<Mistake, AllocError> {
    if let Some(odd) = odd_first(text_of(stop.piece.text)) {
        return Ok(Mistake::Odd(odd));
    }
    if text_of(stop.piece.rest).trim() == ";" {
        return Ok(Mistake::Semicolon);
    }
    let pieces = pieces_of(alloc, stop.piece.rest)?;
    match foreign_text(stop, pieces.as_slice()) {
        Some(text) => Ok(Mistake::Foreign(text)),
        None => Ok(own_mistake(stop)),
    }
}

// Adds a form, with a moment if that may not be left out.
fn push_form(out: &mut String, form: &'static str, may_omit: bool) -> Result<(), AllocError> {
    match form.split_once("{}") {
        Some((front, back)) => {
            out.push_str(front)?;
            out.push_str(if may_omit { "" } else { " at 5" })?;
            out.push_str(back)
        }
        None => out.push_str(form),
    }
}

// The word of these that is found but for its letters, which are small ones.
fn small_word<'a>(found: &str, words: &[&'a str]) -> Option<&'a str> {
    for word in words {
        if word.eq_ignore_ascii_case(found) {
            return Some(*word);
        }
    }
    None
}

// Adds the word that is meant or is nearest, or else the form of the line.
fn push_other(
    alloc: Global,
    out: &mut String,
    stop: &Stop<'_>,
    words: &[&str],
) -> Result<(), AllocError> {
    let found = text_of(stop.piece.text);
    if let Some(word) = small_word(found, words) {
        return write!(out, "; words are in small letters: `{word}`");
    }
    let len = out.len();
    push_nearest(alloc, out, found, words)?;
    match form_of(stop.place) {
        Some(form) if out.len() == len => {
            out.push_str(", as in ")?;
            push_form(out, form, stop.may_omit)
        }
        _ => Ok(()),
    }
}

/// Adds which mistake is likely; or else the word that is nearest, or the form of the line. Refused
/// only when out of memory.
///
/// - `out`: the text after which it is put.
/// - `stop`: where the line stops being one of a script.
/// - `words`: what may be there.
pub(crate) fn push_mistake(
    alloc: Global,
    out: &mut String,
    stop: &Stop<'_>,
    words: &[&str],
) -> Result<(), AllocError> {
    let found = text_of(stop.piece.text);
    match mistake_at(alloc, stop)? {
        Mistake::Odd(odd) => push_odd(out, odd),
        Mistake::Semicolon => out.push_str("; no `;` ends a line"),
        Mistake::Foreign(form) => {
            out.push_str("; ")?;
            push_form(out, form, stop.may_omit)
        }
        Mistake::Type(word) => write!(out, "; {found} is {word} here"),
        Mistake::Unquoted => push_unquoted(out, stop.piece.rest),
        Mistake::Open => out.push_str("; a text ends with a quote"),
        Mistake::Constant(word) => write!(out, "; the nearest is {word}"),
        Mistake::Expression => out.push_str("; there are no expressions: a value is written out"),
        Mistake::Unwhole => out.push_str("; values are whole numbers, texts and true or false"),
        Mistake::Name => out.push_str(
            "; a name is an ASCII letter, and then letters, digits and `_`",
        ),
        Mistake::Other => push_other(alloc, out, stop, words),
    }
}
