//! What is wrong with a bad line.
use crate::keys::key_hint;
use crate::meant::push_mistake;
use crate::numbers::{bounds_of, is_number};
use crate::pieces::pieces_of;
use crate::rules::{RULES, rule_of};
use crate::stop::{Stop, others, stop_of};
use crate::table::row_of;
use std::alloc::{AllocError, Global};

/// The longest number that is written out, in bytes.
const LONGEST: usize = 64;

/// What a rule names, in words.
const WORDS: &str = "\
N|a number\n\
LENGTH|a number\n\
PIECE|a number\n\
PIECES|a number\n\
LIMIT|a number\n\
M|a moment, which is a number\n\
VALUE|a value (a number, a text in quotes, true, false or null)\n\
END|the end of the line\n\
NAME|a name\n\
TABLE|a table\n\
COLUMN|a column\n\
COMMAND|a command\n\
SERVER|a server\n\
WORK|a name for the work\n";

// The words, and after them what may be at a place by the rules of one table.
fn words_with(
    words: Vec<&'static str>,
    table: &'static str,
    place: &str,
) -> Result<Vec<&'static str>, AllocError> {
    let mut words = words;
    for line in table.lines() {
        let (at, what, _) = rule_of(line);
        if at == place {
            words.push(row_of(WORDS, what).unwrap_or(what))?;
        }
    }
    Ok(words)
}

fn words_at(alloc: Global, place: &str, may_omit: bool) -> Result<Vec<&'static str>, AllocError> {
    let words = words_with(Vec::new(alloc), RULES, place)?;
    words_with(words, others(may_omit), place)
}

// Adds a word, or a mark in quotes.
fn push_word(out: &mut String, word: &str) -> Result<(), AllocError> {
    match word.as_bytes() {
        [first, ..] if first.is_ascii_alphabetic() => out.push_str(word),
        _ => write!(out, "`{word}`"),
    }
}

fn push_words(out: &mut String, words: &[&'static str]) -> Result<(), AllocError> {
    for (i, word) in words.iter().enumerate() {
        if i > 0 {
            out.push_str(if i == words.len() - 1 { " or " } else { ", " })?;
        }
        push_word(out, *word)?;
    }
    Ok(())
}

// Adds what was expected. A prompt lists its commands.
fn push_wanted(
    out: &mut String,
    stop: &Stop<'_>,
    words: &[&'static str],
) -> Result<(), AllocError> {
    if !stop.place.is_empty() {
        push_words(out, words)
    } else if stop.may_omit {
        out.push_str("a command (help lists them)")
    } else {
        out.push_str("a command")
    }
}

// What was expected at a place, and which mistake is likely.
fn expected(alloc: Global, stop: &Stop<'_>) -> Result<String, AllocError> {
    let words = words_at(alloc, stop.place, stop.may_omit)?;
    let column = stop.piece.column;
    let mut out = format!(in alloc; "{column}: expected ")?;
    push_wanted(&mut out, stop, words.as_slice())?;
    push_mistake(alloc, &mut out, stop, words.as_slice())?;
    Ok(out)
}

// The bounds of the number that is expected at a place, if one is.
fn bounds_at(table: &'static str, place: &str) -> Option<&'static str> {
    for line in table.lines() {
        let (at, what, _) = rule_of(line);
        if at == place && bounds_of(what).is_some() {
            return bounds_of(what);
        }
    }
    None
}

// That a number does not fit its place.
fn misfit(alloc: Global, stop: &Stop<'_>, bounds: &str) -> Result<String, AllocError> {
    let column = stop.piece.column;
    let text = std::str::from_utf8(stop.piece.text).unwrap_or("");
    let number = if text.len() > LONGEST {
        "the number"
    } else {
        text
    };
    format!(in alloc; "{column}: {number} does not fit: {bounds}")
}

fn stop_hint(alloc: Global, stop: &Stop<'_>) -> Result<String, AllocError> {
    match bounds_at(RULES, stop.place) {
        Some(bounds) if is_number(stop.piece.text) => misfit(alloc, stop, bounds),
        _ => expected(alloc, stop),
    }
}

/// What is wrong with a line that is no command: the first place at which it is none, with what was
/// expected there and which mistake is likely, a number that does not fit its place, or key columns
/// that are not the first of their table. Refused only when out of memory.
///
/// - `line`: the line without its ending.
/// - `may_omit`: whether `at M` may be left out, as in a prompt.
pub fn unexpected(alloc: Global, line: &str, may_omit: bool) -> Result<String, AllocError> {
    let pieces = pieces_of(alloc, line.as_bytes())?;
    let end = line.trim_end().len().saturating_add(1);
    match stop_of(pieces.as_slice(), end, may_omit) {
        Some(stop) => stop_hint(alloc, &stop),
        None => key_hint(alloc, pieces.as_slice()),
    }
}

/// The column at which a line that is no command stops being one, in characters from 1; `None` if it
/// has no such place, as with key columns that are not the first of their table. Refused only when
/// out of memory.
///
/// - `line`: the line without its ending.
/// - `may_omit`: whether `at M` may be left out, as in a prompt.
pub fn column_of(alloc: Global, line: &str, may_omit: bool) -> Result<Option<usize>, AllocError> {
    let pieces = pieces_of(alloc, line.as_bytes())?;
    let end = line.trim_end().len().saturating_add(1);
    let Some(stop) = stop_of(pieces.as_slice(), end, may_omit) else {
        return Ok(None);
    };
    let bytes = stop.piece.column.saturating_sub(1);
    let before = match line.as_bytes().split_at_checked(bytes) {
        Some((before, _)) => std::str::from_utf8(before).unwrap_or(""),
        None => "",
    };
    Ok(Some(before.chars().count().saturating_add(1)))
}
