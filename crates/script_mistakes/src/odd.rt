//! Characters that look like others or like nothing.
use std::alloc::AllocError;

/// Odd characters, a line each: the character, what it is, and what is meant.
const CHARACTERS: &str = "\
\t|a tab|a space\n\
\u{a0}|a no-break space|a space\n\
\u{202f}|a no-break space|a space\n\
\u{3000}|a wide space|a space\n\
\u{feff}|a byte order mark|\n\
\u{200b}|a space without width|\n\
\u{ad}|a soft hyphen|\n\
\0|a NUL|\n\
\u{7f}|a control character|\n\
\u{ff1a}|a wide colon|`:`\n\
\u{ff0c}|a wide comma|`,`\n\
\u{ff08}|a wide bracket|`(`\n\
\u{ff09}|a wide bracket|`)`\n\
\u{ff1b}|a wide semicolon|`;`\n\
\u{ff1d}|a wide sign|`=`\n\
\u{2018}|a curly quote|`'`\n\
\u{2019}|a curly quote|`'`\n\
\u{201c}|a curly quote|`'`\n\
\u{201d}|a curly quote|`'`\n\
\u{201e}|a curly quote|`'`\n\
\u{2013}|a long dash|`-`\n\
\u{2014}|a long dash|`-`\n\
\u{2212}|a minus sign of typesetting|`-`\n";

/// What an odd character is, and what is meant.
#[derive(Clone, Copy)]
pub(crate) struct Odd {
    what: &'static str,
    meant: &'static str,
}

/// The odd character with which a text begins, if it begins with one.
///
/// - `text`: the text.
pub(crate) fn odd_first(text: &str) -> Option<Odd> {
    for line in CHARACTERS.lines() {
        let (character, rest) = line.split_once('|').unwrap_or((line, ""));
        if text.starts_with(character) {
            let (what, meant) = rest.split_once('|').unwrap_or((rest, ""));
            return Some(Odd { what, meant });
        }
    }
    match text.as_bytes() {
        [first, ..] if *first < b' ' => Some(Odd {
            what: "a control character",
            meant: "",
        }),
        _ => None,
    }
}

/// Adds which odd character stands there. Refused only when out of memory.
///
/// - `out`: the text after which it is put.
/// - `odd`: the character.
pub(crate) fn push_odd(out: &mut String, odd: Odd) -> Result<(), AllocError> {
    let (what, meant) = (odd.what, odd.meant);
    if meant.is_empty() {
        write!(out, "; {what} stands there: take it out")
    } else {
        write!(out, "; {what} stands there: {meant} is meant")
    }
}
