//! Numbers, and the bounds of the places that they are in.
use crate::table::row_of;

/// The bounds of each place that takes a number.
const BOUNDS: &str = "\
LENGTH|a length is from 1 to 4294967296\n\
M|a moment is from 0 to 4611686018427387904\n\
N|a number here is from 0 to 18446744073709551615\n\
PIECE|a piece is from 0 to 63\n\
PIECES|pieces are from 1 to 64\n\
LIMIT|a limit is from 1 to 1000\n\
VALUE|a number is from -9223372036854775808 to 9223372036854775807\n";

/// The bounds of what a rule names, in words, if it takes a number.
///
/// - `what`: what the rule names.
pub(crate) fn bounds_of(what: &str) -> Option<&'static str> {
    row_of(BOUNDS, what)
}

fn are_digits(bytes: &[u8]) -> bool {
    for byte in bytes {
        if !byte.is_ascii_digit() {
            return false;
        }
    }
    !bytes.is_empty()
}

/// Whether a piece is a number of any size, with a sign or without.
///
/// - `piece`: the piece.
pub(crate) fn is_number(piece: &[u8]) -> bool {
    match piece {
        [b'-', digits @ ..] => are_digits(digits),
        digits => are_digits(digits),
    }
}

/// Whether a piece is a number that a command has at such a place: its size in bits fits.
///
/// - `what`: what the rule names.
/// - `piece`: the piece.
pub(crate) fn fits(what: &str, piece: &[u8]) -> bool {
    let text = std::str::from_utf8(piece).unwrap_or("");
    match what {
        "VALUE" => text.parse::<i64>().is_ok(),
        "PIECE" | "PIECES" | "LIMIT" => text.parse::<u32>().is_ok(),
        _ => text.parse::<u64>().is_ok(),
    }
}
