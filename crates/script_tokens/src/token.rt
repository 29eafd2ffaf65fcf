//! The tokens of a line.
ghost use Rattle.std.specs.Prelude.{◌≡◌, ◌∷◌, ◌≤◌, ◌+◌, length, IfOk, IfSome};
ghost use Rattle.std.specs.Option.{option_map};
ghost use Rattle.script_tokens.specs.Tokens.{is_word_byte, word_len, number_of, text_len, with_equal, mark_at, token_at, tokens_of};

use crate::part::Part;
use std::alloc::{AllocError, Global};

/// What a line is read as, one after the other. Words and texts borrow the line.
#[derive(Drop)]
pub enum Token<'a> {
    /// A letter, and then letters, digits and `_`.
    Word(Part<'a>),
    /// Digits, after a `-` or not, and the number that they parse to.
    Number { is_negative: bool, size: u64 },
    /// What stands between the quotes, a quote in it still doubled.
    Text(Part<'a>),
    Mark(Mark),
}

/// The marks `(`, `)`, `,`, `;`, `:`, `=`, `>=`, `<=`, `.` and `*`.
#[derive(Clone, Copy, PartialEq, Eq)]
pub enum Mark {
    Open,
    Close,
    Comma,
    Semicolon,
    Colon,
    Equal,
    AtLeast,
    AtMost,
    Dot,
    Star,
}

fn is_word_byte(byte: u8) -> bool
    ensures { result ≡ is_word_byte byte }
{
    byte.is_ascii_alphabetic() || byte.is_ascii_digit() || byte == b'_'
}

fn word_len(bytes: &[u8]) -> usize
    ensures value { result ≡ word_len bytes.now }
    ensures in_range { result ≤ length bytes.now }
{
    let mut len = 0;
    while len < bytes.len() && is_word_byte(bytes[len]) {
        len += 1;
    }
    len
}

fn number_of(digits: &[u8]) -> Option<u64>
    ensures { result ≡ number_of digits.now }
{
    if digits.is_empty() {
        return None;
    }
    let mut number = 0u64;
    for digit in digits {
        if !digit.is_ascii_digit() {
            return None;
        }
        number = number
            .checked_mul(10)?
            .checked_add(u64::from(*digit - b'0'))?;
    }
    Some(number)
}

fn text_len(bytes: &[u8]) -> Option<usize>
    ensures value { result ≡ text_len bytes.now }
    ensures in_range { IfSome result (λ n. n + 1 ≤ length bytes.now) }
{
    let mut len = 0;
    while len < bytes.len() {
        if bytes[len] != b'\'' {
            len += 1;
        } else if len + 1 < bytes.len() && bytes[len + 1] == b'\'' {
            len += 2;
        } else {
            return Some(len);
        }
    }
    None
}

fn with_equal<'a>(mark: Mark, rest: &[u8]) -> Option<(Token<'a>, usize)>
    ensures { result ≡ with_equal mark rest.now }
{
    match rest {
        [b'=', ..] => Some((Token::Mark(mark), 1)),
        _ => None,
    }
}

fn mark_at<'a>(first: u8, rest: &[u8]) -> Option<(Token<'a>, usize)>
    ensures value { result ≡ mark_at first rest.now }
    ensures in_range { IfSome result (λ found. found.1 ≤ length rest.now) }
{
    match first {
        b'(' => Some((Token::Mark(Mark::Open), 0)),
        b')' => Some((Token::Mark(Mark::Close), 0)),
        b',' => Some((Token::Mark(Mark::Comma), 0)),
        b';' => Some((Token::Mark(Mark::Semicolon), 0)),
        b':' => Some((Token::Mark(Mark::Colon), 0)),
        b'=' => Some((Token::Mark(Mark::Equal), 0)),
        b'.' => Some((Token::Mark(Mark::Dot), 0)),
        b'*' => Some((Token::Mark(Mark::Star), 0)),
        b'>' => with_equal(Mark::AtLeast, rest),
        b'<' => with_equal(Mark::AtMost, rest),
        _ => None,
    }
}

/// The token that `bytes` begin with, and how many bytes it has after the first.
fn token_at<'a>(bytes: &'a [u8], first: u8, rest: &'a [u8]) -> Option<(Token<'a>, usize)>
    requires { bytes.now ≡ first ∷ rest.now }
    ensures value { result ≡ token_at first rest.entry.now }
    ensures in_range { IfSome result (λ found. found.1 ≤ length rest.entry.now) }
{
    if first.is_ascii_alphabetic() {
        let len = word_len(rest);
        Some((Token::Word(Part::new(&bytes[..len + 1])), len))
    } else if first.is_ascii_digit() {
        let len = word_len(rest);
        let size = number_of(&bytes[..len + 1])?;
        let is_negative = false;
        Some((Token::Number { is_negative, size }, len))
    } else if first == b'-' {
        let len = word_len(rest);
        let size = number_of(&rest[..len])?;
        let is_negative = true;
        Some((Token::Number { is_negative, size }, len))
    } else if first == b'\'' {
        let len = text_len(rest)?;
        Some((Token::Text(Part::new(&rest[..len])), len + 1))
    } else {
        mark_at(first, rest)
    }
}

/// The tokens of a line, in its order, with any number of spaces between them; or `None` if a part
/// of the line is no token: a byte that begins none, a text that nothing closes, digits with
/// letters or `_` after them, a number of 2^64 or more.
///
/// `line` is the bytes of the line without its ending, and `alloc` is where the list of tokens is
/// made; their words and texts stay in the line. The only refusal is running out of memory, and it
/// leaves nothing behind.
pub fn tokens_of<'a>(alloc: Global, line: &'a [u8]) -> Result<Option<Vec<Token<'a>>>, AllocError>
    ensures { IfOk result (λ found. option_map (λ tokens. tokens.items) found ≡ tokens_of line.entry.now) }
{
    let mut tokens = Vec::new(alloc);
    let mut rest = line;
    while let Some((first, after)) = rest.split_first() {
        if *first == b' ' {
            rest = after;
            continue;
        }
        match token_at(rest, *first, after) {
            Some((token, len)) => {
                tokens.push(token)?;
                rest = &after[len..];
            }
            None => return Ok(None),
        }
    }
    Ok(Some(tokens))
}
