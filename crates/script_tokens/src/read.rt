//! What the first token parses to, and what follows it.
ghost use Rattle.std.specs.Prelude.{◌≡◌, ◌+◌, ◌<◌, take, drop, length, None, Some, IfOk, IfSome};
ghost use Rattle.std.specs.Option.{option_map, MatchOption};
ghost use Rattle.script_tokens.specs.Productions.{Gives, first_by, after_first, at_end, is_mark, is_word, text_of, name_in, count_in, small_count_in, type_of, type_in, state_in, cut_at, cut_brackets};

use crate::fault::LineFault;
use crate::token::{Mark, Token};
use keycode::Text;
use row_map::ColumnType;
use schema_version::ElementState;
use std::alloc::{AllocError, Global};

/// Whether `token` is the mark `wanted`.
pub fn is_mark(token: &Token<'_>, wanted: Mark) -> bool
    ensures { result ≡ is_mark wanted token.now }
{
    match token {
        Token::Mark(mark) => *mark == wanted,
        _ => false,
    }
}

/// Whether `token` is a word with just the bytes `wanted`. A text in quotes is no word.
pub fn is_word(token: &Token<'_>, wanted: &[u8]) -> bool
    ensures { result ≡ is_word wanted.now token.now }
{
    match token {
        Token::Word(word) => word.as_slice() == wanted,
        _ => false,
    }
}

/// The text of bytes, if they are UTF-8.
fn text_of(alloc: Global, bytes: &[u8]) -> Result<Option<Text>, AllocError>
    ensures { IfOk result (λ text. text ≡ text_of bytes.now) }
{
    let mut copy = Vec::new(alloc);
    copy.extend_from_slice(bytes)?;
    Ok(Text::from_utf8(copy))
}

fn name_in(alloc: Global, token: &Token<'_>) -> Result<Option<Text>, AllocError>
    ensures { IfOk result (λ name. name ≡ name_in token.now) }
{
    match token {
        Token::Word(word) => text_of(alloc, word.as_slice()),
        _ => Ok(None),
    }
}

fn count_in(token: &Token<'_>) -> Option<u64>
    ensures { result ≡ count_in token.now }
{
    match token {
        Token::Number {
            is_negative: false,
            size,
        } => Some(*size),
        _ => None,
    }
}

fn small_count_in(token: &Token<'_>) -> Option<u32>
    ensures { result ≡ small_count_in token.now }
{
    u32::try_from(count_in(token)?).ok()
}

fn type_of(word: &[u8]) -> Option<ColumnType>
    ensures { result ≡ type_of word.now }
{
    match word {
        b"int" => Some(ColumnType::Int),
        b"text" => Some(ColumnType::Text),
        b"bool" => Some(ColumnType::Bool),
        _ => None,
    }
}

fn type_in(token: &Token<'_>) -> Option<ColumnType>
    ensures { result ≡ type_in token.now }
{
    match token {
        Token::Word(word) => type_of(word.as_slice()),
        _ => None,
    }
}

fn state_in(token: &Token<'_>) -> Option<ElementState>
    ensures { result ≡ state_in token.now }
{
    if is_word(token, b"absent") {
        Some(ElementState::Absent)
    } else if is_word(token, b"delete_only") {
        Some(ElementState::DeleteOnly)
    } else if is_word(token, b"write_only") {
        Some(ElementState::WriteOnly)
    } else if is_word(token, b"public") {
        Some(ElementState::Public)
    } else {
        None
    }
}

/// The name at the start of `tokens`, which any word is, and the tokens after it.
///
/// `alloc` is where the name's text is made. The refusals: `Malformed` if the first token is no
/// word or has bytes that are not UTF-8, or if there is none, and `Memory`, in place of either
/// answer, if memory ran out. A refusal leaves nothing behind.
pub fn name<'t, 'a>(
    alloc: Global,
    tokens: &'t [Token<'a>],
) -> Result<(Text, &'t [Token<'a>]), LineFault>
    ensures { Gives (λ x. (x.0, x.1.now)) result (first_by name_in tokens.entry.now) }
{
    let [first, rest @ ..] = tokens else {
        return Err(LineFault::Malformed);
    };
    match name_in(alloc, first)? {
        Some(name) => Ok((name, rest)),
        None => Err(LineFault::Malformed),
    }
}

/// The count or moment at the start of `tokens`, which is a number without a sign, and the tokens
/// after it.
///
/// The only refusal is `Malformed`, if the first token is none or has a sign, or if there is
/// no token. It leaves nothing behind.
pub fn count<'t, 'a>(tokens: &'t [Token<'a>]) -> Result<(u64, &'t [Token<'a>]), LineFault>
    ensures { Gives (λ x. (x.0, x.1.now)) result (first_by count_in tokens.entry.now) }
{
    let [first, rest @ ..] = tokens else {
        return Err(LineFault::Malformed);
    };
    match count_in(first) {
        Some(count) => Ok((count, rest)),
        None => Err(LineFault::Malformed),
    }
}

/// The count at the start of `tokens`, which is a number below 2^32 without a sign, and the tokens
/// after it.
///
/// The only refusal is `Malformed`, if the first token is none, has a sign or is 2^32 or more,
/// or if there is no token. It leaves nothing behind.
pub fn small_count<'t, 'a>(tokens: &'t [Token<'a>]) -> Result<(u32, &'t [Token<'a>]), LineFault>
    ensures { Gives (λ x. (x.0, x.1.now)) result (first_by small_count_in tokens.entry.now) }
{
    let [first, rest @ ..] = tokens else {
        return Err(LineFault::Malformed);
    };
    match small_count_in(first) {
        Some(count) => Ok((count, rest)),
        None => Err(LineFault::Malformed),
    }
}

/// The type at the start of `tokens`, by its word `int`, `text` or `bool`, and the tokens after it.
///
/// The only refusal is `Malformed`, if the first token is none of these words, or if there is
/// no token. It leaves nothing behind.
pub fn column_type<'t, 'a>(
    tokens: &'t [Token<'a>],
) -> Result<(ColumnType, &'t [Token<'a>]), LineFault>
    ensures { Gives (λ x. (x.0, x.1.now)) result (first_by type_in tokens.entry.now) }
{
    let [first, rest @ ..] = tokens else {
        return Err(LineFault::Malformed);
    };
    match type_in(first) {
        Some(column_type) => Ok((column_type, rest)),
        None => Err(LineFault::Malformed),
    }
}

/// The state at the start of `tokens`, by its word `absent`, `delete_only`, `write_only` or
/// `public`, and the tokens after it.
///
/// The only refusal is `Malformed`, if the first token is none of these words, or if there is
/// no token. It leaves nothing behind.
pub fn state<'t, 'a>(tokens: &'t [Token<'a>]) -> Result<(ElementState, &'t [Token<'a>]), LineFault>
    ensures { Gives (λ x. (x.0, x.1.now)) result (first_by state_in tokens.entry.now) }
{
    let [first, rest @ ..] = tokens else {
        return Err(LineFault::Malformed);
    };
    match state_in(first) {
        Some(state) => Ok((state, rest)),
        None => Err(LineFault::Malformed),
    }
}

/// The tokens after the mark `wanted`, which `tokens` begin with.
///
/// The only refusal is `Malformed`, if they begin with anything else or are none. It leaves
/// nothing after.
pub fn after_mark<'t, 'a>(
    tokens: &'t [Token<'a>],
    wanted: Mark,
) -> Result<&'t [Token<'a>], LineFault>
    ensures { Gives (λ x. x.now) result (after_first (is_mark wanted) tokens.entry.now) }
{
    match tokens {
        [first, rest @ ..] if is_mark(first, wanted) => Ok(rest),
        _ => Err(LineFault::Malformed),
    }
}

/// The tokens after the word `wanted`, which `tokens` begin with.
///
/// The only refusal is `Malformed`, if they begin with anything else or are none. It leaves
/// nothing after.
pub fn after_word<'t, 'a>(
    tokens: &'t [Token<'a>],
    wanted: &[u8],
) -> Result<&'t [Token<'a>], LineFault>
    ensures { Gives (λ x. x.now) result (after_first (is_word wanted.now) tokens.entry.now) }
{
    match tokens {
        [first, rest @ ..] if is_word(first, wanted) => Ok(rest),
        _ => Err(LineFault::Malformed),
    }
}

/// Gives `found` back if `tokens`, what is left behind it, are none.
///
/// The only refusal is `Malformed`, if a token is left. It leaves nothing behind, and `found` is
/// dropped.
pub fn at_end<T: Drop>(found: T, tokens: &[Token<'_>]) -> Result<T, LineFault>
    ensures { Gives (λ x. x) result (at_end found tokens.now) }
{
    if !tokens.is_empty() {
        return Err(LineFault::Malformed);
    }
    Ok(found)
}

/// Where the first mark `wanted` is in `tokens`, if it is there.
pub fn place(tokens: &[Token<'_>], wanted: Mark) -> Option<usize>
    ensures cut { MatchOption result (cut_at wanted tokens.now ≡ None) (λ i. cut_at wanted tokens.now ≡ Some (take i tokens.now, drop (i + 1) tokens.now)) }
    ensures in_range { IfSome result (λ i. i < length tokens.now) }
{
    for (i, token) in tokens.iter().enumerate() {
        if is_mark(token, wanted) {
            return Some(i);
        }
    }
    None
}

/// What is in round brackets at the start of `tokens`, up to the first closing one, and the tokens
/// after that.
///
/// The only refusal is `Malformed`, if they do not begin with an opening bracket or none closes
/// it. It leaves nothing behind.
#[tactic(auto, unfolding(crate::specs::Productions::cut_brackets))]
pub fn cut_brackets<'t, 'a>(
    tokens: &'t [Token<'a>],
) -> Result<(&'t [Token<'a>], &'t [Token<'a>]), LineFault>
    ensures { Gives (λ x. (x.0.now, x.1.now)) result (cut_brackets tokens.entry.now) }
{
    let inner = after_mark(tokens, Mark::Open)?;
    match place(inner, Mark::Close) {
        Some(i) => Ok((&inner[..i], &inner[i + 1..])),
        None => Err(LineFault::Malformed),
    }
}
