//! The tokens and lists of tokens that parse to values and names.
ghost use Rattle.std.specs.Prelude.{◌≡◌, IfOk};
ghost use Rattle.script_tokens.specs.Productions.{Gives, first_by, undoubled, int_of, constant_of, value_in, name_of, value_of, set_of};

use crate::fault::LineFault;
use crate::production::Production;
use crate::read::{after_mark, at_end, name};
use crate::token::{Mark, Token};
use keycode::{Text, Value};
use std::alloc::{AllocError, Global};

/// The content of a text in quotes, in which each quote is doubled.
#[tactic(auto, unfolding(crate::specs::Productions::undoubled))]
fn undouble_quotes(alloc: Global, quoted: &[u8]) -> Result<Vec<u8>, AllocError>
    ensures { IfOk result (λ content. content.items ≡ undoubled quoted.now) }
{
    let mut content = Vec::new(alloc);
    let mut rest = quoted;
    loop {
        match rest {
            [] => return Ok(content),
            [b'\'', _, after @ ..] => {
                content.push(b'\'')?;
                rest = after;
            }
            [byte, after @ ..] => {
                content.push(*byte)?;
                rest = after;
            }
        }
    }
}

/// The number of a size and sign, if it has 64 bits.
fn int_of(is_negative: bool, size: u64) -> Option<i64>
    ensures { result ≡ int_of is_negative size }
{
    if !is_negative {
        return if size < 1 << 63 {
            Some(size as i64)
        } else {
            None
        };
    }
    if size == 0 {
        Some(0)
    } else if size <= 1 << 63 {
        Some(-((size - 1) as i64) - 1)
    } else {
        None
    }
}

fn constant_of(word: &[u8]) -> Option<Value>
    ensures { result ≡ constant_of word.now }
{
    match word {
        b"true" => Some(Value::Bool(true)),
        b"false" => Some(Value::Bool(false)),
        b"null" => Some(Value::Null),
        _ => None,
    }
}

fn value_in(alloc: Global, token: &Token<'_>) -> Result<Option<Value>, AllocError>
    ensures { IfOk result (λ value. value ≡ value_in token.now) }
{
    match token {
        Token::Number { is_negative, size } => Ok(int_of(*is_negative, *size).map(Value::Int)),
        Token::Text(quoted) => {
            let content = undouble_quotes(alloc, quoted.as_slice())?;
            Ok(Text::from_utf8(content).map(Value::Text))
        }
        Token::Word(word) => Ok(constant_of(word.as_slice())),
        Token::Mark(_) => Ok(None),
    }
}

/// The value at the start of `tokens`, and the tokens after it: a number of 64 bits with its sign,
/// a text in quotes, or one of the words `true`, `false` and `null`.
///
/// `alloc` is where a text is made. The refusals: `Malformed` if the first token is none of these,
/// a number from 2^63 on or below -2^63 or a text that is not UTF-8, or if there is no token,
/// and `Memory`, in place of either answer, if memory ran out. A refusal leaves nothing behind.
pub fn value<'t, 'a>(
    alloc: Global,
    tokens: &'t [Token<'a>],
) -> Result<(Value, &'t [Token<'a>]), LineFault>
    ensures { Gives (λ x. (x.0, x.1.now)) result (first_by value_in tokens.entry.now) }
{
    let [first, rest @ ..] = tokens else {
        return Err(LineFault::Malformed);
    };
    match value_in(alloc, first)? {
        Some(value) => Ok((value, rest)),
        None => Err(LineFault::Malformed),
    }
}

impl Production for Value {
    ghost parsed = { value_of };

    #[tactic(auto, unfolding(crate::specs::Productions::value_of))]
    fn read(alloc: Global, tokens: &[Token<'_>]) -> Result<Value, LineFault> {
        let (value, rest) = value(alloc, tokens)?;
        at_end(value, rest)
    }
}

impl Production for Text {
    ghost parsed = { name_of };

    #[tactic(auto, unfolding(crate::specs::Productions::name_of))]
    fn read(alloc: Global, tokens: &[Token<'_>]) -> Result<Text, LineFault> {
        let (name, rest) = name(alloc, tokens)?;
        at_end(name, rest)
    }
}

impl Production for (Text, Value) {
    ghost parsed = { set_of };

    #[tactic(auto, unfolding(crate::specs::Productions::set_of))]
    fn read(alloc: Global, tokens: &[Token<'_>]) -> Result<(Text, Value), LineFault> {
        let (column, rest) = name(alloc, tokens)?;
        let rest = after_mark(rest, Mark::Equal)?;
        let value = Value::read(alloc, rest)?;
        Ok((column, value))
    }
}
