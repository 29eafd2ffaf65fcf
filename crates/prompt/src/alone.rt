//! Lines that are one word.
ghost use Rattle.std.specs.Prelude.{◌≡◌, IfOk, Some};
ghost use Rattle.script_tokens.specs.Tokens.{tokens_of};
ghost use Rattle.prompt.specs.Alone.{is_alone};

use script_tokens::{Token, is_word, tokens_of};
use std::alloc::{AllocError, Global};

// Whether these are this word alone.
fn are_alone(tokens: &[Token<'_>], word: &[u8]) -> bool
    ensures { result ≡ is_alone word.now (Some tokens.now) }
{
    match tokens {
        [only] => is_word(only, word),
        _ => false,
    }
}

/// Whether a line is this word alone. Refused only when out of memory.
///
/// - `line`: the line without its ending.
/// - `word`: the word.
pub(crate) fn is_alone(alloc: Global, line: &[u8], word: &[u8]) -> Result<bool, AllocError>
    ensures { IfOk result (λ found. found ≡ is_alone word.now (tokens_of line.now)) }
{
    match tokens_of(alloc, line)? {
        Some(tokens) => Ok(are_alone(tokens.as_slice(), word)),
        None => Ok(false),
    }
}
