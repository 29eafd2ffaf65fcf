//! Lists whose parts are each read whole.
ghost use Rattle.std.specs.Prelude.{List, Option};
ghost use Rattle.script_tokens.specs.declared.token.Token.{Token};
ghost use Rattle.script_tokens.specs.Productions.{Gives, each_between};

use crate::fault::LineFault;
use crate::read::place;
use crate::token::{Mark, Token};
use collections::List;
use std::alloc::Global;

/// What a list of tokens parses to, read whole.
pub trait Production: Drop {
    /// What the tokens parse to, or `None` if they parse to nothing.
    ghost parsed: { List Token → Option Self };

    /// Reads `tokens` to their end.
    ///
    /// `alloc` is where what they parse to is made. The refusals: `Malformed` if they parse to
    /// nothing, and `Memory`, in place of either answer, if memory ran out. A refusal leaves
    /// nothing behind.
    fn read(alloc: Global, tokens: &[Token<'_>]) -> Result<Self, LineFault>
        ensures { Gives (λ x. x) result (parsed tokens.now) };
}

/// What the parts of `tokens` parse to, each read whole, in their order. A mark `separator` ends a
/// part and begins the next: if there is none, all of `tokens` is the one part, and two of them
/// in turn have an empty part between them.
///
/// `alloc` is where the list is made. The refusals: `Malformed` if a part parses to nothing, and
/// `Memory`, in place of either answer, if memory ran out. A refusal leaves nothing behind.
pub fn read_each<T: Production>(
    alloc: Global,
    tokens: &[Token<'_>],
    separator: Mark,
) -> Result<List<T>, LineFault>
    ensures { Gives (λ x. x) result (each_between separator T.parsed tokens.now) }
{
    let mut items = Vec::new(alloc);
    let mut rest = tokens;
    'parts: loop {
        match place(rest, separator) {
            Some(i) => {
                items.push(T::read(alloc, &rest[..i])?)?;
                rest = &rest[i + 1..];
            }
            None => {
                items.push(T::read(alloc, rest)?)?;
                return Ok(List::new(items));
            }
        }
    }
}
