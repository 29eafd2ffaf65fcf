//! The line `rows TABLE from KEY limit N`.
use collections::List;
use keycode::{Text, Value, Values};
use script_tokens::{
    LineFault, Mark, Token, after_word, at_end, cut_brackets, is_word, name, read_each,
    small_count, tokens_of,
};
use std::alloc::{AllocError, Global};

/// The most rows of a page.
const MAX_LIMIT: u32 = 1_000;

/// What a line `rows ..` asks for.
#[derive(Drop)]
pub struct RowsLine {
    /// The name of the table.
    pub table: Text,
    /// The values of the key at which the page begins; none for the first row.
    pub from: Values,
    /// How many rows it has at most: 1 to 1,000.
    pub limit: usize,
}

// The key after `from`, if that comes next, and the tokens after it.
fn from_key<'t, 'a>(
    alloc: Global,
    tokens: &'t [Token<'a>],
) -> Result<(Values, &'t [Token<'a>]), LineFault> {
    match tokens {
        [first, rest @ ..] if is_word(first, b"from") => {
            let (inner, rest) = cut_brackets(rest)?;
            Ok((read_each::<Value>(alloc, inner, Mark::Comma)?, rest))
        }
        _ => Ok((List::new(Vec::new(alloc)), tokens)),
    }
}

fn rows_line(alloc: Global, tokens: &[Token<'_>]) -> Result<RowsLine, LineFault> {
    let rest = after_word(tokens, b"rows")?;
    let (table, rest) = name(alloc, rest)?;
    let (from, rest) = from_key(alloc, rest)?;
    let rest = after_word(rest, b"limit")?;
    let (limit, rest) = small_count(rest)?;
    at_end((), rest)?;
    if limit < 1 || limit > MAX_LIMIT {
        return Err(LineFault::Malformed);
    }
    let limit = limit as usize;
    Ok(RowsLine { table, from, limit })
}

/// What a line `rows TABLE [from KEY] limit N` asks for, with N from 1 to 1,000; `None` if it is no
/// such line. Refused only when out of memory.
///
/// - `line`: the line without its ending.
pub fn read_rows_line(alloc: Global, line: &[u8]) -> Result<Option<RowsLine>, AllocError> {
    let Some(tokens) = tokens_of(alloc, line)? else {
        return Ok(None);
    };
    let read = rows_line(alloc, tokens.as_slice());
    match read {
        Ok(line) => Ok(Some(line)),
        Err(LineFault::Malformed) => Ok(None),
        Err(LineFault::Memory) => Err(AllocError),
    }
}
