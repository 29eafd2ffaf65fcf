//! Reading a range and a limit.
ghost use Rattle.std.specs.Prelude.{◌≡◌};
ghost use Rattle.collections.specs.Answers.{GivesOr};
ghost use Rattle.entry_code.specs.declared.fault.CodeFault.TheVariants.{Memory};
ghost use Rattle.page_code.specs.inner.At.{bound_at, head_at};

use crate::numbers::{read_byte, read_u32};
use crate::values::read_key;
use entry_code::CodeFault;
use keycode::Values;
use row_page::KeyRange;
use std::alloc::Global;

/// A key that may be absent, and the bytes after it.
#[tactic(auto, unfolding(entry_code::specs::inner::At::option_at))]
fn read_bound(alloc: Global, bytes: &[u8]) -> Result<(Option<Values>, &[u8]), CodeFault>
    ensures { GivesOr Memory (λ x. (x.0, x.1.now)) result (bound_at bytes.now) }
{
    let (tag, bytes) = read_byte(bytes)?;
    match tag {
        0 => Ok((None, bytes)),
        1 => {
            let (key, rest) = read_key(alloc, bytes)?;
            Ok((Some(key), rest))
        }
        _ => Err(CodeFault::Malformed),
    }
}

/// A range and a limit, and the bytes after them.
#[tactic(auto, unfolding(crate::specs::inner::At::head_at))]
pub(crate) fn read_head(alloc: Global, bytes: &[u8]) -> Result<((KeyRange, u32), &[u8]), CodeFault>
    ensures { GivesOr Memory (λ x. ((x.0.0, x.0.1), x.1.now)) result (head_at bytes.now) }
{
    let (after, rest) = read_bound(alloc, bytes)?;
    let (before, rest) = read_bound(alloc, rest)?;
    let (limit, rest) = read_u32(rest)?;
    Ok(((KeyRange { after, before }, limit), rest))
}
