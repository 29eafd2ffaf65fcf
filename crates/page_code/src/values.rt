//! Reading keys.
// `entry_code` reads them the same, by private functions.
ghost use Rattle.std.specs.Prelude.{◌≡◌, []};
ghost use Rattle.collections.specs.Answers.{GivesOr};
ghost use Rattle.entry_code.specs.declared.fault.CodeFault.TheVariants.{Memory};
ghost use Rattle.entry_code.specs.inner.At.{value_at, items_at, key_at};

use crate::numbers::read_u64;
use collections::List;
use entry_code::CodeFault;
use keycode::{KeyFault, Value, Values, read_value as value_of};
use std::alloc::Global;

/// A value, and the bytes after it.
#[tactic(auto, unfolding(entry_code::specs::inner::At::value_at))]
fn read_value(alloc: Global, bytes: &[u8]) -> Result<(Value, &[u8]), CodeFault>
    ensures { GivesOr Memory (λ x. (x.0, x.1.now)) result (value_at bytes.now) }
{
    match value_of(alloc, bytes) {
        Ok(found) => Ok(found),
        Err(KeyFault::Memory) => Err(CodeFault::Memory),
        Err(_) => Err(CodeFault::Malformed),
    }
}

/// So many values, one after the other, and the bytes after them. The vector grows as values are
/// read, whatever the number says.
fn read_items(alloc: Global, bytes: &[u8], count: u64) -> Result<(Vec<Value>, &[u8]), CodeFault>
    ensures { GivesOr Memory (λ x. (x.0.items, x.1.now)) result (items_at value_at [] count bytes.now) }
{
    let mut items = Vec::new(alloc);
    let mut rest = bytes;
    for _ in 0..count {
        let (item, after) = read_value(alloc, rest)?;
        items.push(item)?;
        rest = after;
    }
    Ok((items, rest))
}

/// A key, and the bytes after it.
#[tactic(auto, unfolding(entry_code::specs::inner::At::list_at))]
pub(crate) fn read_key(alloc: Global, bytes: &[u8]) -> Result<(Values, &[u8]), CodeFault>
    ensures { GivesOr Memory (λ x. (x.0, x.1.now)) result (key_at bytes.now) }
{
    let (count, rest) = read_u64(bytes)?;
    let (items, rest) = read_items(alloc, rest, count)?;
    Ok((List::new(items), rest))
}
