//! The codes of pairs and lists.
ghost use Rattle.std.specs.List.{AllByRecursion, flat_map};
ghost use Rattle.std.specs.Prelude.{◌≡◌, ◌++◌, OnOk, []};
ghost use Rattle.collections.specs.Answers.{GivesOr};
ghost use Rattle.entry_code.specs.declared.fault.CodeFault.TheVariants.{Memory};
ghost use Rattle.entry_code.specs.Code.{pair_code, list_code};
ghost use Rattle.entry_code.specs.Known.{IsPair, IsList};
ghost use Rattle.entry_code.specs.inner.At.{pair_at, list_at, items_at};

use crate::encoded::Encoded;
use crate::fault::CodeFault;
use collections::List;
use std::alloc::{AllocError, Global};

impl<A: Encoded + Drop, B: Encoded + Drop> Encoded for (A, B) {
    ghost code = { pair_code A.code B.code };

    ghost at = { pair_at A.at B.at };

    ghost known = { IsPair A.known B.known };

    fn push(&self, out: &mut Vec<u8>) -> Result<(), AllocError> {
        self.0.push(out)?;
        self.1.push(out)
    }

    fn read(alloc: Global, bytes: &[u8]) -> Result<((A, B), &[u8]), CodeFault> {
        let (one, rest) = A::read(alloc, bytes)?;
        let (two, rest) = B::read(alloc, rest)?;
        Ok(((one, two), rest))
    }
}

/// Adds the codes of these items to `out`, one after the other. Refused as `Encoded::push` is.
pub(crate) fn push_each<T: Encoded>(out: &mut Vec<u8>, items: &[T]) -> Result<(), AllocError>
    ensures code { OnOk result (out.new.items ≡ out.old.items ++ flat_map T.code items.now) }
    ensures known { OnOk result (AllByRecursion T.known items.now) }
{
    for item in items {
        item.push(out)?;
    }
    Ok(())
}

/// Adds the code of a list of these items to `out`. Refused as `Encoded::push` is.
#[tactic(auto, unfolding(crate::specs::Code::list_code))]
pub(crate) fn push_items<T: Encoded>(out: &mut Vec<u8>, items: &[T]) -> Result<(), AllocError>
    ensures code { OnOk result (out.new.items ≡ out.old.items ++ list_code T.code items.now) }
    ensures known { OnOk result (IsList T.known items.now) }
{
    (items.len() as u64).push(out)?;
    push_each(out, items)
}

/// The room that a list begins with, in items, if it has as many. It shows in the speed alone.
const ROOM: u64 = 8;

/// The room for a list that is said to have so many items: the number may be wrong, and is trusted
/// for a few.
fn room_for(count: u64) -> usize {
    if count < ROOM {
        count as usize
    } else {
        ROOM as usize
    }
}

/// So many items, one after the other, and the bytes after them. The vector grows as items are
/// read, whatever the number says.
fn read_items<T: Encoded + Drop>(
    alloc: Global,
    bytes: &[u8],
    count: u64,
) -> Result<(Vec<T>, &[u8]), CodeFault>
    ensures { GivesOr Memory (λ x. (x.0.items, x.1.now)) result (items_at T.at [] count bytes.now) }
{
    let mut items = Vec::with_capacity(alloc, room_for(count))?;
    let mut rest = bytes;
    for _ in 0..count {
        let (item, after) = T::read(alloc, rest)?;
        items.push(item)?;
        rest = after;
    }
    Ok((items, rest))
}

impl<T: Encoded + Drop> Encoded for List<T> {
    ghost code = { list_code T.code };

    ghost at = { list_at T.at };

    ghost known = { IsList T.known };

    fn push(&self, out: &mut Vec<u8>) -> Result<(), AllocError> {
        push_items(out, self.as_slice())
    }

    #[tactic(auto, unfolding(crate::specs::inner::At::list_at))]
    fn read(alloc: Global, bytes: &[u8]) -> Result<(List<T>, &[u8]), CodeFault> {
        let (count, rest) = u64::read(alloc, bytes)?;
        let (items, rest) = read_items::<T>(alloc, rest, count)?;
        Ok((List::new(items), rest))
    }
}
