//! Pairs taken from a walk, some at a time.
ghost use Rattle.std.specs.Prelude.{◌≡◌, ◌≤◌, ◌⊎◌, ◌++◌, [], IfOk, OnOk, drop, length, map as each, take};
ghost use Rattle.saved_world.specs.Taken.{plain};

use byte_map::Bytes;
use row_map::Walk;
use std::alloc::{AllocError, Global};

/// A pair where it lies in the store.
pub(crate) type Taken<'a> = (&'a [u8], &'a [u8]);

/// Takes pairs from the walk until there are so many, or none is left. Refused only when out of
/// memory, and no pair is then lost.
pub(crate) fn fill<'a>(
    taken: &mut Vec<Taken<'a>>,
    left: &mut Walk<'a>,
    limit: usize,
) -> Result<(), AllocError>
    ensures kept { each plain taken.new.items ++ left.new ≡ each plain taken.old.items ++ left.old }
    ensures filled { OnOk result ((limit ≤ length taken.new.items) ⊎ (left.new ≡ [])) }
{
    while taken.len() < limit {
        taken.reserve(1)?;
        match left.next() {
            Some(pair) => taken.push_reserved(pair),
            None => {
                *left = Walk::of_list(&[]);
                return Ok(());
            }
        }
    }
    Ok(())
}

fn copy_pair(alloc: Global, pair: &Taken<'_>) -> Result<(Bytes, Bytes), AllocError>
    ensures { IfOk result (λ copy. copy ≡ plain pair.now) }
{
    Ok((
        Bytes::from_slice(alloc, pair.0)?,
        Bytes::from_slice(alloc, pair.1)?,
    ))
}

/// The pairs, copied.
pub(crate) fn copy_pairs(
    alloc: Global,
    taken: &[Taken<'_>],
) -> Result<Vec<(Bytes, Bytes)>, AllocError>
    ensures { IfOk result (λ copy. copy.items ≡ each plain taken.now) }
{
    let mut copy = Vec::with_capacity(alloc, taken.len())?;
    for pair in taken {
        copy.push(copy_pair(alloc, pair)?)?;
    }
    Ok(copy)
}

/// The first so many pairs, or all if there are fewer.
pub(crate) fn first_of<'a, 'b>(taken: &'b [Taken<'a>], limit: usize) -> &'b [Taken<'a>]
    ensures { result.now ≡ take limit taken.now }
{
    if limit < taken.len() {
        &taken[..limit]
    } else {
        taken
    }
}

/// Lets the first so many pairs go, or all if there are fewer.
pub(crate) fn let_go(taken: &mut Vec<Taken<'_>>, limit: usize)
    ensures { taken.new.items ≡ drop limit taken.old.items }
{
    if limit < taken.len() {
        let left = taken.len() - limit;
        taken.rotate_left(limit);
        taken.truncate(left);
    } else {
        taken.clear();
    }
}
