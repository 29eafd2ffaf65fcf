//! The keys at which the pieces of a reorganisation may begin.
ghost use Rattle.std.specs.Bool.{Decides};
ghost use Rattle.std.specs.Prelude.{◌≡◌, ◌+◌, ◌<◌, ◌^◌, ◌++◌, length, IfOk, OnOk, MatchOption, Ok};
ghost use Rattle.keycode.specs.declared.fault.KeyFault.TheVariants.{Memory};
ghost use Rattle.reorganise.specs.ScanRanges.{scan_range_of, end, is_item_read, IsItemKey};
ghost use Rattle.drafts.specs.Divide.{MayBegin, MayAllBegin, IsFirstUnfit, bounds_from};

use byte_map::Bytes;
use keycode::KeyFault;
use row_map::{KeyOf, read_key};
use schema_version::{ElementDef, Kind, Work};
use std::alloc::{AllocError, Global};

/// Whether this is the key of an item of the work: of a row of the element's table, or of a pair of
/// the index that is cleared.
fn is_of_item(element: &ElementDef, work: Work, key: &KeyOf) -> bool
    ensures { result ≡ is_item_read (scan_range_of element.now work) (Ok key.now) }
{
    match (work, &element.kind, key) {
        (Work::Clear, Kind::Index(_), KeyOf::Index { element: of, .. }) => *of == element.number,
        (Work::Clear, Kind::Index(_), _) => false,
        (_, _, KeyOf::Exists { table, .. }) => *table == element.table,
        _ => false,
    }
}

/// Whether memory ran out.
fn is_memory(fault: KeyFault) -> bool
    ensures { Decides result (fault ≡ Memory) }
{
    matches!(fault, KeyFault::Memory)
}

/// Whether these bytes are the key of an item, whether or not such an item is there.
fn is_item(alloc: Global, element: &ElementDef, work: Work, key: &Bytes) -> Result<bool, AllocError>
    ensures { IfOk result (λ b. Decides b (IsItemKey (scan_range_of element.now work) key.now)) }
{
    match read_key(alloc, key.as_slice()) {
        Ok(read) => Ok(is_of_item(element, work, &read)),
        Err(fault) if is_memory(fault) => Err(AllocError),
        Err(_) => Ok(false),
    }
}

/// Whether a piece may begin at this key, after one that begins at `low`.
fn may_begin(
    alloc: Global,
    element: &ElementDef,
    work: Work,
    low: &Bytes,
    high: &Bytes,
    key: &Bytes,
) -> Result<bool, AllocError>
    requires { high.now ≡ end (scan_range_of element.now work) }
    ensures { IfOk result (λ b. Decides b (MayBegin element.now work low.now key.now)) }
{
    let is_item = is_item(alloc, element, work, key)?;
    let is_above = low.compare(key.as_slice()).is_lt();
    let is_below = key.compare(high.as_slice()).is_lt();
    Ok(is_item && is_above && is_below)
}

/// The place of the first of these keys at which no piece may begin; the first key is at `place`.
pub(crate) fn first_unfit(
    alloc: Global,
    element: &ElementDef,
    work: Work,
    low: &Bytes,
    high: &Bytes,
    keys: &[Bytes],
    place: usize,
) -> Result<Option<usize>, AllocError>
    requires high { high.now ≡ end (scan_range_of element.now work) }
    requires room { place + length keys.now < 2 ^ 64 }
    ensures { IfOk result (λ found. MatchOption found (MayAllBegin element.now work low.now keys.now) (λ at. IsFirstUnfit element.now work low.now place keys.now at)) }
{
    match keys {
        [] => Ok(None),
        [key, rest @ ..] => {
            if may_begin(alloc, element, work, low, high, key)? {
                first_unfit(alloc, element, work, key, high, rest, place + 1)
            } else {
                Ok(Some(place))
            }
        }
    }
}

/// The bounds of the pieces that share the range from `low` to `high` and begin at these keys, but
/// for the first one.
pub(crate) fn push_bounds(
    alloc: Global,
    out: &mut Vec<(Bytes, Bytes)>,
    low: &Bytes,
    keys: &[Bytes],
    high: &Bytes,
) -> Result<(), AllocError>
    ensures { OnOk result (out.new.items ≡ out.old.items ++ bounds_from low.now keys.now high.now) }
{
    match keys {
        [] => {
            out.push((low.clone()?, high.clone()?))?;
            Ok(())
        }
        [key, rest @ ..] => {
            out.push((low.clone()?, key.clone()?))?;
            push_bounds(alloc, out, key, rest, high)
        }
    }
}
