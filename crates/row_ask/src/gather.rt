//! The primary keys that are in a part of an index.
// `row_query` has the same private functions; its `gather` takes a condition in place of bounds.
ghost use Rattle.std.specs.Prelude.{◌≡◌, IfOk, OnOk, drop};
ghost use Rattle.std.specs.BTreeSet.{insert_key};
ghost use Rattle.keycode.specs.Order.{values_cmp};
ghost use Rattle.row_map.specs.Walk.{key_range};
ghost use Rattle.row_query.specs.inner.Bounds.{index_key_in, gathered};

use collections::List;
use keycode::{KeyFault, Value, Values};
use row_map::{KeyOf, PairView, read_key};
use std::alloc::{AllocError, Global};
use std::collections::BTreeSet;

fn copy_behind(alloc: Global, values: &[Value], width: usize) -> Result<Values, AllocError>
    ensures { IfOk result (λ k. k ≡ drop width values.now) }
{
    let mut rest = Vec::new(alloc);
    if width < values.len() {
        for value in &values[width..] {
            rest.push(value.clone()?)?;
        }
    }
    Ok(List::new(rest))
}

/// The primary key of a pair of the index.
#[tactic(auto, unfolding(row_query::specs::inner::Bounds::index_key_in))]
fn key_in_pair(
    alloc: Global,
    number: u32,
    width: usize,
    bytes: &[u8],
) -> Result<Option<Values>, AllocError>
    ensures { IfOk result (λ k. k ≡ index_key_in number width bytes.now) }
{
    match read_key(alloc, bytes) {
        Err(KeyFault::Memory) => Err(AllocError),
        Err(_) => Ok(None),
        Ok(KeyOf::Index { element, values }) => {
            if element == number {
                Ok(Some(copy_behind(alloc, values.as_slice(), width)?))
            } else {
                Ok(None)
            }
        }
        Ok(_) => Ok(None),
    }
}

fn add_key(keys: &mut BTreeSet<Values>, key: Values) -> Result<(), AllocError>
    ensures { OnOk result (keys.new.keys ≡ insert_key values_cmp keys.old.keys key) }
{
    keys.insert(key)?;
    Ok(())
}

/// Adds the primary keys of the index's pairs from `low` to below `high`.
pub(crate) fn gather<V: PairView>(
    alloc: Global,
    view: &V,
    number: u32,
    width: usize,
    keys: &mut BTreeSet<Values>,
    low: &[u8],
    high: &[u8],
) -> Result<(), AllocError>
    ensures { OnOk result (keys.new.keys ≡ gathered number width keys.old.keys (key_range (V.pairs view.now) low.now high.now)) }
{
    let mut walk = view.walk_within(low, high);
    while let Some((bytes, _)) = walk.next() {
        if let Some(key) = key_in_pair(alloc, number, width, bytes)? {
            add_key(keys, key)?;
        }
    }
    Ok(())
}
