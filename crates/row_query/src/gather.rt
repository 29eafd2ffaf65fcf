//! The walk over an index: the primary keys that are in a part of it, and their rows.
ghost use Rattle.std.specs.Prelude.{◌≡◌, ◌++◌, [], IfOk, OnOk, drop};
ghost use Rattle.std.specs.BTreeSet.{insert_key};
ghost use Rattle.keycode.specs.Order.{values_cmp};
ghost use Rattle.row_map.specs.Walk.{key_range};
ghost use Rattle.row_query.specs.inner.Bounds.{low_bound, high_bound, index_key_in, gathered};
ghost use Rattle.row_query.specs.inner.Found.{rows_in, one_row};

use crate::bounds::{high_of, low_of};
use crate::query::{Cond, Query};
use crate::scan::row_by_key;
use collections::List;
use keycode::{KeyFault, Value, Values};
use row_map::{KeyOf, PairView, Row, read_key};
use std::alloc::{AllocError, Global};
use std::collections::BTreeSet;

fn copy_behind(alloc: Global, values: &[Value], width: usize) -> Result<Values, AllocError>
    ensures { IfOk result (λ k. k ≡ drop width values.now) }
{
    let mut rest = Vec::new(alloc);
    if width < values.len() {
        for value in &values[width..] {
            rest.push(value.clone()?)?;
        }
    }
    Ok(List::new(rest))
}

/// The primary key of a pair of the index.
#[tactic(auto, unfolding(crate::specs::inner::Bounds::index_key_in))]
fn key_in_pair(
    alloc: Global,
    number: u32,
    width: usize,
    bytes: &[u8],
) -> Result<Option<Values>, AllocError>
    ensures { IfOk result (λ k. k ≡ index_key_in number width bytes.now) }
{
    match read_key(alloc, bytes) {
        Err(KeyFault::Memory) => Err(AllocError),
        Err(_) => Ok(None),
        Ok(KeyOf::Index { element, values }) => {
            if element == number {
                Ok(Some(copy_behind(alloc, values.as_slice(), width)?))
            } else {
                Ok(None)
            }
        }
        Ok(_) => Ok(None),
    }
}

fn add_key(keys: &mut BTreeSet<Values>, key: Values) -> Result<(), AllocError>
    ensures { OnOk result (keys.new.keys ≡ insert_key values_cmp keys.old.keys key) }
{
    keys.insert(key)?;
    Ok(())
}

/// The primary keys in the part of the index that the condition allows, in their order.
fn gather<V: PairView>(
    alloc: Global,
    view: &V,
    number: u32,
    width: usize,
    condition: &Cond,
) -> Result<BTreeSet<Values>, AllocError>
    ensures { IfOk result (λ keys. keys.keys ≡ gathered number width [] (key_range (V.pairs view.now) (low_bound number condition.now) (high_bound number condition.now))) }
{
    let mut keys = BTreeSet::new(alloc);
    let low = low_of(alloc, number, condition)?;
    let high = high_of(alloc, number, condition)?;
    let mut walk = view.walk_within(low.as_slice(), high.as_slice());
    while let Some((bytes, _)) = walk.next() {
        if let Some(key) = key_in_pair(alloc, number, width, bytes)? {
            add_key(&mut keys, key)?;
        }
    }
    Ok(keys)
}

/// Puts a row after the others, if there is one.
fn add_found(rows: &mut Vec<Row>, found: Option<Row>) -> Result<(), AllocError>
    ensures { OnOk result (rows.new.items ≡ rows.old.items ++ one_row found) }
{
    if let Some(row) = found {
        rows.push(row)?;
    }
    Ok(())
}

/// The rows that are in the part of the index that the condition allows, and meet every condition.
pub(crate) fn walk_index<V: PairView>(
    alloc: Global,
    view: &V,
    columns: &[u32],
    query: &Query,
    number: u32,
    width: usize,
    condition: &Cond,
) -> Result<Vec<Row>, AllocError>
    ensures { IfOk result (λ rows. rows.items ≡ rows_in (V.pairs view.now) columns.now query.now (gathered number width [] (key_range (V.pairs view.now) (low_bound number condition.now) (high_bound number condition.now)))) }
{
    let mut rows = Vec::new(alloc);
    for key in gather(alloc, view, number, width, condition)? {
        add_found(&mut rows, row_by_key(alloc, view, columns, query, key)?)?;
    }
    Ok(rows)
}
