//! Rows read by their keys, and the walk over a part of a table.
// `row_query` has the same private functions; its `scan` goes over the whole table.
ghost use Rattle.std.specs.Prelude.{◌≡◌, IfOk};
ghost use Rattle.row_map.specs.Walk.{key_range};
ghost use Rattle.row_query.specs.inner.Found.{row_of, row_in, row_key_in, row_at, rows_at};

use crate::conditions::meets_all;
use crate::read::{cells, cut_to};
use collections::List;
use keycode::{KeyFault, Value, Values};
use row_map::{KeyOf, PairView, Row, exists_key, read_key};
use row_query::Query;
use std::alloc::{AllocError, Global};

/// The row, if it meets every condition.
fn row_from(
    alloc: Global,
    query: &Query,
    key: Values,
    cells: List<(u32, Value)>,
) -> Result<Option<Row>, AllocError>
    ensures { IfOk result (λ r. r ≡ row_of query.now key cells) }
{
    if meets_all(
        key.as_slice(),
        cells.as_slice(),
        query.conditions.as_slice(),
    ) {
        let cells = cut_to(alloc, query.columns.as_slice(), cells)?;
        Ok(Some(Row { key, cells }))
    } else {
        Ok(None)
    }
}

/// The row of a key, if it is there and meets every condition.
#[tactic(auto, unfolding(row_query::specs::inner::Found::row_in))]
pub(crate) fn row_by_key<V: PairView>(
    alloc: Global,
    view: &V,
    columns: &[u32],
    query: &Query,
    key: Values,
) -> Result<Option<Row>, AllocError>
    ensures { IfOk result (λ r. r ≡ row_in (V.pairs view.now) columns.now query.now key) }
{
    let name = exists_key(alloc, query.table, key.as_slice())?;
    if view.get(name.as_slice()).is_none() {
        return Ok(None);
    }
    let cells = cells(alloc, view, query.table, key.as_slice(), columns)?;
    row_from(alloc, query, key, cells)
}

/// The primary key of an `exists` pair of the table.
#[tactic(auto, unfolding(row_query::specs::inner::Found::row_key_in))]
pub(crate) fn row_key(alloc: Global, table: u32, bytes: &[u8]) -> Result<Option<Values>, AllocError>
    ensures { IfOk result (λ k. k ≡ row_key_in table bytes.now) }
{
    match read_key(alloc, bytes) {
        Err(KeyFault::Memory) => Err(AllocError),
        Err(_) => Ok(None),
        Ok(KeyOf::Exists { table: of, key }) => {
            if of == table { Ok(Some(key)) } else { Ok(None) }
        }
        Ok(_) => Ok(None),
    }
}

/// The row of an `exists` pair of the table.
fn row_by_pair<V: PairView>(
    alloc: Global,
    view: &V,
    columns: &[u32],
    query: &Query,
    bytes: &[u8],
) -> Result<Option<Row>, AllocError>
    ensures { IfOk result (λ r. r ≡ row_at (V.pairs view.now) columns.now query.now bytes.now) }
{
    match row_key(alloc, query.table, bytes)? {
        None => Ok(None),
        Some(key) => row_by_key(alloc, view, columns, query, key),
    }
}

/// The rows whose `exists` pair is from `low` to below `high`, and which meet every condition.
pub(crate) fn scan_to<V: PairView>(
    alloc: Global,
    view: &V,
    columns: &[u32],
    query: &Query,
    low: &[u8],
    high: &[u8],
) -> Result<Vec<Row>, AllocError>
    ensures { IfOk result (λ rows. rows.items ≡ rows_at (V.pairs view.now) columns.now query.now (key_range (V.pairs view.now) low.now high.now)) }
{
    let mut rows = Vec::new(alloc);
    let mut walk = view.walk_within(low, high);
    while let Some((key, _)) = walk.next() {
        if let Some(row) = row_by_pair(alloc, view, columns, query, key)? {
            rows.push(row)?;
        }
    }
    Ok(rows)
}
