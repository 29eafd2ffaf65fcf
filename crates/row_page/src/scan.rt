//! Rows read by their keys, and the walk over a part of a table, which stops after so many rows.
// `row_query` has the same private functions, but for `scan_page`.
ghost use Rattle.std.specs.Prelude.{◌≡◌, IfOk};
ghost use Rattle.row_map.specs.Walk.{key_range};
ghost use Rattle.row_query.specs.inner.Found.{row_of, row_in, row_key_in, row_at, rows_at};
ghost use Rattle.row_page.specs.Page.{page_of};

use crate::conditions::meets_all;
use crate::page::RowPage;
use crate::read::{cells, cut_to};
use collections::List;
use keycode::{KeyFault, Value, Values};
use row_map::{KeyOf, PairView, Row, exists_key, read_key};
use row_query::Query;
use std::alloc::{AllocError, Global};

/// The row, if it meets every condition.
fn row_from(
    alloc: Global,
    query: &Query,
    key: Values,
    cells: List<(u32, Value)>,
) -> Result<Option<Row>, AllocError>
    ensures { IfOk result (λ r. r ≡ row_of query.now key cells) }
{
    if meets_all(
        key.as_slice(),
        cells.as_slice(),
        query.conditions.as_slice(),
    ) {
        let cells = cut_to(alloc, query.columns.as_slice(), cells)?;
        Ok(Some(Row { key, cells }))
    } else {
        Ok(None)
    }
}

/// The row of a key, if it is there and meets every condition.
#[tactic(auto, unfolding(row_query::specs::inner::Found::row_in))]
fn row_by_key<V: PairView>(
    alloc: Global,
    view: &V,
    columns: &[u32],
    query: &Query,
    key: Values,
) -> Result<Option<Row>, AllocError>
    ensures { IfOk result (λ r. r ≡ row_in (V.pairs view.now) columns.now query.now key) }
{
    let name = exists_key(alloc, query.table, key.as_slice())?;
    if view.get(name.as_slice()).is_none() {
        return Ok(None);
    }
    let cells = cells(alloc, view, query.table, key.as_slice(), columns)?;
    row_from(alloc, query, key, cells)
}

/// The primary key of an `exists` pair of the table.
#[tactic(auto, unfolding(row_query::specs::inner::Found::row_key_in))]
fn row_key(alloc: Global, table: u32, bytes: &[u8]) -> Result<Option<Values>, AllocError>
    ensures { IfOk result (λ k. k ≡ row_key_in table bytes.now) }
{
    match read_key(alloc, bytes) {
        Err(KeyFault::Memory) => Err(AllocError),
        Err(_) => Ok(None),
        Ok(KeyOf::Exists { table: of, key }) => {
            if of == table { Ok(Some(key)) } else { Ok(None) }
        }
        Ok(_) => Ok(None),
    }
}

/// The row of an `exists` pair of the table.
fn row_by_pair<V: PairView>(
    alloc: Global,
    view: &V,
    columns: &[u32],
    query: &Query,
    bytes: &[u8],
) -> Result<Option<Row>, AllocError>
    ensures { IfOk result (λ r. r ≡ row_at (V.pairs view.now) columns.now query.now bytes.now) }
{
    match row_key(alloc, query.table, bytes)? {
        None => Ok(None),
        Some(key) => row_by_key(alloc, view, columns, query, key),
    }
}

/// Of the rows whose `exists` pair is from `low` to below `high`, and which meet every condition, the
/// first `limit`; and whether there are more. It walks until one more is found, or to the end.
pub(crate) fn scan_page<V: PairView>(
    alloc: Global,
    view: &V,
    columns: &[u32],
    query: &Query,
    low: &[u8],
    high: &[u8],
    limit: usize,
) -> Result<RowPage, AllocError>
    ensures { IfOk result (λ page. page ≡ page_of limit (rows_at (V.pairs view.now) columns.now query.now (key_range (V.pairs view.now) low.now high.now))) }
{
    let mut rows = Vec::new(alloc);
    let mut walk = view.walk_within(low, high);
    while let Some((key, _)) = walk.next() {
        if let Some(row) = row_by_pair(alloc, view, columns, query, key)? {
            if rows.len() >= limit {
                return Ok(RowPage::new(rows, true));
            }
            rows.push(row)?;
        }
    }
    Ok(RowPage::new(rows, false))
}
