//! The rows of keys.
ghost use Rattle.std.specs.Prelude.{◌≡◌, IfOk};
ghost use Rattle.row_map.specs.Keys.{row_code};
ghost use Rattle.row_map.specs.Rows.{Pairs};
ghost use Rattle.row_query.specs.inner.Found.{rows_in};
ghost use Rattle.row_ask.specs.Remaining.{AreRowsRead, row_end, rows_of_keys};

use crate::check::public_numbers;
use crate::scan::row_by_key;
use byte_map::Bytes;
use collections::List;
use keycode::{Value, Values};
use row_map::{PairView, Row, column_key, exists_key};
use row_query::Query;
use schema_version::Schema;
use std::alloc::{AllocError, Global};

// `row_query` has the same private function.
fn copy_of(key: &Values) -> Result<Values, AllocError>
    ensures { IfOk result (λ k. k ≡ key.now) }
{
    key.clone()
}

/// The rows of these keys.
fn rows_by_keys<V: PairView>(
    alloc: Global,
    view: &V,
    columns: &[u32],
    query: &Query,
    keys: &[Values],
) -> Result<Vec<Row>, AllocError>
    ensures { IfOk result (λ rows. rows.items ≡ rows_in (V.pairs view.now) columns.now query.now keys.now) }
{
    let mut rows = Vec::new(alloc);
    for key in keys {
        if let Some(row) = row_by_key(alloc, view, columns, query, copy_of(key)?)? {
            rows.push(row)?;
        }
    }
    Ok(rows)
}

/// The rows of these keys that are asked for, in the order of `keys`. Refused only when out of
/// memory; the call may then be made again.
///
/// - `schema`: the version under which the query runs.
/// - `query`: a query that `begin` did not refuse.
/// - `keys`: primary keys of its table, present or not.
/// - `view`: what was read of the store at one moment: of each key all pairs in its `row_range`.
///   What else it has does not matter.
pub fn rows_of<V: PairView>(
    alloc: Global,
    schema: &Schema,
    query: &Query,
    keys: &[Values],
    view: &V,
) -> Result<List<Row>, AllocError>
    ensures { (store : Pairs) → AreRowsRead store (V.pairs view.now) query.now.table keys.now → IfOk result (λ rows. rows ≡ rows_of_keys schema.now store query.now keys.now) }
{
    schema.lemma_known();
    let public = public_numbers(alloc, schema.elements(), query.table)?;
    let columns = public.as_slice();
    Ok(List::new(rows_by_keys(alloc, view, columns, query, keys)?))
}

/// The range of the store that has all pairs of a row: from the first key on, below the second.
/// Refused only when out of memory.
///
/// - `table`: the number of the row's table.
/// - `key`: its primary key.
pub fn row_range(alloc: Global, table: u32, key: &[Value]) -> Result<(Bytes, Bytes), AllocError>
    ensures { IfOk result (λ range. range ≡ (row_code table key.now 0, row_end table key.now)) }
{
    let low = exists_key(alloc, table, key)?;
    let high = column_key(alloc, table, key, 16777216)?;
    Ok((low, high))
}
