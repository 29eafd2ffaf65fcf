//! The rows in a page of a table.
ghost use Rattle.std.specs.Prelude.{◌≡◌, ◌<◌, ◌++◌, Some, is_some, IfOk};
ghost use Rattle.row_map.specs.Rows.{Pairs, Rows as PlainRows};
ghost use Rattle.row_map.specs.Walk.{key_range};
ghost use Rattle.element_state.specs.Consistent.{IsConsistent};
ghost use Rattle.row_query.specs.inner.Bounds.{table_end as end_of_table};
ghost use Rattle.row_query.specs.inner.Found.{row_key_in};
ghost use Rattle.row_ask.specs.Remaining.{IsRead, rows_between, rows_after};
ghost use Rattle.row_ask.specs.Pages.{last_row_at, next_low, HasTwoRows, GoesOn, pairs_after};

use crate::bounds::end_of;
use crate::check::public_numbers;
use crate::scan::{row_key, scan_to};
use byte_map::Bytes;
use collections::List;
use row_map::{PairView, Row};
use row_query::Query;
use schema_version::Schema;
use std::alloc::{AllocError, Global};

/// What was found in a page of a table.
#[derive(Drop)]
pub struct ScanPage {
    /// The rows that are asked for, of those that are whole in the page, by rising primary key.
    pub rows: List<Row>,
    /// From which key of the store on to read the next page; None after the table's last.
    pub next: Option<Bytes>,
}

/// A key after those of a table's rows, to which a scan reads. Refused only when out of memory.
///
/// - `table`: the number of the table.
pub fn table_end(alloc: Global, table: u32) -> Result<Bytes, AllocError>
    ensures { IfOk result (λ bytes. bytes ≡ end_of_table table) }
{
    Bytes::new(end_of(alloc, table)?)
}

fn is_row(alloc: Global, table: u32, bytes: &[u8]) -> Result<bool, AllocError>
    ensures { IfOk result (λ b. b ≡ is_some (row_key_in table bytes.now)) }
{
    Ok(row_key(alloc, table, bytes)?.is_some())
}

/// The last `exists` key of the table that was read; where there is none, the key from which on it
/// was read.
fn last_row<'a, V: PairView>(
    alloc: Global,
    view: &'a V,
    table: u32,
    low: &'a [u8],
    to: &'a [u8],
) -> Result<Bytes, AllocError>
    ensures { IfOk result (λ cut. cut ≡ last_row_at table low.now (key_range (V.pairs view.now) low.now to.now)) }
{
    let mut cut = low;
    let mut walk = view.walk_within(low, to);
    while let Some((key, _)) = walk.next() {
        if is_row(alloc, table, key)? {
            cut = key;
        }
    }
    Bytes::from_slice(alloc, cut)
}

/// The rows that are asked for, of those that are whole in a page of their table: all but the last,
/// which may go on, unless the page reaches the table's end. Refused only when out of memory; the
/// call may then be made again.
///
/// - `schema`: the version under which the query runs.
/// - `query`: a query that `begin` did not refuse.
/// - `low`: the key from which on the page was read.
/// - `view`: what was read of the store at one moment: all its pairs from `low` to below `to`. What
///   else it has does not matter.
/// - `to`: the key below which the page was read. If the page has the `exists` pairs of two rows,
///   the next one begins above `low`, and fewer pairs of the store are left. One that has fewer rows
///   and ends before `table_end` is read again with more pairs.
pub fn scan_page<V: PairView>(
    alloc: Global,
    schema: &Schema,
    query: &Query,
    low: &[u8],
    view: &V,
    to: &[u8],
) -> Result<ScanPage, AllocError>
    ensures next { IfOk result (λ page. page.next ≡ next_low query.now.table low.now to.now (key_range (V.pairs view.now) low.now to.now)) }
    ensures goes_on { HasTwoRows query.now.table (key_range (V.pairs view.now) low.now to.now) → IfOk result (λ page. GoesOn low.now page.next) }
    ensures fewer { (rows : PlainRows) (store : Pairs) → IsConsistent schema.now rows store → IsRead store (V.pairs view.now) low.now to.now → HasTwoRows query.now.table (key_range (V.pairs view.now) low.now to.now) → IfOk result (λ page. pairs_after store query.now.table page.next < pairs_after store query.now.table (Some low.now)) }
    ensures rows { (rows : PlainRows) (store : Pairs) → IsConsistent schema.now rows store → IsRead store (V.pairs view.now) low.now to.now → IfOk result (λ page. page.rows ++ rows_after schema.now store query.now page.next ≡ rows_between schema.now store query.now low.now (end_of_table query.now.table)) }
{
    schema.lemma_known();
    let public = public_numbers(alloc, schema.elements(), query.table)?;
    let columns = public.as_slice();
    let end = table_end(alloc, query.table)?;
    if end.compare(to).is_le() {
        let rows = scan_to(alloc, view, columns, query, low, end.as_slice())?;
        return Ok(ScanPage {
            rows: List::new(rows),
            next: None,
        });
    }
    let cut = last_row(alloc, view, query.table, low, to)?;
    let rows = scan_to(alloc, view, columns, query, low, cut.as_slice())?;
    Ok(ScanPage {
        rows: List::new(rows),
        next: Some(cut),
    })
}
