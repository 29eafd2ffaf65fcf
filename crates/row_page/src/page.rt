//! A page of the rows that a query asks for.
ghost use Rattle.std.specs.Prelude.{◌≡◌, OnOk, IfOk, IfErr};
ghost use Rattle.collections.specs.Refusal.{IsRefusal, IsClear};
ghost use Rattle.element_state.specs.Consistent.{IsConsistent};
ghost use Rattle.element_state.specs.Visible.{visible_rows};
ghost use Rattle.row_map.specs.Rows.{Rows};
ghost use Rattle.row_page.specs.Page.{page_of, rows_within};
ghost use Rattle.row_page.specs.Refused.{page_rank, PageCondition};
ghost use Rattle.row_page.specs.declared.fault.PageFault.TheVariants.{Query as Faulty};
ghost use Rattle.row_query.specs.Answer.{plain_answer};
ghost use Rattle.row_query.specs.Refused.{IsSound};
ghost use Rattle.row_query.specs.declared.fault.QueryFault.TheVariants.{Memory};

use crate::bounds::{high_of, low_of};
use crate::check::check_page;
use crate::columns::public_numbers;
use crate::fault::PageFault;
use crate::known::known_range;
use crate::range::KeyRange;
use crate::scan::scan_page;
use collections::List;
use row_map::{PairView, Row};
use row_query::Query;
use schema_version::Schema;
use std::alloc::{AllocError, Global};

/// A page of rows.
pub struct RowPage {
    /// The rows, by rising primary key. The next page comes after the key of the last.
    pub rows: List<Row>,
    /// Whether the range has further rows that are asked for.
    pub more: bool,
}

// By hand, so that a caller's proof sees one call and not each field's.
impl Drop for RowPage {
    fn drop(self) {
        let RowPage { rows: _, more: _ } = self;
    }
}

impl RowPage {
    pub(crate) fn new(rows: Vec<Row>, more: bool) -> RowPage
        ensures { result ≡ record { rows = rows.items; more = more } }
    {
        RowPage {
            rows: List::new(rows),
            more,
        }
    }
}

/// The page of a query that has no fault.
fn find<V: PairView>(
    alloc: Global,
    schema: &Schema,
    view: &V,
    query: &Query,
    range: &KeyRange,
    limit: u32,
) -> Result<RowPage, AllocError>
    ensures { (rows : Rows) → IsConsistent schema.now rows (V.pairs view.now) → IsSound schema.now query.now → IfOk result (λ page. page ≡ page_of limit (rows_within range.now (plain_answer (visible_rows schema.now rows) query.now))) }
{
    schema.lemma_known();
    known_range(range);
    let public = public_numbers(alloc, schema.elements(), query.table)?;
    let columns = public.as_slice();
    let low = low_of(alloc, query.table, &range.after)?;
    let high = high_of(alloc, query.table, &range.before)?;
    let (low, high) = (low.as_slice(), high.as_slice());
    scan_page(alloc, view, columns, query, low, high, limit as usize)
}

/// A page of the rows that a query asks for: the first of those whose key is in a range, in the order
/// of their primary keys, each with its values in the named columns.
///
/// It goes over the table from the range's start on, and stops once it has found one row more than
/// the page holds: what else the table has costs nothing. If few rows meet the conditions, it goes
/// over all between those that do; no index is read.
///
/// - `schema`: the version under which the query runs. It reads the columns that are public there.
/// - `view`: the pairs of a store. If they agree with the version and with rows, the page is the
///   first of those rows that `row_query::answer` would give, of those in the range; and `more` is
///   true if and only if there are further ones.
/// - `query`: as for `row_query::answer`.
/// - `range`: the key after which the rows come, and the key before which they end. Pages that are
///   asked each after the last key of the one before are together the whole answer in the range
///   (`lemma_pages_are_whole`).
/// - `limit`: at most so many rows, 1 to `MOST_ROWS`.
///
/// The refusals, in their order: `BadLimit`; `Query` with what `row_query::answer` refuses,
/// `NoTable`, `NotPublic` and `WrongType`; `Query(WrongType)` if a key of the range has another number
/// of values than the table's key, a value of another type, or null; `Query(Memory)` comes last, and
/// never in place of another. A refusal leaves nothing behind.
pub fn answer_page<V: PairView>(
    alloc: Global,
    schema: &Schema,
    view: &V,
    query: &Query,
    range: &KeyRange,
    limit: u32,
) -> Result<RowPage, PageFault>
    ensures refused { IfErr result (λ fault. IsRefusal page_rank (PageCondition schema.now query.now range.now limit) (Faulty Memory) fault) }
    ensures clear { OnOk result (IsClear (PageCondition schema.now query.now range.now limit)) }
    ensures rows { (rows : Rows) → IsConsistent schema.now rows (V.pairs view.now) → IfOk result (λ page. page ≡ page_of limit (rows_within range.now (plain_answer (visible_rows schema.now rows) query.now))) }
{
    check_page(alloc, schema, query, range, limit)?;
    Ok(find(alloc, schema, view, query, range, limit)?)
}
