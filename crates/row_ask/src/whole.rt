//! What a query reads in all, and its rows once that is read.
ghost use Rattle.std.specs.Prelude.{◌≡◌, ◌++◌, ◌⊎◌, [], IfOk, IfErr, OnOk};
ghost use Rattle.row_map.specs.Rows.{Pairs, Rows as PlainRows};
ghost use Rattle.element_state.specs.Consistent.{IsConsistent};
ghost use Rattle.element_state.specs.Visible.{visible_rows};
ghost use Rattle.row_query.specs.declared.fault.QueryFault.TheVariants.{Memory as OutOfMemory};
ghost use Rattle.row_query.specs.Answer.{plain_answer};
ghost use Rattle.row_query.specs.Refused.{IsRefused, IsSound};
ghost use Rattle.row_ask.specs.Remaining.{keys_with_rest, remaining_of, remaining_rows};
ghost use Rattle.row_ask.specs.Whole.{row_ranges, ranges_for, with_index, IsRestRead, IsAllRead};

use crate::begin_query::begin;
use crate::gather::gather;
use crate::index_page::keys_of;
use crate::remaining::{IndexRange, Remaining};
use crate::rows_by_key::{row_range, rows_of};
use crate::table_page::{scan_page, table_end};
use byte_map::Bytes;
use collections::List;
use keycode::Values;
use row_map::{PairView, Row};
use row_query::{Query, QueryFault};
use schema_version::Schema;
use std::alloc::{AllocError, Global};
use std::collections::BTreeSet;

/// Adds the ranges of the rows of these keys.
fn push_rows(
    alloc: Global,
    out: &mut Vec<(Bytes, Bytes)>,
    table: u32,
    keys: &[Values],
) -> Result<(), AllocError>
    ensures { OnOk result (out.new.items ≡ out.old.items ++ row_ranges table keys.now) }
{
    for key in keys {
        out.push(row_range(alloc, table, key.as_slice())?)?;
    }
    Ok(())
}

/// The ranges of the store that are to be read for what remains of a query: of each a first key, and
/// a key after the last. Refused only when out of memory.
///
/// - `table`: the query's table.
/// - `remaining`: what is still to be read.
pub fn ranges_of(
    alloc: Global,
    table: u32,
    remaining: &Remaining,
) -> Result<List<(Bytes, Bytes)>, AllocError>
    ensures { IfOk result (λ ranges. ranges ≡ ranges_for table remaining.now) }
{
    let mut out = Vec::new(alloc);
    match remaining {
        Remaining::Rows(keys) => push_rows(alloc, &mut out, table, keys.as_slice())?,
        Remaining::Index(range) => out.push((range.low.clone()?, range.high.clone()?))?,
        Remaining::Scan(low) => out.push((low.clone()?, table_end(alloc, table)?))?,
    }
    Ok(List::new(out))
}

/// The primary keys in a part of an index that was read whole.
fn keys_in<V: PairView>(
    alloc: Global,
    range: &IndexRange,
    view: &V,
) -> Result<List<Values>, AllocError>
    ensures { IfOk result (λ keys. keys ≡ keys_with_rest (V.pairs view.now) range.now []) }
{
    let mut keys = BTreeSet::new(alloc);
    gather(
        alloc,
        view,
        range.number,
        range.width,
        &mut keys,
        range.low.as_slice(),
        range.high.as_slice(),
    )?;
    keys_of(alloc, keys)
}

/// What remains of a query after the part of its index was read: the rows of the keys in it. By
/// another path it is what it was. Refused only when out of memory.
///
/// - `remaining`: what `begin` gives.
/// - `view`: what was read of the store: all its pairs in the part of the index.
pub fn after_index<V: PairView>(
    alloc: Global,
    remaining: Remaining,
    view: &V,
) -> Result<Remaining, AllocError>
    ensures { IfOk result (λ rest. rest ≡ with_index (V.pairs view.now) remaining) }
{
    match &remaining {
        Remaining::Index(range) => Ok(Remaining::Rows(keys_in(alloc, range, view)?)),
        Remaining::Rows(_) | Remaining::Scan(_) => Ok(remaining),
    }
}

/// The rows of keys, or of a table, of which all was read.
fn rest_rows<V: PairView>(
    alloc: Global,
    schema: &Schema,
    query: &Query,
    view: &V,
    rest: &Remaining,
) -> Result<List<Row>, AllocError>
    ensures { (rows : PlainRows) (store : Pairs) → IsConsistent schema.now rows store → IsRestRead store (V.pairs view.now) query.now rest.now → IfOk result (λ found. found ≡ remaining_rows schema.now store query.now rest.now) }
{
    match rest {
        Remaining::Rows(keys) => rows_of(alloc, schema, query, keys.as_slice(), view),
        Remaining::Index(_) => Ok(List::new(Vec::new(alloc))),
        Remaining::Scan(low) => {
            let end = table_end(alloc, query.table)?;
            let page = scan_page(alloc, schema, query, low.as_slice(), view, end.as_slice())?;
            Ok(page.rows)
        }
    }
}

/// The rows that a query asks for, by rising primary key, of a store of which all was read that the
/// query needs: the plain answer over its rows as the version sees them. The refusals are those of
/// `row_query::answer`.
///
/// - `schema`: the version under which the query runs.
/// - `query`: a table, columns and conditions.
/// - `view`: what was read of the store at one moment: all its pairs in the ranges of what `begin`
///   gives, and by an index also in those of what `after_index` then gives. What else it has does not
///   matter.
pub fn answer_read<V: PairView>(
    alloc: Global,
    schema: &Schema,
    query: &Query,
    view: &V,
) -> Result<List<Row>, QueryFault>
    ensures refused { IfErr result (λ fault. ((fault ≡ OutOfMemory) × IsSound schema.now query.now) ⊎ IsRefused schema.now query.now fault) }
    ensures clear { OnOk result (IsSound schema.now query.now) }
    ensures rows { (rows : PlainRows) (store : Pairs) → IsConsistent schema.now rows store → IsAllRead store (V.pairs view.now) query.now (remaining_of schema.now query.now) → IfOk result (λ found. found ≡ plain_answer (visible_rows schema.now rows) query.now) }
{
    let remaining = begin(alloc, schema, query)?;
    let rest = after_index(alloc, remaining, view)?;
    Ok(rest_rows(alloc, schema, query, view, &rest)?)
}
