//! Answering a query by its path.
ghost use Rattle.std.specs.Prelude.{◌≡◌, ◌⊎◌, IfOk, IfErr, OnOk, Ok};
ghost use Rattle.row_map.specs.Rows.{Rows};
ghost use Rattle.element_state.specs.Consistent.{IsConsistent};
ghost use Rattle.element_state.specs.Visible.{visible_rows};
ghost use Rattle.row_query.specs.declared.fault.QueryFault.TheVariants.{Memory};
ghost use Rattle.row_query.specs.Answer.{plain_answer};
ghost use Rattle.row_query.specs.inner.Checks.{query_check, AreKnown};
ghost use Rattle.row_query.specs.inner.Found.{row_in, one_row};
ghost use Rattle.row_query.specs.Refused.{IsRefused, IsSound};

use crate::check::{check_query, public_numbers};
use crate::fault::QueryFault;
use crate::gather::walk_index;
use crate::path::{leading_condition, serving_index, wanted_key};
use crate::query::Query;
use crate::scan::{row_by_key, scan};
use collections::List;
use keycode::Values;
use row_map::{PairView, Row};
use schema_version::Schema;
use std::alloc::{AllocError, Global};

fn copy_of(key: &Values) -> Result<Values, AllocError>
    ensures { IfOk result (λ k. k ≡ key.now) }
{
    key.clone()
}

/// The row of a key, if it is asked for.
fn by_key<V: PairView>(
    alloc: Global,
    view: &V,
    columns: &[u32],
    query: &Query,
    key: &Values,
) -> Result<Vec<Row>, AllocError>
    ensures { IfOk result (λ rows. rows.items ≡ one_row (row_in (V.pairs view.now) columns.now query.now key.now)) }
{
    let mut rows = Vec::new(alloc);
    if let Some(row) = row_by_key(alloc, view, columns, query, copy_of(key)?)? {
        rows.push(row)?;
    }
    Ok(rows)
}

/// The rows of a query that has no fault, by its path. A required column's pair holds the default
/// if a row has no value of its own.
fn find<V: PairView>(
    alloc: Global,
    schema: &Schema,
    view: &V,
    query: &Query,
) -> Result<Vec<Row>, AllocError>
    ensures { (rows : Rows) → IsConsistent schema.now rows (V.pairs view.now) → query_check schema.now query.now ≡ Ok tt → AreKnown query.now.conditions → IfOk result (λ found. found.items ≡ plain_answer (visible_rows schema.now rows) query.now) }
{
    schema.lemma_known();
    let elements = schema.elements();
    let conditions = query.conditions.as_slice();
    let public = public_numbers(alloc, elements, query.table)?;
    let columns = public.as_slice();
    if let Some(key) = wanted_key(conditions) {
        return by_key(alloc, view, columns, query, key);
    }
    if let Some(element) = serving_index(elements, query) {
        let indexed_columns = element.kind.indexed_columns();
        if let Some(condition) = leading_condition(conditions, indexed_columns) {
            let (number, width) = (element.number, indexed_columns.len());
            return walk_index(alloc, view, columns, query, number, width, condition);
        }
    }
    scan(alloc, view, columns, query)
}

/// The rows that a query asks for, in the order of their primary keys, each with its values in the
/// named columns.
///
/// - `schema`: the version under which the query runs. It reads the columns and indexes that are
///   public there.
/// - `view`: the pairs of a store. If they agree with the version and with rows, those rows are
///   what is answered, as the version sees them: in a public required column the default stands
///   if a row has no value of its own.
/// - `query`: a table, columns and conditions. Equal with Null finds the rows without a value,
///   hence none by a required column; Between has its bounds included and never finds a row without
///   a value. A text over 1,024 bytes is no fault: in a key and with Equal it finds nothing, as a
///   bound it is compared as every value is.
///
/// The rows are found by the path that `path_of` tells. By a key one row is read, by an index only
/// the pairs between the condition's values. An index that isn't public is never read: some rows
/// may have no pair there (Rae et al., PVLDB 6(11), 2013).
///
/// The refusals, in their order: `NoTable`; then of the named columns in their order and the
/// conditions in theirs, the first with a fault by its lowest, `NotPublic` and then `WrongType`.
/// `Memory` comes last: the whole query is looked at before the first growth, so it never is in
/// place of another. A refused query leaves nothing behind.
pub fn answer<V: PairView>(
    alloc: Global,
    schema: &Schema,
    view: &V,
    query: &Query,
) -> Result<List<Row>, QueryFault>
    ensures refused { IfErr result (λ fault. ((fault ≡ Memory) × IsSound schema.now query.now) ⊎ IsRefused schema.now query.now fault) }
    ensures clear { OnOk result (IsSound schema.now query.now) }
    ensures rows { (rows : Rows) → IsConsistent schema.now rows (V.pairs view.now) → IfOk result (λ found. found ≡ plain_answer (visible_rows schema.now rows) query.now) }
{
    check_query(schema, query)?;
    Ok(List::new(find(alloc, schema, view, query)?))
}
