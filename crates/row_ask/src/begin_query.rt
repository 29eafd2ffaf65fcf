//! What to read for a query.
ghost use Rattle.std.specs.Prelude.{◌≡◌, ◌⊎◌, ◌∷◌, [], Some, IfOk, IfErr, OnOk};
ghost use Rattle.row_map.specs.Ranges.{table_prefix};
ghost use Rattle.row_map.specs.Rows.{Pairs, Rows as PlainRows};
ghost use Rattle.element_state.specs.Consistent.{IsConsistent};
ghost use Rattle.element_state.specs.Visible.{visible_rows};
ghost use Rattle.row_query.specs.declared.fault.QueryFault.TheVariants.{Memory as OutOfMemory};
ghost use Rattle.row_query.specs.Answer.{plain_answer};
ghost use Rattle.row_query.specs.Path.{plain_path};
ghost use Rattle.row_query.specs.Refused.{IsRefused, IsSound};
ghost use Rattle.row_query.specs.inner.Bounds.{low_bound, high_bound};
ghost use Rattle.row_query.specs.inner.Checks.{AreKnown};
ghost use Rattle.row_ask.specs.Remaining.{remaining_rows, path_taken, remaining_of};

use crate::bounds::{high_of, low_of, prefix_of};
use crate::known::known_conditions;
use crate::path::{leading_condition, serving_index, wanted_key};
use crate::remaining::{IndexRange, Remaining};
use byte_map::{Bytes, KeyMap};
use collections::List;
use keycode::Values;
use row_query::{Cond, Query, QueryFault, answer};
use schema_version::Schema;
use std::alloc::{AllocError, Global};

// The query's fault, as a query of nothing has it.
fn check(alloc: Global, schema: &Schema, query: &Query) -> Result<(), QueryFault>
    ensures refused { IfErr result (λ fault. ((fault ≡ OutOfMemory) × IsSound schema.now query.now) ⊎ IsRefused schema.now query.now fault) }
    ensures clear { OnOk result (IsSound schema.now query.now) }
{
    let nothing: KeyMap<Bytes> = KeyMap::new(alloc);
    answer(alloc, schema, &nothing, query)?;
    Ok(())
}

fn only(alloc: Global, key: &Values) -> Result<List<Values>, AllocError>
    ensures { IfOk result (λ keys. keys ≡ key.now ∷ []) }
{
    let mut keys = Vec::new(alloc);
    keys.push(key.clone()?)?;
    Ok(List::new(keys))
}

fn index_range(
    alloc: Global,
    number: u32,
    width: usize,
    condition: &Cond,
) -> Result<IndexRange, AllocError>
    ensures { IfOk result (λ range. range ≡ record { number = number; width = width; low = low_bound number condition.now; high = high_bound number condition.now }) }
{
    let low = Bytes::new(low_of(alloc, number, condition)?)?;
    let high = Bytes::new(high_of(alloc, number, condition)?)?;
    Ok(IndexRange {
        number,
        width,
        low,
        high,
    })
}

fn table_start(alloc: Global, table: u32) -> Result<Bytes, AllocError>
    ensures { IfOk result (λ low. low ≡ table_prefix table) }
{
    Bytes::new(prefix_of(alloc, b'R', table)?)
}

/// What to read for a query that has no fault, by its path.
fn plan(alloc: Global, schema: &Schema, query: &Query) -> Result<Remaining, AllocError>
    ensures exact { IfOk result (λ remaining. remaining ≡ remaining_of schema.now query.now) }
    ensures path { IfOk result (λ remaining. path_taken remaining ≡ plain_path schema.now query.now) }
    ensures rows { (rows : PlainRows) (store : Pairs) → IsConsistent schema.now rows store → IsSound schema.now query.now → IfOk result (λ remaining. remaining_rows schema.now store query.now remaining ≡ plain_answer (visible_rows schema.now rows) query.now) }
{
    schema.lemma_known();
    let conditions = query.conditions.as_slice();
    known_conditions(conditions);
    if let Some(key) = wanted_key(conditions) {
        return Ok(Remaining::Rows(only(alloc, key)?));
    }
    if let Some(element) = serving_index(schema, query) {
        let indexed_columns = element.kind.indexed_columns();
        if let Some(condition) = leading_condition(conditions, indexed_columns) {
            let (number, width) = (element.number, indexed_columns.len());
            return Ok(Remaining::Index(index_range(alloc, number, width, condition)?));
        }
    }
    Ok(Remaining::Scan(table_start(alloc, query.table)?))
}

/// What to read for a query: by the key one row, by an index a part of it and then the rows that
/// stand there, else the table. The refusals are those of `row_query::answer`.
///
/// - `schema`: the version under which the query runs.
/// - `query`: a table, columns and conditions.
pub fn begin(alloc: Global, schema: &Schema, query: &Query) -> Result<Remaining, QueryFault>
    ensures refused { IfErr result (λ fault. ((fault ≡ OutOfMemory) × IsSound schema.now query.now) ⊎ IsRefused schema.now query.now fault) }
    ensures clear { OnOk result (IsSound schema.now query.now) }
    ensures exact { IfOk result (λ remaining. remaining ≡ remaining_of schema.now query.now) }
    ensures path { IfOk result (λ remaining. path_taken remaining ≡ plain_path schema.now query.now) }
    ensures rows { (rows : PlainRows) (store : Pairs) → IsConsistent schema.now rows store → IfOk result (λ remaining. remaining_rows schema.now store query.now remaining ≡ plain_answer (visible_rows schema.now rows) query.now) }
{
    check(alloc, schema, query)?;
    Ok(plan(alloc, schema, query)?)
}
