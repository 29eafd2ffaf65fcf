//! Whether a page is refused.
ghost use Rattle.std.specs.Prelude.{◌≡◌, ◌⊎◌, OnOk, IfErr};
ghost use Rattle.collections.specs.Refusal.{IsRefusal, IsClear};
ghost use Rattle.row_page.specs.Refused.{page_rank, PageCondition, AskedCondition};
ghost use Rattle.row_page.specs.declared.fault.PageFault.TheVariants.{Query as Faulty};
ghost use Rattle.row_page.specs.inner.Fits.{key_fits, bound_fits, range_fits, with_range as with_range_of};
ghost use Rattle.row_query.specs.Kinds.{has_kind as has_kind_of};
ghost use Rattle.row_query.specs.Refused.{rank, IsRefused, IsSound};
ghost use Rattle.row_query.specs.declared.fault.QueryFault.TheVariants.{Memory};

use crate::fault::PageFault;
use crate::range::{KeyRange, MOST_ROWS};
use byte_map::{Bytes, KeyMap};
use keycode::{Text, Value, Values};
use row_map::ColumnType;
use row_query::{Query, QueryFault, answer};
use schema_version::Schema;
use std::alloc::Global;

// `row_query` has the same private function.
fn has_kind(kind: ColumnType, value: &Value) -> bool
    ensures { result ≡ has_kind_of kind value.now }
{
    match value {
        Value::Null => false,
        Value::Int(_) => matches!(kind, ColumnType::Int),
        Value::Text(_) => matches!(kind, ColumnType::Text),
        Value::Bool(_) => matches!(kind, ColumnType::Bool),
    }
}

// `row_query` has the same private function.
fn is_key_for(columns: &[(Text, ColumnType)], key: &[Value]) -> bool
    ensures { result ≡ key_fits columns.now key.now }
{
    if columns.len() != key.len() {
        return false;
    }
    for i in 0..key.len() {
        if !has_kind(columns[i].1, &key[i]) {
            return false;
        }
    }
    true
}

fn is_bound_for(columns: &[(Text, ColumnType)], bound: &Option<Values>) -> bool
    ensures { result ≡ bound_fits columns.now bound.now }
{
    match bound {
        None => true,
        Some(key) => is_key_for(columns, key.as_slice()),
    }
}

/// Whether the keys of the range are keys of the table.
fn is_range_for(schema: &Schema, table: u32, range: &KeyRange) -> bool
    ensures { result ≡ range_fits schema.now table range.now }
{
    match schema.key_of(table) {
        None => false,
        Some(columns) => is_bound_for(columns, &range.after)
            && is_bound_for(columns, &range.before),
    }
}

/// The query's fault, as a query of nothing has it.
fn fault_of(alloc: Global, schema: &Schema, query: &Query) -> Result<(), QueryFault>
    ensures refused { IfErr result (λ fault. ((fault ≡ Memory) × IsSound schema.now query.now) ⊎ IsRefused schema.now query.now fault) }
    ensures clear { OnOk result (IsSound schema.now query.now) }
{
    let nothing: KeyMap<Bytes> = KeyMap::new(alloc);
    answer(alloc, schema, &nothing, query)?;
    Ok(())
}

/// The query's fault, or else that of the range, before out of memory.
fn with_range(asked: Result<(), QueryFault>, fits: bool) -> Result<(), QueryFault>
    ensures { result ≡ with_range_of asked fits }
{
    if fits {
        return asked;
    }
    match asked {
        Ok(()) | Err(QueryFault::Memory) => Err(QueryFault::WrongType),
        Err(fault) => Err(fault),
    }
}

/// The query's fault, or that of the range.
fn check_asked(
    alloc: Global,
    schema: &Schema,
    query: &Query,
    range: &KeyRange,
) -> Result<(), QueryFault>
    ensures refused { IfErr result (λ fault. IsRefusal rank (AskedCondition schema.now query.now range.now) Memory fault) }
    ensures clear { OnOk result (IsClear (AskedCondition schema.now query.now range.now)) }
    ensures sound { OnOk result (IsSound schema.now query.now) }
{
    let fits = is_range_for(schema, query.table, range);
    let asked = fault_of(alloc, schema, query);
    with_range(asked, fits)
}

/// Why the page is refused, if it is.
pub(crate) fn check_page(
    alloc: Global,
    schema: &Schema,
    query: &Query,
    range: &KeyRange,
    limit: u32,
) -> Result<(), PageFault>
    ensures refused { IfErr result (λ fault. IsRefusal page_rank (PageCondition schema.now query.now range.now limit) (Faulty Memory) fault) }
    ensures clear { OnOk result (IsClear (PageCondition schema.now query.now range.now limit)) }
    ensures sound { OnOk result (IsSound schema.now query.now) }
{
    if limit < 1 || limit > MOST_ROWS {
        return Err(PageFault::BadLimit);
    }
    check_asked(alloc, schema, query, range)?;
    Ok(())
}
