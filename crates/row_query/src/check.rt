//! Whether a query is of a known table, public columns and values of their kinds.
ghost use Rattle.std.specs.Prelude.{◌≡◌, true, OnOk, IfOk, IfErr, Ok};
ghost use Rattle.keycode.specs.Valid.{IsValue, AreValues};
ghost use Rattle.row_query.specs.inner.Checks.{public_numbers as public_numbers_of, is_key_for as is_key_for_of, may_equal as may_equal_of, is_bound as is_bound_of, condition_check, conditions_check, columns_check, query_check, IsKnownBound, IsKnown, AreKnown};
ghost use Rattle.row_query.specs.Kinds.{has_kind as has_kind_of};
ghost use Rattle.row_query.specs.Refused.{IsRefused, IsSound};

use crate::fault::QueryFault;
use crate::query::{Cond, Query};
use keycode::{Text, Value};
use row_map::ColumnType;
use schema_version::{ElementDef, Schema, public_column_type};
use std::alloc::{AllocError, Global};

/// The numbers of the public columns of a table, rising.
pub(crate) fn public_numbers(
    alloc: Global,
    elements: &[ElementDef],
    table: u32,
) -> Result<Vec<u32>, AllocError>
    ensures { IfOk result (λ columns. columns.items ≡ public_numbers_of elements.now table) }
{
    elements
        .iter()
        .filter(|e| e.is_public_column(table))
        .map(|e| e.number)
        .collect(alloc)
}

/// Whether the value is of the kind, however long a text is: that no row holds one over 1,024 bytes
/// makes it no fault. Null is of no kind.
fn has_kind(kind: ColumnType, value: &Value) -> bool
    ensures test { result ≡ has_kind_of kind value.now }
    ensures known { IsValue value.now }
{
    match value {
        Value::Null => false,
        Value::Int(n) => {
            let _n = *n;
            matches!(kind, ColumnType::Int)
        }
        Value::Text(text) => {
            let _bytes = text.as_bytes();
            matches!(kind, ColumnType::Text)
        }
        Value::Bool(_) => matches!(kind, ColumnType::Bool),
    }
}

/// Whether the values are of the kinds of the table's key, one for each.
fn is_key_for(columns: &[(Text, ColumnType)], key: &[Value]) -> bool
    ensures test { result ≡ is_key_for_of columns.now key.now }
    ensures known { result ≡ true → AreValues key.now }
{
    if columns.len() != key.len() {
        return false;
    }
    for i in 0..key.len() {
        if !has_kind(columns[i].1, &key[i]) {
            return false;
        }
    }
    true
}

fn may_equal(kind: ColumnType, value: &Value) -> bool
    ensures test { result ≡ may_equal_of kind value.now }
    ensures known { IsValue value.now }
{
    has_kind(kind, value) || matches!(value, Value::Null)
}

fn is_bound(kind: ColumnType, bound: &Option<Value>) -> bool
    ensures test { result ≡ is_bound_of kind bound.now }
    ensures known { IsKnownBound bound.now }
{
    match bound {
        None => true,
        Some(value) => has_kind(kind, value),
    }
}

fn check_condition(
    elements: &[ElementDef],
    table: u32,
    key: &[(Text, ColumnType)],
    condition: &Cond,
) -> Result<(), QueryFault>
    ensures exact { result ≡ condition_check elements.now table key.now condition.now }
    ensures known { OnOk result (IsKnown condition.now) }
{
    let fitting = match condition {
        Cond::Key(wanted) => is_key_for(key, wanted.as_slice()),
        Cond::Equal { column, value } => match public_column_type(elements, table, *column) {
            None => return Err(QueryFault::NotPublic { column: *column }),
            Some(kind) => may_equal(kind, value),
        },
        Cond::Between { column, low, high } => match public_column_type(elements, table, *column) {
            None => return Err(QueryFault::NotPublic { column: *column }),
            Some(kind) => {
                let fits_low = is_bound(kind, low);
                let fits_high = is_bound(kind, high);
                fits_low && fits_high
            }
        },
    };
    if fitting {
        Ok(())
    } else {
        Err(QueryFault::WrongType)
    }
}

fn check_conditions(
    elements: &[ElementDef],
    table: u32,
    key: &[(Text, ColumnType)],
    conditions: &[Cond],
) -> Result<(), QueryFault>
    ensures exact { result ≡ conditions_check elements.now table key.now conditions.now }
    ensures known { OnOk result (AreKnown conditions.now) }
{
    for condition in conditions {
        check_condition(elements, table, key, condition)?;
    }
    Ok(())
}

fn check_columns(elements: &[ElementDef], table: u32, columns: &[u32]) -> Result<(), QueryFault>
    ensures { result ≡ columns_check elements.now table columns.now }
{
    for column in columns {
        if public_column_type(elements, table, *column).is_none() {
            return Err(QueryFault::NotPublic { column: *column });
        }
    }
    Ok(())
}

/// The query's fault.
fn check(schema: &Schema, query: &Query) -> Result<(), QueryFault>
    ensures exact { result ≡ query_check schema.now query.now }
    ensures known { OnOk result (AreKnown query.now.conditions) }
{
    let Some(key) = schema.key_of(query.table) else {
        return Err(QueryFault::NoTable);
    };
    let elements = schema.elements();
    check_columns(elements, query.table, query.columns.as_slice())?;
    check_conditions(elements, query.table, key, query.conditions.as_slice())
}

/// Looks for the query's fault before anything takes memory.
pub(crate) fn check_query(schema: &Schema, query: &Query) -> Result<(), QueryFault>
    ensures refused { IfErr result (λ fault. IsRefused schema.now query.now fault) }
    ensures sound { OnOk result (IsSound schema.now query.now) }
    ensures passed { OnOk result (query_check schema.now query.now ≡ Ok tt) }
    ensures known { OnOk result (AreKnown query.now.conditions) }
{
    schema.lemma_known();
    check(schema, query)
}
