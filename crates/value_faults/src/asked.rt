//! The first wrong value of a query.
ghost use Rattle.std.specs.Prelude.{◌≡◌, IfSome, IfNone};
ghost use Rattle.row_query.specs.declared.fault.QueryFault.TheVariants.{WrongType};
ghost use Rattle.row_query.specs.Refused.{IsRefused};
ghost use Rattle.value_faults.specs.Faults.{wrong_bound as wrong_bound_of, wrong_condition as wrong_condition_of, IsQueryFault};
ghost use Rattle.value_faults.specs.inner.Found.{names_hidden as names_hidden_of, is_hidden as is_hidden_of, condition_found as condition_found_of, conditions_found, query_found};

use crate::fault::{ValueCause, ValueFault};
use crate::finding::{Finding, of_cause};
use crate::values::{Rule, wrong_for, wrong_key};
use keycode::{Text, Value};
use row_map::ColumnType;
use row_query::{Cond, Query};
use schema_version::{ElementDef, Schema, public_column_type};

// Whether a named number is no public column of the table.
fn names_hidden(elements: &[ElementDef], table: u32, columns: &[u32]) -> bool
    ensures { result ≡ names_hidden_of elements.now table columns.now }
{
    for column in columns {
        if public_column_type(elements, table, *column).is_none() {
            return true;
        }
    }
    false
}

// Whether the condition is on what is no public column of the table.
fn is_hidden(elements: &[ElementDef], table: u32, condition: &Cond) -> bool
    ensures { result ≡ is_hidden_of elements.now table condition.now }
{
    match condition {
        Cond::Key(_) => false,
        Cond::Equal { column, .. } => public_column_type(elements, table, *column).is_none(),
        Cond::Between { column, .. } => public_column_type(elements, table, *column).is_none(),
    }
}

// A bound, if there is one and it is wrong.
fn wrong_bound(column: u32, kind: Option<ColumnType>, bound: &Option<Value>) -> Option<ValueCause>
    ensures { result ≡ wrong_bound_of column kind bound.now }
{
    match bound {
        None => None,
        Some(value) => wrong_for(Rule::Kind, column, kind, value),
    }
}

// What is wrong first with the values of a condition.
fn wrong_condition(
    columns: &[(Text, ColumnType)],
    elements: &[ElementDef],
    table: u32,
    condition: &Cond,
) -> Option<ValueCause>
    ensures { result ≡ wrong_condition_of columns.now elements.now table condition.now }
{
    match condition {
        Cond::Key(key) => wrong_key(Rule::Kind, columns, key.as_slice()),
        Cond::Equal { column, value } => {
            let kind = public_column_type(elements, table, *column);
            wrong_for(Rule::KindOrNull, *column, kind, value)
        }
        Cond::Between { column, low, high } => {
            let kind = public_column_type(elements, table, *column);
            if let Some(cause) = wrong_bound(*column, kind, low) {
                return Some(cause);
            }
            wrong_bound(*column, kind, high)
        }
    }
}

fn condition_found(
    columns: &[(Text, ColumnType)],
    elements: &[ElementDef],
    table: u32,
    condition: &Cond,
) -> Finding
    ensures { result ≡ condition_found_of columns.now elements.now table condition.now }
{
    if is_hidden(elements, table, condition) {
        return Finding::Other;
    }
    of_cause(wrong_condition(columns, elements, table, condition))
}

// The first condition with a fault, if that is a wrong value.
fn first_wrong(
    columns: &[(Text, ColumnType)],
    elements: &[ElementDef],
    table: u32,
    conditions: &[Cond],
) -> Option<ValueFault>
    ensures { result ≡ conditions_found 0 columns.now elements.now table conditions.now }
{
    for item in 0..conditions.len() {
        match condition_found(columns, elements, table, &conditions[item]) {
            Finding::Clear => {}
            Finding::Other => return None,
            Finding::Wrong(cause) => return Some(ValueFault { item, cause }),
        }
    }
    None
}

// The first fault of a query, if that is a wrong value.
fn find(schema: &Schema, query: &Query) -> Option<ValueFault>
    ensures { result ≡ query_found schema.now query.now }
{
    let Some(columns) = schema.key_of(query.table) else {
        return None;
    };
    let elements = schema.elements();
    if names_hidden(elements, query.table, query.columns.as_slice()) {
        return None;
    }
    first_wrong(columns, elements, query.table, query.conditions.as_slice())
}

/// The wrong value that a query is refused for: there is one exactly if `row_query::answer` refuses
/// the query by `WrongType`.
///
/// It is of the condition that decides. Of this condition it is the first of: its key has another
/// number of values than the table's key has columns; a value of its key is not of its column's
/// kind, as Null never is; the value of `Equal` is neither of the column's kind nor Null; the low
/// bound of `Between` is not of it; the high one is not. A text is of its kind however long it is.
/// The cause is never `NamedTwice`.
///
/// - `schema`: the version under which the query is to run.
/// - `query`: a table, columns and conditions.
///
/// It takes no memory.
pub fn query_fault(schema: &Schema, query: &Query) -> Option<ValueFault>
    ensures found { IfSome result (λ fault. IsQueryFault schema.now query.now fault) }
    ensures none { IfNone result (¬ (IsRefused schema.now query.now WrongType)) }
{
    schema.lemma_known();
    find(schema, query)
}
