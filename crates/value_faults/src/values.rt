//! Which value of a list is not one of its column's type.
ghost use Rattle.std.specs.Prelude.{◌≡◌, Option, None};
ghost use Rattle.keycode.specs.Valid.{IsValue, AreValues};
ghost use Rattle.row_query.specs.Kinds.{has_kind as has_kind_of};
ghost use Rattle.value_faults.specs.Faults.{type_given as type_given_of, wrong_at as wrong_at_of, wrong_key as wrong_key_of, wrong_for as wrong_for_of};
ghost use Rattle.value_faults.specs.inner.Found.{passes as passes_of};

use crate::fault::ValueCause;
use keycode::{Text, Value};
use row_map::{ColumnType, fits};

// Which values a place may hold.
#[derive(Clone, Copy)]
pub(crate) enum Rule {
    // A value of the type.
    Typed,
    // A value of the type, or Null.
    TypedOrNull,
    // A value of the kind: a text may have any length.
    Kind,
    // A value of the kind, or Null.
    KindOrNull,
}

// The type of a value; Null has none.
fn type_given(value: &Value) -> Option<ColumnType>
    ensures test { result ≡ type_given_of value.now }
    ensures known { IsValue value.now }
{
    match value {
        Value::Null => None,
        Value::Int(n) => {
            let _n = *n;
            Some(ColumnType::Int)
        }
        Value::Text(text) => {
            let _bytes = text.as_bytes();
            Some(ColumnType::Text)
        }
        Value::Bool(_) => Some(ColumnType::Bool),
    }
}

// Whether the value is of the kind, however long a text is.
fn has_kind(kind: ColumnType, value: &Value) -> bool
    ensures { result ≡ has_kind_of kind value.now }
{
    match value {
        Value::Null => false,
        Value::Int(_) => matches!(kind, ColumnType::Int),
        Value::Text(_) => matches!(kind, ColumnType::Text),
        Value::Bool(_) => matches!(kind, ColumnType::Bool),
    }
}

fn passes(rule: Rule, kind: ColumnType, value: &Value) -> bool
    ensures { result ≡ passes_of rule kind value.now }
{
    match rule {
        Rule::Typed => fits(kind, value),
        Rule::TypedOrNull => fits(kind, value) || matches!(value, Value::Null),
        Rule::Kind => has_kind(kind, value),
        Rule::KindOrNull => has_kind(kind, value) || matches!(value, Value::Null),
    }
}

// The value at this place of a key, if it is wrong.
fn wrong_at(rule: Rule, place: usize, wanted: ColumnType, value: &Value) -> Option<ValueCause>
    ensures test { result ≡ wrong_at_of (passes_of rule) place wanted value.now }
    ensures known { IsValue value.now }
{
    let given = type_given(value);
    if passes(rule, wanted, value) {
        None
    } else {
        Some(ValueCause::KeyValue {
            place,
            wanted,
            given,
        })
    }
}

// What is wrong with a key of the table.
pub(crate) fn wrong_key(
    rule: Rule,
    columns: &[(Text, ColumnType)],
    key: &[Value],
) -> Option<ValueCause>
    ensures test { result ≡ wrong_key_of (passes_of rule) columns.now key.now }
    ensures known { result ≡ None → AreValues key.now }
{
    if columns.len() != key.len() {
        return Some(ValueCause::KeyLength { given: key.len() });
    }
    for i in 0..key.len() {
        if let Some(cause) = wrong_at(rule, i, columns[i].1, &key[i]) {
            return Some(cause);
        }
    }
    None
}

// The value for this column, if it is wrong. None is, if the column has no type.
pub(crate) fn wrong_for(
    rule: Rule,
    column: u32,
    kind: Option<ColumnType>,
    value: &Value,
) -> Option<ValueCause>
    ensures test { result ≡ wrong_for_of (passes_of rule) column kind value.now }
    ensures known { IsValue value.now }
{
    let given = type_given(value);
    match kind {
        None => None,
        Some(wanted) => {
            if passes(rule, wanted, value) {
                None
            } else {
                Some(ValueCause::ColumnValue {
                    column,
                    wanted,
                    given,
                })
            }
        }
    }
}
