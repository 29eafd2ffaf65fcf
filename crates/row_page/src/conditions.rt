//! Whether a row meets conditions.
// `row_query` has the same private functions.
ghost use Rattle.std.specs.Prelude.{◌≡◌, option_map, unwrap_or};
ghost use Rattle.std.specs.Ordering.{is_eq};
ghost use Rattle.std.specs.List.{list_all};
ghost use Rattle.keycode.specs.declared.value.Value.TheVariants.{Null};
ghost use Rattle.keycode.specs.Order.{value_cmp};
ghost use Rattle.row_query.specs.Answer.{is_from, is_up_to, is_between, meets};
ghost use Rattle.row_query.specs.inner.Found.{value_in};

use crate::read::value_among;
use keycode::{Value, compare};
use row_query::Cond;

fn is_equal(value: Option<&Value>, wanted: &Value) -> bool
    ensures { result ≡ is_eq (value_cmp (unwrap_or (option_map (λ v. v.now) value.entry) Null) wanted.now) }
{
    match value {
        None => matches!(wanted, Value::Null),
        Some(value) => value.cmp(wanted).is_eq(),
    }
}

fn is_from_low(low: &Option<Value>, value: &Value) -> bool
    ensures { result ≡ is_from low.now value.now }
{
    match low {
        None => true,
        Some(low) => low.cmp(value).is_le(),
    }
}

fn is_up_to_high(high: &Option<Value>, value: &Value) -> bool
    ensures { result ≡ is_up_to high.now value.now }
{
    match high {
        None => true,
        Some(high) => value.cmp(high).is_le(),
    }
}

fn lies_between(low: &Option<Value>, high: &Option<Value>, value: Option<&Value>) -> bool
    ensures { result ≡ is_between low.now high.now (unwrap_or (option_map (λ v. v.now) value.entry) Null) }
{
    match value {
        None => false,
        Some(value) => {
            !matches!(value, Value::Null) && is_from_low(low, value) && is_up_to_high(high, value)
        }
    }
}

/// Whether a row meets a condition.
fn meets_one(key: &[Value], cells: &[(u32, Value)], condition: &Cond) -> bool
    ensures { result ≡ meets key.now (value_in cells.now) condition.now }
{
    match condition {
        Cond::Key(wanted) => compare(key, wanted.as_slice()).is_eq(),
        Cond::Equal { column, value } => is_equal(value_among(cells, *column), value),
        Cond::Between { column, low, high } => {
            lies_between(low, high, value_among(cells, *column))
        }
    }
}

/// Whether a row meets every condition.
pub(crate) fn meets_all(key: &[Value], cells: &[(u32, Value)], conditions: &[Cond]) -> bool
    ensures { result ≡ list_all (meets key.now (value_in cells.now)) conditions.now }
{
    for condition in conditions {
        if !meets_one(key, cells, condition) {
            return false;
        }
    }
    true
}
