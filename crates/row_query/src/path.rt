//! By which path the rows of a query are found.
ghost use Rattle.std.specs.Prelude.{◌≡◌, option_map};
ghost use Rattle.std.specs.List.{list_any, find};
ghost use Rattle.std.specs.Option.{option_copied};
ghost use Rattle.row_query.specs.inner.Bounds.{first_key, leading};
ghost use Rattle.row_query.specs.Path.{is_on_key as is_on_key_of, is_on as is_on_of, leads as leads_of, serves as serves_of, plain_path};

use crate::query::{Cond, Path, Query};
use keycode::Values;
use schema_version::{ElementDef, Kind, Schema};

fn is_on_key(condition: &Cond) -> bool
    ensures { result ≡ is_on_key_of condition.now }
{
    matches!(condition, Cond::Key(_))
}

/// The first key that is asked for.
pub(crate) fn wanted_key(conditions: &[Cond]) -> Option<&Values>
    ensures { option_map (λ k. k.now) result ≡ first_key conditions.now }
{
    for condition in conditions {
        if let Cond::Key(wanted) = condition {
            return Some(wanted);
        }
    }
    None
}

fn is_on(number: u32, condition: &Cond) -> bool
    ensures { result ≡ is_on_of number condition.now }
{
    match condition {
        Cond::Key(_) => false,
        Cond::Equal { column, .. } => *column == number,
        Cond::Between { column, .. } => *column == number,
    }
}

fn any_on(number: u32, conditions: &[Cond]) -> bool
    ensures { result ≡ list_any (is_on_of number) conditions.now }
{
    conditions.iter().any(|c| is_on(number, c))
}

fn first_on(number: u32, conditions: &[Cond]) -> Option<&Cond>
    ensures { option_copied result ≡ find (is_on_of number) conditions.now }
{
    conditions.iter().find(|c| is_on(number, *c))
}

fn leads(conditions: &[Cond], columns: &[u32]) -> bool
    ensures { result ≡ leads_of conditions.now columns.now }
{
    match columns {
        [] => false,
        [first, ..] => any_on(*first, conditions),
    }
}

/// The first condition on the first of these columns.
pub(crate) fn leading_condition<'a>(conditions: &'a [Cond], columns: &[u32]) -> Option<&'a Cond>
    ensures { option_copied result ≡ leading conditions.now columns.now }
{
    match columns {
        [] => None,
        [first, ..] => first_on(*first, conditions),
    }
}

fn serves(query: &Query, element: &ElementDef) -> bool
    ensures { result ≡ serves_of query.now element.now }
{
    element.table == query.table
        && element.state.is_public()
        && leads(query.conditions.as_slice(), element.kind.indexed_columns())
}

/// The least public index of the table whose first column has a condition.
pub(crate) fn serving_index<'a>(elements: &'a [ElementDef], query: &Query) -> Option<&'a ElementDef>
    ensures { option_copied result ≡ find (serves_of query.now) elements.now }
{
    elements.iter().find(|e| serves(query, *e))
}

fn has_key(conditions: &[Cond]) -> bool
    ensures { result ≡ list_any is_on_key_of conditions.now }
{
    conditions.iter().any(|c| is_on_key(c))
}

/// By which path `answer` finds the rows of `query` under the version `schema`: by the primary key
/// if a condition is on it; else by the least public index of the table whose first column has a
/// condition, as F1's queries read public elements alone (Rae et al., PVLDB 6(11), 2013); else by
/// going over the whole table. A query that `answer` refuses has a path too. Never refused, and
/// takes no memory.
pub fn path_of(schema: &Schema, query: &Query) -> Path
    ensures { result ≡ plain_path schema.now query.now }
{
    if has_key(query.conditions.as_slice()) {
        return Path::Key;
    }
    match serving_index(schema.elements(), query) {
        None => Path::Scan,
        Some(element) => Path::Index(element.number),
    }
}
