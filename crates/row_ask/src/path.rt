//! Which condition leads to the rows.
// `row_query` has the same private functions, but for `serving_index`.
ghost use Rattle.std.specs.Prelude.{◌≡◌, None, option_map};
ghost use Rattle.std.specs.List.{find};
ghost use Rattle.std.specs.Option.{option_copied};
ghost use Rattle.row_query.specs.inner.Bounds.{first_key, leading};
ghost use Rattle.row_query.specs.Path.{is_on as is_on_of, serves};
ghost use Rattle.schema_version.specs.Version.{live};

use keycode::Values;
use row_query::{Cond, Path, Query, path_of};
use schema_version::{ElementDef, Schema};

/// The first key that is asked for.
pub(crate) fn wanted_key(conditions: &[Cond]) -> Option<&Values>
    ensures { option_map (λ k. k.now) result ≡ first_key conditions.now }
{
    for condition in conditions {
        if let Cond::Key(wanted) = condition {
            return Some(wanted);
        }
    }
    None
}

fn is_on(number: u32, condition: &Cond) -> bool
    ensures { result ≡ is_on_of number condition.now }
{
    match condition {
        Cond::Key(_) => false,
        Cond::Equal { column, .. } => *column == number,
        Cond::Between { column, .. } => *column == number,
    }
}

fn first_on(number: u32, conditions: &[Cond]) -> Option<&Cond>
    ensures { option_copied result ≡ find (is_on_of number) conditions.now }
{
    conditions.iter().find(|c| is_on(number, *c))
}

/// The first condition on the first of these columns.
pub(crate) fn leading_condition<'a>(conditions: &'a [Cond], columns: &[u32]) -> Option<&'a Cond>
    ensures { option_copied result ≡ leading conditions.now columns.now }
{
    match columns {
        [] => None,
        [first, ..] => first_on(*first, conditions),
    }
}

/// The index by which a query without a key is answered.
pub(crate) fn serving_index<'a>(schema: &'a Schema, query: &Query) -> Option<&'a ElementDef>
    ensures { first_key query.now.conditions ≡ None → option_copied result ≡ find (serves query.now) (live schema.now) }
{
    schema.lemma_known();
    match path_of(schema, query) {
        Path::Key | Path::Scan => None,
        Path::Index(number) => schema.element(number),
    }
}
