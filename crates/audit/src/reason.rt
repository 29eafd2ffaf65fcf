//! Why a pair is in a store.
ghost use Rattle.std.specs.Prelude.{◌≡◌, ◌==◌, IfOk, IfSome};
ghost use Rattle.std.specs.List.{find};
ghost use Rattle.std.specs.Option.{option_copied};
ghost use Rattle.keycode.specs.Valid.{AreShort, AreValues};
ghost use Rattle.row_map.specs.Keys.{IsKey};
ghost use Rattle.audit.specs.inner.Met.{IsThere};
ghost use Rattle.audit.specs.inner.Made.{definition_of, definition_in, AreMade};
ghost use Rattle.audit.specs.inner.RowCounts.{has_plain_reason as has_plain_reason_of};
ghost use Rattle.audit.specs.Audit.{is_column_of_row};

use crate::met::{MetRow, is_there};
use crate::wanted::Made;
use keycode::Value;
use row_map::{KeyOf, Near, PairView};
use schema_version::Schema;
use std::alloc::{AllocError, Global};

// The live element of this number.
fn find_element<'a, 'b>(elements: &'b [Made<'a>], number: u32) -> Option<&'b Made<'a>>
    ensures { option_copied result ≡ find (λ made. (definition_of made).number == number) elements.now }
{
    elements
        .iter()
        .find(|made| made.definition.number == number)
}

// Whether the element is a column of the table, beside whose row it stands.
fn is_column<V: PairView>(
    alloc: Global,
    view: &V,
    near: &mut Near,
    last: &Option<MetRow>,
    table: u32,
    primary: &[Value],
    found: Option<&Made<'_>>,
) -> Result<bool, AllocError>
    requires there { IsThere (V.pairs view.now) last.now }
    requires values { AreValues primary.now }
    requires short { AreShort primary.now }
    ensures { IfOk result (λ b. b ≡ is_column_of_row (V.pairs view.now) table primary.now (definition_in (option_copied found.entry))) }
{
    match found {
        None => Ok(false),
        Some(made) => {
            let element = made.definition;
            if element.table == table && element.kind.is_column() {
                is_there(alloc, view, near, last, table, primary)
            } else {
                Ok(false)
            }
        }
    }
}

// Whether the pair is an `exists` pair, or a live column's beside one. An index's pair is judged
// from the row that gives it.
pub(crate) fn has_plain_reason<V: PairView>(
    alloc: Global,
    schema: &Schema,
    view: &V,
    near: &mut Near,
    elements: &[Made<'_>],
    read: &Option<KeyOf>,
    last: &Option<MetRow>,
) -> Result<bool, AllocError>
    requires made { AreMade schema.now elements.now }
    requires there { IsThere (V.pairs view.now) last.now }
    requires keyed { IfSome read.now IsKey }
    ensures { IfOk result (λ b. b ≡ has_plain_reason_of schema.now (V.pairs view.now) read.now) }
{
    match read {
        Some(KeyOf::Exists { .. }) => Ok(true),
        Some(
            KeyOf::Column {
                table,
                key,
                element,
            },
        ) => {
            let found = find_element(elements, *element);
            is_column(alloc, view, near, last, *table, key.as_slice(), found)
        }
        _ => Ok(false),
    }
}
