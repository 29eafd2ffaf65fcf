//! Why a pair is in a store, each pair by itself.
// `element_check` has the same private functions, for one element.
ghost use Rattle.std.specs.Prelude.{◌≡◌, IfOk, IfSome};
ghost use Rattle.std.specs.Option.{option_copied};
ghost use Rattle.keycode.specs.Valid.{AreShort, AreValues};
ghost use Rattle.row_map.specs.Keys.{IsKey};
ghost use Rattle.audit.specs.Audit.{is_column_of_row as is_column_of_row_of, is_given as is_given_of, is_index_pair as is_index_pair_of, reason_by};

use crate::given::{given, is_same_pair};
use crate::named::{find_element, values_after};
use audit::{is_row, row_at};
use keycode::Value;
use row_map::{KeyOf, Near, PairView};
use schema_version::{ElementDef, Schema};
use std::alloc::{AllocError, Global};

// Whether there is such an element, it is a column of the table, and the row's `exists` pair is there.
fn is_column_of_row<V: PairView>(
    alloc: Global,
    view: &V,
    found: Option<&ElementDef>,
    table: u32,
    key: &[Value],
) -> Result<bool, AllocError>
    requires values { AreValues key.now }
    requires short { AreShort key.now }
    ensures { IfOk result (λ b. b ≡ is_column_of_row_of (V.pairs view.now) table key.now (option_copied found.entry)) }
{
    match found {
        None => Ok(false),
        Some(element) => {
            if element.table != table || !element.kind.is_column() {
                return Ok(false);
            }
            is_row(alloc, view, &mut Near::new(), table, key)
        }
    }
}

// Whether a row of its table gives the element this pair: the row whose primary key is after the
// indexed values.
fn is_given<V: PairView>(
    alloc: Global,
    schema: &Schema,
    view: &V,
    element: &ElementDef,
    values: &[Value],
    pair: (&[u8], &[u8]),
) -> Result<bool, AllocError>
    requires values { AreValues values.now }
    requires short { AreShort values.now }
    ensures { IfOk result (λ b. b ≡ is_given_of schema.now (V.pairs view.now) values.now (pair.entry.0.now, pair.entry.1.now) element.now) }
{
    let primary = values_after(values, element.kind.indexed_columns().len());
    let mut near = Near::new();
    if !is_row(alloc, view, &mut near, element.table, primary)? {
        return Ok(false);
    }
    let row = row_at(alloc, schema, view, &mut near, element.table, primary)?;
    let own = given(alloc, schema, element, &row)?;
    Ok(is_same_pair(&own, pair))
}

// The same, if there is such an element.
fn is_index_pair<V: PairView>(
    alloc: Global,
    schema: &Schema,
    view: &V,
    found: Option<&ElementDef>,
    values: &[Value],
    pair: (&[u8], &[u8]),
) -> Result<bool, AllocError>
    requires values { AreValues values.now }
    requires short { AreShort values.now }
    ensures { IfOk result (λ b. b ≡ is_index_pair_of schema.now (V.pairs view.now) values.now (pair.entry.0.now, pair.entry.1.now) (option_copied found.entry)) }
{
    match found {
        None => Ok(false),
        Some(element) => is_given(alloc, schema, view, element, values, pair),
    }
}

// Whether a pair is an `exists` pair, that of a live column of its table beside its row's `exists`
// pair, or the pair that a row gives a live index.
pub(crate) fn has_reason<V: PairView>(
    alloc: Global,
    schema: &Schema,
    view: &V,
    read: &Option<KeyOf>,
    pair: (&[u8], &[u8]),
) -> Result<bool, AllocError>
    requires { IfSome read.now IsKey }
    ensures { IfOk result (λ b. b ≡ reason_by schema.now (V.pairs view.now) (pair.entry.0.now, pair.entry.1.now) read.now) }
{
    match read {
        None => Ok(false),
        Some(KeyOf::Exists { .. }) => Ok(true),
        Some(
            KeyOf::Column {
                table,
                key,
                element,
            },
        ) => {
            let found = find_element(schema, *element);
            is_column_of_row(alloc, view, found, *table, key.as_slice())
        }
        Some(KeyOf::Index { element, values }) => {
            let found = find_element(schema, *element);
            is_index_pair(alloc, schema, view, found, values.as_slice(), pair)
        }
    }
}
