//! The pairs of an element that no row gives it.
ghost use Rattle.std.specs.Prelude.{◌≡◌, IfOk, Some, None, drop, if◌then◌else◌};
ghost use Rattle.keycode.specs.Valid.{AreShort, AreValues};
ghost use Rattle.row_map.specs.Keys.{IsKey};
ghost use Rattle.audit.specs.Audit.{is_column_of_row as is_column_of_row_of, is_given as is_given_of, is_same_pair as is_same_pair_of, reason_by};
ghost use Rattle.element_check.specs.Check.{own_key};
ghost use Rattle.element_check.specs.inner.Made.{definition_of, IsMade};
ghost use Rattle.element_check.specs.inner.Judged.{extra_by};

use crate::made::{Made, pair_of};
use audit::is_row;
use byte_map::Bytes;
use keycode::Value;
use row_map::{KeyOf, Near, PairView};
use schema_version::{ElementDef, Schema};
use std::alloc::{AllocError, Global};

// The values after the first `n`.
fn values_after(values: &[Value], n: usize) -> &[Value]
    ensures { result.now ≡ drop n values.now }
{
    &values[n.min(values.len())..]
}

// Whether there is a pair, and it is this one.
fn is_same_pair(own: &Option<(Bytes, Bytes)>, pair: (&[u8], &[u8])) -> bool
    ensures { result ≡ is_same_pair_of own.now (pair.entry.0.now, pair.entry.1.now) }
{
    match own {
        None => false,
        Some((key, value)) => key.as_slice() == pair.0 && value.as_slice() == pair.1,
    }
}

// Whether a row of its table gives the element this pair: the row whose primary key is after the
// indexed values.
fn is_given<V: PairView>(
    alloc: Global,
    schema: &Schema,
    view: &V,
    near: &mut Near,
    made: &Made<'_>,
    values: &[Value],
    pair: (&[u8], &[u8]),
) -> Result<bool, AllocError>
    requires made { IsMade schema.now made.now }
    requires values { AreValues values.now }
    requires short { AreShort values.now }
    ensures { IfOk result (λ given. given ≡ is_given_of schema.now (V.pairs view.now) values.now (pair.entry.0.now, pair.entry.1.now) (definition_of made.now)) }
{
    let element = made.definition;
    let primary = values_after(values, element.kind.indexed_columns().len());
    if !is_row(alloc, view, near, element.table, primary)? {
        return Ok(false);
    }
    let own = pair_of(alloc, schema, view, near, made, primary)?;
    Ok(is_same_pair(&own, pair))
}

// Whether the element is a column of the table, and the row's `exists` pair is there.
fn is_column_of_row<V: PairView>(
    alloc: Global,
    view: &V,
    near: &mut Near,
    element: &ElementDef,
    table: u32,
    key: &[Value],
) -> Result<bool, AllocError>
    requires values { AreValues key.now }
    requires short { AreShort key.now }
    ensures { IfOk result (λ b. b ≡ is_column_of_row_of (V.pairs view.now) table key.now (Some element.now)) }
{
    if element.table != table || !element.kind.is_column() {
        return Ok(false);
    }
    is_row(alloc, view, near, table, key)
}

// Whether a row gives the element the pair of a key that is the element's.
fn has_reason<V: PairView>(
    alloc: Global,
    schema: &Schema,
    view: &V,
    near: &mut Near,
    made: &Made<'_>,
    key: &KeyOf,
    pair: (&[u8], &[u8]),
) -> Result<bool, AllocError>
    requires made { IsMade schema.now made.now }
    requires keyed { IsKey key.now }
    requires own { own_key (definition_of made.now) (Some key.now) ≡ Some key.now }
    ensures { IfOk result (λ b. b ≡ reason_by schema.now (V.pairs view.now) (pair.entry.0.now, pair.entry.1.now) (Some key.now)) }
{
    match key {
        KeyOf::Exists { .. } => Ok(true),
        KeyOf::Column { table, key, .. } => {
            is_column_of_row(alloc, view, near, made.definition, *table, key.as_slice())
        }
        KeyOf::Index { values, .. } => {
            is_given(alloc, schema, view, near, made, values.as_slice(), pair)
        }
    }
}

// Whether the key is one of the element's.
fn is_own(element: &ElementDef, key: &KeyOf) -> bool
    ensures { own_key element.now (Some key.now) ≡ (if result then Some key.now else None) }
{
    match key {
        KeyOf::Exists { .. } => false,
        KeyOf::Column {
            element: number,
            ..
        }
        | KeyOf::Index {
            element: number,
            ..
        } => *number == element.number,
    }
}

// The key of a pair, if it is the element's and no row gives it.
pub(crate) fn extra_key<V: PairView>(
    alloc: Global,
    schema: &Schema,
    view: &V,
    near: &mut Near,
    made: &Made<'_>,
    key: KeyOf,
    pair: (&[u8], &[u8]),
) -> Result<Option<KeyOf>, AllocError>
    requires made { IsMade schema.now made.now }
    requires keyed { IsKey key }
    ensures { IfOk result (λ found. found ≡ extra_by schema.now (V.pairs view.now) (definition_of made.now) (pair.entry.0.now, pair.entry.1.now) (Some key)) }
{
    if !is_own(made.definition, &key) {
        return Ok(None);
    }
    if has_reason(alloc, schema, view, near, made, &key, pair)? {
        Ok(None)
    } else {
        Ok(Some(key))
    }
}
