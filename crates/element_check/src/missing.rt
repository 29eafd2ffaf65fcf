//! The rows that lack their pair of an element.
ghost use Rattle.std.specs.Prelude.{◌≡◌, IfOk, Some};
ghost use Rattle.row_map.specs.declared.key.KeyOf.TheVariants.{Exists};
ghost use Rattle.audit.specs.Audit.{is_absent as is_absent_of};
ghost use Rattle.element_check.specs.Check.{has_value as has_value_of, missing_row as missing_row_of, row_lacks};
ghost use Rattle.element_check.specs.inner.Made.{definition_of, IsMade};

use crate::made::{Made, pair_of};
use byte_map::Bytes;
use keycode::{Value, Values};
use row_map::{ColumnType, Near, PairView, column_key, read_typed_value};
use schema_version::{ElementDef, Kind, Schema};
use std::alloc::{AllocError, Global};

// Whether there is a pair, and the store hasn't got it with just this value.
fn is_absent<V: PairView>(view: &V, pair: &Option<(Bytes, Bytes)>) -> bool
    ensures { result ≡ is_absent_of (V.pairs view.now) pair.now }
{
    match pair {
        None => false,
        Some((key, value)) => match view.get(key.as_slice()) {
            None => true,
            Some(found) => found != value.as_slice(),
        },
    }
}

// Whether the store has a value of the type for a row's column.
fn has_value<V: PairView>(
    alloc: Global,
    view: &V,
    near: &mut Near,
    element: &ElementDef,
    key: &[Value],
    kind: ColumnType,
) -> Result<bool, AllocError>
    ensures { IfOk result (λ there. there ≡ has_value_of (V.pairs view.now) element.now key.now kind) }
{
    let at = column_key(alloc, element.table, key, element.number)?;
    match view.get_near(at.as_slice(), near) {
        None => Ok(false),
        Some(bytes) => Ok(read_typed_value(alloc, kind, bytes)?.is_some()),
    }
}

// Whether a row of the element's table lacks its pair.
fn lacks<V: PairView>(
    alloc: Global,
    schema: &Schema,
    view: &V,
    near: &mut Near,
    made: &Made<'_>,
    key: &[Value],
) -> Result<bool, AllocError>
    requires { IsMade schema.now made.now }
    ensures { IfOk result (λ lacks. lacks ≡ row_lacks schema.now (V.pairs view.now) (definition_of made.now) key.now (definition_of made.now).kind) }
{
    let element = made.definition;
    match &element.kind {
        Kind::Index(_) => {
            let pair = pair_of(alloc, schema, view, near, made, key)?;
            Ok(is_absent(view, &pair))
        }
        Kind::Required { column, .. } => {
            Ok(!has_value(alloc, view, near, element, key, *column)?)
        }
        Kind::Optional(_) => Ok(false),
    }
}

// The primary key of a row that has its `exists` pair, if the row is of the element's table and
// lacks its pair.
pub(crate) fn missing_row<V: PairView>(
    alloc: Global,
    schema: &Schema,
    view: &V,
    near: &mut Near,
    made: &Made<'_>,
    table: u32,
    key: Values,
) -> Result<Option<Values>, AllocError>
    requires { IsMade schema.now made.now }
    ensures { IfOk result (λ row. row ≡ missing_row_of schema.now (V.pairs view.now) (definition_of made.now) (Some (Exists table key))) }
{
    if table != made.definition.table {
        return Ok(None);
    }
    if lacks(alloc, schema, view, near, made, key.as_slice())? {
        Ok(Some(key))
    } else {
        Ok(None)
    }
}
