//! The element of a check, and the pair that it gives a row.
ghost use Rattle.std.specs.Prelude.{◌≡◌, IfOk, Some};
ghost use Rattle.audit.specs.Audit.{given as given_of, numbered};
ghost use Rattle.audit.specs.Encoded.{row_at as row_at_of};
ghost use Rattle.element_check.specs.inner.Made.{definition_of, given_by, IsMade};

use audit::row_at;
use byte_map::Bytes;
use element_state::{AnyElement, Element};
use keycode::Value;
use row_map::{Near, PairView, Row};
use schema_version::{ElementDef, Schema};
use std::alloc::{AllocError, Global};

/// A live element of a version, made once for all rows.
#[derive(Drop)]
pub(crate) struct Made<'a> {
    /// What the version says of it.
    pub(crate) definition: &'a ElementDef,
    /// What gives rows their pairs for it, with the default of the version for values that a row
    /// lacks.
    pub(crate) element: AnyElement,
}

pub(crate) fn make<'a>(
    alloc: Global,
    schema: &Schema,
    definition: &'a ElementDef,
) -> Result<Made<'a>, AllocError>
    requires { numbered schema.now definition.now.number ≡ Some definition.now }
    ensures definition { IfOk result (λ made. definition_of made ≡ definition.now) }
    ensures made { IfOk result (λ made. IsMade schema.now made) }
{
    Ok(Made {
        definition,
        element: AnyElement::of(alloc, schema, definition)?,
    })
}

// The pair that the element gives a row of its table, if it is an index or a required column.
fn given(alloc: Global, made: &Made<'_>, row: &Row) -> Result<Option<(Bytes, Bytes)>, AllocError>
    ensures { IfOk result (λ pair. pair ≡ given_by made.now row.now) }
{
    made.element.fill_of(alloc, row)
}

// The same of the row of a primary key, as the store's pairs encode it.
pub(crate) fn pair_of<V: PairView>(
    alloc: Global,
    schema: &Schema,
    view: &V,
    near: &mut Near,
    made: &Made<'_>,
    key: &[Value],
) -> Result<Option<(Bytes, Bytes)>, AllocError>
    requires { IsMade schema.now made.now }
    ensures { IfOk result (λ pair. pair ≡ given_of schema.now (definition_of made.now) (row_at_of schema.now (V.pairs view.now) (definition_of made.now).table key.now)) }
{
    let row = row_at(alloc, schema, view, near, made.definition.table, key)?;
    given(alloc, made, &row)
}
