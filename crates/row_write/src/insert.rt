//! What an insert writes, from the operation's own key and cells: a row is built of them only for an
//! index over several columns, or over one in which it has no value.
ghost use Rattle.std.specs.Prelude.{◌≡◌, ◌∷◌, OnOk, IfSome};
ghost use Rattle.std.specs.FinMap as map;
ghost use Rattle.row_map.specs.Keys.{index_code};
ghost use Rattle.row_map.specs.Writes.{noted};
ghost use Rattle.element_state.specs.Column.{column_writes};
ghost use Rattle.element_state.specs.Required.{required_writes};
ghost use Rattle.element_state.specs.Kinds.{kind_meaning};
ghost use Rattle.element_state.specs.Sources.{source_in};
ghost use Rattle.row_write.specs.Plain.{with_cells, key_of, named_of};
ghost use Rattle.row_write.specs.inner.Changes.{IsKeyIn, IsOnlyIndexed, insert_at, put_writes};

use crate::edit::inserted_row;
use crate::op::RowOp;
use crate::pairs::put_cell;
use crate::values::named;
use byte_map::Bytes;
use element_state::{AnyElement, Element};
use keycode::{Value, Values};
use row_map::{Batch, index_key};
use schema_version::{ElementDef, ElementState, Kind, Schema};
use std::alloc::{AllocError, Global};
use std::slice::from_ref;

/// The value that the operation names for the only column of an index.
fn only_named<'a>(kind: &Kind, op: &'a RowOp) -> Option<&'a Value>
    ensures { IfSome result (λ v. IsOnlyIndexed kind.now (with_cells map.empty (named_of op.now)) v.now) }
{
    let Kind::Index(columns) = kind else {
        return None;
    };
    let [column] = columns.as_slice() else {
        return None;
    };
    named(op.cells(), *column)
}

/// Writes what an optional column asks for, as if it were one of the row's table.
fn insert_cell(
    alloc: Global,
    definition: &ElementDef,
    op: &RowOp,
    exists: &Bytes,
    batch: &mut Batch,
) -> Result<(), AllocError>
    requires { IsKeyIn definition.now op.now exists.now }
    ensures { OnOk result (batch.new ≡ noted batch.old (column_writes definition.now.number definition.now.state (insert_at (definition.now.table, key_of op.now) op.now))) }
{
    match definition.state {
        ElementState::Public => match named(op.cells(), definition.number) {
            None => Ok(()),
            Some(value) => put_cell(alloc, definition, op, exists, value, batch),
        },
        ElementState::Absent | ElementState::DeleteOnly | ElementState::WriteOnly => Ok(()),
    }
}

/// Writes what a required column asks for, as if it were one of the row's table.
fn insert_required(
    alloc: Global,
    definition: &ElementDef,
    op: &RowOp,
    exists: &Bytes,
    fallback: &Value,
    batch: &mut Batch,
) -> Result<(), AllocError>
    requires { IsKeyIn definition.now op.now exists.now }
    ensures { OnOk result (batch.new ≡ noted batch.old (required_writes definition.now.number fallback.now definition.now.state (insert_at (definition.now.table, key_of op.now) op.now))) }
{
    match definition.state {
        ElementState::Absent | ElementState::DeleteOnly => Ok(()),
        ElementState::WriteOnly => put_cell(alloc, definition, op, exists, fallback, batch),
        ElementState::Public => {
            let value = named(op.cells(), definition.number).unwrap_or(fallback);
            put_cell(alloc, definition, op, exists, value, batch)
        }
    }
}

/// Writes the pair of a new row of this key for an index over one column, in which the row has this
/// value.
fn put_indexed(
    alloc: Global,
    definition: &ElementDef,
    value: &Value,
    key: &Values,
    batch: &mut Batch,
) -> Result<(), AllocError>
    ensures { OnOk result (batch.new ≡ noted batch.old (put_writes definition.now.state (index_code definition.now.number (value.now ∷ key.now)))) }
{
    match definition.state {
        ElementState::Absent | ElementState::DeleteOnly => Ok(()),
        ElementState::WriteOnly | ElementState::Public => {
            let key = index_key(alloc, definition.number, from_ref(value), key.as_slice())?;
            batch.put(key, Bytes::new(Vec::new(alloc))?)
        }
    }
}

/// Writes what an element asks for, as if it were one of the row's table, by the new row.
fn insert_row(
    alloc: Global,
    schema: &Schema,
    definition: &ElementDef,
    op: &RowOp,
    batch: &mut Batch,
) -> Result<(), AllocError>
    ensures { OnOk result (batch.new ≡ noted batch.old ((kind_meaning definition.now.number (source_in schema.now definition.now.kind)).writes definition.now.state (insert_at (definition.now.table, key_of op.now) op.now))) }
{
    let row = inserted_row(alloc, op.key(), op.cells())?;
    let element = AnyElement::of(alloc, schema, definition)?;
    element.on_insert(alloc, definition.state, &row, batch)
}

/// Writes what an index asks for, as if it were one of the row's table.
fn insert_index(
    alloc: Global,
    schema: &Schema,
    definition: &ElementDef,
    op: &RowOp,
    batch: &mut Batch,
) -> Result<(), AllocError>
    ensures { OnOk result (batch.new ≡ noted batch.old ((kind_meaning definition.now.number (source_in schema.now definition.now.kind)).writes definition.now.state (insert_at (definition.now.table, key_of op.now) op.now))) }
{
    // Most indexes have one column, and need no row.
    match only_named(&definition.kind, op) {
        Some(value) => put_indexed(alloc, definition, value, op.key(), batch),
        None => insert_row(alloc, schema, definition, op, batch),
    }
}

/// Writes what an element asks for, as if it were one of the row's table.
pub(crate) fn insert_own(
    alloc: Global,
    schema: &Schema,
    definition: &ElementDef,
    op: &RowOp,
    exists: &Bytes,
    batch: &mut Batch,
) -> Result<(), AllocError>
    requires { IsKeyIn definition.now op.now exists.now }
    ensures { OnOk result (batch.new ≡ noted batch.old ((kind_meaning definition.now.number (source_in schema.now definition.now.kind)).writes definition.now.state (insert_at (definition.now.table, key_of op.now) op.now))) }
{
    match &definition.kind {
        Kind::Optional(_) => insert_cell(alloc, definition, op, exists, batch),
        Kind::Required { fallback, .. } => {
            insert_required(alloc, definition, op, exists, fallback, batch)
        }
        Kind::Index(_) => insert_index(alloc, schema, definition, op, batch),
    }
}
