//! What an update writes, from the row as it was and the operation's own cells: a new row is built of
//! them only if a column of an index is named.
ghost use Rattle.std.specs.Prelude.{◌≡◌, IfOk, IfSome, OnOk};
ghost use Rattle.row_map.specs.Writes.{noted};
ghost use Rattle.schema_version.specs.declared.element.Kind.TheVariants.{Index};
ghost use Rattle.element_state.specs.Column.{column_writes};
ghost use Rattle.element_state.specs.Required.{required_writes};
ghost use Rattle.element_state.specs.Kinds.{kind_meaning};
ghost use Rattle.element_state.specs.Sources.{source_in};
ghost use Rattle.element_state.specs.Operations.{cells_of};
ghost use Rattle.row_write.specs.Plain.{key_of};
ghost use Rattle.row_write.specs.inner.Changes.{update_at, IsKeyIn, IsUpdated};

use crate::edit::updated_row;
use crate::op::RowOp;
use crate::pairs::{put_cell, write_cell};
use crate::values::{is_same_cell, names_any, updated};
use byte_map::Bytes;
use element_state::{AnyElement, Element, cell};
use keycode::Value;
use row_map::{Batch, Row};
use schema_version::{ElementDef, ElementState, Kind, Schema};
use std::alloc::{AllocError, Global};

/// Writes what an optional column asks for, as if it were one of the row's table.
fn update_cell(
    alloc: Global,
    definition: &ElementDef,
    op: &RowOp,
    exists: &Bytes,
    old: &Row,
    batch: &mut Batch,
) -> Result<(), AllocError>
    requires { IsKeyIn definition.now op.now exists.now }
    ensures { OnOk result (batch.new ≡ noted batch.old (column_writes definition.now.number definition.now.state (update_at (definition.now.table, key_of op.now) (cells_of old.now) op.now))) }
{
    match definition.state {
        ElementState::Public => {
            let value = updated(old, op.cells(), definition.number);
            if is_same_cell(cell(old, definition.number), value) {
                return Ok(());
            }
            write_cell(alloc, definition, op, exists, value, batch)
        }
        ElementState::Absent | ElementState::DeleteOnly | ElementState::WriteOnly => Ok(()),
    }
}

/// Writes what a required column asks for, as if it were one of the row's table.
fn update_required(
    alloc: Global,
    definition: &ElementDef,
    op: &RowOp,
    exists: &Bytes,
    old: &Row,
    fallback: &Value,
    batch: &mut Batch,
) -> Result<(), AllocError>
    requires { IsKeyIn definition.now op.now exists.now }
    ensures { OnOk result (batch.new ≡ noted batch.old (required_writes definition.now.number fallback.now definition.now.state (update_at (definition.now.table, key_of op.now) (cells_of old.now) op.now))) }
{
    match definition.state {
        ElementState::Public => {
            let before = cell(old, definition.number).unwrap_or(fallback);
            let value = updated(old, op.cells(), definition.number).unwrap_or(fallback);
            if before.cmp(value).is_eq() {
                return Ok(());
            }
            put_cell(alloc, definition, op, exists, value, batch)
        }
        ElementState::Absent | ElementState::DeleteOnly | ElementState::WriteOnly => Ok(()),
    }
}

/// Writes what an element asks for, as if it were one of the row's table, by the new row.
fn update_row(
    alloc: Global,
    schema: &Schema,
    definition: &ElementDef,
    op: &RowOp,
    old: &Row,
    new: &Row,
    batch: &mut Batch,
) -> Result<(), AllocError>
    requires old { old.now.key ≡ key_of op.now }
    requires new { IsUpdated old.now op.now new.now }
    ensures { OnOk result (batch.new ≡ noted batch.old ((kind_meaning definition.now.number (source_in schema.now definition.now.kind)).writes definition.now.state (update_at (definition.now.table, key_of op.now) (cells_of old.now) op.now))) }
{
    let element = AnyElement::of(alloc, schema, definition)?;
    element.on_update(alloc, definition.state, old, new, batch)
}

/// Writes what an index over these columns asks for, as if it were one of the row's table.
fn update_index(
    alloc: Global,
    schema: &Schema,
    definition: &ElementDef,
    columns: &[u32],
    op: &RowOp,
    old: &Row,
    new: Option<&Row>,
    batch: &mut Batch,
) -> Result<(), AllocError>
    requires index { definition.now.kind ≡ Index columns.now }
    requires old { old.now.key ≡ key_of op.now }
    requires new { IfSome new (λ r. IsUpdated old.now op.now r.now) }
    ensures { OnOk result (batch.new ≡ noted batch.old ((kind_meaning definition.now.number (source_in schema.now definition.now.kind)).writes definition.now.state (update_at (definition.now.table, key_of op.now) (cells_of old.now) op.now))) }
{
    if !names_any(op.cells(), columns) {
        return Ok(());
    }
    match new {
        Some(new) => update_row(alloc, schema, definition, op, old, new, batch),
        None => {
            let new = updated_row(old, op.key(), op.cells())?;
            update_row(alloc, schema, definition, op, old, &new, batch)
        }
    }
}

/// Writes what an element asks for, as if it were one of the row's table.
pub(crate) fn update_own(
    alloc: Global,
    schema: &Schema,
    definition: &ElementDef,
    op: &RowOp,
    exists: &Bytes,
    old: &Row,
    new: Option<&Row>,
    batch: &mut Batch,
) -> Result<(), AllocError>
    requires exists { IsKeyIn definition.now op.now exists.now }
    requires old { old.now.key ≡ key_of op.now }
    requires new { IfSome new (λ r. IsUpdated old.now op.now r.now) }
    ensures { OnOk result (batch.new ≡ noted batch.old ((kind_meaning definition.now.number (source_in schema.now definition.now.kind)).writes definition.now.state (update_at (definition.now.table, key_of op.now) (cells_of old.now) op.now))) }
{
    match &definition.kind {
        Kind::Optional(_) => update_cell(alloc, definition, op, exists, old, batch),
        Kind::Required { fallback, .. } => {
            update_required(alloc, definition, op, exists, old, fallback, batch)
        }
        Kind::Index(columns) => {
            let columns = columns.as_slice();
            update_index(alloc, schema, definition, columns, op, old, new, batch)
        }
    }
}

// Whether the operation names a column of one of these indexes: it shows in the speed alone.
fn names_indexed(definitions: &[ElementDef], op: &RowOp) -> bool {
    definitions
        .iter()
        .any(|e| names_any(op.cells(), e.kind.indexed_columns()))
}

/// The new row, if an index may ask for it: all then share it.
pub(crate) fn shared_row(
    definitions: &[ElementDef],
    op: &RowOp,
    old: Option<&Row>,
) -> Result<Option<Row>, AllocError>
    ensures { IfOk result (λ new. IfSome old.entry (λ o. IfSome new (IsUpdated o.now op.now))) }
{
    match (op, old) {
        (RowOp::Update { key, cells, .. }, Some(old)) if names_indexed(definitions, op) => {
            Ok(Some(updated_row(old, key, cells.as_slice())?))
        }
        _ => Ok(None),
    }
}
