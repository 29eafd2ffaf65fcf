//! What a delete writes.
ghost use Rattle.std.specs.Prelude.{◌≡◌, OnOk};
ghost use Rattle.keycode.specs.declared.value.Value.{Value};
ghost use Rattle.row_map.specs.Rows.{Cells};
ghost use Rattle.row_map.specs.Writes.{noted};
ghost use Rattle.element_state.specs.Column.{column_writes};
ghost use Rattle.element_state.specs.Required.{required_writes};
ghost use Rattle.element_state.specs.Kinds.{kind_meaning};
ghost use Rattle.element_state.specs.Sources.{source_in};
ghost use Rattle.element_state.specs.Operations.{cells_of};
ghost use Rattle.row_write.specs.Plain.{key_of};
ghost use Rattle.row_write.specs.inner.Changes.{IsKeyIn, delete_at};

use crate::op::RowOp;
use crate::pairs::remove_cell;
use byte_map::Bytes;
use element_state::{AnyElement, Element};
use row_map::{Batch, Row};
use schema_version::{ElementDef, ElementState, Kind, Schema};
use std::alloc::{AllocError, Global};

/// Writes what a column asks for, as if it were one of the row's table.
fn delete_cell(
    alloc: Global,
    definition: &ElementDef,
    op: &RowOp,
    exists: &Bytes,
    batch: &mut Batch,
) -> Result<(), AllocError>
    requires { IsKeyIn definition.now op.now exists.now }
    ensures optional { OnOk result ((cells : Cells) → batch.new ≡ noted batch.old (column_writes definition.now.number definition.now.state (delete_at (definition.now.table, key_of op.now) cells))) }
    ensures required { OnOk result ((cells : Cells) (fallback : Value) → batch.new ≡ noted batch.old (required_writes definition.now.number fallback definition.now.state (delete_at (definition.now.table, key_of op.now) cells))) }
{
    match definition.state {
        ElementState::Absent => Ok(()),
        ElementState::DeleteOnly | ElementState::WriteOnly | ElementState::Public => {
            remove_cell(alloc, definition, op, exists, batch)
        }
    }
}

/// Writes what an index asks for, as if it were one of the row's table.
fn delete_indexed(
    alloc: Global,
    schema: &Schema,
    definition: &ElementDef,
    op: &RowOp,
    old: &Row,
    batch: &mut Batch,
) -> Result<(), AllocError>
    requires { old.now.key ≡ key_of op.now }
    ensures { OnOk result (batch.new ≡ noted batch.old ((kind_meaning definition.now.number (source_in schema.now definition.now.kind)).writes definition.now.state (delete_at (definition.now.table, key_of op.now) (cells_of old.now)))) }
{
    let element = AnyElement::of(alloc, schema, definition)?;
    element.on_delete(alloc, definition.state, old, batch)
}

/// Writes what an element asks for, as if it were one of the row's table.
///
/// - `exists`: the key of the row's `exists` pair.
pub(crate) fn delete_own(
    alloc: Global,
    schema: &Schema,
    definition: &ElementDef,
    op: &RowOp,
    exists: &Bytes,
    old: &Row,
    batch: &mut Batch,
) -> Result<(), AllocError>
    requires exists { IsKeyIn definition.now op.now exists.now }
    requires old { old.now.key ≡ key_of op.now }
    ensures { OnOk result (batch.new ≡ noted batch.old ((kind_meaning definition.now.number (source_in schema.now definition.now.kind)).writes definition.now.state (delete_at (definition.now.table, key_of op.now) (cells_of old.now)))) }
{
    match &definition.kind {
        Kind::Optional(_) | Kind::Required { .. } => {
            delete_cell(alloc, definition, op, exists, batch)
        }
        Kind::Index(_) => delete_indexed(alloc, schema, definition, op, old, batch),
    }
}
