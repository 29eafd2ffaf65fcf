//! What the change of a row writes.
ghost use Rattle.std.specs.Prelude.{◌≡◌, IfSome, OnOk, option_map};
ghost use Rattle.row_map.specs.Writes.{noted};
ghost use Rattle.element_state.specs.Exists.{exists_by};
ghost use Rattle.element_state.specs.Kinds.{kind_meaning};
ghost use Rattle.element_state.specs.Sources.{source_in};
ghost use Rattle.element_state.specs.Operations.{cells_of};
ghost use Rattle.element_state.specs.Schemas.{version_writes};
ghost use Rattle.element_state.specs.Versions.{the_kinds, schema_of};
ghost use Rattle.row_write.specs.Plain.{key_of, row_of};
ghost use Rattle.row_write.specs.inner.Changes.{done_at, done_by, left_of, IsDone, IsKeyIn, IsUpdated};
ghost use Rattle.row_write.specs.inner.Run.{element_writes, live_writes};
ghost use Rattle.row_write.specs.inner.View.{IsExistsKey};

use crate::delete::delete_own;
use crate::insert::insert_own;
use crate::lemmas::lemma_served;
use crate::op::RowOp;
use crate::public_columns::own_elements;
use crate::update::{shared_row, update_own};
use byte_map::Bytes;
use row_map::{Batch, Row};
use schema_version::{ElementDef, Schema};
use std::alloc::{AllocError, Global};

/// Writes the row's `exists` pair.
fn write_exists(
    alloc: Global,
    op: &RowOp,
    exists: &Bytes,
    old: Option<&Row>,
    batch: &mut Batch,
) -> Result<(), AllocError>
    requires exists { IsExistsKey op.now exists.now }
    requires done { IsDone (option_map (λ r. cells_of r.now) old) op.now }
    ensures { OnOk result (batch.new ≡ noted batch.old (exists_by (row_of op.now) (option_map (λ r. cells_of r.now) old.entry) (left_of (option_map (λ r. cells_of r.now) old.entry) op.now))) }
{
    match (op, old) {
        (RowOp::Insert { .. }, None) => batch.put(exists.clone()?, Bytes::new(Vec::new(alloc))?),
        (RowOp::Delete { .. }, Some(_)) => batch.remove(exists.clone()?),
        (RowOp::Update { .. }, _)
        | (RowOp::Insert { .. }, Some(_))
        | (RowOp::Delete { .. }, None) => { Ok(()) }
    }
}

/// Writes what an element asks for, as if it were one of the row's table.
fn write_own(
    alloc: Global,
    schema: &Schema,
    definition: &ElementDef,
    op: &RowOp,
    exists: &Bytes,
    old: Option<&Row>,
    new: Option<&Row>,
    batch: &mut Batch,
) -> Result<(), AllocError>
    requires exists { IsKeyIn definition.now op.now exists.now }
    requires old { IfSome old (λ r. r.now.key ≡ key_of op.now) }
    requires new { IfSome old (λ o. IfSome new (λ n. IsUpdated o.now op.now n.now)) }
    requires done { IsDone (option_map (λ r. cells_of r.now) old) op.now }
    ensures { OnOk result (batch.new ≡ noted batch.old ((kind_meaning definition.now.number (source_in schema.now definition.now.kind)).writes definition.now.state (done_at (definition.now.table, key_of op.now) op.now (option_map (λ r. cells_of r.now) old.entry)))) }
{
    match (op, old) {
        (RowOp::Insert { .. }, None) => insert_own(alloc, schema, definition, op, exists, batch),
        (RowOp::Update { .. }, Some(old)) => {
            update_own(alloc, schema, definition, op, exists, old, new, batch)
        }
        (RowOp::Delete { .. }, Some(old)) => {
            delete_own(alloc, schema, definition, op, exists, old, batch)
        }
        (RowOp::Insert { .. }, Some(_)) | (RowOp::Update { .. } | RowOp::Delete { .. }, None) => {
            Ok(())
        }
    }
}

/// Writes what an element asks for. One of another table asks for nothing.
fn write_element(
    alloc: Global,
    schema: &Schema,
    definition: &ElementDef,
    op: &RowOp,
    exists: &Bytes,
    old: Option<&Row>,
    new: Option<&Row>,
    batch: &mut Batch,
) -> Result<(), AllocError>
    requires exists { IsExistsKey op.now exists.now }
    requires old { IfSome old (λ r. r.now.key ≡ key_of op.now) }
    requires new { IfSome old (λ o. IfSome new (λ n. IsUpdated o.now op.now n.now)) }
    requires done { IsDone (option_map (λ r. cells_of r.now) old) op.now }
    ensures { OnOk result (batch.new ≡ noted batch.old (element_writes schema.now definition.now (done_by op.now (option_map (λ r. cells_of r.now) old.entry)))) }
{
    if op.table() == definition.table {
        write_own(alloc, schema, definition, op, exists, old, new, batch)
    } else {
        Ok(())
    }
}

fn write_elements(
    alloc: Global,
    schema: &Schema,
    definitions: &[ElementDef],
    op: &RowOp,
    exists: &Bytes,
    old: Option<&Row>,
    new: Option<&Row>,
    batch: &mut Batch,
) -> Result<(), AllocError>
    requires exists { IsExistsKey op.now exists.now }
    requires old { IfSome old (λ r. r.now.key ≡ key_of op.now) }
    requires new { IfSome old (λ o. IfSome new (λ n. IsUpdated o.now op.now n.now)) }
    requires done { IsDone (option_map (λ r. cells_of r.now) old) op.now }
    ensures { OnOk result (batch.new ≡ noted batch.old (live_writes schema.now definitions.now (done_by op.now (option_map (λ r. cells_of r.now) old.entry)))) }
{
    for definition in definitions {
        write_element(alloc, schema, definition, op, exists, old, new, batch)?;
    }
    Ok(())
}

/// Writes what the operation's change of the old row asks for in the states of the schema. `exists` is
/// the key of its `exists` pair.
pub(crate) fn write_change(
    alloc: Global,
    schema: &Schema,
    op: &RowOp,
    exists: &Bytes,
    old: Option<&Row>,
    batch: &mut Batch,
) -> Result<(), AllocError>
    requires exists { IsExistsKey op.now exists.now }
    requires old { IfSome old (λ r. r.now.key ≡ key_of op.now) }
    requires done { IsDone (option_map (λ r. cells_of r.now) old) op.now }
    ensures { OnOk result (batch.new ≡ noted batch.old (version_writes the_kinds (schema_of schema.now) (done_by op.now (option_map (λ r. cells_of r.now) old.entry)))) }
{
    lemma_served(schema);
    write_exists(alloc, op, exists, old, batch)?;
    let own = own_elements(schema, op.table());
    let new = shared_row(own, op, old)?;
    write_elements(alloc, schema, own, op, exists, old, new.as_ref(), batch)
}
