//! What a transaction reads.
ghost use Rattle.std.specs.Prelude.{◌≡◌, ◌↔◌, Some, IfOk, OnOk};
ghost use Rattle.std.specs.List.{filter_map};
ghost use Rattle.std.specs.FinMap as map;
ghost use Rattle.row_map.specs.Rows.{Bytes as ByteString};
ghost use Rattle.schema_version.specs.Shape.{public_column as public_column_of, column_types};
ghost use Rattle.row_write.specs.Plain.{table_of};
ghost use Rattle.row_write.specs.Reads.{IsRead};
ghost use Rattle.row_write.specs.inner.Enter.{entered, column_keys, op_keys, entered_all};
ghost use Rattle.row_write.specs.inner.View.{IsExistsKey};

use crate::lemmas::lemma_served;
use crate::op::RowOp;
use crate::public_columns::{own_elements, public_column};
use byte_map::{Bytes, KeyMap};
use row_keys::column_key_of;
use row_map::{ReadSet, exists_key};
use schema_version::{ElementDef, Schema};
use std::alloc::{AllocError, Global};

/// Enters the keys of the row's pairs for the public columns among these elements.
///
/// - `exists`: the key of the row's `exists` pair.
fn enter_among(
    alloc: Global,
    set: &mut ReadSet,
    op: &RowOp,
    exists: &Bytes,
    elements: &[ElementDef],
) -> Result<(), AllocError>
    requires { IsExistsKey op.now exists.now }
    ensures { OnOk result (set.new ≡ entered set.old (column_keys op.now (filter_map (public_column_of (table_of op.now)) elements.now))) }
{
    for element in elements {
        if let Some((number, _kind)) = public_column(element, op.table()) {
            set.insert(column_key_of(alloc, exists, number)?, ())?;
        }
    }
    Ok(())
}

/// Enters the keys of the row's pairs for the public columns of its table.
///
/// - `exists`: the key of the row's `exists` pair.
fn enter_columns(
    alloc: Global,
    set: &mut ReadSet,
    schema: &Schema,
    op: &RowOp,
    exists: &Bytes,
) -> Result<(), AllocError>
    requires { IsExistsKey op.now exists.now }
    ensures { OnOk result (set.new ≡ entered set.old (column_keys op.now (column_types schema.now (table_of op.now)))) }
{
    enter_among(alloc, set, op, exists, own_elements(schema, op.table()))
}

/// Enters the keys of an operation's row.
fn enter_row(
    alloc: Global,
    set: &mut ReadSet,
    schema: &Schema,
    op: &RowOp,
) -> Result<(), AllocError>
    ensures { OnOk result (set.new ≡ entered set.old (op_keys schema.now op.now)) }
{
    if schema.key_of(op.table()).is_none() {
        return Ok(());
    }
    let exists = exists_key(alloc, op.table(), op.key().as_slice())?;
    set.insert(exists.clone()?, ())?;
    enter_columns(alloc, set, schema, op, &exists)
}

fn read_set(alloc: Global, schema: &Schema, ops: &[RowOp]) -> Result<ReadSet, AllocError>
    ensures { IfOk result (λ set. set ≡ entered_all schema.now map.empty ops.now) }
{
    let mut set = KeyMap::new(alloc);
    for op in ops {
        enter_row(alloc, &mut set, schema, op)?;
    }
    Ok(set)
}

/// The keys that a transaction reads: for each operation's row the key of its `exists` pair and
/// those of its pairs for the public columns of its table. An operation on a table that the schema
/// lacks adds nothing. The only refusal is running out of memory.
pub fn reads_of(alloc: Global, schema: &Schema, ops: &[RowOp]) -> Result<ReadSet, AllocError>
    ensures { IfOk result (λ set. (key : ByteString) → (map.get set key ≡ Some tt) ↔ IsRead schema.now ops.now key) }
{
    lemma_served(schema);
    read_set(alloc, schema, ops)
}
