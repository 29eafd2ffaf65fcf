//! The pair of the operation's row in a column.
ghost use Rattle.std.specs.Prelude.{◌≡◌, Some, None, IfOk, OnOk, option_map};
ghost use Rattle.std.specs.FinMap as map;
ghost use Rattle.keycode.specs.Code.{code};
ghost use Rattle.element_state.specs.Column.{column_pair, coded};
ghost use Rattle.row_write.specs.Plain.{key_of};
ghost use Rattle.row_write.specs.inner.Changes.{IsKeyIn};

use crate::op::RowOp;
use byte_map::Bytes;
use keycode::{Value, encode_int, push_value};
use row_keys::column_key_of;
use row_map::Batch;
use schema_version::ElementDef;
use std::alloc::{AllocError, Global};

// About how many bytes a value is encoded in: how far to trust it shows in the speed alone.
fn room(value: &Value) -> usize {
    match value {
        Value::Text(text) => text.as_bytes().len().saturating_add(3),
        Value::Null | Value::Int(_) | Value::Bool(_) => 9,
    }
}

/// The code of a value, as the value of a pair.
fn encode_value(alloc: Global, value: &Value) -> Result<Bytes, AllocError>
    ensures { IfOk result (λ bytes. bytes ≡ code value.now) }
{
    if let Value::Int(n) = value {
        return Bytes::from_slice(alloc, &encode_int(*n));
    }
    let mut out = Vec::with_capacity(alloc, room(value))?;
    push_value(&mut out, value)?;
    Bytes::new(out)
}

/// Writes the pair of a column in which the row has this value.
///
/// - `exists`: the key of the row's `exists` pair.
pub(crate) fn put_cell(
    alloc: Global,
    definition: &ElementDef,
    op: &RowOp,
    exists: &Bytes,
    value: &Value,
    batch: &mut Batch,
) -> Result<(), AllocError>
    requires { IsKeyIn definition.now op.now exists.now }
    ensures { OnOk result (batch.new ≡ map.insert batch.old (column_pair definition.now.number (definition.now.table, key_of op.now)) (Some (code value.now))) }
{
    let key = column_key_of(alloc, exists, definition.number)?;
    let bytes = encode_value(alloc, value)?;
    batch.put(key, bytes)
}

/// Takes the pair of a column away.
///
/// - `exists`: the key of the row's `exists` pair.
pub(crate) fn remove_cell(
    alloc: Global,
    definition: &ElementDef,
    op: &RowOp,
    exists: &Bytes,
    batch: &mut Batch,
) -> Result<(), AllocError>
    requires { IsKeyIn definition.now op.now exists.now }
    ensures { OnOk result (batch.new ≡ map.insert batch.old (column_pair definition.now.number (definition.now.table, key_of op.now)) None) }
{
    batch.remove(column_key_of(alloc, exists, definition.number)?)
}

/// Writes the pair of a column in which the row has this value, or takes it away if it has none.
///
/// - `exists`: the key of the row's `exists` pair.
pub(crate) fn write_cell(
    alloc: Global,
    definition: &ElementDef,
    op: &RowOp,
    exists: &Bytes,
    value: Option<&Value>,
    batch: &mut Batch,
) -> Result<(), AllocError>
    requires { IsKeyIn definition.now op.now exists.now }
    ensures { OnOk result (batch.new ≡ map.insert batch.old (column_pair definition.now.number (definition.now.table, key_of op.now)) (coded (option_map (λ v. v.now) value.entry))) }
{
    match value {
        Some(value) => put_cell(alloc, definition, op, exists, value, batch),
        None => remove_cell(alloc, definition, op, exists, batch),
    }
}
