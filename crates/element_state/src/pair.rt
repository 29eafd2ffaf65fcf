//! The pair of a row in a column.
ghost use Rattle.std.specs.Prelude.{◌≡◌, OnOk, OnErr, IfOk, Some, None};
ghost use Rattle.std.specs.FinMap as map;
ghost use Rattle.keycode.specs.Code.{code};
ghost use Rattle.element_state.specs.Column.{column_pair};

use byte_map::Bytes;
use keycode::{Value, Values, encode_int, push_value};
use row_map::{Batch, column_key};
use std::alloc::{AllocError, Global};

/// The code of a value, as the value of a pair. Running out of memory is the only refusal.
pub(crate) fn encode_value(alloc: Global, value: &Value) -> Result<Bytes, AllocError>
    ensures { IfOk result (λ bytes. bytes ≡ code value.now) }
{
    if let Value::Int(n) = value {
        return Bytes::from_slice(alloc, &encode_int(*n));
    }
    let mut out = Vec::new(alloc);
    push_value(&mut out, value)?;
    Bytes::new(out)
}

/// Notes that the pair of the row of a key gets a value, in the column `number` of `table`. Running
/// out of memory is the only refusal, and leaves the batch unchanged.
pub(crate) fn put(
    alloc: Global,
    table: u32,
    number: u32,
    key: &Values,
    value: &Value,
    batch: &mut Batch,
) -> Result<(), AllocError>
    ensures ok { OnOk result (batch.new ≡ map.insert batch.old (column_pair number (table, key.now)) (Some (code value.now))) }
    ensures err { OnErr result (batch.new ≡ batch.old) }
{
    let at = column_key(alloc, table, key.as_slice(), number)?;
    let bytes = encode_value(alloc, value)?;
    batch.put(at, bytes)
}

/// Notes that the pair of the row of a key goes, in the column `number` of `table`. Running out of
/// memory is the only refusal, and leaves the batch unchanged.
pub(crate) fn remove(
    alloc: Global,
    table: u32,
    number: u32,
    key: &Values,
    batch: &mut Batch,
) -> Result<(), AllocError>
    ensures ok { OnOk result (batch.new ≡ map.insert batch.old (column_pair number (table, key.now)) None) }
    ensures err { OnErr result (batch.new ≡ batch.old) }
{
    let at = column_key(alloc, table, key.as_slice(), number)?;
    batch.remove(at)
}
