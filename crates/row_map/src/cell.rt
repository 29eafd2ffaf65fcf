//! The one value that bytes encode, as the pair of a column has it.
ghost use Rattle.std.specs.Prelude.{◌≡◌, ◌↔◌, IfOk, Some};
ghost use Rattle.keycode.specs.declared.value.Value.{Value};
ghost use Rattle.row_map.specs.Cell.{IsEncoding, IsTypedEncoding, only_value, of_type as of_type_of, typed_value};

use crate::shape::{ColumnType, fits};
use keycode::{KeyFault, Value, read_value};
use std::alloc::{AllocError, Global};

/// The one value that the bytes encode.
fn only(alloc: Global, bytes: &[u8]) -> Result<Option<Value>, AllocError>
    ensures { IfOk result (λ found. found ≡ only_value bytes.now) }
{
    match read_value(alloc, bytes) {
        Ok((value, [])) => Ok(Some(value)),
        Err(KeyFault::Memory) => Err(AllocError),
        _ => Ok(None),
    }
}

/// Reads the one value that `bytes` encode, or `None` if they encode no value, or have bytes after
/// one.
pub fn read_only_value(alloc: Global, bytes: &[u8]) -> Result<Option<Value>, AllocError>
    ensures encoded { IfOk result (λ found. (value : Value) → (found ≡ Some value) ↔ IsEncoding bytes.now value) }
    ensures exact { IfOk result (λ found. found ≡ only_value bytes.now) }
{
    only(alloc, bytes)
}

/// The value, if it is of the type.
fn of_type(kind: ColumnType, value: Option<Value>) -> Option<Value>
    ensures { result ≡ of_type_of kind value }
{
    match value {
        Some(value) if fits(kind, &value) => Some(value),
        _ => None,
    }
}

/// Reads the one value that `bytes` encode, if it is of the type `kind`, or `None` if they encode
/// no value, one of another type, or have bytes after one. Null is of no type, and a text has at
/// most 1,024 bytes.
pub fn read_typed_value(
    alloc: Global,
    kind: ColumnType,
    bytes: &[u8],
) -> Result<Option<Value>, AllocError>
    ensures encoded { IfOk result (λ found. (value : Value) → (found ≡ Some value) ↔ IsTypedEncoding kind bytes.now value) }
    ensures exact { IfOk result (λ found. found ≡ typed_value kind bytes.now) }
{
    let value = read_only_value(alloc, bytes)?;
    Ok(of_type(kind, value))
}
