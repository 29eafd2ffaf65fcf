//! The rows that keys name.
ghost use Rattle.std.specs.Prelude.{◌≡◌, ◌==◌, IfOk, drop, option_map};
ghost use Rattle.std.specs.Option.{option_copied};
ghost use Rattle.audit.specs.Audit.{numbered};
ghost use Rattle.audit.specs.Encoded.{key_read};
ghost use Rattle.page_check.specs.Needs.{row_behind, row_named, row_range as row_range_of};

use audit::key_of;
use byte_map::Bytes;
use keycode::Value;
use row_ask::row_range;
use row_map::KeyOf;
use schema_version::{ElementDef, Schema};
use std::alloc::{AllocError, Global};

// The live element of this number.
pub(crate) fn find_element(schema: &Schema, number: u32) -> Option<&ElementDef>
    ensures { option_copied result ≡ numbered schema.now number }
{
    schema
        .elements()
        .iter()
        .find(|element| element.number == number)
}

// The values after the first `n`.
pub(crate) fn values_after(values: &[Value], n: usize) -> &[Value]
    ensures { result.now ≡ drop n values.now }
{
    &values[n.min(values.len())..]
}

// The range of the row whose pair it is in an index.
fn range_behind(
    alloc: Global,
    found: Option<&ElementDef>,
    values: &[Value],
) -> Result<Option<(Bytes, Bytes)>, AllocError>
    ensures { IfOk result (λ range. range ≡ option_map row_range_of (row_behind values.now (option_copied found.entry))) }
{
    match found {
        None => Ok(None),
        Some(element) => {
            let primary = values_after(values, element.kind.indexed_columns().len());
            Ok(Some(row_range(alloc, element.table, primary)?))
        }
    }
}

// The range of the row that a key names, by what it is the key of.
fn range_by(
    alloc: Global,
    schema: &Schema,
    read: &Option<KeyOf>,
) -> Result<Option<(Bytes, Bytes)>, AllocError>
    ensures { IfOk result (λ range. range ≡ option_map row_range_of (row_named schema.now read.now)) }
{
    match read {
        None => Ok(None),
        Some(KeyOf::Exists { table, key } | KeyOf::Column { table, key, .. }) => {
            Ok(Some(row_range(alloc, *table, key.as_slice())?))
        }
        Some(KeyOf::Index { element, values }) => {
            range_behind(alloc, find_element(schema, *element), values.as_slice())
        }
    }
}

// The range of the row that a key names.
pub(crate) fn range_named(
    alloc: Global,
    schema: &Schema,
    key: &[u8],
) -> Result<Option<(Bytes, Bytes)>, AllocError>
    ensures { IfOk result (λ range. range ≡ option_map row_range_of (row_named schema.now (key_read key.now))) }
{
    let read = key_of(alloc, key)?;
    range_by(alloc, schema, &read)
}
