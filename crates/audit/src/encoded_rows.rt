//! The rows that a store's pairs encode.
ghost use Rattle.std.specs.Prelude.{◌≡◌, false, ◌<◌, ◌^◌, ℕ, IfOk, IfSome, option_map, filter_map};
ghost use Rattle.keycode.specs.Valid.{AreShort, AreValues};
ghost use Rattle.row_map.specs.Keys.{IsKey, key_code, row_code};
ghost use Rattle.audit.specs.inner.OwnPairs.{IsOfNoRow};
ghost use Rattle.audit.specs.Encoded.{key_read, encoded as encoded_of, public_type as public_type_of, stored_cell as stored_cell_of, row_at as row_at_of, is_row as is_row_of};

use collections::List;
use keycode::{KeyFault, Value, Values};
use row_map::{
    ColumnType, KeyOf, Near, PairView, Row, column_key, exists_key, read_key, read_typed_value,
};
use schema_version::{ElementDef, Schema};
use std::alloc::{AllocError, Global};

/// What bytes are the key of, if they are a key. Refused only when out of memory.
///
/// - `key`: the key of a pair, in bytes.
pub fn key_of(alloc: Global, key: &[u8]) -> Result<Option<KeyOf>, AllocError>
    ensures read { IfOk result (λ found. found ≡ key_read key.now) }
    ensures encoded { IfOk result (λ found. IfSome found (λ k. IsKey k × (key.now ≡ key_code k))) }
{
    match read_key(alloc, key) {
        Ok(found) => Ok(Some(found)),
        Err(KeyFault::Memory) => Err(AllocError),
        Err(_) => Ok(None),
    }
}

// Whether bytes begin as the key of a row's own pair does. Those of others need not be read.
pub(crate) fn may_be_of_row(key: &[u8]) -> bool
    ensures { result ≡ false → IsOfNoRow (key_read key.now) }
{
    if key.is_empty() {
        return false;
    }
    key[0] == b'R'
}

// Whether the store has the `exists` pair of a row, where `at` encodes its key. No value or more
// than four are no row's key.
fn is_row_at<V: PairView>(view: &V, near: &mut Near, at: &[u8], key: &[Value]) -> bool
    requires values { AreValues key.now }
    requires short { AreShort key.now }
    ensures { (table : ℕ) → table < 2 ^ 32 → at.now ≡ row_code table key.now 0 → result ≡ is_row_of (V.pairs view.now) table key.now }
{
    if key.is_empty() || key.len() > 4 {
        return false;
    }
    view.get_near(at, near).is_some()
}

/// Whether the store has the `exists` pair of a row. Refused only when out of memory.
///
/// - `view`: the store.
/// - `near`: where the last look-up ended; the next one begins there.
/// - `table`: the number of the row's table.
/// - `key`: the values of the row's primary key.
pub fn is_row<V: PairView>(
    alloc: Global,
    view: &V,
    near: &mut Near,
    table: u32,
    key: &[Value],
) -> Result<bool, AllocError>
    requires values { AreValues key.now }
    requires short { AreShort key.now }
    ensures { IfOk result (λ there. there ≡ is_row_of (V.pairs view.now) table key.now) }
{
    let at = exists_key(alloc, table, key)?;
    Ok(is_row_at(view, near, at.as_slice(), key))
}

// The value of a pair, if it is just one value of the type.
fn decode_value(
    alloc: Global,
    kind: ColumnType,
    bytes: Option<&[u8]>,
) -> Result<Option<Value>, AllocError>
    ensures { IfOk result (λ value. value ≡ encoded_of kind (option_map (λ b. b.now) bytes.entry)) }
{
    match bytes {
        None => Ok(None),
        Some(bytes) => read_typed_value(alloc, kind, bytes),
    }
}

// The type of a public column of the table.
fn public_type(element: &ElementDef, table: u32) -> Option<ColumnType>
    ensures { result ≡ public_type_of table element.now }
{
    if element.table != table || !element.state.is_public() {
        return None;
    }
    element.kind.column_type()
}

// The cell that a row has for an element.
fn stored_cell<V: PairView>(
    alloc: Global,
    view: &V,
    near: &mut Near,
    table: u32,
    key: &[Value],
    element: &ElementDef,
) -> Result<Option<(u32, Value)>, AllocError>
    ensures { IfOk result (λ cell. cell ≡ stored_cell_of (V.pairs view.now) table key.now element.now) }
{
    let Some(kind) = public_type(element, table) else {
        return Ok(None);
    };
    let at = column_key(alloc, table, key, element.number)?;
    match decode_value(alloc, kind, view.get_near(at.as_slice(), near))? {
        Some(value) => Ok(Some((element.number, value))),
        None => Ok(None),
    }
}

fn stored_cells<V: PairView>(
    alloc: Global,
    elements: &[ElementDef],
    view: &V,
    near: &mut Near,
    table: u32,
    key: &[Value],
) -> Result<Vec<(u32, Value)>, AllocError>
    ensures { IfOk result (λ cells. cells.items ≡ filter_map (stored_cell_of (V.pairs view.now) table key.now) elements.now) }
{
    let mut cells = Vec::new(alloc);
    for element in elements {
        if let Some(cell) = stored_cell(alloc, view, near, table, key, element)? {
            cells.push(cell)?;
        }
    }
    Ok(cells)
}

fn copy_of(value: &Value) -> Result<Value, AllocError>
    ensures { IfOk result (λ copy. copy ≡ value.now) }
{
    value.clone()
}

// A copy of a key's values.
fn copy_values(alloc: Global, values: &[Value]) -> Result<Values, AllocError>
    ensures { IfOk result (λ copy. copy ≡ values.now) }
{
    let mut copy = Vec::with_capacity(alloc, values.len())?;
    for value in values {
        copy.push(copy_of(value)?)?;
    }
    Ok(List::new(copy))
}

/// The row of a primary key, as the store's pairs encode it: the values of its table's public
/// columns. Refused only when out of memory.
///
/// - `schema`: the version by which the pairs are read.
/// - `view`: the store.
/// - `near`: where the last look-up ended; the next one begins there.
/// - `table`: the number of the row's table.
/// - `key`: the values of the row's primary key.
pub fn row_at<V: PairView>(
    alloc: Global,
    schema: &Schema,
    view: &V,
    near: &mut Near,
    table: u32,
    key: &[Value],
) -> Result<Row, AllocError>
    ensures { IfOk result (λ row. row ≡ row_at_of schema.now (V.pairs view.now) table key.now) }
{
    let cells = stored_cells(alloc, schema.elements(), view, near, table, key)?;
    Ok(Row {
        key: copy_values(alloc, key)?,
        cells: List::new(cells),
    })
}
