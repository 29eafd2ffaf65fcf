//! Where the items of a reorganisation lie.
ghost use Rattle.std.specs.Prelude.{◌≡◌, ◌<◌, true, Some, IfOk};
ghost use Rattle.row_map.specs.declared.key.KeyOf.TheVariants.{Exists as ExistsKey};
ghost use Rattle.row_map.specs.Keys.{key_code, IsKey};
ghost use Rattle.reorganise.specs.ScanRanges.{scan_range_of as scan_range_for, prefix as prefix_bytes, prefix_end as prefix_end_bytes, start as front_of, end as back_of, is_item as is_item_key, row_at as row_of, IsItemKey};

use byte_map::Bytes;
use keycode::{KeyFault, Values};
use row_map::{KeyOf, read_key};
use schema_version::{ElementDef, Kind, Work};
use std::alloc::{AllocError, Global};

/// The keys that a reorganisation goes through.
#[derive(Clone, Copy, PartialEq, Eq)]
pub(crate) enum ScanRange {
    /// Those of the rows of a table, by its number.
    Rows(u32),
    /// Those of the pairs of an index, by its number.
    Entries(u32),
}

/// The scan range of a fill or a clear.
pub(crate) fn scan_range_of(element: &ElementDef, kind: Work) -> ScanRange
    ensures { result ≡ scan_range_for element.now kind }
{
    match kind {
        Work::Fill => ScanRange::Rows(element.table),
        Work::Clear => match element.kind {
            Kind::Index(_) => ScanRange::Entries(element.number),
            Kind::Optional(_) | Kind::Required { .. } => ScanRange::Rows(element.table),
        },
    }
}

/// A byte and a number of four bytes.
fn prefix(alloc: Global, tag: u8, number: u32) -> Result<Bytes, AllocError>
    ensures { IfOk result (λ bytes. bytes ≡ prefix_bytes tag number) }
{
    let mut out = Vec::new(alloc);
    out.push(tag)?;
    out.extend_from_slice(&number.to_be_bytes())?;
    Bytes::new(out)
}

/// The first key above all that begin with this byte and this number.
fn prefix_end(alloc: Global, tag: u8, number: u32) -> Result<Bytes, AllocError>
    requires { tag < 255 }
    ensures { IfOk result (λ bytes. bytes ≡ prefix_end_bytes tag number) }
{
    if number < u32::MAX {
        prefix(alloc, tag, number + 1)
    } else {
        let mut out = Vec::new(alloc);
        out.push(tag + 1)?;
        Bytes::new(out)
    }
}

/// The first key of the range.
pub(crate) fn start(alloc: Global, scan_range: ScanRange) -> Result<Bytes, AllocError>
    ensures { IfOk result (λ bytes. bytes ≡ front_of scan_range) }
{
    match scan_range {
        ScanRange::Rows(table) => prefix(alloc, b'R', table),
        ScanRange::Entries(element) => prefix(alloc, b'X', element),
    }
}

/// The key before which the range ends.
pub(crate) fn end(alloc: Global, scan_range: ScanRange) -> Result<Bytes, AllocError>
    ensures { IfOk result (λ bytes. bytes ≡ back_of scan_range) }
{
    match scan_range {
        ScanRange::Rows(table) => prefix_end(alloc, b'R', table),
        ScanRange::Entries(element) => prefix_end(alloc, b'X', element),
    }
}

/// The primary key of the row of the table whose `exists` pair has this key, if it is such a key.
pub(crate) fn row_at(alloc: Global, table: u32, key: &[u8]) -> Result<Option<Values>, AllocError>
    ensures { IfOk result (λ row. row ≡ row_of table key.now) }
{
    match read_key(alloc, key) {
        Err(KeyFault::Memory) => Err(AllocError),
        Ok(KeyOf::Exists { table: of, key }) => Ok(if of == table { Some(key) } else { None }),
        _ => Ok(None),
    }
}

/// Whether this is the key of an item.
pub(crate) fn is_item(alloc: Global, scan_range: ScanRange, key: &[u8]) -> Result<bool, AllocError>
    ensures test { IfOk result (λ b. b ≡ is_item_key scan_range key.now) }
    ensures known { IfOk result (λ b. b ≡ true → IsItemKey scan_range key.now) }
{
    match (scan_range, read_key(alloc, key)) {
        (_, Err(KeyFault::Memory)) => Err(AllocError),
        (ScanRange::Rows(of), Ok(KeyOf::Exists { table, .. })) => Ok(table == of),
        (ScanRange::Entries(of), Ok(KeyOf::Index { element, .. })) => Ok(element == of),
        _ => Ok(false),
    }
}
