//! Where the walk of a page begins and ends.
ghost use Rattle.std.specs.Prelude.{◌≡◌, ◌∷◌, IfOk};
ghost use Rattle.std.specs.Int.{w32, to_be_bytes};
ghost use Rattle.row_page.specs.inner.Bounds.{low_bound, high_bound};

use byte_map::Bytes;
use keycode::Values;
use row_map::{column_key, exists_key};
use std::alloc::{AllocError, Global};

/// The first bytes of the keys of a table's rows.
fn prefix_of(alloc: Global, table: u32) -> Result<Vec<u8>, AllocError>
    ensures { IfOk result (λ bytes. bytes.items ≡ 82 ∷ to_be_bytes w32 table) }
{
    let mut out = Vec::new(alloc);
    out.push(b'R')?;
    out.extend_from_slice(&table.to_be_bytes())?;
    Ok(out)
}

/// The key from which on the rows after a key stand: above the row's own `exists` key, the first of
/// its pairs.
pub(crate) fn low_of(alloc: Global, table: u32, after: &Option<Values>) -> Result<Bytes, AllocError>
    ensures { IfOk result (λ bytes. bytes ≡ low_bound table after.now) }
{
    match after {
        None => Bytes::new(prefix_of(alloc, table)?),
        Some(key) => column_key(alloc, table, key.as_slice(), 1),
    }
}

/// The key below which the rows before a key stand.
pub(crate) fn high_of(
    alloc: Global,
    table: u32,
    before: &Option<Values>,
) -> Result<Bytes, AllocError>
    ensures { IfOk result (λ bytes. bytes ≡ high_bound table before.now) }
{
    match before {
        None => {
            let mut out = prefix_of(alloc, table)?;
            out.push(5)?;
            Bytes::new(out)
        }
        Some(key) => exists_key(alloc, table, key.as_slice()),
    }
}
