//! The row that the walk over a store's pairs met last.
ghost use Rattle.std.specs.Prelude.{◌≡◌, IfOk};
ghost use Rattle.keycode.specs.Valid.{AreShort, AreValues};
ghost use Rattle.audit.specs.inner.Met.{IsThere, after, is_named};
ghost use Rattle.audit.specs.Encoded.{is_row as is_row_of};

use crate::encoded_rows::is_row;
use keycode::{Value, Values, compare};
use row_map::{KeyOf, Near, PairView};
use std::alloc::{AllocError, Global};

/// A row whose `exists` pair was met. The pairs of its columns come after that pair, and needn't
/// look it up.
#[derive(Drop)]
pub(crate) struct MetRow {
    /// The number of the table.
    pub(crate) table: u32,
    /// The values of the primary key.
    pub(crate) key: Values,
}

// Keeps the row, if this is the key of an `exists` pair.
pub(crate) fn remember(last: &mut Option<MetRow>, read: Option<KeyOf>)
    ensures { last.new ≡ after read last.old }
{
    if let Some(KeyOf::Exists { table, key }) = read {
        *last = Some(MetRow { table, key });
    }
}

// Whether the row that was met last is this one.
fn is_last(last: &Option<MetRow>, table: u32, key: &[Value]) -> bool
    ensures { result ≡ is_named last.now table key.now }
{
    match last {
        Some(row) => row.table == table && compare(row.key.as_slice(), key).is_eq(),
        None => false,
    }
}

// Whether the store has the `exists` pair of a row. That of the row that was met last isn't looked
// up.
pub(crate) fn is_there<V: PairView>(
    alloc: Global,
    view: &V,
    near: &mut Near,
    last: &Option<MetRow>,
    table: u32,
    key: &[Value],
) -> Result<bool, AllocError>
    requires there { IsThere (V.pairs view.now) last.now }
    requires values { AreValues key.now }
    requires short { AreShort key.now }
    ensures { IfOk result (λ there. there ≡ is_row_of (V.pairs view.now) table key.now) }
{
    if is_last(last, table, key) {
        Ok(true)
    } else {
        is_row(alloc, view, near, table, key)
    }
}
