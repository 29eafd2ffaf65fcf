//! The value of a row in a column, read from pairs.
ghost use Rattle.std.specs.Prelude.{◌≡◌, IfOk};
ghost use Rattle.row_map.specs.Cell.{cell_in};

use crate::cell::read_only_value;
use crate::key::column_key;
use crate::view::PairView;
use keycode::Value;
use std::alloc::{AllocError, Global};

/// Reads the value of the row of a primary key in a column, or `None` if it has no pair there or
/// the pair's bytes are not those of one value.
///
/// - `view`: the pairs.
/// - `table`: the number of the row's table.
/// - `key`: the values of its primary key.
/// - `column`: the column's element number.
///
/// Refused only when out of memory.
pub fn read_cell<V: PairView>(
    alloc: Global,
    view: &V,
    table: u32,
    key: &[Value],
    column: u32,
) -> Result<Option<Value>, AllocError>
    ensures { IfOk result (λ v. v ≡ cell_in (V.pairs view.now) table key.now column) }
{
    let name = column_key(alloc, table, key, column)?;
    match view.get(name.as_slice()) {
        None => Ok(None),
        Some(bytes) => read_only_value(alloc, bytes),
    }
}
