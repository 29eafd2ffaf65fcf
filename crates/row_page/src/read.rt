//! Values and cells, read from pairs.
// `row_query` has the same private functions.
ghost use Rattle.std.specs.Prelude.{◌≡◌, option_map, IfOk, filter};
ghost use Rattle.std.specs.Ordering.{nat_cmp};
ghost use Rattle.std.specs.FinMap.{find};
ghost use Rattle.row_query.specs.Answer.{is_named};
ghost use Rattle.row_query.specs.inner.Found.{cells_in};

use collections::List;
use keycode::Value;
use row_map::{PairView, read_cell};
use std::alloc::{AllocError, Global};

/// The cells of a row in these columns.
pub(crate) fn cells<V: PairView>(
    alloc: Global,
    view: &V,
    table: u32,
    key: &[Value],
    columns: &[u32],
) -> Result<List<(u32, Value)>, AllocError>
    ensures { IfOk result (λ cs. cs ≡ cells_in (V.pairs view.now) table key.now columns.now) }
{
    let mut cells = Vec::new(alloc);
    for column in columns {
        if let Some(value) = read_cell(alloc, view, table, key, *column)? {
            cells.push((*column, value))?;
        }
    }
    Ok(List::new(cells))
}

/// The value of a column among cells.
pub(crate) fn value_among(cells: &[(u32, Value)], column: u32) -> Option<&Value>
    ensures { option_map (λ v. v.now) result ≡ find nat_cmp column cells.now }
{
    for (number, value) in cells {
        if column.cmp(number).is_eq() {
            return Some(value);
        }
    }
    None
}

pub(crate) fn is_listed(columns: &[u32], number: u32) -> bool
    ensures { result ≡ is_named columns.now number }
{
    for column in columns {
        if number == *column {
            return true;
        }
    }
    false
}

/// The cells of the named columns.
pub(crate) fn cut_to(
    alloc: Global,
    columns: &[u32],
    cells: List<(u32, Value)>,
) -> Result<List<(u32, Value)>, AllocError>
    ensures { IfOk result (λ cs. cs ≡ filter (λ cell. is_named columns.now cell.0) cells) }
{
    let mut named = Vec::new(alloc);
    for (number, value) in cells.into_vec() {
        if is_listed(columns, number) {
            named.push((number, value))?;
        }
    }
    Ok(List::new(named))
}
