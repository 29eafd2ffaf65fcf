//! The values that an operation gives a row's columns.
ghost use Rattle.std.specs.Prelude.{◌≡◌, None, option_map};
ghost use Rattle.std.specs.List.{list_any};
ghost use Rattle.std.specs.FinMap as map;
ghost use Rattle.element_state.specs.Column.{same_cell};
ghost use Rattle.element_state.specs.Operations.{cells_of};
ghost use Rattle.row_write.specs.Plain.{cell_of, with_cells};
ghost use Rattle.row_write.specs.inner.Changes.{last_named, is_named};

use element_state::cell;
use keycode::Value;
use row_map::Row;

/// The value, unless it is Null.
fn not_null(value: &Value) -> Option<&Value>
    ensures { option_map (λ v. v.now) result ≡ cell_of value.now }
{
    match value {
        Value::Null => None,
        Value::Int(_) | Value::Text(_) | Value::Bool(_) => Some(value),
    }
}

/// The value that the cells name for a column at last, unless it is Null; if they name none, the one
/// before.
fn last_cell<'a>(
    cells: &'a [(u32, Value)],
    column: u32,
    before: Option<&'a Value>,
) -> Option<&'a Value>
    ensures { option_map (λ v. v.now) result ≡ last_named column (option_map (λ v. v.now) before.entry) cells.now }
{
    let mut found = before;
    for (number, value) in cells {
        if column == *number {
            found = not_null(value);
        }
    }
    found
}

/// The value that a row of these cells has in a column, if it has one.
pub(crate) fn named<'a>(cells: &'a [(u32, Value)], column: u32) -> Option<&'a Value>
    ensures { option_map (λ v. v.now) result ≡ map.get (with_cells map.empty cells.now) column }
{
    last_cell(cells, column, None)
}

/// The value that a row has in a column after an update by these cells, if it has one.
pub(crate) fn updated<'a>(old: &'a Row, cells: &'a [(u32, Value)], column: u32) -> Option<&'a Value>
    ensures { option_map (λ v. v.now) result ≡ map.get (with_cells (cells_of old.now) cells.now) column }
{
    last_cell(cells, column, cell(old, column))
}

/// Whether the cells name a column.
pub(crate) fn names(cells: &[(u32, Value)], column: u32) -> bool
    ensures { result ≡ is_named cells.now column }
{
    cells.iter().any(|cell| column == cell.0)
}

/// Whether the cells name one of the columns.
pub(crate) fn names_any(cells: &[(u32, Value)], columns: &[u32]) -> bool
    ensures { result ≡ list_any (is_named cells.now) columns.now }
{
    columns.iter().any(|column| names(cells, *column))
}

/// Whether two rows have the same value in a column, or none.
pub(crate) fn is_same_cell(old: Option<&Value>, new: Option<&Value>) -> bool
    ensures { result ≡ same_cell (option_map (λ v. v.now) old.entry) (option_map (λ v. v.now) new.entry) }
{
    match (old, new) {
        (None, None) => true,
        (Some(old), Some(new)) => old.cmp(new).is_eq(),
        _ => false,
    }
}
