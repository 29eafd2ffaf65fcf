//! The columns that transactions read.
ghost use Rattle.std.specs.Prelude.{◌≡◌};
ghost use Rattle.std.specs.List.{find};
ghost use Rattle.std.specs.Option.{option_copied};
ghost use Rattle.schema_version.specs.Columns.{is_shown as is_shown_of, column_type as column_type_of};

use crate::element::ElementDef;
use row_map::ColumnType;

fn is_shown(element: &ElementDef, table: u32, number: u32) -> bool
    ensures { result ≡ is_shown_of table number element.now }
{
    element.number == number && (element.table == table && element.state.is_public())
}

fn find_column(elements: &[ElementDef], table: u32, number: u32) -> Option<&ElementDef>
    ensures { option_copied result ≡ find (is_shown_of table number) elements.now }
{
    elements.iter().find(|e| is_shown(*e, table, number))
}

/// The type of the public column of this number in the table, among a version's elements; `None` if
/// the table has no such column, or transactions do not read it.
pub fn public_column_type(elements: &[ElementDef], table: u32, number: u32) -> Option<ColumnType>
    ensures { result ≡ column_type_of elements.now table number }
{
    find_column(elements, table, number)?.kind.column_type()
}
