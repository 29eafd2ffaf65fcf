//! The elements of a table, and its public columns.
ghost use Rattle.std.specs.Prelude.{◌≡◌, filter, IfOk};
ghost use Rattle.std.specs.List.{filter_map};
ghost use Rattle.schema_version.specs.Version.{is_in, live};
ghost use Rattle.schema_version.specs.Shape.{public_column as public_column_of, column_types};

use row_map::ColumnType;
use schema_version::{ElementDef, Schema};
use std::alloc::{AllocError, Global};

/// The number and the type of a public column of the table.
pub(crate) fn public_column(element: &ElementDef, table: u32) -> Option<(u32, ColumnType)>
    ensures { result ≡ public_column_of table element.now }
{
    if element.table != table || !element.state.is_public() {
        return None;
    }
    element
        .kind
        .column_type()
        .map(|kind| (element.number, kind))
}

/// The table's elements. Of a number that no table has it may give others.
pub(crate) fn own_elements(schema: &Schema, table: u32) -> &[ElementDef]
    ensures { filter (is_in table) result.now ≡ filter (is_in table) (live schema.now) }
{
    match schema.elements_of(table) {
        Some(own) => own,
        None => schema.elements(),
    }
}

// The numbers and the types of the table's public columns among these elements.
fn columns_among(
    alloc: Global,
    elements: &[ElementDef],
    table: u32,
) -> Result<Vec<(u32, ColumnType)>, AllocError>
    ensures { IfOk result (λ columns. columns.items ≡ filter_map (public_column_of table) elements.now) }
{
    elements
        .iter()
        .filter_map(|e| public_column(e, table))
        .collect(alloc)
}

/// The numbers and the types of a table's public columns, by rising number.
pub(crate) fn columns_of(
    alloc: Global,
    schema: &Schema,
    table: u32,
) -> Result<Vec<(u32, ColumnType)>, AllocError>
    ensures { IfOk result (λ columns. columns.items ≡ column_types schema.now table) }
{
    columns_among(alloc, own_elements(schema, table), table)
}
