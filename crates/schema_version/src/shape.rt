//! The shape of a table's rows in a version.
ghost use Rattle.std.specs.Prelude.{◌≡◌, IfOk};
ghost use Rattle.std.specs.List.{filter_map};
ghost use Rattle.schema_version.specs.Shape.{public_column as public_column_of, column_types, key_types as key_types_of, shape_of};

use crate::element::ElementDef;
use crate::schema::Schema;
use collections::List;
use keycode::Text;
use row_map::{ColumnType, TableShape};
use std::alloc::{AllocError, Global};

// The number and the type of a public column of the table.
fn public_column(element: &ElementDef, table: u32) -> Option<(u32, ColumnType)>
    ensures { result ≡ public_column_of table element.now }
{
    if element.table != table || !element.state.is_public() {
        return None;
    }
    element
        .kind
        .column_type()
        .map(|column_type| (element.number, column_type))
}

fn public_columns(
    alloc: Global,
    elements: &[ElementDef],
    table: u32,
) -> Result<Vec<(u32, ColumnType)>, AllocError>
    ensures { IfOk result (λ columns. columns.items ≡ filter_map (public_column_of table) elements.now) }
{
    elements
        .iter()
        .filter_map(|e| public_column(e, table))
        .collect(alloc)
}

fn key_types(alloc: Global, key: &[(Text, ColumnType)]) -> Result<Vec<ColumnType>, AllocError>
    ensures { IfOk result (λ types. types.items ≡ key_types_of key.now) }
{
    key.iter().map(|c| c.1).collect(alloc)
}

impl Schema {
    /// The shape of the table of this number: its key's types, and its public columns with their
    /// types by rising number. None if there is no such table. The only refusal is running out of
    /// memory.
    pub fn shape(&self, alloc: Global, table: u32) -> Result<Option<TableShape>, AllocError>
        ensures { IfOk result (λ shape. shape ≡ shape_of self.now table) }
    {
        let Some(key) = self.key_of(table) else {
            return Ok(None);
        };
        let key = key_types(alloc, key)?;
        let columns = public_columns(alloc, self.elements(), table)?;
        Ok(Some(TableShape {
            number: table,
            key: List::new(key),
            columns: List::new(columns),
        }))
    }
}
