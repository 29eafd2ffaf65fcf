//! The elements of each table by themselves, so that a transaction walks past no other table's.
ghost use Rattle.std.specs.Prelude.{◌≡◌, ◌≤◌, length, filter, IfOk};
ghost use Rattle.schema_version.specs.Names.{max_tables};
ghost use Rattle.schema_version.specs.Version.{is_in, grouped};

use crate::element::ElementDef;
use crate::table::Columns;
use collections::List;
use std::alloc::{AllocError, Global};

// A copy of the table's own elements.
fn elements_in(
    alloc: Global,
    elements: &[ElementDef],
    table: u32,
) -> Result<List<ElementDef>, AllocError>
    ensures { IfOk result (λ own. own ≡ filter (is_in table) elements.now) }
{
    let mut own = Vec::new(alloc);
    for element in elements {
        if element.table == table {
            own.push(element.clone()?)?;
        }
    }
    Ok(List::new(own))
}

/// A copy of the elements of each table, in the tables' order. Refused only when out of memory.
pub(crate) fn by_table(
    alloc: Global,
    elements: &[ElementDef],
    tables: &[Columns],
) -> Result<Vec<List<ElementDef>>, AllocError>
    requires { length tables.now ≤ max_tables }
    ensures { IfOk result (λ groups. groups.items ≡ grouped 1 elements.now tables.now) }
{
    let mut groups = Vec::new(alloc);
    let mut number = 1;
    for _table in tables {
        groups.push(elements_in(alloc, elements, number)?)?;
        number += 1;
    }
    Ok(groups)
}
