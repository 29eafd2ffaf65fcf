//! Which columns a query may read.
// `row_query` has the same private function.
ghost use Rattle.std.specs.Prelude.{◌≡◌, IfOk};
ghost use Rattle.row_query.specs.inner.Checks.{public_numbers as public_numbers_of};

use schema_version::ElementDef;
use std::alloc::{AllocError, Global};

/// The numbers of the public columns of a table, rising.
pub(crate) fn public_numbers(
    alloc: Global,
    elements: &[ElementDef],
    table: u32,
) -> Result<Vec<u32>, AllocError>
    ensures { IfOk result (λ columns. columns.items ≡ public_numbers_of elements.now table) }
{
    elements
        .iter()
        .filter(|e| e.is_public_column(table))
        .map(|e| e.number)
        .collect(alloc)
}
