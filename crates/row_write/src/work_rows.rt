//! Rows as they stand after some operations.
ghost use Rattle.std.specs.Prelude.{◌≡◌, OnOk, OnErr, IfSome, None, option_map};
ghost use Rattle.std.specs.FinMap as map;
ghost use Rattle.row_map.specs.Writes.{written};
ghost use Rattle.element_state.specs.Operations.{cells_of};
ghost use Rattle.row_write.specs.inner.WorkRows.{last_row};

use keycode::{Value, compare};
use row_map::Row;
use std::alloc::{AllocError, Global};
use std::marker::Model;

/// A row of a table, and whether it is there.
#[derive(Drop)]
pub(crate) struct RowVersion {
    pub(crate) table: u32,
    pub(crate) row: Row,
    pub(crate) there: bool,
}

/// Rows as they stand after some operations.
#[derive(Drop)]
pub(crate) struct WorkRows {
    /// In the order in which they came: the last of a row counts.
    row_versions: Vec<RowVersion>,
}

impl Model for WorkRows {
    ghost use Rattle.row_map.specs.Rows.{Rows};
    ghost use Rattle.row_write.specs.inner.RowCode.{rows_code};

    ghost Value = { Rows };

    ghost coded = { rows_code };

    ghost use Rattle.row_write.specs.inner.WorkRows.{rows_of};

    ghost view = { λ w. rows_of w.row_versions.items };
}

impl WorkRows {
    ghost use Rattle.row_write.specs.inner.WorkRows.{cells_if};

    pub(crate) fn new(alloc: Global) -> WorkRows
        ensures { result ≡ map.empty }
    {
        WorkRows {
            row_versions: Vec::new(alloc),
        }
    }

    /// The row of a key, if it is there.
    pub(crate) fn find(&self, table: u32, key: &[Value]) -> Option<&Row>
        ensures row { option_map (λ r. cells_of r.now) result ≡ map.get self.now (table, key.now) }
        ensures key { IfSome result (λ r. r.now.key ≡ key.now) }
    {
        last(self.row_versions.as_slice(), table, key)
    }

    /// Puts a row, or takes it away.
    pub(crate) fn put(&mut self, table: u32, row: Row, there: bool) -> Result<(), AllocError>
        ensures ok { OnOk result (self.new ≡ written self.old (table, row.key) (cells_if there row)) }
        ensures err { OnErr result (self.new ≡ self.old) }
    {
        self.row_versions.push(RowVersion { table, row, there })?;
        Ok(())
    }
}

/// The row as the last mention of it leaves it.
fn last<'a>(row_versions: &'a [RowVersion], table: u32, key: &[Value]) -> Option<&'a Row>
    ensures { option_map (λ r. r.now) result ≡ last_row table key.now None row_versions.now }
{
    let mut found = None;
    for row_version in row_versions {
        if row_version.table == table && compare(row_version.row.key.as_slice(), key).is_eq() {
            found = if row_version.there {
                Some(&row_version.row)
            } else {
                None
            };
        }
    }
    found
}
