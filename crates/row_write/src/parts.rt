//! The parts of an operation.
ghost use Rattle.std.specs.Prelude.{◌≡◌};
ghost use Rattle.row_write.specs.Plain.{table_of, key_of as key_of_op, named_of};

use crate::op::RowOp;
use keycode::{Value, Values};

impl RowOp {
    /// The number of its table.
    pub(crate) fn table(&self) -> u32
        ensures { result ≡ table_of self.now }
    {
        match self {
            RowOp::Insert { table, .. } => *table,
            RowOp::Update { table, .. } => *table,
            RowOp::Delete { table, .. } => *table,
        }
    }

    /// The primary key of its row.
    pub(crate) fn key(&self) -> &Values
        ensures { result.now ≡ key_of_op self.now }
    {
        match self {
            RowOp::Insert { key, .. } => key,
            RowOp::Update { key, .. } => key,
            RowOp::Delete { key, .. } => key,
        }
    }

    /// The cells that it names.
    pub(crate) fn cells(&self) -> &[(u32, Value)]
        ensures { result.now ≡ named_of self.now }
    {
        match self {
            RowOp::Insert { cells, .. } => cells.as_slice(),
            RowOp::Update { cells, .. } => cells.as_slice(),
            RowOp::Delete { .. } => &[],
        }
    }
}
