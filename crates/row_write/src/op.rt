//! Operations on rows.
use crate::fault::RowFault;
use collections::List;
use keycode::{Value, Values};

/// An operation on one row. Tables and columns go by their numbers.
#[derive(Clone, PartialEq, Eq)]
pub enum RowOp {
    /// A new row, refused if there is a row of this key.
    Insert {
        /// The number of the table.
        table: u32,
        /// The primary key's values.
        key: Values,
        /// Columns with their values. Null means having none.
        cells: List<(u32, Value)>,
    },
    /// New values for some columns of a row, refused if there is no row of this key.
    Update {
        /// The number of the table.
        table: u32,
        /// The primary key's values.
        key: Values,
        /// Columns with their new values. Null takes the value away.
        cells: List<(u32, Value)>,
    },
    /// The end of a row, refused if there is no row of this key.
    Delete {
        /// The number of the table.
        table: u32,
        /// The primary key's values.
        key: Values,
    },
}

// By hand, so that a caller's proof sees one call and not each variant's.
impl Drop for RowOp {
    fn drop(self) {
        match self {
            RowOp::Insert {
                table: _,
                key: _,
                cells: _,
            }
            | RowOp::Update {
                table: _,
                key: _,
                cells: _,
            }
            | RowOp::Delete { table: _, key: _ } => {}
        }
    }
}

/// The operations of a transaction. They act in turn, each seeing the ones before.
pub type RowOps = List<RowOp>;

/// What plain rows say to a transaction.
#[derive(Clone, Copy, PartialEq, Eq)]
pub enum RowOutcome {
    /// Every operation is accepted.
    Done,
    /// This operation, counted from 0, is the first that is refused: the rows stay as before the
    /// first one.
    Refused {
        /// Its place.
        op: usize,
        /// Why.
        why: RowFault,
    },
}
