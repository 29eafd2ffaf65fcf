//! What became of a transaction.
use crate::entry::Receipt;
use row_write::RowFault;

/// What became of a transaction that could be committed.
#[derive(Drop)]
pub enum Committed {
    /// It is committed, and this is the receipt for its entry.
    Done(Receipt),
    /// The rows refuse it, and nothing changed.
    Refused {
        /// The first operation that is refused, counted from 0.
        op: usize,
        /// Why.
        why: RowFault,
    },
}
