//! Why rows refuse an operation, and why a transaction cannot be prepared.
ghost use Rattle.std.specs.Prelude.{◌≡◌};
ghost use Rattle.row_write.specs.declared.fault.PrepareFault.TheVariants.{Memory};

use std::alloc::{AllocError, AllocFailed};
use thiserror::Error;

/// Why rows refuse an operation.
#[derive(Clone, Copy, Debug, PartialEq, Eq, Error)]
pub enum RowFault {
    /// An insert of a key that is there.
    #[error("a row of this key is there")]
    Duplicate,
    /// An update or a delete of a key that is not there.
    #[error("no row of this key is there")]
    NoRow,
}

/// Why a transaction cannot be prepared. The first operation with one of the first three faults
/// decides by its lowest; the others come after them, in this order.
#[derive(Clone, Copy, Debug, PartialEq, Eq, Error)]
pub enum PrepareFault {
    /// The schema has no such table.
    #[error("no such table")]
    NoTable,
    /// A named column is not a public column of the table.
    #[error("element {column} is not a public column of the table")]
    NotPublic {
        /// The number that was named, the first such of the operation.
        column: u32,
    },
    /// A key or a value of another type than its column's, Null in the key, a text over 1,024
    /// bytes, or a column named twice.
    #[error("a value of another type, or a column named twice")]
    WrongType,
    /// More than 64 operations.
    #[error("more than 64 operations")]
    TooManyOps,
    /// The view has other keys than the transaction reads, or its pairs encode no row.
    #[error("the view is not what the transaction reads")]
    ViewMismatch,
    /// Out of memory, which may come in place of ViewMismatch.
    #[error("out of memory")]
    Memory,
}

impl From<AllocError> for PrepareFault {
    ghost from_gives = { λ _ e. e ≡ Memory };

    fn from(_e: AllocError) -> PrepareFault {
        PrepareFault::Memory
    }
}

impl<T: Drop> From<AllocFailed<T>> for PrepareFault {
    ghost from_gives = { λ _ e. e ≡ Memory };

    fn from(_e: AllocFailed<T>) -> PrepareFault {
        PrepareFault::Memory
    }
}
