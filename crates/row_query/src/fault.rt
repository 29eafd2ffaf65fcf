//! Why a query is refused.
ghost use Rattle.std.specs.Prelude.{◌≡◌};
ghost use Rattle.row_query.specs.declared.fault.QueryFault.TheVariants.{Memory};

use std::alloc::AllocError;
use thiserror::Error;

/// Why a query is refused. After NoTable the named columns are looked at in their order, and then
/// the conditions in theirs: the first with a fault decides by its lowest.
#[derive(Clone, Copy, Debug, PartialEq, Eq, Error)]
pub enum QueryFault {
    /// The schema has no such table.
    #[error("no such table")]
    NoTable,
    /// A number is not that of a public column of the table.
    #[error("element {column} is not a public column of the table")]
    NotPublic {
        /// The number.
        column: u32,
    },
    /// A key of another number of values than the table's; a value of another kind than its
    /// column's; Null in a key or as a bound. A text over 1,024 bytes is a text like any other: no
    /// row holds it, and it is compared as any value is.
    #[error("a value of another type, or a null in a key or as a bound")]
    WrongType,
    /// Out of memory, which never is in place of another refusal.
    #[error("out of memory")]
    Memory,
}

impl From<AllocError> for QueryFault {
    ghost from_gives = { λ _ e. e ≡ Memory };

    fn from(_e: AllocError) -> QueryFault {
        QueryFault::Memory
    }
}
