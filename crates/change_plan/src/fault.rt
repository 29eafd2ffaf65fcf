//! Why a batch cannot be planned.
ghost use Rattle.std.specs.Prelude.{◌≡◌};
ghost use Rattle.change_plan.specs.declared.fault.PlanFault.TheVariants.{Memory};

use std::alloc::{AllocError, AllocFailed};
use thiserror::Error;

/// Why a batch can't be planned. Its first faulty change decides, by the lowest of its faults in
/// this order; Memory comes after all.
#[derive(Clone, Copy, Debug, PartialEq, Eq, Error)]
pub enum PlanFault {
    /// No such table, column or index, one that an earlier change drops or abandons already, a new
    /// column whose kind is an index, or an element to be abandoned that is public or being
    /// dropped.
    #[error("no such table, column or index")]
    Unknown,
    /// A key column or a live element of the table has the name, or an earlier change adds it.
    #[error("the name is taken")]
    NameTaken,
    /// The column is dropped or abandoned, and an index lists it that stays or is added; or a new
    /// index lists such a column.
    #[error("an index lists the column")]
    StillIndexed,
    /// The element to be dropped, or a column that a new index lists, isn't public. No change that
    /// abandons an element is refused so.
    #[error("an element is in change")]
    InChange,
    /// A name, a list of columns, a default or a count is outside its limits.
    #[error("a name, a list, a default or a count is over its limit")]
    Limit,
    #[error("out of memory")]
    Memory,
}

impl From<AllocError> for PlanFault {
    ghost from_gives = { λ _ e. e ≡ Memory };

    fn from(_error: AllocError) -> PlanFault {
        PlanFault::Memory
    }
}

impl<T: Drop> From<AllocFailed<T>> for PlanFault {
    ghost from_gives = { λ _ e. e ≡ Memory };

    fn from(_error: AllocFailed<T>) -> PlanFault {
        PlanFault::Memory
    }
}
