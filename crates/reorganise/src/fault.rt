//! Why a piece is not read.
ghost use Rattle.std.specs.Prelude.{◌≡◌};
ghost use Rattle.reorganise.specs.declared.fault.ViewFault.TheVariants.{Memory};

use std::alloc::{AllocError, AllocFailed};
use thiserror::Error;

/// Why a piece is not read, in the order in which the faults are looked for.
#[derive(Clone, Copy, Debug, PartialEq, Eq, Error)]
pub enum ViewFault {
    /// The reorganisation has no piece of this number.
    #[error("no such piece")]
    BadPiece,
    /// The piece's cursor is not below its upper bound: nothing is left to be read.
    #[error("the piece has ended")]
    Spent,
    /// The limit is not from 1 to 1,000.
    #[error("the limit is not from 1 to 1000")]
    BadLimit,
    /// Out of memory.
    #[error("out of memory")]
    Memory,
}

impl From<AllocError> for ViewFault {
    ghost from_gives = { λ _ e. e ≡ Memory };

    fn from(_e: AllocError) -> ViewFault {
        ViewFault::Memory
    }
}

impl<T: Drop> From<AllocFailed<T>> for ViewFault {
    ghost from_gives = { λ _ e. e ≡ Memory };

    fn from(_e: AllocFailed<T>) -> ViewFault {
        ViewFault::Memory
    }
}
