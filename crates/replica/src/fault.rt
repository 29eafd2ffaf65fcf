//! Why an entry is not repeated.
ghost use Rattle.std.specs.Prelude.{◌≡◌};
ghost use Rattle.replica.specs.declared.fault.RepeatFault.TheVariants.{Memory};

use std::alloc::AllocError;
use thiserror::Error;

/// Why an entry was not repeated.
#[derive(Clone, Copy, Debug, PartialEq, Eq, Error)]
pub enum RepeatFault {
    /// No accepted call of this world would add the entry.
    #[error("no call of this world would add the entry")]
    NotNext,
    /// Out of memory, which may come in place of NotNext.
    #[error("out of memory")]
    Memory,
}

impl From<AllocError> for RepeatFault {
    ghost from_gives = { λ _ fault. fault ≡ Memory };

    fn from(_: AllocError) -> RepeatFault {
        RepeatFault::Memory
    }
}
