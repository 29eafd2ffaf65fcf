//! Why a checkpoint is refused.
ghost use Rattle.std.specs.Prelude.{◌≡◌};
ghost use Rattle.checkpoint_check.specs.declared.fault.CheckpointFault.TheVariants.{Memory};

use std::alloc::AllocError;
use thiserror::Error;

/// Why a checkpoint is refused, in the order in which the faults are looked for.
#[derive(Clone, Copy, Debug, PartialEq, Eq, Error)]
pub enum CheckpointFault {
    /// A version was published after the checkpoint's moment, or the version before the newest is
    /// missing, or there is one though only one was published.
    #[error("the versions do not fit the timeline")]
    BadVersions,
    /// The version before the newest, which a lease may still use, has other tables, or an element
    /// of another kind or in a state that no single step joins to the newest version's.
    #[error("the two versions cannot be in use beside each other")]
    BadElements,
    /// A pair is missing or extra by a version that a lease may use, and by the rows that the pairs
    /// store.
    #[error("the pairs do not agree with a version and the rows that they store")]
    BadPairs,
    /// A begun reorganisation is not what its element wants, is the second one of its element, has
    /// pieces that do not share its range, or has passed what is not done.
    #[error("a begun reorganisation does not fit its element or the pairs")]
    BadReorganisations,
    /// Out of memory.
    #[error("out of memory")]
    Memory,
}

impl From<AllocError> for CheckpointFault {
    ghost from_gives = { λ _ e. e ≡ Memory };

    fn from(_e: AllocError) -> CheckpointFault {
        CheckpointFault::Memory
    }
}
