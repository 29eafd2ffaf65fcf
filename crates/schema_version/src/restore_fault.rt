//! Why a version is not made from its parts.
ghost use Rattle.std.specs.Prelude.{◌≡◌};
ghost use Rattle.schema_version.specs.declared.restore_fault.RestoreFault.TheVariants.{Memory};

use std::alloc::AllocError;
use thiserror::Error;

/// Why a version is not made from its parts, lowest first.
#[derive(Clone, Copy, Debug, PartialEq, Eq, Error)]
pub enum RestoreFault {
    /// No sound version has these parts, or the elements do not come by rising number.
    #[error("the parts of no sound version")]
    Unsound,
    #[error("out of memory")]
    Memory,
}

impl From<AllocError> for RestoreFault {
    ghost from_gives = { λ _ e. e ≡ Memory };

    fn from(_error: AllocError) -> RestoreFault {
        RestoreFault::Memory
    }
}
