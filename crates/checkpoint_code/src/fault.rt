//! Why bytes are not read.
ghost use Rattle.std.specs.Prelude.{◌≡◌};
ghost use Rattle.checkpoint_code.specs.declared.fault.HeadFault.TheVariants.{Memory};

use std::alloc::AllocError;
use thiserror::Error;

/// Why bytes are not read as the head of a checkpoint. Of several reasons the first in this order is
/// reported.
#[derive(Clone, Copy, Debug, PartialEq, Eq, Error)]
pub enum HeadFault {
    /// There is no first byte, or it is not the version of the code, which is 1.
    #[error("another version of the code")]
    Version,
    /// A proper prefix of the bytes is a whole code, and more bytes follow.
    #[error("bytes follow the end of the code")]
    Trailing,
    /// Neither the bytes nor any prefix of them is a whole code.
    #[error("not a code")]
    Malformed,
    /// There is no timeline of that lease length with those publications.
    #[error("no timeline has these publications")]
    BadTimeline,
    /// What stands there as the newest version is no sound version.
    #[error("the newest version is not sound")]
    BadNewest,
    /// What stands there as the version before the newest is no sound version.
    #[error("the version before the newest is not sound")]
    BadBefore,
    /// Out of memory. It may come in place of any other answer but `Version`.
    #[error("out of memory")]
    Memory,
}

impl From<AllocError> for HeadFault {
    ghost from_gives = { λ _ e. e ≡ Memory };

    fn from(_e: AllocError) -> HeadFault {
        HeadFault::Memory
    }
}

/// Why bytes are not read as a page of pairs. Of several reasons the first in this order is
/// reported.
#[derive(Clone, Copy, Debug, PartialEq, Eq, Error)]
pub enum PageFault {
    /// There is no first byte, or it is not the version of the code, which is 1.
    #[error("another version of the code")]
    Version,
    /// A proper prefix of the bytes is a whole code, and more bytes follow.
    #[error("bytes follow the end of the code")]
    Trailing,
    /// Neither the bytes nor any prefix of them is a whole code.
    #[error("not a code")]
    Malformed,
    /// The keys do not strictly rise.
    #[error("the keys do not rise")]
    Unordered,
    /// Out of memory. It may come in place of any other answer but `Version`.
    #[error("out of memory")]
    Memory,
}
