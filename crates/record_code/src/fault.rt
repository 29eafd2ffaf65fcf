//! Why bytes are not read.
ghost use Rattle.std.specs.Prelude.{◌≡◌};
ghost use Rattle.record_code.specs.declared.fault.NoKey.TheVariants.{Memory as KeyMemory};
ghost use Rattle.record_code.specs.declared.fault.RecordFault.TheVariants.{Memory};

use std::alloc::{AllocError, AllocFailed};
use thiserror::Error;

/// Why bytes are not read as the key of a control record.
#[derive(Clone, Copy, Debug, PartialEq, Eq, Error)]
pub enum NoKey {
    /// No control record has this key.
    #[error("not the key of a control record")]
    Malformed,
    /// Out of memory.
    #[error("out of memory")]
    Memory,
}

impl From<AllocError> for NoKey {
    ghost from_gives = { λ _ e. e ≡ KeyMemory };

    fn from(_e: AllocError) -> NoKey {
        NoKey::Memory
    }
}

/// Why bytes are not read as a control record. Of several reasons the first in this order is
/// reported.
#[derive(Clone, Copy, Debug, PartialEq, Eq, Error)]
pub enum RecordFault {
    /// There is no first byte, or it is not the version of the code, which is 1.
    #[error("another version of the code")]
    Version,
    /// A proper prefix of the bytes is a whole code, and more bytes follow.
    #[error("bytes follow the end of the code")]
    Trailing,
    /// Neither the bytes nor any prefix of them is a whole code.
    #[error("not a code")]
    Malformed,
    /// What stands there as a version is no sound version.
    #[error("the version is not sound")]
    Unsound,
    /// Out of memory. It may come in place of any other answer but `Version`.
    #[error("out of memory")]
    Memory,
}

impl From<AllocError> for RecordFault {
    ghost from_gives = { λ _ e. e ≡ Memory };

    fn from(_e: AllocError) -> RecordFault {
        RecordFault::Memory
    }
}

impl<T: Drop> From<AllocFailed<T>> for RecordFault {
    ghost from_gives = { λ _ e. e ≡ Memory };

    fn from(_e: AllocFailed<T>) -> RecordFault {
        RecordFault::Memory
    }
}
