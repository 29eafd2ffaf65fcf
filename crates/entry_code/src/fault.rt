//! Why bytes are not read.
ghost use Rattle.std.specs.Prelude.{◌≡◌};
ghost use Rattle.entry_code.specs.declared.fault.CodeFault.TheVariants.{Memory};

use std::alloc::{AllocError, AllocFailed};
use thiserror::Error;

/// Why bytes are not read. Of several reasons the first in this order is reported.
#[derive(Clone, Copy, Debug, PartialEq, Eq, Error)]
pub enum CodeFault {
    /// There is no first byte, or it is not the version of the code, which is 1.
    #[error("another version of the code")]
    Version,
    /// A proper prefix of the bytes is a whole code, and more bytes follow.
    #[error("bytes follow the end of the code")]
    Trailing,
    /// Neither the bytes nor any prefix of them is a whole code.
    #[error("not a code")]
    Malformed,
    /// Out of memory. It may come in place of any other answer but `Version`.
    #[error("out of memory")]
    Memory,
}

impl From<AllocError> for CodeFault {
    ghost from_gives = { λ _ e. e ≡ Memory };

    fn from(_e: AllocError) -> CodeFault {
        CodeFault::Memory
    }
}

impl<T: Drop> From<AllocFailed<T>> for CodeFault {
    ghost from_gives = { λ _ e. e ≡ Memory };

    fn from(_e: AllocFailed<T>) -> CodeFault {
        CodeFault::Memory
    }
}
