//! Why a soak is cut short.
use std::alloc::AllocError;

/// Why a soak, or a part of it, came to no end.
#[derive(Clone, Copy, PartialEq, Eq)]
pub(crate) enum SoakFault {
    /// Out of memory, of any call or outcome.
    Memory,
    /// A line could not be written.
    Unwritten,
    /// A call was refused for another reason, or a request came to another end than a commit.
    Refused,
}

impl From<AllocError> for SoakFault {
    fn from(_: AllocError) -> SoakFault {
        SoakFault::Memory
    }
}
