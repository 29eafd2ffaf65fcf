//! Why a load is cut short.
use std::alloc::{AllocError, AllocFailed};

/// Why a load, or a step of it, came to no end.
#[derive(Clone, Copy, PartialEq, Eq)]
pub(crate) enum LoadFault {
    /// Out of memory, of any call or outcome.
    Memory,
    /// A line could not be written.
    Unwritten,
    /// A call was refused for another reason.
    Refused,
}

impl From<AllocError> for LoadFault {
    fn from(_: AllocError) -> LoadFault {
        LoadFault::Memory
    }
}

impl<T: Drop> From<AllocFailed<T>> for LoadFault {
    fn from(_: AllocFailed<T>) -> LoadFault {
        LoadFault::Memory
    }
}
