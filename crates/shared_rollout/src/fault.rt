//! Why an operator's call did nothing.
use thiserror::Error;

/// Why nothing was done. Of several reasons the first in this order is reported, but `Memory` may
/// come in place of each after `BadCount`, and `MomentTooLarge` before `WentBack`, too, if the
/// moment that was given is itself above 2^62.
#[derive(Clone, Copy, Debug, PartialEq, Eq, Error)]
pub enum OperatorFault {
    /// The pieces are not 1 to 64, the limit not 1 to 1,000, or the tries not 1 to 1,000,000.
    #[error("not 1 to 64 pieces, 1 to 1,000 items or 1 to 1,000,000 tries")]
    BadCount,
    /// The log is shorter than the handle had seen it.
    #[error("the log went back to {seen} entries")]
    WentBack {
        /// The length of the log.
        seen: u64,
    },
    /// The effective moment is above 2^62.
    #[error("the moment is above 2^62")]
    MomentTooLarge,
    /// A publication is due, and there are 1,000,000 versions.
    #[error("no version is left")]
    VersionsSpent,
    /// So often as was allowed, others moved the state on between the look at what is due and the
    /// act.
    #[error("others were first {tries} times")]
    Busy {
        /// How often.
        tries: u32,
    },
    /// Out of memory.
    #[error("out of memory")]
    Memory,
}
