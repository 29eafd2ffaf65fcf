//! Why there is no counter.
use thiserror::Error;

/// Why there are no numbers to draw. Of several reasons the first in this order is reported.
#[derive(Clone, Copy, Debug, PartialEq, Eq, Error)]
pub enum ClaimFault {
    /// There are more than 1,000,000 numbers, or the number of seats is not from 1 to 64.
    #[error("more than 1,000,000 numbers, or not from 1 to 64 seats")]
    BadCount,
    /// Out of memory.
    #[error("out of memory")]
    Memory,
}
