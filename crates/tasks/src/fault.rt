//! Why no task is performed.
use thiserror::Error;

/// Why no task was performed. Of several reasons the first in this order is reported.
#[derive(Clone, Copy, Debug, PartialEq, Eq, Error)]
pub enum TaskFault {
    /// There are more than 1,000,000 tasks, or the number of workers is not from 1 to 64.
    #[error("more than 1,000,000 tasks, or not from 1 to 64 workers")]
    BadCount,
    /// Out of memory.
    #[error("out of memory")]
    Memory,
}
