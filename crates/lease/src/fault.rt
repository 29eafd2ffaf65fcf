//! Why no timeline, no lease and no publication.
ghost use Rattle.std.specs.Prelude.{◌≡◌};
ghost use Rattle.lease.specs.declared.fault.TimelineFault.TheVariants.{Memory};

use std::alloc::{AllocError, AllocFailed};
use thiserror::Error;

/// Why no timeline was made.
#[derive(Clone, Copy, Debug, PartialEq, Eq, Error)]
pub enum TimelineFault {
    #[error("the lease length is not from 1 to 2^32")]
    BadLength,
    #[error("out of memory")]
    Memory,
}

impl From<AllocError> for TimelineFault {
    ghost from_gives = { λ _ fault. fault ≡ Memory };

    fn from(_e: AllocError) -> TimelineFault {
        TimelineFault::Memory
    }
}

impl<T: Drop> From<AllocFailed<T>> for TimelineFault {
    ghost from_gives = { λ _ fault. fault ≡ Memory };

    fn from(_e: AllocFailed<T>) -> TimelineFault {
        TimelineFault::Memory
    }
}

/// Why a lease is not granted, or does not serve at a moment. Of several reasons the first in this
/// order is reported.
#[derive(Clone, Copy, Debug, PartialEq, Eq, Error)]
pub enum LeaseFault {
    #[error("the moment is above 2^62")]
    MomentTooLarge,
    /// No timeline such as this one could have granted it.
    #[error("no grant could have given the lease")]
    BadLease,
    #[error("the lease ended at {until}, and now is {now}")]
    LeaseEnded {
        /// The end of the lease.
        until: u64,
        /// The moment that was asked about.
        now: u64,
    },
}

/// The newest version has not stood for the lease length yet.
#[derive(Clone, Copy, Debug, PartialEq, Eq, Error)]
#[error("no version may be published before {earliest}")]
pub struct TooEarly {
    /// The first moment at which a version may be published.
    pub earliest: u64,
}
