//! Refusals of the lock itself, and of receipts.
use thiserror::Error;

/// The log is shorter than the handle's front.
#[derive(Clone, Copy, Debug, PartialEq, Eq, Error)]
#[error("the log went back to {seen} entries")]
pub struct WentBack {
    /// The length of the log.
    pub seen: u64,
}

/// Why a call through the lock was refused. Of several reasons the first in this order is reported.
#[derive(Drop)]
pub enum SharedFault<E> {
    /// The log is shorter than the handle's front.
    WentBack {
        /// The length of the log.
        seen: u64,
    },
    /// The world refuses the call.
    World(E),
}

impl<E> From<WentBack> for SharedFault<E> {
    ghost use Rattle.std.specs.Prelude.{◌≡◌};
    ghost use Rattle.locked_store.specs.declared.fault.SharedFault.TheVariants as shared_fault;

    ghost from_gives = { λ back fault. fault ≡ shared_fault.WentBack back.seen };

    fn from(back: WentBack) -> SharedFault<E> {
        SharedFault::WentBack { seen: back.seen }
    }
}

/// Why a world was not shared. Of several reasons the first in this order is reported.
#[derive(Clone, Copy, Debug, PartialEq, Eq, Error)]
pub enum ShareFault {
    /// The number of handles is not from 1 to 64.
    #[error("the number of handles is not from 1 to 64")]
    BadCount,
    /// Out of memory.
    #[error("out of memory")]
    Memory,
}

/// Some handles were not handed in.
#[derive(Clone, Copy, Debug, PartialEq, Eq, Error)]
#[error("{held} of {want} handles")]
pub struct Missing {
    /// How many were handed in.
    pub held: u64,
    /// How many there are.
    pub want: u64,
}

/// Why receipts do not agree with a log. The first faulty receipt decides, by the first reason in
/// this order.
#[derive(Clone, Copy, Debug, PartialEq, Eq, Error)]
pub enum ReceiptFault {
    /// The log has no such place.
    #[error("the log has no place {place}")]
    NoPlace {
        /// The receipt's place.
        place: u64,
    },
    /// Another entry stands at the place.
    #[error("another entry stands at the place {place}")]
    OtherEntry {
        /// The receipt's place.
        place: u64,
    },
    /// An earlier receipt has the place.
    #[error("two receipts have the place {place}")]
    Twice {
        /// The receipt's place.
        place: u64,
    },
    /// The entry of the place is no longer in memory, so that nothing can be said of the receipt.
    #[error("the entry of the place {place} was cut off")]
    CutOff {
        /// The receipt's place.
        place: u64,
    },
    /// Out of memory.
    #[error("out of memory")]
    Memory,
}
