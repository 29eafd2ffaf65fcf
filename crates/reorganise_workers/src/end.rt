//! What becomes of a piece.
use locked_store::world::PieceFault;

/// What became of a piece.
#[derive(Drop)]
pub enum PieceEnd {
    /// It has ended, by work of the kind with which the call began: its cursor was found at its
    /// end, or its last items were committed.
    Finished,
    /// As many tries as were allowed ended in a conflict, or found that the piece had moved.
    Busy {
        /// How many.
        tries: u32,
    },
    /// It could not be read or committed, and no further try would help. `NotWanted`: the
    /// reorganisation is over, or has no such piece. `WrongElement`: the element's reorganisation
    /// is by now of another kind than the one with which the call began, or the piece that was read
    /// is no longer one of it. `MomentTooLarge`: the moment is above 2^62.
    Refused(PieceFault),
    /// The gate did not let it start.
    Held,
    /// The log was shorter than the handle had seen it.
    WentBack {
        /// The length of the log.
        seen: u64,
    },
    /// Out of memory.
    Memory,
}
