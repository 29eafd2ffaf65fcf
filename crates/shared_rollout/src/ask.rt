//! What an operator asks for.
ghost use Rattle.std.specs.Bool.{Decides};
ghost use Rattle.shared_rollout.specs.Operator.{AreNumbers};

use locked_store::rollout::are_counts;

/// How often another may be first, at most.
const MAX_TRIES: u32 = 1_000_000;

/// What is asked for, and how much of the log the handle had seen.
#[derive(Clone, Copy)]
pub(crate) struct Ask {
    /// The moment of the act.
    pub(crate) moment: u64,
    /// In how many pieces a fill or a clear begins.
    pub(crate) pieces: u32,
    /// How many items of a piece are worked at most.
    pub(crate) limit: u32,
    /// How often another may be first until the operator gives up.
    pub(crate) tries: u32,
    /// The front of the handle at entry.
    pub(crate) front: u64,
}

/// Whether these numbers may be asked for.
pub(crate) fn are_numbers(pieces: u32, limit: u32, tries: u32) -> bool
    ensures { Decides result (AreNumbers pieces limit tries) }
{
    are_counts(pieces, limit) && 1 <= tries && tries <= MAX_TRIES
}
