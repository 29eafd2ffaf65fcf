//! The bounds of the pieces and the limit that a caller chooses.
ghost use Rattle.std.specs.Bool.{Decides};
ghost use Rattle.rollout.specs.Advance.{AreCounts};

const MAX_PIECES: u32 = 64;

const MAX_LIMIT: u32 = 1_000;

/// Whether a reorganisation may begin in so many pieces, and so many items of a piece may be worked
/// at a time.
///
/// - `pieces`: 1 to 64.
/// - `limit`: 1 to 1,000.
pub fn are_counts(pieces: u32, limit: u32) -> bool
    ensures { Decides result (AreCounts pieces limit) }
{
    1 <= pieces && pieces <= MAX_PIECES && 1 <= limit && limit <= MAX_LIMIT
}
