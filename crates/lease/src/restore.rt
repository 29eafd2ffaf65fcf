//! Which moments of publication make a timeline.
ghost use Rattle.std.specs.Prelude.{◌≡◌, ◌≤◌, ◌^◌};
ghost use Rattle.lease.specs.Timeline.{max_moment};
ghost use Rattle.lease.specs.Restored.{are_in_turn as are_in_turn_of, is_timeline as is_timeline_of};

use crate::timeline::{MAX_LENGTH, MAX_MOMENT};

// Whether each of these moments is within the limit, and at least the lease length after the one
// before, of which the first comes after `last`.
fn are_in_turn(length: u64, last: u64, moments: &[u64]) -> bool
    requires length { length ≤ 2 ^ 32 }
    requires last { last ≤ max_moment }
    ensures { result ≡ are_in_turn_of length last moments.now }
{
    let mut before = last;
    for moment in moments {
        if *moment < before + length || *moment > MAX_MOMENT {
            return false;
        }
        before = *moment;
    }
    true
}

/// Whether a timeline of this lease length has versions that were published at these moments, that
/// of version 1 first.
pub(crate) fn is_timeline(length: u64, moments: &[u64]) -> bool
    ensures { result ≡ is_timeline_of length moments.now }
{
    match moments {
        [] => false,
        [first, rest @ ..] => *first == 0
            && 1 <= length
            && length <= MAX_LENGTH
            && are_in_turn(length, 0, rest),
    }
}
