//! All changes that are under way, brought to their end.
ghost use Rattle.rollout.specs.Complete.{CompleteStep};

use crate::act::{Act, due};
use crate::advanced::AdvanceFault;
use crate::due_calls::{begin, publish};
use crate::limits::are_counts;
use crate::piece::work_all;
use lease::MAX_MOMENT;
use std::alloc::Global;
use world::World;

/// Brings every change that is under way to its end, and returns the effective moment of its end:
/// then each element that was being added is public, and each that was being dropped is gone.
///
/// All that it does is a course of advances: each act is the one that is due at its moment, as
/// `advance` does it, and nothing else is added to the log. If nothing can be done before a moment,
/// it goes on at that moment, and no later. The returned moment is that at which the course ends.
///
/// It always comes to an end. Whatever it returns, it adds few entries to the log: at most three
/// begins and publications for each element that was under way, and few pieces. Each of these takes
/// `limit` of the items that are ahead of its element, or is the last of its piece.
///
/// - `moment`: the effective moment is the greater of it and the moment of the last entry.
/// - `pieces`: in how many pieces a fill or a clear begins, 1 to 64.
/// - `limit`: how many items of a piece are worked at a time, 1 to 1,000.
///
/// Refused, in this order, by the names of `AdvanceFault`: bad counts, which change nothing; then a
/// moment above 2^62, no version left, or out of memory, at the act that needs it. What was done
/// before that act stays, and is a course too: the rows are as before, and each element is where it
/// was or further on its way, so a second call goes on.
pub fn complete(
    alloc: Global,
    world: &mut World,
    moment: u64,
    pieces: u32,
    limit: u32,
) -> Result<u64, AdvanceFault>
    ensures step { CompleteStep world.old moment pieces limit result world.new }
{
    if !are_counts(pieces, limit) {
        return Err(AdvanceFault::BadCount);
    }
    let mut now = moment.max(world.moment());
    'acts: loop {
        world.lemma_agrees();
        if now > MAX_MOMENT {
            return Err(AdvanceFault::MomentTooLarge);
        }
        match due(alloc, world, now)? {
            Act::Begin { element } => {
                begin(alloc, world, now, element, pieces)?;
            }
            Act::Publish { step } => {
                publish(alloc, world, now, &step)?;
            }
            Act::Work { element } => work_all(alloc, world, element, now, limit)?,
            Act::Wait { until } => now = until,
            Act::Nothing => return Ok(now),
        }
    }
}
