//! One act that is due, done.
ghost use Rattle.std.specs.Prelude.{◌≡◌};
ghost use Rattle.rollout.specs.Advance.{AdvanceStep};
ghost use Rattle.rollout.specs.declared.advanced.AdvanceFault.TheVariants.{Memory};

use crate::act::{Act, due};
use crate::due_calls::{begin, publish};
use crate::limits::are_counts;
use crate::piece::work_piece;
use lease::MAX_MOMENT;
use std::alloc::{AllocError, Global};
use thiserror::Error;
use world::{PieceDone, Receipt, World};

/// What was done. Elements are given by number, moments in the unit of the leases.
#[derive(Drop)]
pub enum Advanced {
    /// The fill or the clear of the element has begun.
    Began { element: u32, receipt: Receipt },
    /// This version was published, in which all elements that were ready have moved on.
    Published { version: u64, receipt: Receipt },
    /// Items of the element's fill or clear were worked.
    Worked { element: u32, done: PieceDone },
    /// Nothing was done: changes are under way, and nothing can be done before this moment.
    Waiting { until: u64 },
    /// Nothing was done: no change is under way.
    Finished,
}

/// Why nothing was done. If several reasons hold, the first in this order is reported, but `Memory`
/// may come in place of `VersionsSpent`.
#[derive(Clone, Copy, Debug, PartialEq, Eq, Error)]
pub enum AdvanceFault {
    /// The pieces are not 1 to 64, or the limit is not 1 to 1,000.
    #[error("the pieces are not 1 to 64, or the limit is not 1 to 1,000")]
    BadCount,
    /// The effective moment is above 2^62.
    #[error("the moment is above 2^62")]
    MomentTooLarge,
    /// A publication is due, and there are 1,000,000 versions.
    #[error("no version is left")]
    VersionsSpent,
    /// Out of memory.
    #[error("out of memory")]
    Memory,
}

impl From<AllocError> for AdvanceFault {
    ghost from_gives = { λ _ fault. fault ≡ Memory };

    fn from(_: AllocError) -> AdvanceFault {
        AdvanceFault::Memory
    }
}

/// Does the act that is due, and reports it. It makes no difference who began a change: from the
/// state of the world alone, whoever calls it carries all changes on. If nothing can be done before
/// a moment, it reports that moment and changes nothing.
///
/// - `moment`: the effective moment is the greater of it and the moment of the last entry.
/// - `pieces`: in how many pieces a fill or a clear begins, 1 to 64.
/// - `limit`: how many items of a piece are worked at most, 1 to 1,000.
///
/// Refused, in this order, by the names of `AdvanceFault`: bad counts, a moment above 2^62, no
/// version left for a publication, out of memory. A refused call changes nothing, and the next one
/// does the same act. The world itself refuses no act that is due for any other reason
/// (`due_is_accepted`).
pub fn advance(
    alloc: Global,
    world: &mut World,
    moment: u64,
    pieces: u32,
    limit: u32,
) -> Result<Advanced, AdvanceFault>
    ensures step { AdvanceStep world.old moment pieces limit result world.new }
{
    if !are_counts(pieces, limit) {
        return Err(AdvanceFault::BadCount);
    }
    if moment.max(world.moment()) > MAX_MOMENT {
        return Err(AdvanceFault::MomentTooLarge);
    }
    match due(alloc, world, moment)? {
        Act::Begin { element } => {
            let receipt = begin(alloc, world, moment, element, pieces)?;
            Ok(Advanced::Began { element, receipt })
        }
        Act::Publish { step } => {
            let (version, receipt) = publish(alloc, world, moment, &step)?;
            Ok(Advanced::Published { version, receipt })
        }
        Act::Work { element } => {
            let done = work_piece(alloc, world, element, moment, limit)?;
            Ok(Advanced::Worked { element, done })
        }
        Act::Wait { until } => Ok(Advanced::Waiting { until }),
        Act::Nothing => Ok(Advanced::Finished),
    }
}
