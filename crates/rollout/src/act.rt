//! The act that is due.
ghost use Rattle.std.specs.Prelude.{IfOk};
ghost use Rattle.world.specs.State.{facts_of};
ghost use Rattle.world.specs.Calls.{effective_moment};
ghost use Rattle.rollout.specs.Due.{IsDue, ComesFirst};

use crate::candidates::{find_begin, find_open, is_under_way, ready_step};
use schema_version::Step;
use std::alloc::{AllocError, Global};
use world::World;

/// What an operator may do next. Elements are given by number, moments in the unit of the leases.
#[derive(Drop)]
pub enum Act {
    /// The fill or the clear of the element may begin.
    Begin { element: u32 },
    /// The elements that are ready move on together, in this step.
    Publish { step: Step },
    /// The fill or the clear of the element has begun, and a piece of it is to be worked.
    Work { element: u32 },
    /// Changes are under way, and nothing can be done before this moment.
    Wait { until: u64 },
    /// No change is under way.
    Nothing,
}

/// What is due at a moment, for all changes that are under way: a begin first, since its pieces can
/// be worked from then on; then the step of all elements that are ready; then a piece; then a wait.
/// Of several begins or pieces that of the element of the lowest number is given. It changes nothing.
///
/// - `moment`: the effective moment is the greater of it and the moment of the last entry.
///
/// Refused only when out of memory.
pub fn due(alloc: Global, world: &World, moment: u64) -> Result<Act, AllocError>
    ensures due { IfOk result (λ act. IsDue (facts_of world.now) (effective_moment world.now moment) act) }
    ensures first { IfOk result (λ act. ComesFirst (facts_of world.now) (effective_moment world.now moment) act) }
{
    world.lemma_agrees();
    let now = moment.max(world.moment());
    if let Some(element) = find_begin(world, now) {
        return Ok(Act::Begin { element });
    }
    let step = ready_step(alloc, world, now)?;
    if step.len() > 0 {
        return Ok(Act::Publish { step });
    }
    if let Some(element) = find_open(world) {
        return Ok(Act::Work { element });
    }
    if is_under_way(world) {
        return Ok(Act::Wait {
            until: world.timeline().earliest(),
        });
    }
    Ok(Act::Nothing)
}
