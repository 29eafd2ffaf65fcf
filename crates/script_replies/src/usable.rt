//! The versions that a lease may still use.
ghost use Rattle.std.specs.Prelude.{◌≡◌, IfOk};
ghost use mathlib.Core.List.{map};
ghost use Rattle.serde_json.specs.View.{view};
ghost use Rattle.script_replies.specs.Status.{AreUsable, count_data, list_data};
ghost use Rattle.piece_work.specs.State.{facts_of};

use piece_work::world::World;
use serde_json::Value;
use std::alloc::{AllocError, Global};

/// The versions that a lease may still use at the moment of the last entry, rising: no other than
/// the newest and the one before it. Refused only when out of memory.
pub(crate) fn usable_versions(alloc: Global, world: &World) -> Result<Vec<u64>, AllocError>
    ensures { IfOk result (λ numbers. AreUsable (facts_of world.now) numbers.items) }
{
    let line = world.timeline();
    let newest = line.newest();
    let before = newest - 1;
    let now = world.moment();
    if line.usable(before, now) {
        return Ok(vec![in alloc; before, newest]?);
    }
    Ok(vec![in alloc; newest]?)
}

/// These numbers as a list in JSON. Refused only when out of memory.
pub(crate) fn numbers_value(alloc: Global, numbers: &[u64]) -> Result<Value, AllocError>
    ensures { IfOk result (λ value. view value ≡ list_data (map count_data numbers.now)) }
{
    let mut values = Vec::new(alloc);
    for number in numbers {
        values.push(Value::from(*number))?;
    }
    Ok(Value::Array(values))
}
