//! Bad numbers are refused by name, and a call that stopped for a moment is gone on with.

use crate::carried_on::fixtures::{states, with_changes};
use lease::MAX_MOMENT;
use schema_version::ElementState;
use shared_rollout::rollout::{AdvanceFault, advance, complete};
use shared_rollout::world::World;
use std::alloc::Global;

// Whether both calls refuse each row's moment, pieces and limit by its fault, and change nothing.
fn are_refused(alloc: Global, world: &mut World) -> bool {
    let entries = world.log().len();
    let late = MAX_MOMENT + 1;
    for (moment, pieces, limit, fault) in [
        (20u64, 0u32, 1u32, AdvanceFault::BadCount),
        (20, 65, 1, AdvanceFault::BadCount),
        (20, 1, 0, AdvanceFault::BadCount),
        (late, 64, 1_001, AdvanceFault::BadCount),
        (late, 64, 1_000, AdvanceFault::MomentTooLarge),
    ] {
        let one = advance(alloc, world, moment, pieces, limit).err();
        if one != Some(fault) || complete(alloc, world, moment, pieces, limit) != Err(fault) {
            return false;
        }
    }
    world.log().len() == entries
}

#[test]
fn bad_numbers_are_refused(rt: HostRuntime) {
    let alloc = rt.alloc();
    let Some(mut world) = with_changes(alloc) else {
        panic!(rt; "no world");
    };
    assert!(rt; are_refused(alloc, &mut world));
    // From here on each version has to wait for a moment that is too large: the first one is
    // published, and no other.
    assert!(rt; complete(alloc, &mut world, MAX_MOMENT, 1, 1) == Err(AdvanceFault::MomentTooLarge));
    assert!(rt;
        states(&world)
            == (
                ElementState::DeleteOnly,
                ElementState::WriteOnly,
                ElementState::WriteOnly
            )
    );
}
