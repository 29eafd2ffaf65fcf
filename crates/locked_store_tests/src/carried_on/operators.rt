//! One operator goes on where another stopped, after an element was abandoned in mid-course; also
//! if a call is out of memory.

use crate::carried_on::fixtures::{is_whole, states, with_changes};
use crate::fixtures::mark;
use collections::List;
use schema_version::{ElementState, Move};
use shared_rollout::rollout::{AdvanceFault, advance, complete};
use shared_rollout::world::World;
use std::alloc::Global;

// The index is filled in part, and then abandoned.
fn abandon(alloc: Global, world: &mut World) -> Option<()> {
    for moment in [20u64, 20, 20, 20, 20, 20, 30, 30, 30, 30, 30] {
        advance(alloc, world, moment, 4, 1).ok()?;
    }
    let index = List::new(vec![in alloc; Move::Turn { element: 3 }].ok()?);
    match world.publish(alloc, 40, &index) {
        Ok(_) => Some(()),
        Err(_) => None,
    }
}

fn abandoned(alloc: Global) -> Option<World> {
    let mut world = with_changes(alloc)?;
    match abandon(alloc, &mut world) {
        Some(()) => Some(world),
        None => None,
    }
}

// An advance, asked for once more if it was out of memory: then it has changed nothing.
fn advances(alloc: Global, world: &mut World, moment: u64) -> bool {
    let entries = world.log().len();
    match advance(alloc, world, moment, 3, 2) {
        Err(AdvanceFault::Memory) => {
            world.log().len() == entries && advance(alloc, world, moment, 3, 2).is_ok()
        }
        done => done.is_ok(),
    }
}

// All changes, completed by a second call if the first was out of memory.
fn completes(alloc: Global, world: &mut World, moment: u64) -> Result<u64, AdvanceFault> {
    match complete(alloc, world, moment, 3, 2) {
        Err(AdvanceFault::Memory) => complete(alloc, world, moment, 3, 2),
        done => done,
    }
}

#[test]
fn under_refusal_another_operator_goes_on(rt: HostRuntime) {
    let alloc = rt.alloc();
    let Some(mut world) = abandoned(alloc) else {
        panic!(rt; "not abandoned");
    };
    assert!(rt;
        mark(&rt)
            && states(&world)
                == (
                    ElementState::Absent,
                    ElementState::WriteOnly,
                    ElementState::WriteOnly
                )
    );
    assert!(rt; advances(alloc, &mut world, 40));
    assert!(rt; completes(alloc, &mut world, 0) == Ok(60));
    assert!(rt;
        states(&world)
            == (
                ElementState::Absent,
                ElementState::Absent,
                ElementState::Public
            )
    );
    assert!(rt; is_whole(alloc, &world, 5) || is_whole(alloc, &world, 5));
    let entries = world.log().len();
    assert!(rt; completes(alloc, &mut world, 70) == Ok(70) && world.log().len() == entries);
}
