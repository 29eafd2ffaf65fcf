//! An index and a required column are added and a column is dropped, all begun in one step:
//! advances do the rest, at the moments that they report.

use crate::carried_on::fixtures::{is_whole, states, with_changes};
use schema_version::ElementState;
use shared_rollout::rollout::{Advanced, advance};
use shared_rollout::world::World;
use std::alloc::Global;

// An act but for pieces, and its element, version or moment.
fn act_of(advanced: &Advanced) -> Option<(&'static str, u64)> {
    match advanced {
        Advanced::Began { element, .. } => Some(("begin", *element as u64)),
        Advanced::Published { version, .. } => Some(("publish", *version)),
        Advanced::Worked { .. } => None,
        Advanced::Waiting { until } => Some(("wait", *until)),
        Advanced::Finished => Some(("finished", 0)),
    }
}

// The next one.
fn next_act(alloc: Global, world: &mut World, moment: u64) -> Option<(&'static str, u64)> {
    for _pieces in 0..20u32 {
        let advanced = advance(alloc, world, moment, 2, 2).ok()?;
        let act = act_of(&advanced);
        drop(advanced);
        if act.is_some() {
            return act;
        }
    }
    None
}

// What is done in turn, and its element, version or moment.
static ACTS: [(&str, u64); 10] = [
    ("wait", 20),
    ("begin", 2),
    ("publish", 3),
    ("wait", 30),
    ("begin", 3),
    ("begin", 4),
    ("publish", 4),
    ("wait", 40),
    ("publish", 5),
    ("finished", 0),
];

// How many of the acts are done as they have to be, up to the first that is not.
fn walked(alloc: Global, world: &mut World) -> usize {
    let mut moment = 10u64;
    for (place, (what, number)) in ACTS.iter().enumerate() {
        if next_act(alloc, world, moment) != Some((*what, *number)) {
            return place;
        }
        if *what == "wait" {
            moment = *number;
        }
    }
    ACTS.len()
}

#[test]
fn changes_go_on_side_by_side(rt: HostRuntime) {
    use ElementState::{Absent, Public};
    let alloc = rt.alloc();
    let Some(mut world) = with_changes(alloc) else {
        panic!(rt; "no world");
    };
    let right = walked(alloc, &mut world);
    assert!(rt; right == ACTS.len(), "act {right}");
    assert!(rt; states(&world) == (Absent, Public, Public));
    assert!(rt; is_whole(alloc, &world, 5));
}
