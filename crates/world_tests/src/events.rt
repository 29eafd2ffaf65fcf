//! A run of events, which tells of each what its call tells.

use crate::fixtures::{entering, mark, opened};
use std::alloc::{AllocError, Global};
use world::{Event, GrantFault, PublishFault, Reply, World};

// A lease at 0, the index at 9 and at 10, a lease at 9.
fn four(alloc: Global) -> Option<Vec<Event>> {
    let early = entering(alloc, "i").ok()?;
    let step = entering(alloc, "i").ok()?;
    let mut events = Vec::with_capacity(alloc, 4).ok()?;
    events.push_reserved(Event::Lease { moment: 0 });
    events.push_reserved(Event::Publish {
        moment: 9,
        step: early,
    });
    events.push_reserved(Event::Publish { moment: 10, step });
    events.push_reserved(Event::Lease { moment: 9 });
    Some(events)
}

fn is_lease(reply: &Reply, version: u64, granted: u64, until: u64) -> bool {
    match reply {
        Reply::Lease(Ok(grant)) => {
            (grant.lease.version, grant.lease.granted, grant.lease.until)
                == (version, granted, until)
        }
        _ => false,
    }
}

fn is_too_early(reply: &Reply) -> bool {
    matches!(
        reply,
        Reply::Publish(Err(PublishFault::TooEarly { earliest: 10 }))
    )
}

fn are_as_asked(replies: &[Reply]) -> bool {
    match replies {
        [first, early, second, last] => {
            is_lease(first, 1, 0, 10)
                && is_too_early(early)
                && matches!(second, Reply::Publish(Ok((2, _))))
                && is_lease(last, 2, 10, 20)
        }
        _ => false,
    }
}

// How many of the replies accept their event, if one tells that memory was short.
fn accepted(replies: &[Reply]) -> Option<usize> {
    let mut accepted = 0usize;
    let mut is_short = false;
    for reply in replies {
        match reply {
            Reply::Lease(Err(GrantFault::Memory)) | Reply::Publish(Err(PublishFault::Memory)) => {
                is_short = true;
            }
            Reply::Lease(Ok(_)) | Reply::Publish(Ok(_)) => accepted = accepted.wrapping_add(1),
            _ => {}
        }
    }
    if is_short { Some(accepted) } else { None }
}

// Whether there is one reply for each event, and three entries; none if memory was short and no
// event that was refused has an entry.
fn judged(world: &World, replies: &[Reply]) -> Option<bool> {
    let entries = world.log().len();
    if replies.len() == 4 && accepted(replies) == Some(entries) {
        return None;
    }
    Some(are_as_asked(replies) && entries == 3)
}

// The events come back if there was no memory for the replies.
fn runs_four(alloc: Global, world: &mut World, events: Vec<Event>) -> Option<bool> {
    let events = match world.run(alloc, events) {
        Ok(replies) => return judged(world, replies.as_slice()),
        Err((AllocError, events)) => events,
    };
    match world.run(alloc, events) {
        Ok(replies) => judged(world, replies.as_slice()),
        Err(_) => Some(false),
    }
}

fn four_run(alloc: Global) -> Option<bool> {
    match opened(alloc) {
        Ok(mut world) => {
            let events = four(alloc)?;
            runs_four(alloc, &mut world, events)
        }
        Err(_) => Some(false),
    }
}

// The events, in another world alike if memory was short.
fn all_run(alloc: Global) -> bool {
    match four_run(alloc) {
        Some(is_right) => is_right,
        None => four_run(alloc) == Some(true),
    }
}

#[test]
fn under_refusal_events_run(rt: HostRuntime) {
    assert!(rt; mark(&rt) && all_run(rt.alloc()));
}
