//! All leases of small numbers, honest and forged, at each state of a run: a commit is answered as
//! the definition of a lease in force says.

use crate::fixtures::{entering, going, is_published, opened};
use byte_map::KeyMap;
use collections::{ArcValue, List};
use lease::Lease;
use row_write::{Prepared, prepare};
use schema_version::ElementState::WriteOnly;
use schema_version::Schema;
use std::alloc::Global;
use world::{CommitFault, Committed, World};

/// The greatest moment.
const MAX_MOMENT: u64 = 4_611_686_018_427_387_904;

// Whether a grant could have given the lease, if versions were published at these moments: when it
// was granted, as many versions as its number were published, and not more than that before; that
// was not after now; and it ends ten moments later.
fn is_honest(published: &[u64], now: u64, lease: Lease) -> bool {
    let mut before = 0u64;
    let mut then = 0u64;
    for moment in published {
        if *moment < lease.granted {
            before = before.wrapping_add(1);
        }
        if *moment <= lease.granted {
            then = then.wrapping_add(1);
        }
    }
    let was_newest = lease.version >= 1 && before <= lease.version && lease.version <= then;
    was_newest && lease.granted <= now && lease.granted.checked_add(10) == Some(lease.until)
}

// A transaction of no operations under the lease.
fn nothing(alloc: Global, schema: &ArcValue<Schema>, lease: Lease) -> Option<Prepared> {
    let schema = schema.clone().ok()?;
    let ops = List::new(Vec::new(alloc));
    prepare(alloc, schema, lease, ops, KeyMap::new(alloc)).ok()
}

// Whether the answer to a commit by the newest schema is the one that the definition gives. The
// last of the published versions is the newest, and no other has its schema.
fn is_right(
    answer: &Result<Committed, (CommitFault, Prepared)>,
    published: &[u64],
    now: u64,
    lease: Lease,
) -> bool {
    if now > MAX_MOMENT {
        return matches!(answer, Err((CommitFault::MomentTooLarge, _)));
    }
    let honest = is_honest(published, now, lease);
    let serves = honest && now < lease.until;
    let newest = lease.version == published.len() as u64;
    match answer {
        Ok(Committed::Done(_)) => serves && newest,
        Err((CommitFault::WrongSchema, _)) => serves && !newest,
        Err(
            (
                CommitFault::LeaseEnded {
                    until,
                    now: reported,
                },
                _,
            ),
        ) => { honest && !serves && *until == lease.until && *reported == now }
        Err((CommitFault::BadLease, _)) => !honest,
        _ => false,
    }
}

fn is_answered(
    alloc: Global,
    world: &mut World,
    published: &[u64],
    moments: (u64, u64),
    lease: Lease,
) -> bool {
    match nothing(alloc, world.newest(), lease) {
        None => false,
        Some(work) => {
            let answer = world.commit(alloc, moments.0, work);
            is_right(&answer, published, moments.1, lease)
        }
    }
}

// All leases on versions 0 to 4 that are granted and end at 0 to 45, each in a commit at the first
// of the two moments, of which the second is the one that counts.
fn are_answered(alloc: Global, world: &mut World, published: &[u64], moments: (u64, u64)) -> bool {
    for version in 0..5u64 {
        for granted in 0..46u64 {
            for until in 0..46u64 {
                let lease = Lease {
                    version,
                    granted,
                    until,
                };
                if !is_answered(alloc, world, published, moments, lease) {
                    return false;
                }
            }
        }
    }
    true
}

// Version 1 alone, then the index delete-only from 10 on, then write-only from 20 on. How many
// entries there are is reported by the commits that are to be accepted: 1 at moment 0, 10 at 10, 1
// after the first publication, 10 at 20, 1 after the second, 10 at 30.
fn are_all_answered(alloc: Global, world: &mut World) -> bool {
    are_answered(alloc, world, &[0], (0, 0))
        && are_answered(alloc, world, &[0], (10, 10))
        && is_published(alloc, world, 10, entering(alloc, "i"))
        && are_answered(alloc, world, &[0, 10], (0, 10))
        && are_answered(alloc, world, &[0, 10], (20, 20))
        && is_published(alloc, world, 20, going(alloc, 2, WriteOnly))
        && are_answered(alloc, world, &[0, 10, 20], (3, 20))
        && are_answered(alloc, world, &[0, 10, 20], (30, 30))
        && are_answered(alloc, world, &[0, 10, 20], (MAX_MOMENT + 1, MAX_MOMENT + 1))
        && world.log().len() == 35
}

fn are_leases_told_apart(alloc: Global) -> bool {
    match opened(alloc) {
        Ok(mut world) => are_all_answered(alloc, &mut world),
        Err(_) => false,
    }
}

#[test]
fn leases(rt: HostRuntime) {
    assert!(rt; are_leases_told_apart(rt.alloc()));
}
