//! Two requests by two servers, with gates that only servers on threads of their own can pass.
ghost use Rattle.std.specs.Prelude.{◌≡◌};

use crate::table::{insert, opened};
use server::locked_store::{Blanks, Shared, SharedLedger};
use server::world::World;
use server::{Gate, Outcome, Request, Served, serve};
use std::alloc::Global;
use std::marker::Brand;
use std::sync::Wait;
use std::sync::atomic::{AtomicU64, Ordering};
use std::thread::{Threads, yield_now};

/// Holds request 0 until request 1 is answered.
#[derive(Drop)]
pub(crate) struct Behind {
    answered: AtomicU64,
}

impl Behind {
    /// The gate while no request is answered.
    pub(crate) fn new() -> Behind {
        Behind {
            answered: AtomicU64::new(0),
        }
    }
}

impl Gate for Behind {
    fn may_start(&self, number: usize, _turn: u64) -> bool {
        number != 0 || self.answered.load(Ordering::SeqCst) != 0
    }

    fn answered(&self, number: usize) {
        if number == 1 {
            self.answered.store(1, Ordering::SeqCst);
        }
    }
}

/// Each request waits inside the call until the other's was entered, so only two threads pass.
#[derive(Drop)]
pub(crate) struct Together {
    entered: AtomicU64,
}

impl Together {
    /// The gate before the first request.
    pub(crate) fn new() -> Together {
        Together {
            entered: AtomicU64::new(0),
        }
    }
}

impl Gate for Together {
    fn may_start(&self, _number: usize, turn: u64) -> bool {
        if turn != 0 {
            return false;
        }
        self.entered.fetch_add(1, Ordering::SeqCst);
        for _ in 0..10_000_000u64 {
            if self.entered.load(Ordering::SeqCst) == 2 {
                return true;
            }
            yield_now();
        }
        false
    }

    fn answered(&self, _number: usize) {}
}

// How many of the outcomes are committed, each with the receipt of a transaction.
fn dones(served: &[(usize, Outcome)]) -> Option<u64> {
    let mut done = 0u64;
    for (_, outcome) in served {
        if let Outcome::Done(_) = outcome {
            done = done.checked_add(1)?;
        }
    }
    Some(done)
}

// They, the rows of the store and the entries of the log.
fn counted(alloc: Global, done: Option<u64>, world: &World) -> Option<[u64; 3]> {
    let rows = world.check(alloc).ok()?.rows;
    Some([done?, rows, world.log().len() as u64])
}

// Two inserts by two servers through a gate: committed outcomes, rows, entries of the log.
fn serves<L: SharedLedger + Send + Sync, G: Gate + Sync, R: Threads + Wait + Sync>(
    rt: &R,
    alloc: Global,
    blanks: Blanks,
    world: World,
    requests: &[Request],
    gate: &G,
) -> Option<[u64; 3]>
    requires names { (blanks.added.name ≡ L.name) × (blanks.taken.name ≡ L.taken_name) × (blanks.refused.name ≡ L.refused_name) × (blanks.cut.name ≡ L.cut_name) }
    requires parts { (blanks.added.parts ≡ L.parts) × (blanks.taken.parts ≡ L.parts) × (blanks.refused.parts ≡ L.parts) }
    requires picked { (L.handles ≡ 2) × (L.handles ≡ L.parts) × (L.start ≡ world) }
{
    let (shared, handles) = Shared::<L>::new(alloc, blanks, world, 2).ok()?;
    let Served {
        outcomes,
        handles,
        receipts,
    } = serve(rt, alloc, &shared, handles, requests, 1_000, gate).ok()?;
    drop(receipts);
    let done = dones(outcomes.as_slice());
    drop(outcomes);
    let world = shared.close(handles).ok()?;
    counted(alloc, done, &world)
}

fn two_inserts(alloc: Global) -> Option<(World, Vec<Request>)> {
    let world = opened(alloc).ok()?;
    let first = insert(alloc, 1).ok()?;
    let second = insert(alloc, 2).ok()?;
    let requests = vec![in alloc; first, second].ok()?;
    Some((world, requests))
}

// What is found after two inserts through a gate.
fn found<G: Gate + Sync, R: Threads + Wait + Sync>(
    rt: &R,
    alloc: Global,
    gate: &G,
) -> Option<[u64; 3]> {
    let (world, requests) = two_inserts(alloc)?;
    serves::<Brand, G, R>(rt, alloc, Blanks::new(2), world, requests.as_slice(), gate)
}

// Both are committed, and each server took a lease: two rows, four entries.
#[test]
fn one_request_waits_for_the_other(rt: HostRuntime) {
    assert!(rt; found(&rt, rt.alloc(), &Behind::new()) == Some([2, 2, 4]));
}

#[test]
fn two_requests_run_at_once(rt: HostRuntime) {
    assert!(rt; found(&rt, rt.alloc(), &Together::new()) == Some([2, 2, 4]));
}
