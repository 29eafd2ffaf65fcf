//! Two handles fill an index and then serve two requests, twice, after gates that only servers on
//! threads of their own can pass: if memory was short, each number has its outcome all the same,
//! the handles come back, and what is left is done by a second call.
ghost use Rattle.std.specs.Prelude.{◌≡◌};

use crate::fills::filling;
use crate::gates::{Behind, Together};
use crate::table::{insert, mark};
use reorganise::Work;
use reorganise_workers::{PieceEnd, ReorganiseFault, Reorganised, reorganise_all};
use server::locked_store::{Blanks, Handle, Shared, SharedLedger};
use server::world::World;
use server::{FreeGate, Gate, Outcome, Request, ServeFault, Served, serve};
use std::alloc::{AllocError, Global};
use std::marker::Brand;
use std::sync::Wait;
use std::thread::Threads;

// 1 if a request is committed, 0 if memory was short, also for the thread that its gate waits for,
// or an earlier call committed it.
fn is_done(outcome: &Outcome) -> Option<u64> {
    match outcome {
        Outcome::Done(_) => Some(1),
        Outcome::Memory | Outcome::Held | Outcome::Row { .. } => Some(0),
        _ => None,
    }
}

// How many requests are committed, if the two numbers have one outcome each.
fn dones(outcomes: &[(usize, Outcome)]) -> Option<u64> {
    match outcomes {
        [(one, first), (two, second)] if (*one, *two) == (0, 1) => {
            Some(is_done(first)?.wrapping_add(is_done(second)?))
        }
        _ => None,
    }
}

// Serves the requests after a gate: how many were committed.
fn served<L: SharedLedger + Send + Sync, G: Gate + Sync, R: Threads + Wait + Sync>(
    rt: &R,
    alloc: Global,
    shared: &Shared<L>,
    handles: Vec<Handle<L>>,
    requests: &[Request],
    gate: &G,
) -> (Vec<Handle<L>>, Option<u64>) {
    match serve(rt, alloc, shared, handles, requests, 10, gate) {
        Ok(done) => {
            let Served {
                outcomes,
                handles,
                receipts: _,
            } = done;
            (handles, dones(outcomes.as_slice()))
        }
        Err((ServeFault::Memory, handles)) => (handles, Some(0)),
        Err((_, handles)) => (handles, None),
    }
}

// Serves them after the gate and then with none. Each is committed once.
fn all_served<L: SharedLedger + Send + Sync, G: Gate + Sync, R: Threads + Wait + Sync>(
    rt: &R,
    alloc: Global,
    shared: &Shared<L>,
    handles: Vec<Handle<L>>,
    requests: &[Request],
    gate: &G,
) -> Option<Vec<Handle<L>>> {
    let (handles, first) = served(rt, alloc, shared, handles, requests, gate);
    let (handles, second) = served(rt, alloc, shared, handles, requests, &FreeGate);
    match (first, second) {
        (Some(first), Some(second)) if first.wrapping_add(second) == 2 => Some(handles),
        _ => None,
    }
}

// Whether a piece has ended; not if memory was short.
fn is_finished(end: &PieceEnd) -> Option<bool> {
    match end {
        PieceEnd::Finished => Some(true),
        PieceEnd::Memory => Some(false),
        _ => None,
    }
}

// Whether both pieces have ended, if the two numbers have one end each.
fn are_finished(ends: &[(usize, PieceEnd)]) -> Option<bool> {
    match ends {
        [(one, first), (two, second)] if (*one, *two) == (0, 1) => {
            Some(is_finished(first)? && is_finished(second)?)
        }
        _ => None,
    }
}

// Works the pieces off: whether both have ended.
fn filled<L: SharedLedger + Send + Sync, R: Threads + Wait + Sync>(
    rt: &R,
    alloc: Global,
    shared: &Shared<L>,
    handles: Vec<Handle<L>>,
) -> (Vec<Handle<L>>, Option<bool>) {
    match reorganise_all(rt, alloc, shared, handles, 30, 2, 10, 5, &FreeGate) {
        Ok(done) => {
            let Reorganised {
                ends,
                handles,
                receipts: _,
            } = done;
            (handles, are_finished(ends.as_slice()))
        }
        Err((ReorganiseFault::Memory, handles)) => (handles, Some(false)),
        Err((_, handles)) => (handles, None),
    }
}

// The same, once more if memory was short.
fn all_filled<L: SharedLedger + Send + Sync, R: Threads + Wait + Sync>(
    rt: &R,
    alloc: Global,
    shared: &Shared<L>,
    handles: Vec<Handle<L>>,
) -> Option<Vec<Handle<L>>> {
    let (handles, first) = filled(rt, alloc, shared, handles);
    let (handles, second) = match first {
        Some(false) => filled(rt, alloc, shared, handles),
        first => (handles, first),
    };
    if second == Some(true) {
        Some(handles)
    } else {
        None
    }
}

// Behind the mark the handles fill the index and serve the requests.
fn fill_and_serve<L: SharedLedger + Send + Sync, R: Threads + Wait + Sync + Print>(
    rt: &R,
    alloc: Global,
    shared: &Shared<L>,
    handles: Vec<Handle<L>>,
    requests: [&[Request]; 2],
) -> Option<Vec<Handle<L>>> {
    if !mark(rt) {
        return None;
    }
    let [first, second] = requests;
    let handles = all_filled(rt, alloc, shared, handles)?;
    let handles = all_served(rt, alloc, shared, handles, first, &Behind::new())?;
    all_served(rt, alloc, shared, handles, second, &Together::new())
}

// The world comes back, so both handles did.
fn works<L: SharedLedger + Send + Sync, R: Threads + Wait + Sync + Print>(
    rt: &R,
    alloc: Global,
    blanks: Blanks,
    world: World,
    requests: [&[Request]; 2],
) -> Option<World>
    requires names { (blanks.added.name ≡ L.name) × (blanks.taken.name ≡ L.taken_name) × (blanks.refused.name ≡ L.refused_name) × (blanks.cut.name ≡ L.cut_name) }
    requires parts { (blanks.added.parts ≡ L.parts) × (blanks.taken.parts ≡ L.parts) × (blanks.refused.parts ≡ L.parts) }
    requires picked { (L.handles ≡ 2) × (L.handles ≡ L.parts) × (L.start ≡ world) }
{
    let (shared, handles) = Shared::<L>::new(alloc, blanks, world, 2).ok()?;
    let handles = fill_and_serve(rt, alloc, &shared, handles, requests)?;
    shared.close(handles).ok()
}

// The inserts of two rows.
fn inserts(alloc: Global, first: i64, second: i64) -> Result<Vec<Request>, AllocError> {
    let first = insert(alloc, first)?;
    let second = insert(alloc, second)?;
    Ok(vec![in alloc; first, second]?)
}

// Whether all six rows have their pairs, and the fill has ended.
fn is_filled(alloc: Global, world: &World) -> bool {
    let reported = match world.check(alloc) {
        Err(AllocError) => world.check(alloc),
        reported => reported,
    };
    match reported {
        Ok(found) => {
            (found.rows, found.missing, found.extra) == (6, 0, 0)
                && world.progress(2) == Some((Work::Fill, 2, true))
        }
        Err(AllocError) => false,
    }
}

fn is_worked_off<R: Threads + Wait + Sync + Print>(rt: &R, alloc: Global) -> Option<bool> {
    let first = inserts(alloc, 3, 4).ok()?;
    let second = inserts(alloc, 5, 6).ok()?;
    let requests = [first.as_slice(), second.as_slice()];
    let world = filling(alloc, 2, 2)?;
    let world = works::<Brand, R>(rt, alloc, Blanks::new(2), world, requests)?;
    Some(is_filled(alloc, &world))
}

#[test]
fn under_refusal_two_handles_fill_and_serve(rt: HostRuntime) {
    assert!(rt; is_worked_off(&rt, rt.alloc()) == Some(true));
}
