//! Two operators carry the changes on at once, beside four servers that write: nothing is done
//! twice.
ghost use Rattle.std.specs.Prelude.{◌≡◌};

use crate::carried_on::fixtures::{is_whole, request, states, with_changes};
use collections::List;
use replay::What;
use schema_version::ElementState;
use server::{Outcome, Request, Served, serve};
use shared_rollout::complete;
use shared_rollout::locked_store::{Blanks, Handle, Shared, SharedLedger, reconcile};
use shared_rollout::world::{Receipt, World};
use std::alloc::{AllocError, Global};
use std::marker::Brand;
use std::sync::Wait;
use std::thread::{Threads, join};
use tasks::FreeGate;

/// How many updates and inserts the servers are asked for.
const REQUESTS: i64 = 24;

/// How often others may be first.
const TRIES: u32 = 1_000;

// What came back of all threads.
#[derive(Drop)]
struct Done<L: SharedLedger> {
    handles: Vec<Handle<L>>,
    receipts: Vec<Receipt>,
}

// Updates of the five rows, and inserts of others in between.
fn requests(alloc: Global) -> Result<Vec<Request>, AllocError> {
    let mut all = Vec::new(alloc);
    for id in 0..REQUESTS {
        let is_there = id % 2 == 0;
        let row = if is_there { 1 + id % 5 } else { 100 + id };
        all.push(request(alloc, row, is_there)?)?;
    }
    Ok(all)
}

// An operator that completes all changes, in so many pieces of so many items, with its receipts;
// None if it was refused.
fn operated<L: SharedLedger, R: Wait>(
    rt: &R,
    alloc: Global,
    shared: &Shared<L>,
    me: Handle<L>,
    pace: (u32, u32),
) -> (Handle<L>, Option<Vec<Receipt>>) {
    let mut me = me;
    let mut receipts = Vec::new(alloc);
    let (kept, now) = (&mut receipts, 10);
    match complete(rt, alloc, shared, &mut me, kept, now, pace.0, pace.1, TRIES) {
        Ok(_) => (me, Some(receipts)),
        Err(_) => (me, None),
    }
}

// All receipts, if neither was refused.
fn united(one: Option<Vec<Receipt>>, other: Option<Vec<Receipt>>) -> Option<Vec<Receipt>> {
    let mut all = one?;
    let mut more = other?;
    all.append(&mut more).ok()?;
    Some(all)
}

// Both operators at once.
fn both<L: SharedLedger + Send + Sync, R: Threads + Wait + Sync>(
    rt: &R,
    alloc: Global,
    shared: &Shared<L>,
    operators: (Handle<L>, Handle<L>),
    pace: (u32, u32),
) -> (Handle<L>, Handle<L>, Option<Vec<Receipt>>) {
    let (one, other) = operators;
    let ((one, receipts), (other, more)) = join(
        rt,
        move || operated(rt, alloc, shared, one, pace),
        move || operated(rt, alloc, shared, other, pace),
    );
    (one, other, united(receipts, more))
}

// The receipts of all requests and leases; None if a request was not committed.
fn receipts_of(
    alloc: Global,
    outcomes: Vec<(usize, Outcome)>,
    leases: Vec<List<Receipt>>,
) -> Option<Vec<Receipt>> {
    let mut all = Vec::new(alloc);
    for (_, outcome) in outcomes {
        let Outcome::Done(receipt) = outcome else {
            return None;
        };
        all.push(receipt).ok()?;
    }
    for leases in leases {
        let mut leases = leases.into_vec();
        all.append(&mut leases).ok()?;
    }
    Some(all)
}

// All handles and receipts.
fn gathered<L: SharedLedger>(
    alloc: Global,
    served: Served<L>,
    operators: (Handle<L>, Handle<L>),
    done: Option<Vec<Receipt>>,
) -> Option<Done<L>> {
    let Served {
        outcomes,
        mut handles,
        receipts: leases,
    } = served;
    let receipts = united(done, receipts_of(alloc, outcomes, leases));
    handles.push(operators.0).ok()?;
    handles.push(operators.1).ok()?;
    Some(Done {
        handles,
        receipts: receipts?,
    })
}

// The servers beside the operators.
fn at_once<L: SharedLedger + Send + Sync, R: Threads + Wait + Sync>(
    rt: &R,
    alloc: Global,
    shared: &Shared<L>,
    servers: Vec<Handle<L>>,
    operators: (Handle<L>, Handle<L>),
    requests: &[Request],
    pace: (u32, u32),
) -> Option<Done<L>> {
    let (served, (one, other, done)) = join(
        rt,
        move || serve(rt, alloc, shared, servers, requests, TRIES, &FreeGate),
        move || both(rt, alloc, shared, operators, pace),
    );
    match served {
        Ok(served) => gathered(alloc, served, (one, other), done),
        Err(_) => None,
    }
}

// The world that comes back, with all receipts since it was shared.
fn driven<L: SharedLedger + Send + Sync, R: Threads + Wait + Sync>(
    rt: &R,
    alloc: Global,
    blanks: Blanks,
    world: World,
    requests: &[Request],
    pace: (u32, u32),
) -> Option<(World, Vec<Receipt>)>
    requires names { (blanks.added.name ≡ L.name) × (blanks.taken.name ≡ L.taken_name) × (blanks.refused.name ≡ L.refused_name) × (blanks.cut.name ≡ L.cut_name) }
    requires parts { (blanks.added.parts ≡ L.parts) × (blanks.taken.parts ≡ L.parts) × (blanks.refused.parts ≡ L.parts) }
    requires picked { (L.handles ≡ 6) × (L.handles ≡ L.parts) × (L.start ≡ world) }
{
    let (shared, mut servers) = Shared::<L>::new(alloc, blanks, world, 6).ok()?;
    let operators = (servers.pop()?, servers.pop()?);
    let Done { handles, receipts } = at_once(
        rt, alloc, &shared, servers, operators, requests, pace,
    )?;
    Some((shared.close(handles).ok()?, receipts))
}

// How many reorganisations began, and how many moves were published.
fn acts_in(world: &World) -> (u32, usize) {
    let (mut begins, mut moves) = (0u32, 0usize);
    for entry in world.log() {
        match entry.what.get() {
            What::Begin { .. } => begins = begins.saturating_add(1),
            What::Publish(step) => moves = moves.saturating_add(step.len()),
            _ => {}
        }
    }
    (begins, moves)
}

// One round: all changes are completed, and each is begun once, and each element moves once along
// each edge.
fn round<R: Threads + Wait + Sync>(rt: &R, alloc: Global, pace: (u32, u32)) -> Option<bool> {
    use ElementState::{Absent, Public};
    let world = with_changes(alloc)?;
    let since = world.log().len();
    let all = requests(alloc).ok()?;
    let requests = all.as_slice();
    let driven = driven::<Brand, R>(rt, alloc, Blanks::new(6), world, requests, pace);
    drop(all);
    let (world, receipts) = driven?;
    let is_counted = since.checked_add(receipts.len()) == Some(world.log().len());
    let is_logged = reconcile(alloc, &world, receipts.as_slice()).is_ok();
    let is_done = states(&world) == (Absent, Public, Public) && is_whole(alloc, &world, 17);
    Some(is_counted && is_logged && is_done && acts_in(&world) == (3, 8))
}

#[test]
fn two_operators_and_four_servers(rt: HostRuntime) {
    for seed in 0..50u32 {
        let pace = (1 + seed % 5, 1 + seed % 3);
        assert!(rt; round(&rt, rt.alloc(), pace) == Some(true), "{seed}");
    }
}
