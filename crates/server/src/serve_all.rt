//! Many requests, by as many servers as there are handles.
ghost use Rattle.std.specs.Prelude.{◌≡◌, ◌≤◌, length, map, reverse, sum_by, vec_len, vec_capacity, [], All, IfOk, IfErr};
ghost use Rattle.server.specs.HandlePorts.{SaidByCore};
ghost use Rattle.server.specs.Outcomes.{IsLeaseReceipt};
ghost use Rattle.server.specs.Works.{Orders, AreIdle};
ghost use Rattle.server.specs.Serve.{IsMostFront, IsRefused, IsCount, Serves, to_fault};

use crate::handle_port::HandlePort;
use crate::request::{Outcome, Request};
use crate::tally::{Last, Tally};
use crate::worker::RequestWorker;
use collections::List;
use locked_store::world::Receipt;
use locked_store::{Handle, Shared, SharedLedger, least_front};
use std::alloc::Global;
use std::sync::Wait;
use std::thread::Threads;
use tasks::{Gate, Performed, TaskFault, perform_all};
use thiserror::Error;

/// The greatest number of requests.
const MAX_REQUESTS: usize = 1_000_000;

/// The greatest number of handles.
const MAX_HANDLES: usize = 64;

/// The greatest number of tries.
const MAX_TRIES: u32 = 1_000;

/// What became of each request, and the handles.
#[derive(Drop)]
pub struct Served<L: SharedLedger> {
    /// The outcome of each request, by rising number; `serve` says what is true of it.
    pub outcomes: Vec<(usize, Outcome)>,
    /// All handles, in their order.
    pub handles: Vec<Handle<L>>,
    /// The receipts that no outcome holds, those of leases, in one list for each handle.
    pub receipts: Vec<List<Receipt>>,
}

/// Why no request was served. Of several reasons the first in this order is reported.
#[derive(Clone, Copy, Debug, PartialEq, Eq, Error)]
pub enum ServeFault {
    /// The number of handles is not from 1 to 64, the number of tries not from 1 to 1,000, or there
    /// are more than 1,000,000 requests.
    #[error("not from 1 to 64 handles, 1 to 1,000 tries, or more than 1,000,000 requests")]
    BadCount,
    /// Out of memory.
    #[error("out of memory")]
    Memory,
}

// The greatest front of these handles: no handle has seen the log longer.
fn most_front<L: SharedLedger>(handles: &[Handle<L>]) -> u64
    ensures { IsMostFront handles.now result }
{
    let mut most = 0;
    for handle in handles {
        most = most.max(handle.front());
    }
    most
}

// A server for each handle, the last handle first.
fn make_workers<'a, L: SharedLedger, R: Wait>(
    rt: &'a R,
    alloc: Global,
    shared: &'a Shared<L>,
    requests: &'a [Request],
    tries: u32,
    front: u64,
    most: u64,
    room: Vec<RequestWorker<'a, L, R>>,
    handles: &mut Vec<Handle<L>>,
) -> Vec<RequestWorker<'a, L, R>>
    requires tries { (1 ≤ tries) × (tries ≤ 1000) }
    requires seen { All (λ h. front ≤ h.front) handles.old.items }
    requires most { All (λ h. h.front ≤ most) handles.old.items }
    requires room { (room.items ≡ []) × (vec_len handles.old ≤ vec_capacity room) }
    ensures taken { (handles.new.items ≡ []) × (vec_capacity handles.new ≡ vec_capacity handles.old) }
    ensures staff { map (λ w. w.handle) result.items ≡ reverse handles.old.items }
    ensures idle { AreIdle (record { requests = requests.now; tries = tries; front = front; most = most }) result.items }
{
    let mut workers = room;
    while let Some(handle) = handles.pop() {
        let first_front = handle.front();
        workers.push_reserved(RequestWorker {
            port: HandlePort {
                rt,
                shared,
                handle,
                kept_receipts: Vec::new(alloc),
                tally: Tally {
                    retries: 0,
                    last: Last::Nothing,
                },
            },
            held: None,
            requests,
            tries,
            front,
            most,
            first_front,
        });
    }
    workers
}

// Takes the servers apart, the last one first.
fn into_parts<L: SharedLedger, R: Wait>(
    workers: Vec<RequestWorker<L, R>>,
    handles: &mut Vec<Handle<L>>,
    receipts: &mut Vec<List<Receipt>>,
)
    requires handles { (handles.old.items ≡ []) × (vec_len workers ≤ vec_capacity handles.old) }
    requires receipts { (receipts.old.items ≡ []) × (vec_len workers ≤ vec_capacity receipts.old) }
    ensures back { handles.new.items ≡ reverse (map (λ w. w.handle) workers.entry.items) }
    ensures risen { All (λ w. w.first_front ≤ w.handle.front) workers.entry.items }
    ensures lists { length receipts.new.items ≡ length workers.entry.items }
    ensures kept_receipts { sum_by length receipts.new.items ≡ sum_by (λ w. length w.kept_receipts) workers.entry.items }
    ensures leases { (orders : Orders) → All (λ w. w.orders ≡ orders) workers.entry.items → All (All (IsLeaseReceipt (SaidByCore L.start orders.front orders.most))) receipts.new.items }
{
    let mut workers = workers;
    while let Some(worker) = workers.pop() {
        let RequestWorker {
            port: HandlePort {
                handle,
                kept_receipts,
                ..
            },
            held,
            ..
        } = worker;
        drop(held);
        handles.push_reserved(handle);
        receipts.push_reserved(List::new(kept_receipts));
    }
}

// Serves the requests, once all room is made.
#[tactic(auto, using(crate::proofs::Serves::given_back, crate::proofs::Serves::planned))]
fn run<'a, L: SharedLedger + Send + Sync, G: Gate + Sync, R: Threads + Wait + Sync>(
    rt: &'a R,
    alloc: Global,
    shared: &'a Shared<L>,
    handles: Vec<Handle<L>>,
    requests: &'a [Request],
    tries: u32,
    gate: &G,
    room: Vec<RequestWorker<'a, L, R>>,
    receipts: Vec<List<Receipt>>,
) -> Result<Served<L>, (ServeFault, Vec<Handle<L>>)>
    requires counts { IsCount (vec_len handles) (length requests.now) tries }
    requires room { (room.items ≡ []) × (vec_len handles ≤ vec_capacity room) }
    requires receipts { (receipts.items ≡ []) × (vec_len handles ≤ vec_capacity receipts) }
    ensures served { IfOk result (λ s. Serves L.start requests.now tries handles.items s.outcomes.items s.handles.items s.receipts.items) }
    ensures refused { IfErr result (λ r. IsRefused (vec_len handles) (length requests.now) tries r.0) }
    ensures unchanged { IfErr result (λ r. r.1.items ≡ handles.items) }
{
    let mut handles = handles;
    let mut receipts = receipts;
    let front = least_front(&handles);
    let most = most_front(&handles);
    let workers = make_workers(
        rt,
        alloc,
        shared,
        requests,
        tries,
        front,
        most,
        room,
        &mut handles,
    );
    match perform_all(rt, alloc, workers, requests.len(), gate) {
        Ok(Performed { outcomes, workers }) => {
            into_parts(workers, &mut handles, &mut receipts);
            Ok(Served {
                outcomes,
                handles,
                receipts,
            })
        }
        Err((fault, workers)) => {
            into_parts(workers, &mut handles, &mut receipts);
            Err((to_fault(fault), handles))
        }
    }
}

// Why no task was performed, as the serving tells it.
fn to_fault(fault: TaskFault) -> ServeFault
    ensures { result ≡ to_fault fault }
{
    match fault {
        TaskFault::BadCount => ServeFault::BadCount,
        TaskFault::Memory => ServeFault::Memory,
    }
}

/// Serves each request once, in as many threads as there are handles, the caller's thread being one
/// of them; a thread that cannot be started leaves its share to the others. A request is served as
/// by `serve_under`: each server keeps its lease while that is in force. It is read and prepared
/// outside of the lock.
///
/// - `handles`: all of the same shared world, from 1 to 64.
/// - `requests`: at most 1,000,000.
/// - `tries`: how often a request is tried at most, from 1 to 1,000.
/// - `gate`: it is asked up to 10,000,000 times before a request; if it never lets pass, the
///   outcome is `Held`.
///
/// Each outcome is true of its own request, in the world that the handles call. A state is meant
/// here that is no older than what all handles had seen when the call began:
///
/// - `Done` has the receipt of a commit of its operations by such a state, at the request's moment;
///   the entry is in the log, after all that the handles had seen.
/// - `Row` is how the rows of such a state refuse its operations.
/// - `Unprepared` is why its operations cannot be prepared, by the schema of a lease on the newest
///   version of such a state and by what was read of such a state.
/// - `Rejected` has a refusal by such a state after which no further try would help.
/// - `Busy` comes after as many tries as were allowed, each refused by such a state with a conflict
///   or with the end of its lease.
/// - `WentBack` has a length that the log had; a handle came with a greater front, or the log also
///   had a greater length.
/// - `Held` and `Memory` say nothing of it.
///
/// The receipts that come back beside the outcomes, in one list for each handle, are of leases
/// alone, whose entries are in the log, after all that the handles had seen. No handle comes back
/// with a lower front.
///
/// Refused in this order, and then nothing was served and the handles come back: `BadCount` if one
/// of these numbers is out of its range; `Memory`. Once a request has begun, running out of memory
/// is the outcome of single requests.
pub fn serve<L: SharedLedger + Send + Sync, G: Gate + Sync, R: Threads + Wait + Sync>(
    rt: &R,
    alloc: Global,
    shared: &Shared<L>,
    handles: Vec<Handle<L>>,
    requests: &[Request],
    tries: u32,
    gate: &G,
) -> Result<Served<L>, (ServeFault, Vec<Handle<L>>)>
    ensures counts { IfOk result (λ _. IsCount (vec_len handles) (length requests.now) tries) }
    ensures served { IfOk result (λ s. Serves L.start requests.now tries handles.items s.outcomes.items s.handles.items s.receipts.items) }
    ensures refused { IfErr result (λ r. IsRefused (vec_len handles) (length requests.now) tries r.0) }
    ensures unchanged { IfErr result (λ r. r.1.items ≡ handles.items) }
{
    let count = handles.len();
    if count == 0 || count > MAX_HANDLES {
        return Err((ServeFault::BadCount, handles));
    }
    if tries == 0 || tries > MAX_TRIES || requests.len() > MAX_REQUESTS {
        return Err((ServeFault::BadCount, handles));
    }
    let Ok(room) = Vec::with_capacity(alloc, count) else {
        return Err((ServeFault::Memory, handles));
    };
    let Ok(receipts) = Vec::with_capacity(alloc, count) else {
        return Err((ServeFault::Memory, handles));
    };
    run(
        rt, alloc, shared, handles, requests, tries, gate, room, receipts,
    )
}
