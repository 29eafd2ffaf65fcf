//! All pieces of a begun reorganisation, by as many workers as there are handles.
ghost use Rattle.std.specs.Prelude.{◌≡◌, ℕ, ◌≤◌, All, length, map, reverse, sum_by, vec_len, vec_capacity, [], Decides, IfOk, IfErr, None};
ghost use Rattle.locked_store.specs.Answers.{Counts};
ghost use Rattle.locked_store.specs.Known.{IsLeastFront, OfLast};
ghost use Rattle.reorganise_workers.specs.Ends.{HasSeen, IsPieceReceipt};
ghost use Rattle.reorganise_workers.specs.inner.Jobs.{IsJob};
ghost use Rattle.reorganise_workers.specs.inner.Workers.{AreIdle};
ghost use Rattle.reorganise_workers.specs.declared.job.Job.{Job};
ghost use Rattle.reorganise_workers.specs.ReorganiseAll.{asked, IsCount, IsMostFront, IsRefused, Reorganises, IsWorkedOff, WasBegun, WasRefused, to_fault, Stays};

use crate::end::PieceEnd;
use crate::job::Job;
use crate::worker::PieceWorker;
use collections::List;
use locked_store::world::Receipt;
use locked_store::{Handle, Shared, SharedLedger, WentBack, least_front};
use std::alloc::Global;
use std::sync::Wait;
use std::thread::Threads;
use tasks::{Gate, Performed, TaskFault, perform_all};
use thiserror::Error;

/// The greatest number of handles.
const MAX_HANDLES: usize = 64;

/// The greatest number of items of a piece.
const MAX_LIMIT: u32 = 1_000;

/// The greatest number of tries of a piece.
const MAX_TRIES: u32 = 1_000_000;

/// What became of each piece, and the handles.
#[derive(Drop)]
pub struct Reorganised<L: SharedLedger> {
    /// The end of each piece, by rising number.
    pub ends: Vec<(usize, PieceEnd)>,
    /// All handles, in their order.
    pub handles: Vec<Handle<L>>,
    /// The receipts of what was committed, in one list for each handle.
    pub receipts: Vec<List<Receipt>>,
}

/// Why no piece was worked on. Of several reasons the first in this order is reported.
#[derive(Clone, Copy, Debug, PartialEq, Eq, Error)]
pub enum ReorganiseFault {
    /// The number of handles is not from 1 to 64, the limit not from 1 to 1,000, or the number of
    /// tries not from 1 to 1,000,000.
    #[error("not from 1 to 64 handles, 1 to 1,000 items or 1 to 1,000,000 tries")]
    BadCount,
    /// The log was shorter than the last handle had seen it.
    #[error("the log went back to {seen} entries")]
    WentBack {
        /// The length of the log.
        seen: u64,
    },
    /// No reorganisation of the element has begun, or it is over.
    #[error("no reorganisation of the element has begun")]
    NotBegun,
    /// Out of memory.
    #[error("out of memory")]
    Memory,
}

// The greatest front of these handles: no handle has seen the log longer.
fn most_front<L: SharedLedger>(handles: &[Handle<L>]) -> u64
    ensures { IsMostFront handles.now result }
{
    let mut most = 0;
    for handle in handles {
        most = most.max(handle.front());
    }
    most
}

// What the workers are to do, by how the reorganisation stands.
#[tactic(auto, using(crate::proofs::Reorganises::few))]
fn job_of<L: SharedLedger, R: Wait>(
    rt: &R,
    shared: &Shared<L>,
    me: &mut Handle<L>,
    moment: u64,
    element: u32,
    limit: u32,
    tries: u32,
    front: u64,
    most: u64,
) -> Result<Job, ReorganiseFault>
    requires counts { (1 ≤ limit) × (limit ≤ 1000) × (1 ≤ tries) × (tries ≤ 1000000) }
    ensures same { Counts me.old None me.new }
    ensures rises { me.old.front ≤ me.new.front }
    ensures stays { (m : ℕ) → HasSeen L.start m me.old.front → HasSeen L.start m me.new.front }
    ensures job { IfOk result (λ job. IsJob job × (job ≡ asked moment element job.kind job.pieces limit tries front most)) }
    ensures begun { IfOk result (λ job. WasBegun L.start element job.kind job.pieces me.old.front) }
    ensures refused { IfErr result (λ fault. WasRefused L.start element me.old.front fault) }
{
    match shared.progress(rt, me, element) {
        Ok(Some((kind, pieces, _))) => Ok(Job {
            moment,
            element,
            kind,
            pieces,
            limit,
            tries,
            front,
            most,
        }),
        Ok(None) => Err(ReorganiseFault::NotBegun),
        Err(WentBack { seen }) => Err(ReorganiseFault::WentBack { seen }),
    }
}

// A worker for each handle, the last handle first.
fn make_workers<'a, L: SharedLedger, R: Wait>(
    rt: &'a R,
    alloc: Global,
    shared: &'a Shared<L>,
    job: Job,
    room: Vec<PieceWorker<'a, L, R>>,
    handles: &mut Vec<Handle<L>>,
) -> Vec<PieceWorker<'a, L, R>>
    requires job { IsJob job }
    requires seen { All (λ h. job.front ≤ h.front) handles.old.items }
    requires had { All (λ h. HasSeen L.start job.most h.front) handles.old.items }
    requires room { (room.items ≡ []) × (vec_len handles.old ≤ vec_capacity room) }
    ensures taken { (handles.new.items ≡ []) × (vec_capacity handles.new ≡ vec_capacity handles.old) }
    ensures staff { map (λ w. w.handle) result.items ≡ reverse handles.old.items }
    ensures idle { AreIdle job result.items }
{
    let mut workers = room;
    while let Some(handle) = handles.pop() {
        let first_front = handle.front();
        workers.push_reserved(PieceWorker {
            rt,
            shared,
            handle,
            first_front,
            kept_receipts: Vec::new(alloc),
            job,
        });
    }
    workers
}

// Takes the workers apart, the last one first.
fn into_parts<L: SharedLedger, R: Wait>(
    workers: Vec<PieceWorker<L, R>>,
    handles: &mut Vec<Handle<L>>,
    receipts: &mut Vec<List<Receipt>>,
)
    requires handles { (handles.old.items ≡ []) × (vec_len workers ≤ vec_capacity handles.old) }
    requires receipts { (receipts.old.items ≡ []) × (vec_len workers ≤ vec_capacity receipts.old) }
    ensures back { handles.new.items ≡ reverse (map (λ w. w.handle) workers.entry.items) }
    ensures risen { All (λ w. w.first_front ≤ w.handle.front) workers.entry.items }
    ensures lists { length receipts.new.items ≡ length workers.entry.items }
    ensures kept_receipts { sum_by length receipts.new.items ≡ sum_by (λ w. length w.kept_receipts) workers.entry.items }
    ensures pieces { (job : Job) → All (λ w. w.job ≡ job) workers.entry.items → All (All (IsPieceReceipt L.start job)) receipts.new.items }
{
    let mut workers = workers;
    while let Some(worker) = workers.pop() {
        let PieceWorker {
            rt: _,
            shared: _,
            handle,
            first_front: _,
            kept_receipts,
            job: _,
        } = worker;
        handles.push_reserved(handle);
        receipts.push_reserved(List::new(kept_receipts));
    }
}

// Why no task was performed, as the reorganisation reports it.
fn to_fault(fault: TaskFault) -> ReorganiseFault
    ensures { result ≡ to_fault fault }
{
    match fault {
        TaskFault::BadCount => ReorganiseFault::BadCount,
        TaskFault::Memory => ReorganiseFault::Memory,
    }
}

// Works on all pieces, once all room is made.
#[tactic(auto, using(crate::proofs::Reorganises::given_back, crate::proofs::Reorganises::planned))]
fn run<'a, L: SharedLedger + Send + Sync, G: Gate + Sync, R: Threads + Wait + Sync>(
    rt: &'a R,
    alloc: Global,
    shared: &'a Shared<L>,
    handles: Vec<Handle<L>>,
    job: Job,
    gate: &G,
    room: Vec<PieceWorker<'a, L, R>>,
    receipts: Vec<List<Receipt>>,
) -> Result<Reorganised<L>, (ReorganiseFault, Vec<Handle<L>>)>
    requires counts { IsCount (vec_len handles) job.limit job.tries }
    requires job { IsJob job }
    requires seen { All (λ h. job.front ≤ h.front) handles.items }
    requires had { All (λ h. HasSeen L.start job.most h.front) handles.items }
    requires room { (room.items ≡ []) × (vec_len handles ≤ vec_capacity room) }
    requires receipts { (receipts.items ≡ []) × (vec_len handles ≤ vec_capacity receipts) }
    ensures done { IfOk result (λ s. Reorganises L.start job handles.items s.ends.items s.handles.items s.receipts.items) }
    ensures refused { IfErr result (λ r. r.0 ≡ ReorganiseFault.Memory) }
    ensures unchanged { IfErr result (λ r. r.1.items ≡ handles.items) }
{
    let mut handles = handles;
    let mut receipts = receipts;
    let workers = make_workers(rt, alloc, shared, job, room, &mut handles);
    match perform_all(rt, alloc, workers, job.pieces, gate) {
        Ok(Performed { outcomes, workers }) => {
            into_parts(workers, &mut handles, &mut receipts);
            Ok(Reorganised {
                ends: outcomes,
                handles,
                receipts,
            })
        }
        Err((fault, workers)) => {
            into_parts(workers, &mut handles, &mut receipts);
            Err((to_fault(fault), handles))
        }
    }
}

// Whether a call may be asked for so much.
fn is_count(handles: usize, limit: u32, tries: u32) -> bool
    ensures { Decides result (IsCount handles limit tries) }
{
    handles >= 1
        && handles <= MAX_HANDLES
        && limit >= 1
        && limit <= MAX_LIMIT
        && tries >= 1
        && tries <= MAX_TRIES
}

// The same, through the last handle, from what all handles have seen.
#[tactic(auto, using(crate::proofs::Reorganises::looked))]
fn look_again<L: SharedLedger, R: Wait>(
    rt: &R,
    shared: &Shared<L>,
    handles: &mut Vec<Handle<L>>,
    moment: u64,
    element: u32,
    limit: u32,
    tries: u32,
) -> Result<Job, ReorganiseFault>
    requires counts { IsCount (vec_len handles.old) limit tries }
    ensures counts { IfOk result (λ _. IsCount (length handles.old.items) limit tries) }
    ensures stays { Stays handles.old.items handles.new.items × (vec_len handles.new ≡ vec_len handles.old) }
    ensures job { IfOk result (λ job. IsJob job × (job ≡ asked moment element job.kind job.pieces limit tries job.front job.most)) }
    ensures least { IfOk result (λ job. IsLeastFront handles.old.items job.front) }
    ensures greatest { IfOk result (λ job. IsMostFront handles.old.items job.most) }
    ensures seen { IfOk result (λ job. All (λ h. job.front ≤ h.front) handles.new.items) }
    ensures had { IfOk result (λ job. All (λ h. HasSeen L.start job.most h.front) handles.new.items) }
    ensures begun { IfOk result (λ job. OfLast handles.old.items (λ last. WasBegun L.start element job.kind job.pieces last.front)) }
    ensures refused { IfErr result (λ fault. IsRefused L.start element limit tries handles.old.items fault) }
{
    let front = least_front(handles.as_slice());
    let most = most_front(handles.as_slice());
    let Some(mut me) = handles.pop() else {
        unreachable!()
    };
    let found = job_of(
        rt, shared, &mut me, moment, element, limit, tries, front, most,
    );
    handles.push_reserved(me);
    found
}

/// Runs a begun reorganisation to its end, in as many threads as there are handles, the caller's
/// thread being one of them; a thread that cannot be started leaves its share to the others. Each
/// draws a piece, and reads, prepares and commits its next items until it has ended; what is read
/// is prepared outside of the lock.
///
/// The call begins with the reorganisation that the last handle finds begun, and a piece ends
/// `Finished` by work of that kind alone. If the reorganisation is over by the time that a piece is
/// read, looked at or committed, or has no such piece, the piece ends `Refused(NotWanted)`; if the
/// element's reorganisation is of another kind by then, as when a fill was abandoned and a clear
/// begun, it ends `Refused(WrongElement)`. A piece that ends `WentBack` has a length that the log
/// had; a handle came with a greater front, or the log also had a greater length.
///
/// - `handles`: all of the same shared world, from 1 to 64.
/// - `moment`: the moment of each commit; the greater of it and the moment of the last entry
///   counts.
/// - `element`: the number of the element whose reorganisation it is.
/// - `limit`: how many items each commit may have, from 1 to 1,000.
/// - `tries`: after how many tries that ended in a conflict, or found the piece moved, a piece is
///   given up, from 1 to 1,000,000. The failed tries that all ends tell of are different ones: each is
///   a commit of one of the handles, of which the handle counts how many were refused.
/// - `gate`: it is asked up to 10,000,000 times before a piece; if it never lets pass, the piece's
///   end is `Held`.
///
/// Refused in this order, and then no piece was worked on and the handles come back: `BadCount` if
/// one of these numbers is out of its range; `WentBack` if the log is shorter than the last
/// handle's front; `NotBegun` if no reorganisation of the element has begun; `Memory`. Once a piece
/// has begun, running out of memory is the end of single pieces, and what they committed stays.
pub fn reorganise_all<L: SharedLedger + Send + Sync, G: Gate + Sync, R: Threads + Wait + Sync>(
    rt: &R,
    alloc: Global,
    shared: &Shared<L>,
    handles: Vec<Handle<L>>,
    moment: u64,
    element: u32,
    limit: u32,
    tries: u32,
    gate: &G,
) -> Result<Reorganised<L>, (ReorganiseFault, Vec<Handle<L>>)>
    ensures counts { IfOk result (λ _. IsCount (vec_len handles) limit tries) }
    ensures done { IfOk result (λ s. IsWorkedOff L.start moment element limit tries handles.items s.ends.items s.handles.items s.receipts.items) }
    ensures refused { IfErr result (λ r. IsRefused L.start element limit tries handles.items r.0) }
    ensures unchanged { IfErr result (λ r. Stays handles.items r.1.items) }
{
    let mut handles = handles;
    let count = handles.len();
    if !is_count(count, limit, tries) {
        return Err((ReorganiseFault::BadCount, handles));
    }
    let job = match look_again(rt, shared, &mut handles, moment, element, limit, tries) {
        Ok(job) => job,
        Err(fault) => return Err((fault, handles)),
    };
    let Ok(room) = Vec::with_capacity(alloc, count) else {
        return Err((ReorganiseFault::Memory, handles));
    };
    let Ok(receipts) = Vec::with_capacity(alloc, count) else {
        return Err((ReorganiseFault::Memory, handles));
    };
    run(rt, alloc, shared, handles, job, gate, room, receipts)
}
