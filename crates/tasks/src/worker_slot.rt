//! A worker in its place: it draws the numbers of tasks, performs them, and keeps their outcomes.
ghost use Rattle.std.specs.Prelude.{◌≡◌, ◌+◌, ◌<◌, ◌≤◌, [], length, map, reverse, sum_by, All, vec_len, vec_capacity};
ghost use Rattle.claims.specs.Seats.{AreIdle};
ghost use Rattle.tasks.specs.Outcomes.{held_in, held_all, numbers_of, early, AreFit, IsOnPlan, StaysOnPlan};

use crate::gate::{TaskGate, has_passed};
use crate::worker::Worker;
use claims::{ClaimSeat, Claims, Drawing};
use std::alloc::Global;
use std::thread;
use std::thread::Threads;

/// One worker, the seat by which it draws, and the outcomes of the tasks that it drew.
#[derive(Drop)]
pub(crate) struct WorkerSlot<W: Worker, T: Drawing> {
    pub(crate) worker: W,
    pub(crate) seat: ClaimSeat<T>,
    pub(crate) done: Vec<(usize, W::Outcome)>,
    ghost total: { W.total (W.plan worker) ≡ T.total },
    ghost numbers: { numbers_of done.items ≡ early T.total seat.drawn },
}

/// Gives each worker a seat. The last worker comes first, and the lists that become empty keep
/// their room.
#[tactic(auto, using(crate::proofs::Seats::idle_init, crate::proofs::Seats::idle_last))]
pub(crate) fn seat_workers<W: Worker, T: Drawing>(
    alloc: Global,
    room: Vec<WorkerSlot<W, T>>,
    workers: &mut Vec<W>,
    seats: &mut Vec<ClaimSeat<T>>,
) -> Vec<WorkerSlot<W, T>>
    requires room { (room.items ≡ []) × (vec_len workers.old ≤ vec_capacity room) }
    requires seats { AreIdle (vec_len workers.old) seats.old.items }
    requires planned { All (λ w. W.total (W.plan w) ≡ T.total) workers.old.items }
    ensures rooms { (vec_capacity workers.new ≡ vec_capacity workers.old) × (vec_capacity seats.new ≡ vec_capacity seats.old) × (workers.new.items ≡ []) × (seats.new.items ≡ []) }
    ensures len { vec_len result ≡ vec_len workers.old }
    ensures workers { reverse (map (λ s. s.worker) result.items) ≡ workers.old.items }
    ensures idle { All (λ s. s.done.items ≡ []) result.items }
{
    let mut worker_slots = room;
    while let Some(worker) = workers.pop() {
        let Some(seat) = seats.pop() else {
            unreachable!()
        };
        worker_slots.push_reserved(WorkerSlot {
            worker,
            seat,
            done: Vec::new(alloc),
        });
    }
    worker_slots
}

// The outcome of a task, once the gate lets it start.
fn outcome_of<W: Worker, G: TaskGate<W>>(
    alloc: Global,
    gate: &G,
    worker: &mut W,
    number: usize,
) -> W::Outcome
    requires inside { number < W.total (W.plan worker.old) }
    ensures same { (W.plan worker.new ≡ W.plan worker.old) × (W.id worker.new ≡ W.id worker.old) }
    ensures counted { W.count worker.new + W.kept_receipts worker.old ≡ W.count worker.old + W.kept_receipts worker.new + W.held result }
    ensures tried { W.failed worker.old + W.reported result ≤ W.failed worker.new }
    ensures fits { W.fits (W.plan worker.old) number result }
{
    if has_passed::<W, G>(gate, number) {
        worker.perform(alloc, number)
    } else {
        W::held_back()
    }
}

// The outcome of a task, of which the gate is told.
fn outcome_told<W: Worker, G: TaskGate<W>>(
    alloc: Global,
    gate: &G,
    worker: &mut W,
    number: usize,
) -> W::Outcome
    requires inside { number < W.total (W.plan worker.old) }
    ensures same { (W.plan worker.new ≡ W.plan worker.old) × (W.id worker.new ≡ W.id worker.old) }
    ensures counted { W.count worker.new + W.kept_receipts worker.old ≡ W.count worker.old + W.kept_receipts worker.new + W.held result }
    ensures tried { W.failed worker.old + W.reported result ≤ W.failed worker.new }
    ensures fits { W.fits (W.plan worker.old) number result }
{
    let outcome = outcome_of(alloc, gate, worker, number);
    gate.tell(number);
    outcome
}

// Performs tasks until there is none left, or no room for one more outcome.
fn perform_drawn<W: Worker, T: Drawing, G: TaskGate<W>>(
    alloc: Global,
    gate: &G,
    claims: &Claims<T>,
    total: usize,
    worker: &mut W,
    seat: &mut ClaimSeat<T>,
    done: &mut Vec<(usize, W::Outcome)>,
)
    requires total { (T.total ≡ total) × (W.total (W.plan worker.old) ≡ total) × (total ≤ 1000000) }
    requires numbers { numbers_of done.old.items ≡ early T.total seat.old.drawn }
    ensures numbers { numbers_of done.new.items ≡ early T.total seat.new.drawn }
    ensures same { (W.plan worker.new ≡ W.plan worker.old) × (W.id worker.new ≡ W.id worker.old) }
    ensures fits { AreFit (W.fits (W.plan worker.old)) done.old.items → AreFit (W.fits (W.plan worker.old)) done.new.items }
    ensures counted { W.count worker.new + W.kept_receipts worker.old + held_in W.held done.old.items ≡ W.count worker.old + W.kept_receipts worker.new + held_in W.held done.new.items }
    ensures tried { W.failed worker.old + held_in W.reported done.new.items ≤ W.failed worker.new + held_in W.reported done.old.items }
{
    for _i in 0..total + 1 {
        if done.reserve(1).is_err() {
            return;
        }
        let Some(number) = claims.claim(seat) else {
            return;
        };
        let outcome = outcome_told(alloc, gate, worker, number);
        done.push_reserved((number, outcome));
    }
}

// One worker slot's run.
#[tactic(auto, unfolding(crate::specs::Outcomes::StaysOnPlan))]
fn work<W: Worker, T: Drawing, G: TaskGate<W>>(
    alloc: Global,
    gate: &G,
    claims: &Claims<T>,
    total: usize,
    worker_slot: &mut WorkerSlot<W, T>,
)
    requires { (T.total ≡ total) × (total ≤ 1000000) }
    ensures id { W.id worker_slot.new.worker ≡ W.id worker_slot.old.worker }
    ensures stays { StaysOnPlan W.plan W.fits worker_slot.old.worker worker_slot.old.done.items worker_slot.new.worker worker_slot.new.done.items }
    ensures counted { W.count worker_slot.new.worker + W.kept_receipts worker_slot.old.worker + held_in W.held worker_slot.old.done.items ≡ W.count worker_slot.old.worker + W.kept_receipts worker_slot.new.worker + held_in W.held worker_slot.new.done.items }
    ensures tried { W.failed worker_slot.old.worker + held_in W.reported worker_slot.new.done.items ≤ W.failed worker_slot.new.worker + held_in W.reported worker_slot.old.done.items }
{
    let WorkerSlot { worker, seat, done } = worker_slot;
    perform_drawn(alloc, gate, claims, total, worker, seat, done);
}

// Each worker slot's run, on a thread of its own if one can be started.
fn work_each<W: Worker + Send, T: Drawing + Send + Sync, G: TaskGate<W> + Sync, R: Threads + Sync>(
    rt: &R,
    alloc: Global,
    gate: &G,
    claims: &Claims<T>,
    total: usize,
    worker_slots: &mut [WorkerSlot<W, T>],
)
    requires total { (T.total ≡ total) × (total ≤ 1000000) }
    requires some { 0 < length worker_slots.old }
    ensures ids { map (λ s. W.id s.worker) worker_slots.new ≡ map (λ s. W.id s.worker) worker_slots.old }
    ensures fits { (plan : W.Plan) → All (λ s. IsOnPlan W.plan W.fits plan s.worker s.done.items) worker_slots.old → All (λ s. IsOnPlan W.plan W.fits plan s.worker s.done.items) worker_slots.new }
    ensures counted { sum_by W.count (map (λ s. s.worker) worker_slots.new) + sum_by W.kept_receipts (map (λ s. s.worker) worker_slots.old) + held_all W.held (map (λ s. s.done.items) worker_slots.old) ≡ sum_by W.count (map (λ s. s.worker) worker_slots.old) + sum_by W.kept_receipts (map (λ s. s.worker) worker_slots.new) + held_all W.held (map (λ s. s.done.items) worker_slots.new) }
    ensures tried { sum_by W.failed (map (λ s. s.worker) worker_slots.old) + held_all W.reported (map (λ s. s.done.items) worker_slots.new) ≤ sum_by W.failed (map (λ s. s.worker) worker_slots.new) + held_all W.reported (map (λ s. s.done.items) worker_slots.old) }
{
    let threads = worker_slots.len();
    thread::for_each_mut(
        rt,
        worker_slots,
        threads,
        &|_, worker_slot|
            requires { (T.total ≡ total) × (total ≤ 1000000) }
        { work(alloc, gate, claims, total, worker_slot) },
    );
}

/// All worker slots' runs.
pub(crate) fn work_all<
    W: Worker + Send,
    T: Drawing + Send + Sync,
    G: TaskGate<W> + Sync,
    R: Threads + Sync,
>(
    rt: &R,
    alloc: Global,
    gate: &G,
    claims: &Claims<T>,
    total: usize,
    worker_slots: &mut Vec<WorkerSlot<W, T>>,
)
    requires total { (T.total ≡ total) × (total ≤ 1000000) }
    requires some { 0 < vec_len worker_slots.old }
    ensures len { vec_len worker_slots.new ≡ vec_len worker_slots.old }
    ensures ids { map (λ s. W.id s.worker) worker_slots.new.items ≡ map (λ s. W.id s.worker) worker_slots.old.items }
    ensures fits { (plan : W.Plan) → All (λ s. IsOnPlan W.plan W.fits plan s.worker s.done.items) worker_slots.old.items → All (λ s. IsOnPlan W.plan W.fits plan s.worker s.done.items) worker_slots.new.items }
    ensures counted { sum_by W.count (map (λ s. s.worker) worker_slots.new.items) + sum_by W.kept_receipts (map (λ s. s.worker) worker_slots.old.items) + held_all W.held (map (λ s. s.done.items) worker_slots.old.items) ≡ sum_by W.count (map (λ s. s.worker) worker_slots.old.items) + sum_by W.kept_receipts (map (λ s. s.worker) worker_slots.new.items) + held_all W.held (map (λ s. s.done.items) worker_slots.new.items) }
    ensures tried { sum_by W.failed (map (λ s. s.worker) worker_slots.old.items) + held_all W.reported (map (λ s. s.done.items) worker_slots.new.items) ≤ sum_by W.failed (map (λ s. s.worker) worker_slots.new.items) + held_all W.reported (map (λ s. s.done.items) worker_slots.old.items) }
{
    work_each(rt, alloc, gate, claims, total, worker_slots.as_mut_slice());
}
