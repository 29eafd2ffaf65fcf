//! Tasks, each performed once, by as many threads as there are workers.
ghost use Rattle.std.specs.Prelude.{◌≡◌, ◌+◌, ◌<◌, ◌≤◌, ℕ, [], All, IfOk, IfErr, map, sum_by, vec_len, vec_capacity};
ghost use Rattle.claims.specs.Counts.{IsCount};
ghost use Rattle.claims.specs.Draws.{times};
ghost use Rattle.claims.specs.Seats.{AreIdle, all_drawn};
ghost use Rattle.tasks.specs.Counts.{IsRefused};
ghost use Rattle.tasks.specs.Outcomes.{held_in, held_all, IsOnPlan, IsRow};

use crate::fault::TaskFault;
use crate::gate::{Gate, TaskGate};
use crate::place::{blank_row, collect};
use crate::worker::Worker;
use crate::worker_slot::{WorkerSlot, seat_workers, work_all};
use claims::{ClaimFault, ClaimSeat, Claims, Drawing, Opened};
use std::alloc::Global;
use std::marker::Brand;
use std::thread::Threads;

/// Each task's outcome by rising number, and the workers, in the order in which they were handed
/// in.
#[derive(Drop)]
pub struct Performed<W: Worker> {
    /// The number and the outcome of each task.
    pub outcomes: Vec<(usize, W::Outcome)>,
    /// The workers.
    pub workers: Vec<W>,
}

/// Performs the tasks 0 to `total` - 1, each once: one thread for each worker, the caller's thread
/// being one of them. A thread that cannot be started leaves its share to the others.
///
/// The gate is asked up to 10,000,000 times before a task; if it never lets pass, the task is held
/// back.
///
/// Workers that share a plan still have it when they come back.
///
/// The failed tries that outcomes tell of are different ones: the workers' failed tries rose by at
/// least as many as all outcomes together tell of.
///
/// Refused in this order, with the workers: `BadCount` if there are more than 1,000,000 tasks, or
/// if the number of workers is not from 1 to 64; `Memory`. All room is made before the first
/// task, and nothing is refused from then on.
pub fn perform_all<W: Worker + Send, G: Gate + Sync, R: Threads + Sync>(
    rt: &R,
    alloc: Global,
    workers: Vec<W>,
    total: usize,
    gate: &G,
) -> Result<Performed<W>, (TaskFault, Vec<W>)>
    requires planned { All (λ w. W.total (W.plan w) ≡ total) workers.items }
    ensures each { IfOk result (λ p. IsRow total p.outcomes.items) }
    ensures fits { (plan : W.Plan) → All (λ w. W.plan w ≡ plan) workers.items → IfOk result (λ p. All (λ o. W.fits plan o.0 o.1) p.outcomes.items) }
    ensures back { IfOk result (λ p. map W.id p.workers.items ≡ map W.id workers.items) }
    ensures plans { (plan : W.Plan) → All (λ w. W.plan w ≡ plan) workers.items → IfOk result (λ p. All (λ w. W.plan w ≡ plan) p.workers.items) }
    ensures counted { IfOk result (λ p. sum_by W.count p.workers.items + sum_by W.kept_receipts workers.items ≡ sum_by W.count workers.items + sum_by W.kept_receipts p.workers.items + held_in W.held p.outcomes.items) }
    ensures tried { IfOk result (λ p. sum_by W.failed workers.items + held_in W.reported p.outcomes.items ≤ sum_by W.failed p.workers.items) }
    ensures counts { IfOk result (λ _. IsCount total (vec_len workers)) }
    ensures refused { IfErr result (λ r. IsRefused total (vec_len workers) r.0) }
    ensures unchanged { IfErr result (λ r. r.1.items ≡ workers.items) }
{
    match Opened::new(alloc, total, workers.len()) {
        Ok(opened) => perform_in::<W, Brand, G, R>(rt, alloc, opened, workers, total, gate),
        Err(ClaimFault::BadCount) => Err((TaskFault::BadCount, workers)),
        Err(ClaimFault::Memory) => Err((TaskFault::Memory, workers)),
    }
}

// The same, by this counter. Makes all room.
fn perform_in<W: Worker + Send, T: Drawing + Send + Sync, G: TaskGate<W> + Sync, R: Threads + Sync>(
    rt: &R,
    alloc: Global,
    opened: Opened,
    workers: Vec<W>,
    total: usize,
    gate: &G,
) -> Result<Performed<W>, (TaskFault, Vec<W>)>
    requires picked { (opened.table.shared.table_id ≡ T.table) × (opened.total ≡ T.total) × (opened.seats ≡ T.seats) }
    requires counts { (opened.total ≡ total) × (opened.seats ≡ vec_len workers) × IsCount total (vec_len workers) }
    requires planned { All (λ w. W.total (W.plan w) ≡ total) workers.items }
    ensures each { IfOk result (λ p. IsRow total p.outcomes.items) }
    ensures fits { (plan : W.Plan) → All (λ w. W.plan w ≡ plan) workers.items → IfOk result (λ p. All (λ o. W.fits plan o.0 o.1) p.outcomes.items) }
    ensures back { IfOk result (λ p. map W.id p.workers.items ≡ map W.id workers.items) }
    ensures plans { (plan : W.Plan) → All (λ w. W.plan w ≡ plan) workers.items → IfOk result (λ p. All (λ w. W.plan w ≡ plan) p.workers.items) }
    ensures counted { IfOk result (λ p. sum_by W.count p.workers.items + sum_by W.kept_receipts workers.items ≡ sum_by W.count workers.items + sum_by W.kept_receipts p.workers.items + held_in W.held p.outcomes.items) }
    ensures tried { IfOk result (λ p. sum_by W.failed workers.items + held_in W.reported p.outcomes.items ≤ sum_by W.failed p.workers.items) }
    ensures memory { IfErr result (λ r. IsRefused total (vec_len workers) r.0) }
    ensures unchanged { IfErr result (λ r. r.1.items ≡ workers.items) }
{
    let count = workers.len();
    let Ok((claims, seats)) = Claims::<T>::new(alloc, opened) else {
        return Err((TaskFault::Memory, workers));
    };
    let Ok(room) = Vec::with_capacity(alloc, count) else {
        return Err((TaskFault::Memory, workers));
    };
    let Ok(outcomes) = blank_row::<W>(alloc, total) else {
        return Err((TaskFault::Memory, workers));
    };
    Ok(run(
        rt, alloc, claims, workers, seats, room, outcomes, total, gate,
    ))
}

// The same, with all room made.
fn run<W: Worker + Send, T: Drawing + Send + Sync, G: TaskGate<W> + Sync, R: Threads + Sync>(
    rt: &R,
    alloc: Global,
    claims: Claims<T>,
    workers: Vec<W>,
    seats: Vec<ClaimSeat<T>>,
    room: Vec<WorkerSlot<W, T>>,
    outcomes: Vec<(usize, W::Outcome)>,
    total: usize,
    gate: &G,
) -> Performed<W>
    requires counts { (T.total ≡ total) × (T.seats ≡ vec_len workers) × IsCount total (vec_len workers) }
    requires planned { All (λ w. W.total (W.plan w) ≡ total) workers.items }
    requires seats { AreIdle (vec_len workers) seats.items × (vec_len workers ≤ vec_capacity seats) }
    requires room { (room.items ≡ []) × (vec_len workers ≤ vec_capacity room) }
    requires row { IsRow total outcomes.items }
    requires none { (held_in W.held outcomes.items ≡ 0) × (held_in W.reported outcomes.items ≡ 0) }
    requires blank { (plan : W.Plan) → All (λ o. W.fits plan o.0 o.1) outcomes.items }
    ensures each { IsRow total result.outcomes.items }
    ensures fits { (plan : W.Plan) → All (λ w. W.plan w ≡ plan) workers.items → All (λ o. W.fits plan o.0 o.1) result.outcomes.items }
    ensures back { map W.id result.workers.items ≡ map W.id workers.items }
    ensures plans { (plan : W.Plan) → All (λ w. W.plan w ≡ plan) workers.items → All (λ w. W.plan w ≡ plan) result.workers.items }
    ensures counted { sum_by W.count result.workers.items + sum_by W.kept_receipts workers.items ≡ sum_by W.count workers.items + sum_by W.kept_receipts result.workers.items + held_in W.held result.outcomes.items }
    ensures tried { sum_by W.failed workers.items + held_in W.reported result.outcomes.items ≤ sum_by W.failed result.workers.items }
{
    let mut workers = workers;
    let mut seats = seats;
    let mut outcomes = outcomes;
    let mut worker_slots = seat_workers(alloc, room, &mut workers, &mut seats);
    work_all(rt, alloc, gate, &claims, total, &mut worker_slots);
    collect(worker_slots, &mut workers, &mut seats, &mut outcomes);
    let _next = claims.finish(seats);
    Performed { outcomes, workers }
}
