//! Where outcomes go: each to the place of its number.
ghost use Rattle.std.specs.Prelude.{◌≡◌, ◌+◌, ◌<◌, ◌≤◌, ℕ, [], All, IfOk, map, reverse, slice_index_or, vec_len, vec_capacity};
ghost use Rattle.claims.specs.Draws.{times};
ghost use Rattle.claims.specs.Seats.{all_drawn};
ghost use Rattle.tasks.specs.Outcomes.{held_in, held_all, numbers_of, AreFree, AreOnce, IsOnPlan, IsRow};

use crate::worker::Worker;
use crate::worker_slot::WorkerSlot;
use claims::{ClaimSeat, Drawing};
use std::alloc::{AllocError, Global};

/// A row of outcomes for so many tasks that nobody drew.
pub(crate) fn blank_row<W: Worker>(
    alloc: Global,
    count: usize,
) -> Result<Vec<(usize, W::Outcome)>, AllocError>
    ensures row { IfOk result (λ v. IsRow count v.items) }
    ensures none { IfOk result (λ v. (held_in W.held v.items ≡ 0) × (held_in W.reported v.items ≡ 0)) }
    ensures fits { (plan : W.Plan) → IfOk result (λ v. All (λ o. W.fits plan o.0 o.1) v.items) }
{
    let mut outcomes = Vec::with_capacity(alloc, count)?;
    for number in 0..count {
        outcomes.push_reserved((number, W::undrawn()));
    }
    Ok(outcomes)
}

// Puts one worker's outcomes into their places.
fn place<W: Worker>(outcomes: &mut Vec<(usize, W::Outcome)>, done: Vec<(usize, W::Outcome)>)
    requires inside { All (λ o. o.0 < vec_len outcomes.old) done.items }
    requires row { IsRow (vec_len outcomes.old) outcomes.old.items }
    ensures row { (vec_len outcomes.new ≡ vec_len outcomes.old) × IsRow (vec_len outcomes.old) outcomes.new.items }
    ensures others { (x : ℕ) → times x (numbers_of done.items) ≡ 0 → (d : _) → slice_index_or outcomes.new.items x d ≡ slice_index_or outcomes.old.items x d }
    ensures fits { (plan : W.Plan) → All (λ o. W.fits plan o.0 o.1) done.items → All (λ o. W.fits plan o.0 o.1) outcomes.old.items → All (λ o. W.fits plan o.0 o.1) outcomes.new.items }
    ensures counted { (held : W.Outcome → ℕ) → AreOnce (numbers_of done.items) → AreFree held (numbers_of done.items) outcomes.old.items → held_in held outcomes.new.items ≡ held_in held outcomes.old.items + held_in held done.items }
{
    let mut done = done;
    while let Some((number, outcome)) = done.pop() {
        outcomes[number] = (number, outcome);
    }
}

/// Takes the worker slots apart: the workers and the seats go back where they came from, and the
/// outcomes into their places.
pub(crate) fn collect<W: Worker, T: Drawing>(
    worker_slots: Vec<WorkerSlot<W, T>>,
    workers: &mut Vec<W>,
    seats: &mut Vec<ClaimSeat<T>>,
    outcomes: &mut Vec<(usize, W::Outcome)>,
)
    requires workers { (workers.old.items ≡ []) × (vec_len worker_slots ≤ vec_capacity workers.old) }
    requires seats { (seats.old.items ≡ []) × (vec_len worker_slots ≤ vec_capacity seats.old) }
    requires row { IsRow T.total outcomes.old.items }
    ensures workers { workers.new.items ≡ reverse (map (λ s. s.worker) worker_slots.items) }
    ensures seats { vec_len seats.new ≡ vec_len worker_slots }
    ensures row { IsRow T.total outcomes.new.items }
    ensures fits { (plan : W.Plan) → All (λ s. IsOnPlan W.plan W.fits plan s.worker s.done.items) worker_slots.items → All (λ o. W.fits plan o.0 o.1) outcomes.old.items → All (λ o. W.fits plan o.0 o.1) outcomes.new.items }
    ensures counted { (held : W.Outcome → ℕ) → held_in held outcomes.old.items ≡ 0 → AreOnce (all_drawn seats.new.items) → held_in held outcomes.new.items ≡ held_all held (map (λ s. s.done.items) worker_slots.items) }
{
    let mut worker_slots = worker_slots;
    while let Some(worker_slot) = worker_slots.pop() {
        let WorkerSlot { worker, seat, done } = worker_slot;
        workers.push_reserved(worker);
        seats.push_reserved(seat);
        place::<W>(outcomes, done);
    }
}
