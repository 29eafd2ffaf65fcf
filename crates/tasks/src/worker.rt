//! What a worker is.
ghost use Rattle.std.specs.Prelude.{◌≡◌, ◌+◌, ◌<◌, ◌≤◌};

use std::alloc::Global;

/// One worker: it performs tasks by their numbers. An outcome may hold receipts for what the task
/// did, and a worker may keep receipts itself. An outcome may also tell of tries that failed.
pub trait Worker: Drop {
    ghost use Rattle.std.specs.Prelude.{ℕ};

    /// What becomes of a task.
    type Outcome: Drop + Send;

    // what all workers of one run share
    ghost Plan: { Type 0 };

    // the plan by which it works
    ghost plan: { Self → Self.Plan };

    // how many tasks a plan has
    ghost total: { Self.Plan → ℕ };

    // what tells which worker it is
    ghost Id: { Type 0 };

    // which worker it is
    ghost id: { Self → Self.Id };

    // how many receipts its calls gave
    ghost count: { Self → ℕ };

    // how many receipts it keeps itself
    ghost kept_receipts: { Self → ℕ };

    // how many receipts an outcome holds
    ghost held: { Self.Outcome → ℕ };

    // how many of its tries failed
    ghost failed: { Self → ℕ };

    // how many failed tries an outcome tells of
    ghost reported: { Self.Outcome → ℕ };

    // what a plan says of the outcome of the task of this number
    ghost fits: { Self.Plan → ℕ → Self.Outcome → Type 0 };

    /// Performs the task of this number.
    fn perform(&mut self, alloc: Global, number: usize) -> Self::Outcome
        requires inside { number < total (plan self.old) }
        ensures same { (plan self.new ≡ plan self.old) × (id self.new ≡ id self.old) }
        ensures counted { count self.new + kept_receipts self.old ≡ count self.old + kept_receipts self.new + held result }
        ensures tried { failed self.old + reported result ≤ failed self.new }
        ensures fits { fits (plan self.old) number result };

    /// What becomes of a task that the gate did not let start.
    fn held_back() -> Self::Outcome
        ensures none { held result ≡ 0 }
        ensures untried { reported result ≡ 0 }
        ensures fits { (plan : Self.Plan) (number : ℕ) → fits plan number result };

    /// What becomes of a task that nobody drew when out of memory.
    fn undrawn() -> Self::Outcome
        ensures none { held result ≡ 0 }
        ensures untried { reported result ≡ 0 }
        ensures fits { (plan : Self.Plan) (number : ℕ) → fits plan number result };
}
