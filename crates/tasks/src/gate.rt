//! Who may hold tasks back.
ghost use Rattle.std.specs.Prelude.{◌≡◌, true};
ghost use Rattle.tasks.specs.Outcomes.{HasOutcome};

use crate::worker::Worker;

/// Decides when a task may start. Any number of threads call it at once.
pub trait Gate {
    /// Whether the task of this number may start. It is asked anew, with `turn` from 0 on, until it
    /// lets pass or until it was asked 10,000,000 times.
    fn may_start(&self, number: usize, turn: u64) -> bool;

    /// Learns that the task of this number has its outcome.
    fn answered(&self, number: usize);
}

/// The gate that always lets pass.
pub struct FreeGate;

impl Gate for FreeGate {
    fn may_start(&self, _number: usize, _turn: u64) -> bool
        ensures { result ≡ true }
    {
        true
    }

    fn answered(&self, _number: usize) {}
}

/// A gate as workers see it, who have no other way to it: they can tell it of a task only once an
/// outcome of the task is there.
pub(crate) trait TaskGate<W: Worker> {
    /// Whether the task of this number may start. It is asked as `Gate::may_start` is.
    fn lets_start(&self, number: usize, turn: u64) -> bool;

    /// Tells that the task of this number has its outcome.
    fn tell(&self, number: usize)
        requires done { HasOutcome W.fits number };
}

impl<W: Worker, G: Gate> TaskGate<W> for G {
    fn lets_start(&self, number: usize, turn: u64) -> bool {
        self.may_start(number, turn)
    }

    fn tell(&self, number: usize) {
        self.answered(number);
    }
}

/// How often a gate is asked before a task is held back for good.
const MAX_TURNS: u64 = 10_000_000;

/// Asks the gate until it lets pass; false if it never does.
pub(crate) fn has_passed<W: Worker, G: TaskGate<W>>(gate: &G, number: usize) -> bool {
    for turn in 0..MAX_TURNS {
        if gate.lets_start(number, turn) {
            return true;
        }
        std::thread::yield_now();
    }
    false
}
