//! Numbered tasks that workers, on threads of their own, draw from one counter: each number once,
//! with one outcome for each.
#![tactic(auto)]

mod fault;
mod gate;
mod perform;
mod place;
mod worker;
mod worker_slot;

pub use fault::TaskFault;
pub use gate::{FreeGate, Gate};
pub use perform::{Performed, perform_all};
pub use worker::Worker;
