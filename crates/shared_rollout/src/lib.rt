//! Carries every schema change that is under way to its end through the lock, for operators beside
//! servers: no plan is kept, so any number of operators may do it at once, and what one of them did
//! is no fault for another.
//!
//! The states that an element goes through, and the wait of a lease length between two versions,
//! are those of F1 ("Online, Asynchronous Schema Change in F1", Rae et al., PVLDB 6(11), 2013).
#![tactic(auto)]

mod advanced;
mod answers;
mod ask;
mod attempt;
mod completion;
mod fault;

pub use advanced::advance;
pub use completion::complete;
pub use fault::OperatorFault;

// Crates whose items callers of this one name, so that they list this one alone.
pub use locked_store;
pub use locked_store::{rollout, world};
