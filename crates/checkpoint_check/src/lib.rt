//! The test of a checkpoint that came from outside, as from a file: a world may open from one that
//! stands it.
#![tactic(auto)]

mod agree;
mod beside;
mod fault;
mod judge;
mod laws;
mod made;
mod parts;
mod passed;
mod pieces;
mod row;

pub use fault::CheckpointFault;
pub use laws::logs_are_accepted;
pub use parts::check;

// Crates whose items callers of this one name, so that they list this one alone.
pub use checkpoint;
