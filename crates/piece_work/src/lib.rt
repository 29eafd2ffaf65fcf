//! Works a begun reorganisation off, a piece after the other.
//!
//! That a schema change fills and clears its element in the background, before the next step is
//! published, is of F1 ("Online, Asynchronous Schema Change in F1", Rae et al., PVLDB 6(11), 2013).
#![tactic(auto)]

mod fault;
mod next_piece;
mod piece_loop;

pub use fault::WorkFault;
pub use next_piece::next_view;
pub use piece_loop::work_off;

// Crates whose items callers of this one name, so that they list this one alone.
pub use world;
