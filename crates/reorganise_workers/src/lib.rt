//! A begun reorganisation run to its end by many threads: each draws pieces by their numbers, and
//! reads, prepares and commits one until it has ended.
//!
//! That a schema change fills and clears its element in the background, while servers write, is of
//! F1 ("Online, Asynchronous Schema Change in F1", Rae et al., PVLDB 6(11), 2013).
#![tactic(auto)]

mod all_pieces;
mod attempt;
mod end;
mod job;
mod worker;

pub use all_pieces::{ReorganiseFault, Reorganised, reorganise_all};
pub use end::PieceEnd;
