//! A replica: a world that repeats, entry by entry, the log of another world that was opened alike.
//!
//! A world is a function of its opening and its log. So a program can keep the entries in an
//! ordered log outside, and run worlds in several processes, each of which repeats the entries of
//! that log: they are equal as far as they have come.
#![tactic(auto)]

mod entry;
mod fault;
mod laws;
mod piece;
mod txn;

pub use entry::Repeat;
pub use fault::RepeatFault;
pub use laws::{lemma_accepted_calls_repeat, lemma_logs_repeat, lemma_worlds_are_their_logs};
