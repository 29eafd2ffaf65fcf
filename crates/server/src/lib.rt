//! Servers over a shared world: one request through a port, tried again after a conflict, and many
//! requests by workers.
//!
//! That a server reads, prepares and commits under a lease, and begins anew if what it read has
//! changed, is of F1 ("Online, Asynchronous Schema Change in F1", Rae et al., PVLDB 6(11), 2013).
#![tactic(auto)]

mod handle_port;
mod one_request;
mod port;
mod request;
mod serve_all;
mod tally;
mod worker;

pub use one_request::{serve_one, serve_under};
pub use port::Port;
pub use request::{Outcome, Request};
pub use serve_all::{ServeFault, Served, serve};
pub use tally::{Last, Tally, last_of_commit, last_of_grant, last_of_read};
pub use tasks::{FreeGate, Gate};

// Crates whose items callers of this one name, so that they list this one alone.
pub use locked_store;
pub use locked_store::world;
pub use tasks;
