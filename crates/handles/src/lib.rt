//! The engine behind handles that a program in another language keeps: worlds, sessions by lines,
//! leases, transactions, pieces, snapshots, checkpoints and bytes. `embedded` exports each call for
//! C.
#![tactic(auto)]

mod boxes;
mod bytes_calls;
mod checkpoint_calls;
mod commit_calls;
mod commit_outcome;
mod cut_calls;
mod engine;
mod entries;
mod handle;
mod lease_calls;
mod lines;
mod moments;
mod outcome;
mod page_calls;
mod place;
mod proposal_calls;
mod query_calls;
mod replica_calls;
mod schema_calls;
mod session_calls;
mod snapshot_calls;
mod txn_calls;
mod write_calls;

pub use boxes::{filled, taken_out};
pub use commit_outcome::CommitOutcome;
pub use engine::{Conversation, Engine, Names, Script};
pub use handle::Handle;
pub use lease_calls::LeaseOutcome;
pub use outcome::{Outcome, lay, show_text};
pub use page_calls::PageOutcome;
pub use place::Place;
pub use snapshot_calls::CheckOutcome;

// Crates whose items callers of this one name, so that they list this one alone.
pub use collections;
pub use typed_calls;
pub use typed_calls::{script_session, world};
