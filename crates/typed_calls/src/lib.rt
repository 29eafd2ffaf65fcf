//! Calls on a world by codes in bytes, with a status for each refusal: what a program in another
//! language asks for without the script language.
#![tactic(auto)]

mod bounded;
mod changes;
mod checkpoints;
mod commits;
mod leases;
mod opening;
mod pages;
mod pieces;
mod pins;
mod plans;
mod preparation;
mod proposals;
mod queries;
mod read_queries;
mod reads;
mod refusals;
mod schemas;
mod snapshots;
mod standing;
pub mod status;
mod writes;

pub use bounded::{ANY_JUMP, BoundedWorld};
pub use changes::{ChangeRefusal, begin_reorg, publish, step_refusal};
pub use checkpoints::{checkpoint, open_at, saved, world_at};
pub use commits::commit;
pub use leases::{held_by, lease};
pub use opening::open;
pub use pages::{CodedPage, query_page, query_page_snapshot};
pub use pieces::{commit_piece, prepare_piece, read_piece};
pub use plans::{plan, plan_coded};
pub use preparation::{PrepareOutcome, prepare, prepare_outcome};
pub use proposals::{entry_coded, txn_entry};
pub use queries::{QueryOutcome, fault_outcome, query, query_snapshot};
pub use read_queries::query_read;
pub use reads::{Reads, read, read_again};
pub use refusals::TxnRefusal;
pub use schemas::{lease_schema, schema};
pub use snapshots::{check, check_snapshot, snapshot};
pub use standing::{Reached, progress, status_line};
pub use writes::write;

// Crates whose items callers of this one name, so that they list this one alone.
pub use script_session;
pub use script_session::world;
