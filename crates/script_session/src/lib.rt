//! What a line of a script means: what it is answered, and what stands between two lines.
#![tactic(auto)]

mod answer;
mod begin_reorg;
mod declare;
mod forge;
mod pending;
mod pieces;
mod plan;
mod prepare;
mod publish;
mod query;
mod session;
mod txn;

pub use session::{Answer, Declarations, Opened, Pending, ServerLease, Session};

// Crates whose items callers of this one name, so that they list this one alone.
pub use script_names;
pub use script_replies;
pub use script_replies::world;
