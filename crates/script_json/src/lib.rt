//! What the prompt answers, as JSON: one object for each line of input, the facts behind the views of
//! an opened world, and what a line changed in it. Each is made of a world or a session that is only read.
#![tactic(auto)]

mod answer;
mod changes;
mod describe;
mod elements;
mod facts;
mod history;
mod leases;
mod object;
mod pieces;
mod rows;

pub use answer::{Details, answer_text};
pub use changes::{PairsBefore, changes_text};
pub use facts::facts_of;

// Crates whose items callers of this one name, so that they list this one alone.
pub use script_progress;
pub use script_progress::{script_session, world};
pub use script_rows::script_views;
