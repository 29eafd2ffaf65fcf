//! What the names of a script stand for in a version of the schema. A name that isn't found becomes
//! number 0, which names nothing, and which the call then refuses.
#![tactic(auto)]

mod changes;
mod kinds;
mod moves;
mod rows;

pub use changes::changes_of;
pub use moves::step_of;
pub use rows::{asked, element_number, element_of, resolved_all, table_number};
