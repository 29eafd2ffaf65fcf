//! What is due in a store that someone else runs, from its control records alone.
#![tactic(auto)]

mod act;
mod laws;
mod ready;
mod records;
mod search;

pub use act::{Act, DueFault, due};
pub use laws::{courses_complete, due_applies, dues_go_on, dues_lower};
pub use records::{Cursor, Records};
