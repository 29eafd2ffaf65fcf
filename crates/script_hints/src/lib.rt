//! What is wrong with a line and what may be written instead, and where the changes of a session
//! stand. Each is a text made of a session that is only read, so none can change it.
#![tactic(auto)]

mod accepted;
mod before;
mod command_help;
mod declared;
mod explain_plan;
mod hint;
mod in_way;
mod limits;
mod meanings;
mod refused;
mod rows;
mod unknown;
mod views;

pub use before::Before;
pub use hint::{bad_column, hint_of, mistake_in};
pub use views::view_of;
