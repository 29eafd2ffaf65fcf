//! What one element lacks in a store and has too much, by rows and keys, whatever its state.
#![tactic(auto)]

mod check;
mod extra;
mod made;
mod missing;
mod report;

pub use check::check_element;
pub use report::ElementReport;
