//! Calls that take codes alone, and keep nothing: the form of saved bytes, the records of a log file,
//! and the steps of a plan.
#![tactic(auto)]

mod files;
mod steps;

pub use files::{DAMAGED, WITH_DIGEST, WITHOUT_DIGEST, log_entry, log_record, saved_form};
pub use steps::plan_step;
