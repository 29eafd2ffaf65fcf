//! A store in memory that compares and writes what drafts say, and knows nothing else: for tests and
//! small programs.
#![tactic(auto)]

mod apply;
mod compare;
mod copies;
mod fault;
mod laws;
mod store;

pub use fault::ApplyFault;
pub use laws::{
    marks_are_once_in_one_map, one_map, runs_agree_in_one_map, runs_have_logs_in_one_map,
};
pub use store::MemoryStore;
