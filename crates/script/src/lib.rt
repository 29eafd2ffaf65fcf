//! A script from its bytes to the bytes of its replies, and the exit status that tells what came of
//! it.
#![tactic(auto)]

mod run;
mod status;
mod watched;

pub use run::{ScriptFault, Summary, run_script};
pub use status::script_status;
pub use watched::{Ending, Report, Watch, run_watched, watched_status};
