//! A soak: servers update the same rows for long while an index comes and goes and the log is cut,
//! so that whoever watches the process sees whether its memory grows.
#![tactic(auto)]

mod fault;
mod index;
mod requests;
mod round;
mod soak_run;
mod table;

pub use soak_run::run_soak;
