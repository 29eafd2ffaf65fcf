//! Four servers write while one operator carries three schema changes to their end.
#![tactic(auto)]

mod operate;
mod run;
mod table;

pub use run::rollout_report;
