//! A load: servers insert rows on threads of their own while an index is added to their table, step
//! by step.
#![tactic(auto)]

mod add_index;
mod bar;
mod fault;
mod index_step;
mod load_run;
mod meter;
mod options;
mod pace;
mod paced_gate;
mod report;
mod samples;
mod settle;
mod sides;
mod table;

pub use load_run::{run_load, run_load_shown};
pub use options::LoadOptions;
