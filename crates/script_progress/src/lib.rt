//! Where the columns, indexes and changes of a world stand, in words.
#![tactic(auto)]

mod describe;
mod fills;
mod leases;
mod moves;
mod unfinished;
mod versions;
mod waiting;

pub use describe::{description, push_standing, way_word};
pub use fills::push_reads;
pub use leases::{Standing, leases_text, standing_of, standing_word};
pub use moves::push_moved;
pub use unfinished::{is_resting, plan_dropped, plan_left, progress};
pub use versions::{Event, Happened, History, history_of, timeline};
pub use waiting::{Begun, Waiting, push_waiting, waiting_of, work_word};

// Crates whose items callers of this one name, so that they list this one alone.
pub use script_views;
pub use script_views::{script_names, script_replies, script_session, world};
