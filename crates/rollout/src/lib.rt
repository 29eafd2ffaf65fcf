//! Carries every schema change that is under way to its end, one act after another, from the state
//! of the world alone. No plan is kept: any operator may take the next act, and one operator
//! finishes what another began.
//!
//! `due` says what may be done now, `advance` does it, and `complete` goes on until no change is
//! under way.
//!
//! The states that an element goes through, and the wait of a lease length between two versions,
//! are those of F1 ("Online, Asynchronous Schema Change in F1", Rae et al., PVLDB 6(11), 2013).
#![tactic(auto)]

mod act;
mod advanced;
mod candidates;
mod completion;
mod due_calls;
mod laws;
mod limits;
mod piece;
mod state_path;

pub use act::{Act, due};
pub use advanced::{AdvanceFault, Advanced, advance};
pub use completion::complete;
pub use laws::{
    advances_lower, advances_stay, advances_take_items, calls_go_on, courses_grow, due_is_accepted,
    few_acts_are_left, items_are_rows, pieces_take_items,
};
pub use limits::are_counts;
pub use state_path::next_state;

// Crates whose items callers of this one name, so that they list this one alone.
pub use piece_work;
pub use world;
