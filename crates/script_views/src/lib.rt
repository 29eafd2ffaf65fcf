//! What stands behind a name, by which path a query is answered, and what one element lacks. Each is
//! a text made of a version or of an opened world that is only read.
#![tactic(auto)]

mod element_pairs;
mod element_words;
mod explain;
mod named;
mod near;
mod tuples;
mod types;
mod views;

pub use element_words::push_element;
pub use explain::explanation;
pub use named::{
    Wrong, missing_element, missing_table, table_names, wrong_operations, wrong_selection,
};
pub use near::push_nearest;
pub use tuples::push_tuple;
pub use types::type_word;
pub use views::{named_pairs, named_view};

// Crates whose items callers of this one name, so that they list this one alone.
pub use script_session;
pub use script_session::{script_names, script_replies, world};
