//! What a script prints of each answer of the core, with its line ends, and how a world stands, as
//! one line of JSON. A refusal is `refused` and the fault's name, after it the numbers or the key
//! in hexadecimal that the fault has; a fault within a fault is reported by its own name. The calls
//! themselves are refused only when out of memory.
#![tactic(auto)]

mod elements;
mod leases;
mod numbers;
mod pairs;
mod pieces;
mod plan_items;
mod plan_lines;
mod plans;
mod publications;
mod queries;
mod reorganisations;
mod rows;
mod status;
mod transactions;
mod usable;

pub use leases::{grant_refusal, lease_line, open_refusal};
pub use numbers::push_numbered;
pub use pairs::{check_line, push_pair};
pub use pieces::{pieced_line, unpieced_line, unread_line};
pub use plans::{steps_text, unplanned_line};
pub use publications::published_line;
pub use queries::unanswered_line;
pub use reorganisations::{begun_line, work_word, worked_line};
pub use rows::rows_text;
pub use status::status_line;
pub use transactions::{committed_line, rejected_line, unprepared_line};

// Crates whose items callers of this one name, so that they list this one alone.
pub use piece_work;
pub use piece_work::world;
