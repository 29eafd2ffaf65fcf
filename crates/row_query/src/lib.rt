//! Queries over one table: what they answer, why they are refused, and the three paths by which
//! their rows are found.
#![tactic(auto)]

mod answer_query;
mod bounds;
mod check;
mod conditions;
mod fault;
mod gather;
mod laws;
mod path;
mod query;
mod read;
mod scan;

pub use answer_query::answer;
pub use fault::QueryFault;
pub use laws::lemma_one_refusal;
pub use path::path_of;
pub use query::{Cond, Path, Query};
