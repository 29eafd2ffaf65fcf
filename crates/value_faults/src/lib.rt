//! Which value a transaction or a query is refused for.
#![tactic(auto)]

mod asked;
mod fault;
mod finding;
mod given;
mod values;

pub use asked::query_fault;
pub use fault::{ValueCause, ValueFault};
pub use given::txn_fault;
