//! Which value or which declaration a refusal is for, by codes in bytes: what C asks after
//! `WRONG_TYPE` or `BAD_TABLE`. No call keeps anything.
#![tactic(auto)]

mod outcome;
mod tables;
mod values;

pub use outcome::{TableOutcome, ValueOutcome};
pub use tables::opening_fault;
pub use values::{query_fault, txn_fault};
