//! Transactions of row operations: what they do to plain rows, what they read, and what they write
//! by the states of a schema version.
#![tactic(auto)]

mod check;
mod delete;
mod edit;
mod fault;
mod insert;
mod lemmas;
mod op;
mod pairs;
mod parts;
mod places;
mod prepare_txn;
mod prepared;
mod public_columns;
mod read;
mod reads;
mod run;
mod same;
mod seek;
mod update;
mod values;
mod view;
mod work_rows;
mod write;

pub use fault::{PrepareFault, RowFault};
pub use op::{RowOp, RowOps, RowOutcome};
pub use prepare_txn::{prepare, prepare_shared};
pub use prepared::Prepared;
pub use reads::reads_of;
pub use same::are_same_ops;
