//! The calls of the engine over a store of one's own, by codes in bytes: what a program in another
//! language makes of what it read, with a status for each refusal. No call keeps anything.
#![tactic(auto)]

mod audits;
mod changes;
mod dues;
pub mod given;
mod opening;
mod outcome;
mod page_checks;
mod pieces;
mod queries;
mod shown;
mod txns;

pub use audits::check;
pub use changes::{begin, close, plan, publish};
pub use dues::due;
pub use opening::open;
pub use outcome::{DueOutcome, LayerOutcome, LayerReply};
pub use page_checks::{check_given, check_page, check_rows};
pub use pieces::piece;
pub use queries::{ranges, row_ranges, rows};
pub use shown::show;
pub use txns::{reads, txn};
