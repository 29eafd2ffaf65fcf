//! What a store lacks and what it has too much, counted in one walk over its pairs.
#![tactic(auto)]

mod counts;
mod encoded_rows;
mod laws;
mod met;
mod parts;
mod reason;
mod report;
mod tally;
mod wanted;

pub use encoded_rows::{is_row, key_of, row_at};
pub use laws::{nothing_is_extra_when, nothing_is_missing_when};
pub use parts::audit_on;
pub use report::CheckReport;
pub use tally::audit;
