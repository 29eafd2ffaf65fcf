//! Where a bad line stops being one of a script, what was expected there, and which mistake is
//! likely behind it.
#![tactic(auto)]

mod expected;
mod foreign;
mod foreign_lines;
mod foreign_words;
mod forms;
mod keys;
mod meant;
mod numbers;
mod odd;
mod pieces;
mod quoted;
mod rules;
mod stop;
mod table;

pub use expected::{column_of, unexpected};
pub use table::row_of;
