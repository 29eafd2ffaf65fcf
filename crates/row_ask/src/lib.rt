//! Queries over a store that someone else runs: which ranges to read, and the rows that are found
//! in what was read, page by page.
#![tactic(auto)]

mod begin_query;
mod bounds;
mod check;
mod conditions;
mod gather;
mod index_page;
mod known;
mod laws;
mod path;
mod read;
mod remaining;
mod rows_by_key;
mod scan;
mod table_page;
mod whole;

pub use begin_query::begin;
pub use index_page::{gather_page, keys_of};
pub use laws::lemma_pages_are_whole;
pub use remaining::{IndexRange, Remaining};
pub use rows_by_key::{row_range, rows_of};
pub use table_page::{ScanPage, scan_page, table_end};
pub use whole::{after_index, answer_read, ranges_of};
