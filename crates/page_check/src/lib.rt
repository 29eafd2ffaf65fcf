//! An audit of a store that goes page by page, of which only a page and what its pairs name are read
//! at a time.
#![tactic(auto)]

mod given;
mod judge;
mod laws;
mod named;
mod needs;
mod page;
mod reason;

pub use laws::{lemma_no_page_counts_more, lemma_pages_are_the_audit, lemma_ranges_are_enough};
pub use needs::{given_ranges, row_ranges};
pub use page::check_page;
