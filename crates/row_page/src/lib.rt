//! Queries that are read page by page: the rows after a key and before another, so many at a time.
#![tactic(auto)]

mod bounds;
mod check;
mod columns;
mod conditions;
mod fault;
mod known;
mod laws;
mod page;
mod range;
mod read;
mod scan;

pub use fault::PageFault;
pub use laws::lemma_pages_are_whole;
pub use page::{RowPage, answer_page};
pub use range::{KeyRange, MOST_ROWS};
