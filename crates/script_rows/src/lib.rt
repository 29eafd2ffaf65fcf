//! A page of a table's rows, each beside the pair of each element of the table: what a line
//! `rows TABLE from KEY limit N` shows.
#![tactic(auto)]

mod line;
mod page;
mod pairs;
mod text;

pub use line::{RowsLine, read_rows_line};
pub use page::{Page, PageRow, read_page};
pub use pairs::{Found, PairOf};
pub use text::{page_of, rows_view};

// Crates whose items callers of this one name, so that they list this one alone.
pub use script_views;
