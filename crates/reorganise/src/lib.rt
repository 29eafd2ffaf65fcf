//! Background reorganisation in pieces: an element that is being added is filled, and one that is
//! being dropped is cleared, a few items at a time beside the transactions.
//!
//! That a schema change fills and clears its element in the background, row by row, before the next
//! step is published, is of F1 ("Online, Asynchronous Schema Change in F1", Rae et al., PVLDB
//! 6(11), 2013). Pieces with cursors, each of which is committed like a transaction that read a
//! range of keys, are this project's own.
#![tactic(auto)]

mod begin;
mod cursor;
mod fault;
mod laws;
mod prepare;
mod prepared;
mod ranks;
mod read;
mod read_to;
mod row;
mod scan_range;
mod view;
mod work;

pub use fault::ViewFault;
pub use laws::{
    begins_whole, bounds_hold, clear_lays, columns_agree, cursors_pass, fill_lays, items_are_empty,
    pieces_share, ranges_are,
};
pub use prepare::prepare_piece;
pub use prepared::PreparedPiece;
pub use schema_version::Work;
pub use view::PieceView;
pub use work::{Progress, Span};
