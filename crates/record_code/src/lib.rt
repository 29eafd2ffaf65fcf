//! Control records, their keys and drafts as bytes: what a store that someone else runs keeps beside
//! its pairs, and what it compares and writes.
#![tactic(auto)]

mod draft;
mod fault;
mod keys;
mod kind;
mod laws;
mod open;
mod read;
mod write;

pub use draft::{control_bytes, piece_bytes, txn_bytes, txn_bytes_under};
pub use fault::{NoKey, RecordFault};
pub use keys::{key_bytes, key_of};
pub use kind::RecordKind;
pub use laws::{lemma_keys, marks_are_once_in_bytes, runs_agree_in_bytes, runs_have_logs_in_bytes};
pub use open::open_bytes;
pub use read::record_of;
pub use write::record_bytes;
