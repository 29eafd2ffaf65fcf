//! Bytes with their digest, by which a damaged copy is told from a whole one: a file of saved bytes,
//! and the records of a log file.
#![tactic(auto)]

mod record;
mod whole;

pub use record::{BESIDE, entry_in, record_of};
pub use whole::{Contents, add_digest, contents_of, marker};
