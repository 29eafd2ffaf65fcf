//! Checkpoints as bytes, in parts: a head, which is all but the pairs, and pages of pairs. Each has
//! one code, and what is read of bytes has these bytes as its code.
#![tactic(auto)]

mod fault;
mod head;
mod page;
mod restore;

pub use fault::{HeadFault, PageFault};
pub use head::{Head, head_bytes, head_of};
pub use page::{page_bytes, page_of};
pub use restore::parts_of_schema;
