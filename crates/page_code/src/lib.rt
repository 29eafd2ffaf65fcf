//! The code in bytes of a request for a page.
#![tactic(auto)]

mod bounds;
mod numbers;
mod request;
mod values;

pub use entry_code::CodeFault;
pub use request::{PageRequest, page_request_of};
