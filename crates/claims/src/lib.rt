//! Numbers that threads draw from one counter, each number once.
#![tactic(auto)]

mod claims;
mod fault;
mod rule;
mod seat;

pub use claims::{Claims, Opened};
pub use fault::ClaimFault;
pub use rule::{Counting, Hand, Terms};
pub use seat::{ClaimSeat, Drawing};
