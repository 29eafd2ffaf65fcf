//! Which pairs differ between two stores: what was put and removed from one to the other.
#![tactic(auto)]

mod ahead;
mod changes;

pub use changes::{PairChange, changes_between};
