//! Leases on schema versions, and the timeline of the versions' publication.
#![tactic(auto)]

mod fault;
mod laws;
mod lease;
mod restore;
mod timeline;

pub use fault::{LeaseFault, TimelineFault, TooEarly};
pub use laws::{two_usable_versions, usable_when};
pub use lease::Lease;
pub use timeline::{MAX_LENGTH, MAX_MOMENT, Timeline};
