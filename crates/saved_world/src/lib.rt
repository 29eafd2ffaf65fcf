//! The checkpoint of a running world as bytes, in parts, and back: a head, and pages of its pairs.
#![tactic(auto)]

mod fault;
mod head;
mod laws;
mod loading;
mod pages;
mod parts;
mod read;
mod store;
mod taken;
mod write;

pub use fault::{LoadFault, LoadedFault};
pub use head::save_head;
pub use laws::lemma_worlds_come_back;
pub use loading::Loading;
pub use pages::{Pages, pages_of};
pub use read::load;
pub use write::save;
