//! A world behind one lock, and the handles through which threads call it; receipts against a log.
#![tactic(auto)]

mod calls;
mod counted;
mod cuts;
mod fault;
mod handle;
mod locked;
mod receipts;
mod rights;
mod shared;
mod shared_ledger;

pub use fault::{Missing, ReceiptFault, ShareFault, SharedFault, WentBack};
pub use handle::{Handle, least_front};
pub use receipts::{lemma_receipts_are_the_log, reconcile};
pub use shared::Shared;
pub use shared_ledger::{Blanks, Refused, SharedLedger, Taken};

// Crates whose items callers of this one name, so that they list this one alone.
pub use rollout;
pub use rollout::world;
