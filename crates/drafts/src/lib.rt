//! Drafts of transactions and schema changes for a store that someone else runs: etcd, PostgreSQL,
//! an SQLite file. Servers keep no state: each call is a function from what was read, at whatever
//! moments, to what the store compares and then writes in one atomic transaction.
//!
//! That each version is open beside the one before it alone, and that an element enters by way of
//! delete-only and write-only, is of F1 ("Online, Asynchronous Schema Change in F1", Rae et al.,
//! PVLDB 6(11), 2013). That the version's own record is the fence, in place of a lease, is this
//! project's own.
#![tactic(auto)]

mod begin;
mod bounds;
mod close;
mod divide;
mod found;
mod key;
mod laws;
mod newest;
mod piece;
mod publish;
mod record;
mod reorg_records;
mod step_records;
mod txn;
mod wanted;

pub use begin::{BeginFault, draft_begin};
pub use close::draft_close;
pub use divide::{DivideFault, draft_divide};
pub use key::{Key, KeyName};
pub use laws::{
    fresh_txns_apply, lemma_drafts_keep, lemma_given_begins_keep, marks_are_once, runs_agree,
    runs_have_logs,
};
pub use newest::Newest;
pub use piece::{PieceFault, draft_piece};
pub use publish::{PublishFault, draft_publish};
pub use record::{Control, Points, Record, Reorg};
pub use txn::{Drafted, TxnDraft, draft_txn};
