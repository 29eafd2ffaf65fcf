//! The core of the engine: schema leases, transactions and the log, over one store of pairs.
#![tactic(auto)]

mod begin_reorg;
mod check;
mod checkpoints;
mod commit;
mod committed;
mod config;
mod entry;
mod event;
mod gone;
mod grant;
mod log;
mod open;
mod origin;
mod page;
mod piece;
mod progress;
mod publish;
mod query;
mod read;
mod restored;
mod run;
mod snapshot;
mod unfinished;
mod world;

pub use audit::{CheckReport, audit};
pub use begin_reorg::BeginFault;
pub use checkpoint_check::CheckpointFault;
pub use checkpoints::Checkpoint;
pub use commit::CommitFault;
pub use committed::Committed;
pub use config::Config;
pub use entry::{Grant, PieceDone, Receipt};
pub use event::{Event, Reply};
pub use grant::GrantFault;
pub use open::OpenFault;
pub use page::PageRefusal;
pub use piece::{PieceFault, ReadFault};
pub use publish::PublishFault;
pub use query::QueryRefusal;
pub use replay::{Entry, What};
pub use restored::CheckpointParts;
pub use row_page;
pub use snapshot::{Snapshot, SnapshotFault};
pub use world::World;
