//! Calls as values: events and their replies.
use crate::begin_reorg::BeginFault;
use crate::commit::CommitFault;
use crate::committed::Committed;
use crate::entry::{Grant, PieceDone, Receipt};
use crate::grant::GrantFault;
use crate::piece::PieceFault;
use crate::publish::PublishFault;
use crate::query::QueryRefusal;
use collections::List;
use lease::Lease;
use reorganise::PreparedPiece;
use row_map::Row;
use row_query::Query;
use row_write::Prepared;
use schema_version::Step;

/// A call of the core with its arguments, for a list of calls.
#[derive(Drop)]
pub enum Event {
    /// `World::lease`.
    Lease {
        /// The moment that is handed in.
        moment: u64,
    },
    /// `World::commit`.
    Commit {
        /// The moment that is handed in.
        moment: u64,
        /// What was prepared, however long ago.
        prepared: Prepared,
    },
    /// `World::query`.
    Query {
        /// The moment that is handed in.
        moment: u64,
        /// The lease, also one made by hand.
        lease: Lease,
        /// What is asked.
        query: Query,
    },
    /// `World::publish`.
    Publish {
        /// The moment that is handed in.
        moment: u64,
        /// The moves of the step.
        step: Step,
    },
    /// `World::begin_reorg`.
    Begin {
        /// The moment that is handed in.
        moment: u64,
        /// The number of the element.
        element: u32,
        /// The number of pieces.
        pieces: u32,
    },
    /// `World::commit_piece`.
    Piece {
        /// The moment that is handed in.
        moment: u64,
        /// What was prepared, however long ago.
        prepared: PreparedPiece,
    },
}

/// What the call of an event answered.
pub enum Reply {
    /// The answer of `World::lease`.
    Lease(Result<Grant, GrantFault>),
    /// The answer of `World::commit`.
    Commit(Result<Committed, (CommitFault, Prepared)>),
    /// The answer of `World::query`.
    Query(Result<List<Row>, QueryRefusal>),
    /// The answer of `World::publish`.
    Publish(Result<(u64, Receipt), PublishFault>),
    /// The answer of `World::begin_reorg`.
    Begin(Result<Receipt, BeginFault>),
    /// The answer of `World::commit_piece`.
    Piece(Result<PieceDone, (PieceFault, PreparedPiece)>),
}

// By hand, so that a caller's proof sees one call and not each variant's.
impl Drop for Reply {
    fn drop(self) {
        match self {
            Reply::Lease(_)
            | Reply::Commit(_)
            | Reply::Query(_)
            | Reply::Publish(_)
            | Reply::Begin(_)
            | Reply::Piece(_) => {}
        }
    }
}
