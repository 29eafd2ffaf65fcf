//! Why a transaction was not committed.
ghost use Rattle.std.specs.Prelude.{◌≡◌};
ghost use Rattle.typed_calls.specs.Refusals.{commit_status, refused, refusal_outcome};

use crate::preparation::PrepareOutcome;
use crate::status::{
    BAD_LEASE, CONFLICT, LEASE_ENDED, MOMENT_TOO_LARGE, OUT_OF_MEMORY, WRONG_SCHEMA,
};
use script_session::world::CommitFault;

/// Why a transaction was not committed, with all that is known of it.
#[derive(Drop)]
pub enum TxnRefusal {
    /// It did not come to its commit: by a status, and at `NOT_PUBLIC` the number that was named.
    Early(PrepareOutcome),
    /// The world refused its commit.
    Commit(CommitFault),
}

// The status of a transaction that the world did not commit.
fn commit_status(fault: &CommitFault) -> i32
    ensures { result ≡ commit_status fault.now }
{
    match fault {
        CommitFault::MomentTooLarge => MOMENT_TOO_LARGE,
        CommitFault::BadLease => BAD_LEASE,
        CommitFault::LeaseEnded { until: _, now: _ } => LEASE_ENDED,
        CommitFault::WrongSchema => WRONG_SCHEMA,
        CommitFault::Conflict { key: _ } => CONFLICT,
        CommitFault::Memory => OUT_OF_MEMORY,
    }
}

impl TxnRefusal {
    /// One that did not come to its commit, by a status without a column.
    pub fn of(status: i32) -> TxnRefusal
        ensures { result ≡ refused status }
    {
        TxnRefusal::Early(PrepareOutcome::of(status))
    }

    /// The status, with the column.
    pub fn outcome(&self) -> PrepareOutcome
        ensures { result ≡ refusal_outcome self.now }
    {
        match self {
            TxnRefusal::Early(outcome) => *outcome,
            TxnRefusal::Commit(fault) => PrepareOutcome::of(commit_status(fault)),
        }
    }
}
