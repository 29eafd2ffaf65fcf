//! What a port has answered so far.
ghost use Rattle.std.specs.Prelude.{◌≡◌, ◌+◌, ◌<◌, ◌^◌};
ghost use Rattle.server.specs.Tallies.{tally, retried, last_of_grant, last_of_read, last_of_fault, last_of_commit};

use collections::ArcValue;
use lease::Lease;
use locked_store::SharedFault;
use locked_store::world::{CommitFault, Committed, GrantFault};
use row_map::ReadView;
use row_write::{Prepared, RowFault};
use schema_version::Schema;
use std::alloc::AllocError;

/// A port's last answer.
#[derive(Clone, Copy, PartialEq, Eq)]
pub enum Last {
    /// It was not called yet.
    Nothing,
    /// A lease.
    Granted,
    /// The pairs that were to be read.
    ReadDone,
    /// A committed transaction.
    Done,
    /// A transaction that the rows refuse.
    Row {
        /// The first operation that is refused, counted from 0.
        op: usize,
        /// Why.
        why: RowFault,
    },
    /// A pair was no longer what was read.
    Conflict,
    /// The lease had ended.
    LeaseEnded {
        /// The end of the lease.
        until: u64,
        /// The moment that counted.
        now: u64,
    },
    /// The moment was above 2^62.
    MomentTooLarge,
    /// No grant could have given the lease.
    BadLease,
    /// The transaction was prepared under another schema than that of its lease's version.
    WrongSchema,
    /// The log was shorter than the handle had seen it.
    WentBack {
        /// The length of the log.
        seen: u64,
    },
    /// Out of memory.
    Memory,
}

/// What a port keeps of its answers.
#[derive(Clone, Copy, PartialEq, Eq)]
pub struct Tally {
    /// How many of its answers were a conflict or the end of a lease.
    pub retries: u64,
    /// Its last answer.
    pub last: Last,
}

impl Tally {
    /// Counts an answer.
    pub fn note(&mut self, last: Last)
        requires { self.old.retries < 2 ^ 63 }
        ensures { self.new ≡ tally (self.old.retries + retried last) last }
    {
        match last {
            Last::Conflict | Last::LeaseEnded { .. } => self.retries += 1,
            _ => {}
        }
        self.last = last;
    }
}

/// The name of what a lease was answered with.
pub fn last_of_grant(answer: &Result<(Lease, ArcValue<Schema>), SharedFault<GrantFault>>) -> Last
    ensures { result ≡ last_of_grant answer.now }
{
    match answer {
        Ok(_) => Last::Granted,
        Err(SharedFault::WentBack { seen }) => Last::WentBack { seen: *seen },
        Err(SharedFault::World(GrantFault::MomentTooLarge)) => Last::MomentTooLarge,
        Err(SharedFault::World(GrantFault::Memory)) => Last::Memory,
    }
}

/// The name of what a read was answered with.
pub fn last_of_read(answer: &Result<ReadView, SharedFault<AllocError>>) -> Last
    ensures { result ≡ last_of_read answer.now }
{
    match answer {
        Ok(_) => Last::ReadDone,
        Err(SharedFault::WentBack { seen }) => Last::WentBack { seen: *seen },
        Err(SharedFault::World(AllocError)) => Last::Memory,
    }
}

fn last_of_fault(fault: &CommitFault) -> Last
    ensures { result ≡ last_of_fault fault.now }
{
    match fault {
        CommitFault::MomentTooLarge => Last::MomentTooLarge,
        CommitFault::BadLease => Last::BadLease,
        CommitFault::LeaseEnded { until, now } => Last::LeaseEnded {
            until: *until,
            now: *now,
        },
        CommitFault::WrongSchema => Last::WrongSchema,
        CommitFault::Conflict { key: _ } => Last::Conflict,
        CommitFault::Memory => Last::Memory,
    }
}

/// The name of what a commit was answered with.
pub fn last_of_commit(answer: &Result<Committed, (SharedFault<CommitFault>, Prepared)>) -> Last
    ensures { result ≡ last_of_commit answer.now }
{
    match answer {
        Ok(Committed::Done(_)) => Last::Done,
        Ok(Committed::Refused { op, why }) => Last::Row { op: *op, why: *why },
        Err((SharedFault::WentBack { seen }, _)) => Last::WentBack { seen: *seen },
        Err((SharedFault::World(fault), _)) => last_of_fault(fault),
    }
}
