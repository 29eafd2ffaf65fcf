//! What the commit of a transaction came to, with all that is known of its refusal.
ghost use Rattle.std.specs.Prelude.{◌≡◌};
ghost use Rattle.handles.specs.CommitOutcomes.{commit_alone, commit_outcome, end_outcome, fault_laid, fault_outcome, key_laid};

use crate::outcome::lay;
use row_write::RowFault;
use typed_calls::TxnRefusal;
use typed_calls::status::{DUPLICATE, NO_ROW, OK};
use typed_calls::world::{CommitFault, Committed};

/// What the commit of a transaction came to. A field is 0 but at the statuses that it names.
#[repr(C)]
#[derive(Clone, Copy, Drop)]
pub struct CommitOutcome {
    /// The status.
    pub status: i32,
    /// At `NOT_PUBLIC` the number that was named.
    pub column: u32,
    /// At `OK` the place of its entry in the log.
    pub place: u64,
    /// At `DUPLICATE` and `NO_ROW` the first operation that the rows refuse, counted from 0.
    pub operation: usize,
    /// At `LEASE_ENDED` the end of the lease.
    pub until: u64,
    /// At `LEASE_ENDED` the moment that counted.
    pub now: u64,
    /// At `CONFLICT` how long the key of the changed pair is.
    pub length: usize,
}

impl CommitOutcome {
    // A status with a column.
    fn of(status: i32, column: u32) -> CommitOutcome
        ensures { result ≡ record (commit_alone status) { column = column } }
    {
        CommitOutcome {
            status,
            column,
            place: 0,
            operation: 0,
            until: 0,
            now: 0,
            length: 0,
        }
    }

    // How a transaction ended.
    fn ended(done: &Committed) -> CommitOutcome
        ensures { result ≡ end_outcome done.now }
    {
        let mut reported = CommitOutcome::of(OK, 0);
        match done {
            Committed::Done(receipt) => reported.place = receipt.place,
            Committed::Refused {
                op,
                why: RowFault::Duplicate,
            } => {
                reported.status = DUPLICATE;
                reported.operation = *op;
            }
            Committed::Refused {
                op,
                why: RowFault::NoRow,
            } => {
                reported.status = NO_ROW;
                reported.operation = *op;
            }
        }
        reported
    }

    // What is known of a refused commit, whose status it is.
    fn faulted(status: i32, fault: &CommitFault) -> CommitOutcome
        ensures { result ≡ fault_outcome status fault.now }
    {
        let mut reported = CommitOutcome::of(status, 0);
        match fault {
            CommitFault::LeaseEnded { until, now } => {
                reported.until = *until;
                reported.now = *now;
            }
            CommitFault::Conflict { key } => reported.length = key.as_slice().len(),
            CommitFault::MomentTooLarge
            | CommitFault::BadLease
            | CommitFault::WrongSchema
            | CommitFault::Memory => (),
        }
        reported
    }

    /// How a transaction ended, or why it was refused.
    pub(crate) fn reported(answer: &Result<Committed, TxnRefusal>) -> CommitOutcome
        ensures { result ≡ commit_outcome answer.now }
    {
        match answer {
            Ok(done) => CommitOutcome::ended(done),
            Err(TxnRefusal::Early(outcome)) => CommitOutcome::of(outcome.status, outcome.column),
            Err(refusal @ TxnRefusal::Commit(fault)) => {
                CommitOutcome::faulted(refusal.outcome().status, fault)
            }
        }
    }
}

// Writes as much as fits of the key of the pair that changed, if the fault is a conflict.
fn lay_fault(fault: &CommitFault, out: &mut [u8])
    ensures { out.new ≡ fault_laid fault.now out.old }
{
    match fault {
        CommitFault::Conflict { key } => lay(out, key.as_slice()),
        CommitFault::MomentTooLarge
        | CommitFault::BadLease
        | CommitFault::LeaseEnded { until: _, now: _ }
        | CommitFault::WrongSchema
        | CommitFault::Memory => (),
    }
}

/// Writes as much as fits of the key of the pair that changed, if the answer is a conflict.
pub(crate) fn lay_key(answer: &Result<Committed, TxnRefusal>, out: &mut [u8])
    ensures { out.new ≡ key_laid answer.now out.old }
{
    match answer {
        Err(TxnRefusal::Commit(fault)) => lay_fault(fault, out),
        Ok(_) | Err(TxnRefusal::Early(_)) => (),
    }
}
