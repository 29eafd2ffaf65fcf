//! The commit of a prepared transaction.
ghost use Rattle.std.specs.Prelude.{◌≡◌, ◌≤◌, IfOk, Some};
ghost use Rattle.lease.specs.Refusals.{Serves};
ghost use Rattle.replay.specs.declared.entry.What.TheVariants.{Txn};
ghost use Rattle.replay.specs.Replay.{version_at};
ghost use Rattle.world.specs.Calls.{CommitStep, CommitAt, given_back};
ghost use Rattle.world.specs.State.{facts_of};
ghost use Rattle.world.specs.Faults.{set_reported, lease_reported};
ghost use Rattle.world.specs.declared.commit.CommitFault.TheVariants.{Memory};

use crate::committed::Committed;
use crate::world::World;
use byte_map::Bytes;
use lease::LeaseFault;
use replay::{What, lemma_transactions_keep};
use row_write::{Prepared, RowOutcome};
use std::alloc::{AllocError, Global};
use thiserror::Error;
use txn_store::SetFault;

/// Why a transaction was not committed. Of several reasons the first in this order is reported.
#[derive(Debug, Drop, Error)]
pub enum CommitFault {
    /// The moment that counts is above 2^62.
    #[error("the moment is above 2^62")]
    MomentTooLarge,
    /// No grant could have given the lease.
    #[error("no grant could have given the lease")]
    BadLease,
    /// The lease ended before the moment that counts.
    #[error("the lease ended at {until}, and now is {now}")]
    LeaseEnded {
        /// The end of the lease.
        until: u64,
        /// The moment that counts.
        now: u64,
    },
    /// The transaction was prepared under another schema than that of its lease's version.
    #[error("prepared under another schema than that of the lease's version")]
    WrongSchema,
    /// A pair is no longer what was read.
    #[error("a pair changed since it was read")]
    Conflict {
        /// The least key whose present pair is not the expected one.
        key: Bytes,
    },
    /// Out of memory, which may come in place of Conflict.
    #[error("out of memory")]
    Memory,
}

impl From<AllocError> for CommitFault {
    ghost from_gives = { λ _ fault. fault ≡ Memory };

    fn from(_: AllocError) -> CommitFault {
        CommitFault::Memory
    }
}

impl From<SetFault> for CommitFault {
    ghost from_gives = { λ reported fault. fault ≡ set_reported reported };

    fn from(reported: SetFault) -> CommitFault {
        match reported {
            SetFault::Conflict { key } => CommitFault::Conflict { key },
            SetFault::Memory => CommitFault::Memory,
        }
    }
}

impl From<LeaseFault> for CommitFault {
    ghost from_gives = { λ reported fault. fault ≡ lease_reported reported };

    fn from(reported: LeaseFault) -> CommitFault {
        match reported {
            LeaseFault::MomentTooLarge => CommitFault::MomentTooLarge,
            LeaseFault::BadLease => CommitFault::BadLease,
            LeaseFault::LeaseEnded { until, now } => CommitFault::LeaseEnded { until, now },
        }
    }
}

// What a committed transaction says in the log.
fn txn_of(prepared: &Prepared) -> Result<What, AllocError>
    ensures { IfOk result (λ what. what ≡ Txn prepared.now.lease prepared.now.ops) }
{
    let ops = prepared.ops_shared()?;
    Ok(What::Txn(*prepared.lease(), ops))
}

impl World {
    /// Commits a prepared transaction: it is logged and its batch is written, or the rows refuse
    /// it.
    ///
    /// The moment that counts is the greater of `moment` and the moment of the last entry. Refused
    /// in this order, and then nothing changes and the prepared transaction comes back:
    /// `MomentTooLarge` if the moment that counts is above 2^62; `BadLease` if no grant could have
    /// given its lease; `LeaseEnded` if its lease is not in force any more; `WrongSchema` if the
    /// schema that it was prepared under does not equal that of its lease's version; `Conflict`
    /// with the least key whose pair is not what was read; `Memory`, which may come in place of
    /// Conflict. A write carries its lease's end and isn't committed after it, as in the F1 paper.
    pub fn commit(
        &mut self,
        alloc: Global,
        moment: u64,
        prepared: Prepared,
    ) -> Result<Committed, (CommitFault, Prepared)>
        ensures step { CommitStep self.old moment prepared result self.new }
    {
        match self.commit_kept(alloc, moment, &prepared) {
            Ok(done) => Ok(done),
            Err(fault) => Err((fault, prepared)),
        }
    }

    /// Commits a prepared transaction that stays with the caller, as `commit` does. What it takes
    /// to let it go is then not spent under a lock.
    pub fn commit_kept(
        &mut self,
        alloc: Global,
        moment: u64,
        prepared: &Prepared,
    ) -> Result<Committed, CommitFault>
        ensures step { CommitStep self.old moment prepared.now (given_back prepared.now result) self.new }
    {
        let now = self.effective_moment(moment);
        match self.line.standing(prepared.lease(), now) {
            Ok(()) => (),
            Err(fault) => return Err(CommitFault::from(fault)),
        }
        let schema = self.under(prepared.lease(), now);
        if !prepared.schema().get().is_same(schema.get()) {
            return Err(CommitFault::WrongSchema);
        }
        self.commit_at(alloc, now, prepared)
    }

    // The commit of a transaction whose lease serves at the moment that counts.
    fn commit_at(
        &mut self,
        alloc: Global,
        now: u64,
        prepared: &Prepared,
    ) -> Result<Committed, CommitFault>
        requires schema { version_at (facts_of self.old) prepared.now.lease.version ≡ Some prepared.now.schema }
        requires later { (facts_of self.old).moment ≤ now }
        requires serves { Serves (facts_of self.old).line prepared.now.lease now }
        ensures step { CommitAt self.old now prepared.now result self.new }
    {
        lemma_transactions_keep();
        match prepared.outcome() {
            RowOutcome::Done => self.add_txn(alloc, now, prepared),
            RowOutcome::Refused { op, why } => {
                prepared.lemma_made();
                self.store
                    .test_and_set(alloc, prepared.expect(), prepared.batch())?;
                Ok(Committed::Refused { op, why })
            }
        }
    }

    // The same, if what was read accepts all operations.
    fn add_txn(
        &mut self,
        alloc: Global,
        now: u64,
        prepared: &Prepared,
    ) -> Result<Committed, CommitFault>
        requires schema { version_at (facts_of self.old) prepared.now.lease.version ≡ Some prepared.now.schema }
        requires later { (facts_of self.old).moment ≤ now }
        requires serves { Serves (facts_of self.old).line prepared.now.lease now }
        requires done { prepared.now.reported ≡ RowOutcome.Done }
        ensures step { CommitAt self.old now prepared.now result self.new }
    {
        lemma_transactions_keep();
        prepared.lemma_made();
        let what = txn_of(prepared)?;
        let draft = self.log.make_ready(alloc, now, what)?;
        let batch = prepared.batch();
        self.store.test_and_set(alloc, prepared.expect(), batch)?;
        let receipt = self.log.enter(draft);
        Ok(Committed::Done(receipt))
    }
}
