//! Snapshots of the core: what its rows were under the version of a lease, and whether its pairs
//! were sound, whatever is committed later.
ghost use Rattle.std.specs.Prelude.{◌≡◌, ◌⊎◌, IfOk, IfErr, OnOk};
ghost use Rattle.element_state.specs.Consistent.{IsConsistent};
ghost use Rattle.element_state.specs.Visible.{visible_rows};
ghost use Rattle.row_map.specs.Rows.{Rows};
ghost use Rattle.row_query.specs.declared.fault.QueryFault.TheVariants.{Memory};
ghost use Rattle.row_query.specs.Answer.{plain_answer};
ghost use Rattle.row_query.specs.Refused.{IsRefused, IsSound};
ghost use Rattle.world.specs.Snapshot.{IsSnapshotAnswer, IsSnapshotCheck, SnapshotStep};
ghost use Rattle.world.specs.Faults.{snapshot_reported};
ghost use Rattle.world.specs.declared.snapshot.SnapshotFault.TheVariants as snapshot_fault;

use crate::world::World;
use audit::{CheckReport, audit};
use collections::{ArcValue, List};
use lease::{Lease, LeaseFault};
use replay::{lemma_kept_agrees, lemma_leases_keep};
use row_map::Row;
use row_query::{Query, QueryFault, answer};
use schema_version::Schema;
use std::alloc::{AllocError, Global};
use std::marker::Model;
use thiserror::Error;
use txn_store::PairSnapshot;

/// Why no snapshot was taken. Of several reasons the first in this order is reported.
#[derive(Clone, Copy, Debug, PartialEq, Eq, Error)]
pub enum SnapshotFault {
    /// The moment that counts is above 2^62.
    #[error("the moment is above 2^62")]
    MomentTooLarge,
    /// No grant could have given the lease.
    #[error("no grant could have given the lease")]
    BadLease,
    /// The lease ended before the moment that counts.
    #[error("the lease ended at {until}, and now is {now}")]
    LeaseEnded {
        /// The end of the lease.
        until: u64,
        /// The moment that counts.
        now: u64,
    },
    /// Out of memory.
    #[error("out of memory")]
    Memory,
}

impl From<LeaseFault> for SnapshotFault {
    ghost from_gives = { λ reported fault. fault ≡ snapshot_reported reported };

    fn from(reported: LeaseFault) -> SnapshotFault {
        match reported {
            LeaseFault::MomentTooLarge => SnapshotFault::MomentTooLarge,
            LeaseFault::BadLease => SnapshotFault::BadLease,
            LeaseFault::LeaseEnded { until, now } => SnapshotFault::LeaseEnded { until, now },
        }
    }
}

impl From<AllocError> for SnapshotFault {
    ghost from_gives = { λ _ fault. fault ≡ snapshot_fault.Memory };

    fn from(_: AllocError) -> SnapshotFault {
        SnapshotFault::Memory
    }
}

/// What a World held when the snapshot was taken, the schema of the lease's version and that of the
/// newest version. It stays that, whatever is committed to the World later, also when the lease has
/// ended or the World is gone: it takes no lock and knows no World. Contracts see it as the two
/// versions and the pairs.
pub struct Snapshot {
    /// The schema of the lease's version.
    pub(crate) schema: ArcValue<Schema>,
    /// The schema of the newest version.
    newest: ArcValue<Schema>,
    /// The pairs of the store, shared with it.
    pub(crate) pairs: PairSnapshot,
}

// By hand, so that a caller's proof sees one call and not each field's.
impl Drop for Snapshot {
    fn drop(self) {
        let Snapshot {
            schema: _,
            newest: _,
            pairs: _,
        } = self;
    }
}

impl Model for Snapshot {
    ghost use Rattle.world.specs.Code.{taken_code};
    ghost use Rattle.world.specs.Snapshot.{Taken};

    ghost Value = { Taken };

    ghost coded = { taken_code };

    ghost view = { λ s. record { version = s.schema; newest = s.newest; pairs = s.pairs } };
}

impl Snapshot {
    /// The rows that a query asks for, as they were when the snapshot was taken: in the order of
    /// their primary keys, each with its values in the named columns, or the default of a required
    /// column if it has none.
    ///
    /// `query` is asked under the schema of the version of the lease that the snapshot was taken
    /// under. It is answered as by `row_query::answer`, and refused as there: `NoTable`; then of
    /// the named columns in their order and the conditions in theirs, the first with a fault by its
    /// lowest, `NotPublic` and then `WrongType`; `Memory` last. A refusal leaves nothing behind.
    #[tactic(auto, using(crate::proofs::Snapshots::is_answer))]
    pub fn query(&self, alloc: Global, query: &Query) -> Result<List<Row>, QueryFault>
        ensures { IsSnapshotAnswer self.now query.now result }
    {
        self.rows_of(alloc, query)
    }

    /// Audits the pairs as they were when the snapshot was taken, by the version that was the
    /// newest then: how many rows there are, how many pairs are missing, and how many are there
    /// without a reason, as `World::check` counts them. It takes time with the pairs and no lock.
    /// Refused only when out of memory.
    pub fn check(&self, alloc: Global) -> Result<CheckReport, AllocError>
        ensures { IfOk result (λ report. IsSnapshotCheck self.now report) }
    {
        audit(alloc, self.newest.get(), &self.pairs)
    }

    // The same as `query`, by the contract of `answer`.
    fn rows_of(&self, alloc: Global, query: &Query) -> Result<List<Row>, QueryFault>
        ensures refused { IfErr result (λ fault. ((fault ≡ Memory) × IsSound self.now.version query.now) ⊎ IsRefused self.now.version query.now fault) }
        ensures clear { OnOk result (IsSound self.now.version query.now) }
        ensures rows { (rows : Rows) → IsConsistent self.now.version rows self.now.pairs → IfOk result (λ found. found ≡ plain_answer (visible_rows self.now.version rows) query.now) }
    {
        answer(alloc, self.schema.get(), &self.pairs, query)
    }
}

impl World {
    /// A snapshot of what is committed now, to be queried later under the schema of the lease's
    /// version, and to be checked by that of the newest. The schemas and the pairs are shared, and
    /// none is copied; nothing changes.
    ///
    /// The moment that counts is the greater of `moment` and the moment of the last entry. Refused
    /// in this order: `MomentTooLarge` if the moment that counts is above 2^62; `BadLease` if no
    /// grant could have given `lease`; `LeaseEnded` if it is not in force any more; `Memory`.
    pub fn snapshot(&self, moment: u64, lease: &Lease) -> Result<Snapshot, SnapshotFault>
        ensures { SnapshotStep self.now moment lease.now result }
    {
        lemma_kept_agrees();
        lemma_leases_keep();
        let now = self.effective_moment(moment);
        self.line.standing(lease, now)?;
        let schema = self.under(lease, now);
        let schema = schema.clone()?;
        let newest = self.newest.clone()?;
        let pairs = self.store.snapshot()?;
        Ok(Snapshot {
            schema,
            newest,
            pairs,
        })
    }
}
