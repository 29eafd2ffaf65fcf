//! A query under a lease.
ghost use Rattle.std.specs.Prelude.{◌≡◌};
ghost use Rattle.world.specs.Query.{QueryStep};
ghost use Rattle.world.specs.Faults.{query_reported};
ghost use Rattle.world.specs.declared.query.QueryRefusal.TheVariants as refusal;

use crate::world::World;
use collections::List;
use lease::{Lease, LeaseFault};
use replay::{lemma_kept_agrees, lemma_leases_keep};
use row_map::Row;
use row_query::{Query, QueryFault, answer, lemma_one_refusal};
use std::alloc::Global;
use thiserror::Error;

/// Why a query was not answered. Of several reasons the first in this order is reported.
#[derive(Clone, Copy, Debug, PartialEq, Eq, Error)]
pub enum QueryRefusal {
    /// The moment that counts is above 2^62.
    #[error("the moment is above 2^62")]
    MomentTooLarge,
    /// No grant could have given the lease.
    #[error("no grant could have given the lease")]
    BadLease,
    /// The lease ended before the moment that counts.
    #[error("the lease ended at {until}, and now is {now}")]
    LeaseEnded {
        /// The end of the lease.
        until: u64,
        /// The moment that counts.
        now: u64,
    },
    /// The query has a fault under the schema of the lease's version, or out of memory, which comes
    /// last.
    #[error("{0}")]
    Query(QueryFault),
}

impl From<LeaseFault> for QueryRefusal {
    ghost from_gives = { λ reported fault. fault ≡ query_reported reported };

    fn from(reported: LeaseFault) -> QueryRefusal {
        match reported {
            LeaseFault::MomentTooLarge => QueryRefusal::MomentTooLarge,
            LeaseFault::BadLease => QueryRefusal::BadLease,
            LeaseFault::LeaseEnded { until, now } => QueryRefusal::LeaseEnded { until, now },
        }
    }
}

impl From<QueryFault> for QueryRefusal {
    ghost from_gives = { λ reported fault. fault ≡ refusal.Query reported };

    fn from(reported: QueryFault) -> QueryRefusal {
        QueryRefusal::Query(reported)
    }
}

impl World {
    /// The rows that a query asks for, as the log gives them: in the order of their primary keys,
    /// each with its values in the named columns.
    ///
    /// The query runs under the schema of the lease's version, whichever of its paths finds the
    /// rows. The moment that counts is the greater of `moment` and the moment of the last entry.
    /// Refused in this order: `MomentTooLarge` if the moment that counts is above 2^62; `BadLease`
    /// if no grant could have given it; `LeaseEnded` if it is not in force any more; `Query` with
    /// what `row_query::answer` refuses, out of memory last.
    pub fn query(
        &self,
        alloc: Global,
        moment: u64,
        lease: &Lease,
        query: &Query,
    ) -> Result<List<Row>, QueryRefusal>
        ensures { QueryStep self.now moment lease.now query.now result }
    {
        lemma_one_refusal();
        lemma_kept_agrees();
        lemma_leases_keep();
        let now = self.effective_moment(moment);
        self.line.standing(lease, now)?;
        let schema = self.under(lease, now);
        Ok(answer(alloc, schema.get(), &self.store, query)?)
    }
}
