//! A page of a query under a lease, and of a snapshot.
ghost use Rattle.std.specs.Prelude.{◌≡◌, IfOk, IfErr, OnOk};
ghost use Rattle.collections.specs.Refusal.{IsRefusal, IsClear};
ghost use Rattle.element_state.specs.Consistent.{IsConsistent};
ghost use Rattle.element_state.specs.Visible.{visible_rows};
ghost use Rattle.row_map.specs.Rows.{Rows};
ghost use Rattle.row_page.specs.Page.{page_of, rows_within};
ghost use Rattle.row_page.specs.Refused.{page_rank, PageCondition};
ghost use Rattle.row_page.specs.declared.fault.PageFault.TheVariants.{Query as Faulty};
ghost use Rattle.row_query.specs.Answer.{plain_answer};
ghost use Rattle.row_query.specs.declared.fault.QueryFault.TheVariants.{Memory};
ghost use Rattle.world.specs.Page.{PageStep, IsSnapshotPage, lease_reported};
ghost use Rattle.world.specs.declared.page.PageRefusal.TheVariants as refusal;

use crate::snapshot::Snapshot;
use crate::world::World;
use lease::{Lease, LeaseFault};
use replay::{lemma_kept_agrees, lemma_leases_keep};
use row_page::{KeyRange, PageFault, RowPage, answer_page};
use row_query::Query;
use std::alloc::Global;
use thiserror::Error;

/// Why a page was not answered. Of several reasons the first in this order is reported.
#[derive(Clone, Copy, Debug, PartialEq, Eq, Error)]
pub enum PageRefusal {
    /// The moment that counts is above 2^62.
    #[error("the moment is above 2^62")]
    MomentTooLarge,
    /// No grant could have given the lease.
    #[error("no grant could have given the lease")]
    BadLease,
    /// The lease ended before the moment that counts.
    #[error("the lease ended at {until}, and now is {now}")]
    LeaseEnded {
        /// The end of the lease.
        until: u64,
        /// The moment that counts.
        now: u64,
    },
    /// The limit, the query or the range has a fault under the schema of the lease's version, or out
    /// of memory, which comes last.
    #[error("{0}")]
    Page(PageFault),
}

impl From<LeaseFault> for PageRefusal {
    ghost from_gives = { λ reported fault. fault ≡ lease_reported reported };

    fn from(reported: LeaseFault) -> PageRefusal {
        match reported {
            LeaseFault::MomentTooLarge => PageRefusal::MomentTooLarge,
            LeaseFault::BadLease => PageRefusal::BadLease,
            LeaseFault::LeaseEnded { until, now } => PageRefusal::LeaseEnded { until, now },
        }
    }
}

impl From<PageFault> for PageRefusal {
    ghost from_gives = { λ reported fault. fault ≡ refusal.Page reported };

    fn from(reported: PageFault) -> PageRefusal {
        PageRefusal::Page(reported)
    }
}

impl World {
    /// A page of the rows that a query asks for, as the log gives them: the first of those whose key
    /// is in a range, in the order of their primary keys, and whether there are more.
    ///
    /// - `moment`, `lease`, `query`: as for `query`.
    /// - `range`: the key after which the rows come, and the key before which they end.
    /// - `limit`: at most so many rows, 1 to `row_page::MOST_ROWS`.
    ///
    /// Refused in this order: `MomentTooLarge` if the moment that counts is above 2^62; `BadLease` if
    /// no grant could have given the lease; `LeaseEnded` if it is not in force any more; `Page` with
    /// what `row_page::answer_page` refuses: the limit, the query, the range, out of memory last.
    pub fn query_page(
        &self,
        alloc: Global,
        moment: u64,
        lease: &Lease,
        query: &Query,
        range: &KeyRange,
        limit: u32,
    ) -> Result<RowPage, PageRefusal>
        ensures { PageStep self.now moment lease.now query.now range.now limit result }
    {
        lemma_kept_agrees();
        lemma_leases_keep();
        let now = self.effective_moment(moment);
        self.line.standing(lease, now)?;
        let schema = self.under(lease, now);
        let page = answer_page(alloc, schema.get(), &self.store, query, range, limit)?;
        Ok(page)
    }
}

impl Snapshot {
    /// A page of the rows that a query asks for, as they were when the snapshot was taken: the first
    /// of those whose key is in a range, in the order of their primary keys, and whether there are
    /// more. It takes time with the rows that it goes over, whatever else the snapshot has.
    ///
    /// - `query`: as for `query`.
    /// - `range`: the key after which the rows come, and the key before which they end.
    /// - `limit`: at most so many rows, 1 to `row_page::MOST_ROWS`.
    ///
    /// Refused as by `row_page::answer_page`: `BadLimit`; `Query` with the query's fault, then with
    /// `WrongType` of the range, then with `Memory`. A refusal leaves nothing behind.
    #[tactic(auto, using(crate::proofs::Pages::is_page))]
    pub fn query_page(
        &self,
        alloc: Global,
        query: &Query,
        range: &KeyRange,
        limit: u32,
    ) -> Result<RowPage, PageFault>
        ensures { IsSnapshotPage self.now query.now range.now limit result }
    {
        self.find_page(alloc, query, range, limit)
    }

    // The same as `query_page`, by the contract of `answer_page`.
    fn find_page(
        &self,
        alloc: Global,
        query: &Query,
        range: &KeyRange,
        limit: u32,
    ) -> Result<RowPage, PageFault>
        ensures refused { IfErr result (λ fault. IsRefusal page_rank (PageCondition self.now.version query.now range.now limit) (Faulty Memory) fault) }
        ensures clear { OnOk result (IsClear (PageCondition self.now.version query.now range.now limit)) }
        ensures rows { (rows : Rows) → IsConsistent self.now.version rows self.now.pairs → IfOk result (λ page. page ≡ page_of limit (rows_within range.now (plain_answer (visible_rows self.now.version rows) query.now))) }
    {
        answer_page(alloc, self.schema.get(), &self.pairs, query, range, limit)
    }
}
