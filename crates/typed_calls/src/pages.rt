//! Pages of queries by the code of their request, and the code of their rows.
ghost use Rattle.std.specs.Prelude.{◌≡◌};
ghost use Rattle.typed_calls.specs.Pages.{page_fault, page_refusal, AnswersRequest, PagesWorld, PagesIn, PagesTaken, PagesSnapshot, IsCoded};

use crate::bounded::BoundedWorld;
use crate::queries::{QueryOutcome, fault_outcome};
use crate::status::{
    BAD_CODE, BAD_COUNT, BAD_LEASE, LEASE_ENDED, MOMENT_TOO_LARGE, OUT_OF_MEMORY, TOO_FAR,
};
use collections::List;
use entry_code::{CodeFault, rows_bytes};
use lease::Lease;
use page_code::{PageRequest, page_request_of};
use row_page::{PageFault, RowPage};
use script_session::ServerLease;
use script_session::world::{PageRefusal, Snapshot, World};
use std::alloc::Global;

/// A page, by the code of its rows.
#[derive(Drop)]
pub struct CodedPage {
    /// The code of the rows.
    pub rows: List<u8>,
    /// Whether the range has further rows that are asked for.
    pub more: bool,
}

// What a fault of a page is reported as.
fn page_fault(fault: PageFault) -> QueryOutcome
    ensures { result ≡ page_fault fault }
{
    match fault {
        PageFault::BadLimit => QueryOutcome::of(BAD_COUNT),
        PageFault::Query(fault) => fault_outcome(fault),
    }
}

// What a refusal under a lease is reported as.
fn page_refusal(refusal: PageRefusal) -> QueryOutcome
    ensures { result ≡ page_refusal refusal }
{
    match refusal {
        PageRefusal::MomentTooLarge => QueryOutcome::of(MOMENT_TOO_LARGE),
        PageRefusal::BadLease => QueryOutcome::of(BAD_LEASE),
        PageRefusal::LeaseEnded { until: _, now: _ } => QueryOutcome::of(LEASE_ENDED),
        PageRefusal::Page(fault) => page_fault(fault),
    }
}

// A page with the code of its rows.
fn coded(alloc: Global, page: &RowPage) -> Result<CodedPage, QueryOutcome>
    ensures { IsCoded page.now result }
{
    match rows_bytes(alloc, &page.rows) {
        Ok(code) => Ok(CodedPage {
            rows: List::new(code),
            more: page.more,
        }),
        Err(_) => Err(QueryOutcome::of(OUT_OF_MEMORY)),
    }
}

// The page that the world answers to this request.
fn page_world(
    alloc: Global,
    world: &World,
    moment: u64,
    lease: &Lease,
    asked: &PageRequest,
) -> Result<CodedPage, QueryOutcome>
    ensures { PagesWorld world.now moment lease.now asked.now result }
{
    match world.query_page(
        alloc,
        moment,
        lease,
        &asked.query,
        &asked.range,
        asked.limit,
    ) {
        Ok(page) => coded(alloc, &page),
        Err(refusal) => Err(page_refusal(refusal)),
    }
}

// The same of the request whose code these bytes are.
fn page_coded(
    alloc: Global,
    world: &World,
    moment: u64,
    lease: &Lease,
    code: &[u8],
) -> Result<CodedPage, QueryOutcome>
    ensures { AnswersRequest (PagesWorld world.now moment lease.now) code.now result }
{
    match page_request_of(alloc, code) {
        Ok(asked) => page_world(alloc, world, moment, lease, &asked),
        Err(CodeFault::Memory) => Err(QueryOutcome::of(OUT_OF_MEMORY)),
        Err(_) => Err(QueryOutcome::of(BAD_CODE)),
    }
}

/// The code of a page of the rows that a query asks for, of a world under a lease. Nothing
/// changes.
///
/// - `moment`, `held`: as for `query`.
/// - `code`: that of a `page_code::PageRequest`, which has the query, the range and the limit.
///
/// Refused, in this order: `TOO_FAR`; `BAD_CODE` if the bytes are the code of no request, or of one
/// with a text of more than 1,024 bytes; then as `World::query_page` refuses: `MOMENT_TOO_LARGE`,
/// `BAD_LEASE`, `LEASE_ENDED`, `BAD_COUNT` of the limit, `NO_TABLE`, `NOT_PUBLIC` with the column,
/// `WRONG_TYPE`, also of the range; `OUT_OF_MEMORY`, which may come in place of any but `TOO_FAR`.
pub fn query_page(
    alloc: Global,
    bounded: &BoundedWorld,
    moment: u64,
    held: &ServerLease,
    code: &[u8],
) -> Result<CodedPage, QueryOutcome>
    ensures { PagesIn bounded.now moment held.now.lease code.now result }
{
    if bounded.is_too_far(moment) {
        return Err(QueryOutcome::of(TOO_FAR));
    }
    page_coded(alloc, &bounded.world, moment, &held.lease, code)
}

// The page that the snapshot answers to this request.
fn page_taken(
    alloc: Global,
    snapshot: &Snapshot,
    asked: &PageRequest,
) -> Result<CodedPage, QueryOutcome>
    ensures { PagesTaken snapshot.now asked.now result }
{
    match snapshot.query_page(alloc, &asked.query, &asked.range, asked.limit) {
        Ok(page) => coded(alloc, &page),
        Err(fault) => Err(page_fault(fault)),
    }
}

/// The code of a page of the rows that a query asks for, of a snapshot: under the schema of the
/// version of the lease that it was taken under.
///
/// - `code`: as for `query_page`.
///
/// Refused, in this order: `BAD_CODE`; then as `Snapshot::query_page` refuses: `BAD_COUNT`,
/// `NO_TABLE`, `NOT_PUBLIC` with the column, `WRONG_TYPE`; `OUT_OF_MEMORY`, which may come in place
/// of any.
pub fn query_page_snapshot(
    alloc: Global,
    snapshot: &Snapshot,
    code: &[u8],
) -> Result<CodedPage, QueryOutcome>
    ensures { PagesSnapshot snapshot.now code.now result }
{
    match page_request_of(alloc, code) {
        Ok(asked) => page_taken(alloc, snapshot, &asked),
        Err(CodeFault::Memory) => Err(QueryOutcome::of(OUT_OF_MEMORY)),
        Err(_) => Err(QueryOutcome::of(BAD_CODE)),
    }
}
