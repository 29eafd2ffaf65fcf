//! Queries by their code, and the code of the rows that they answer.
ghost use Rattle.std.specs.Prelude.{◌≡◌};
ghost use Rattle.typed_calls.specs.Queries.{fault_outcome, query_outcome, AnswersCode, QueriesWorld, QueriesIn, QueriesTaken, QueriesSnapshot};

use crate::bounded::BoundedWorld;
use crate::status::{
    BAD_CODE, BAD_LEASE, LEASE_ENDED, MOMENT_TOO_LARGE, NO_TABLE, NOT_PUBLIC, OUT_OF_MEMORY,
    TOO_FAR, WRONG_TYPE,
};
use collections::List;
use entry_code::{CodeFault, query_of, rows_bytes};
use lease::Lease;
use row_query::{Query, QueryFault};
use script_session::ServerLease;
use script_session::world::{QueryRefusal, Snapshot, World};
use std::alloc::Global;

/// What a query came to.
#[repr(C)]
#[derive(Clone, Copy, Drop)]
pub struct QueryOutcome {
    /// The status.
    pub status: i32,
    /// At `NOT_PUBLIC` the number that was named; else 0.
    pub column: u32,
}

impl QueryOutcome {
    /// A status without a column.
    pub fn of(status: i32) -> QueryOutcome
        ensures { result ≡ record { status = status; column = 0 } }
    {
        QueryOutcome { status, column: 0 }
    }
}

/// What a fault of a query is reported as.
pub fn fault_outcome(fault: QueryFault) -> QueryOutcome
    ensures { result ≡ fault_outcome fault }
{
    match fault {
        QueryFault::NoTable => QueryOutcome::of(NO_TABLE),
        QueryFault::NotPublic { column } => QueryOutcome {
            status: NOT_PUBLIC,
            column,
        },
        QueryFault::WrongType => QueryOutcome::of(WRONG_TYPE),
        QueryFault::Memory => QueryOutcome::of(OUT_OF_MEMORY),
    }
}

// What a refusal under a lease is reported as.
fn query_outcome(refusal: QueryRefusal) -> QueryOutcome
    ensures { result ≡ query_outcome refusal }
{
    match refusal {
        QueryRefusal::MomentTooLarge => QueryOutcome::of(MOMENT_TOO_LARGE),
        QueryRefusal::BadLease => QueryOutcome::of(BAD_LEASE),
        QueryRefusal::LeaseEnded { until: _, now: _ } => QueryOutcome::of(LEASE_ENDED),
        QueryRefusal::Query(fault) => fault_outcome(fault),
    }
}

// The code of the rows that the world answers to this query.
fn query_world(
    alloc: Global,
    world: &World,
    moment: u64,
    lease: &Lease,
    query: &Query,
) -> Result<List<u8>, QueryOutcome>
    ensures { QueriesWorld world.now moment lease.now query.now result }
{
    match world.query(alloc, moment, lease, query) {
        Ok(rows) => match rows_bytes(alloc, &rows) {
            Ok(code) => Ok(List::new(code)),
            Err(_) => Err(QueryOutcome::of(OUT_OF_MEMORY)),
        },
        Err(refusal) => Err(query_outcome(refusal)),
    }
}

// The same of the query whose code these bytes are.
fn query_coded(
    alloc: Global,
    world: &World,
    moment: u64,
    lease: &Lease,
    code: &[u8],
) -> Result<List<u8>, QueryOutcome>
    ensures { AnswersCode (QueriesWorld world.now moment lease.now) code.now result }
{
    match query_of(alloc, code) {
        Ok(query) => query_world(alloc, world, moment, lease, &query),
        Err(CodeFault::Memory) => Err(QueryOutcome::of(OUT_OF_MEMORY)),
        Err(_) => Err(QueryOutcome::of(BAD_CODE)),
    }
}

/// The code of the rows that a query asks for, of a world under a lease. Nothing changes.
///
/// - `moment`: the present moment. The one that counts is the greater of it and the moment of the
///   last entry.
/// - `held`: the lease; the query runs under the schema of its version.
/// - `code`: what `entry_code::query_bytes` gives for the query. The rows come as
///   `entry_code::rows_bytes` gives them.
///
/// Refused, in this order: `TOO_FAR`; `BAD_CODE` if the bytes are the code of no query, or of one
/// with a text of more than 1,024 bytes; then as `World::query` refuses: `MOMENT_TOO_LARGE`,
/// `BAD_LEASE`, `LEASE_ENDED`, `NO_TABLE`, `NOT_PUBLIC` with the column, `WRONG_TYPE`;
/// `OUT_OF_MEMORY`, which may come in place of any but `TOO_FAR`.
pub fn query(
    alloc: Global,
    bounded: &BoundedWorld,
    moment: u64,
    held: &ServerLease,
    code: &[u8],
) -> Result<List<u8>, QueryOutcome>
    ensures { QueriesIn bounded.now moment held.now.lease code.now result }
{
    if bounded.is_too_far(moment) {
        return Err(QueryOutcome::of(TOO_FAR));
    }
    query_coded(alloc, &bounded.world, moment, &held.lease, code)
}

// The code of the rows that the snapshot answers to this query.
fn query_taken(alloc: Global, snapshot: &Snapshot, query: &Query) -> Result<List<u8>, QueryOutcome>
    ensures { QueriesTaken snapshot.now query.now result }
{
    match snapshot.query(alloc, query) {
        Ok(rows) => match rows_bytes(alloc, &rows) {
            Ok(code) => Ok(List::new(code)),
            Err(_) => Err(QueryOutcome::of(OUT_OF_MEMORY)),
        },
        Err(fault) => Err(fault_outcome(fault)),
    }
}

/// The code of the rows that a query asks for, of a snapshot: under the schema of the version of the
/// lease that it was taken under.
///
/// - `code`: as for `query`.
///
/// Refused, in this order: `BAD_CODE`; then as `Snapshot::query` refuses: `NO_TABLE`, `NOT_PUBLIC`
/// with the column, `WRONG_TYPE`; `OUT_OF_MEMORY`, which may come in place of any.
pub fn query_snapshot(
    alloc: Global,
    snapshot: &Snapshot,
    code: &[u8],
) -> Result<List<u8>, QueryOutcome>
    ensures { QueriesSnapshot snapshot.now code.now result }
{
    match query_of(alloc, code) {
        Ok(query) => query_taken(alloc, snapshot, &query),
        Err(CodeFault::Memory) => Err(QueryOutcome::of(OUT_OF_MEMORY)),
        Err(_) => Err(QueryOutcome::of(BAD_CODE)),
    }
}
