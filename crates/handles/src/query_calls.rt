//! Queries, whose rows are kept in handles of their own.
ghost use Rattle.std.specs.Prelude.{◌≡◌, None};
ghost use Rattle.handles.specs.Queries.{Keeps, QueriesInto, QueriesUnder, Queries, TakenInto, SnapshotQueries, ReadInto, ReadQueries};

use crate::engine::Engine;
use crate::handle::Handle;
use collections::List;
use std::alloc::Global;
use typed_calls::script_session::ServerLease;
use typed_calls::status::{ALREADY_OPEN, CLOSED};
use typed_calls::world::Snapshot;
use typed_calls::{BoundedWorld, QueryOutcome, Reads};

impl Handle {
    // Fills a closed handle with the rows of an answer.
    fn keep_rows(&mut self, alloc: Global, answer: Result<List<u8>, QueryOutcome>) -> QueryOutcome
        requires { self.old.place.value ≡ None }
        ensures { Keeps answer result self.new.place.value }
    {
        match answer {
            Ok(code) => QueryOutcome::of(self.fill(alloc, Engine::Bytes(code))),
            Err(refusal) => refusal,
        }
    }

    // Fills a closed handle with the rows that the world answers.
    fn query_into(
        &mut self,
        alloc: Global,
        bounded: &BoundedWorld,
        moment: u64,
        held: &ServerLease,
        query: &[u8],
    ) -> QueryOutcome
        requires { self.old.place.value ≡ None }
        ensures { QueriesInto bounded.now moment held.now query.now result self.new.place.value }
    {
        let answer = typed_calls::query(alloc, bounded, moment, held, query);
        self.keep_rows(alloc, answer)
    }

    // Queries the world under the lease of this handle.
    fn query_under(
        &mut self,
        alloc: Global,
        bounded: &BoundedWorld,
        moment: u64,
        query: &[u8],
        bytes: &mut Handle,
    ) -> QueryOutcome
        requires { bytes.old.place.value ≡ None }
        ensures queries { QueriesUnder bounded.now moment self.old.place.value query.now result bytes.new.place.value }
        ensures same { self.new.place.value ≡ self.old.place.value }
    {
        let Some(engine) = self.take(alloc) else {
            return QueryOutcome::of(CLOSED);
        };
        let Engine::Lease(held) = &*engine else {
            self.put(engine);
            return QueryOutcome::of(CLOSED);
        };
        let outcome = bytes.query_into(alloc, bounded, moment, held, query);
        self.put(engine);
        outcome
    }

    /// Answers a query of the world, under a lease, into the closed handle `bytes`: the bytes are the
    /// code of the query, and the handle then holds the code of its rows. `OK`; else `ALREADY_OPEN`
    /// (of `bytes`), `CLOSED` (of `world`, then of `lease`), `TOO_FAR`, `BAD_CODE`,
    /// `MOMENT_TOO_LARGE`, `BAD_LEASE`, `LEASE_ENDED`, `NO_TABLE`, `NOT_PUBLIC` with the column,
    /// `WRONG_TYPE`, or `OUT_OF_MEMORY`, which may come in place of `BAD_CODE` and those after it.
    /// World and lease stay, and a refusal changes nothing.
    pub fn query(
        &mut self,
        alloc: Global,
        moment: u64,
        lease: &mut Handle,
        query: &[u8],
        bytes: &mut Handle,
    ) -> QueryOutcome
        ensures queries { Queries self.old.place.value moment lease.old.place.value query.now bytes.old.place.value result bytes.new.place.value }
        ensures same { self.new.place.value ≡ self.old.place.value }
        ensures lease_stays { lease.new.place.value ≡ lease.old.place.value }
    {
        if bytes.is_open {
            return QueryOutcome::of(ALREADY_OPEN);
        }
        let Some(engine) = self.take(alloc) else {
            return QueryOutcome::of(CLOSED);
        };
        let Engine::World(bounded) = &*engine else {
            self.put(engine);
            return QueryOutcome::of(CLOSED);
        };
        let outcome = lease.query_under(alloc, bounded, moment, query, bytes);
        self.put(engine);
        outcome
    }

    // Fills a closed handle with the rows that the snapshot answers.
    fn query_taken(&mut self, alloc: Global, snapshot: &Snapshot, query: &[u8]) -> QueryOutcome
        requires { self.old.place.value ≡ None }
        ensures { TakenInto snapshot.now query.now result self.new.place.value }
    {
        let answer = typed_calls::query_snapshot(alloc, snapshot, query);
        self.keep_rows(alloc, answer)
    }

    /// Answers a query of a snapshot, under the schema of its lease's version, into the closed
    /// handle `bytes`. `OK`; else `ALREADY_OPEN` (of `bytes`), `CLOSED`, `BAD_CODE`, `NO_TABLE`,
    /// `NOT_PUBLIC` with the column, `WRONG_TYPE`, or `OUT_OF_MEMORY`, which may come in place of
    /// the four before it. The snapshot stays, and a refusal changes nothing.
    pub fn query_snapshot(
        &mut self,
        alloc: Global,
        query: &[u8],
        bytes: &mut Handle,
    ) -> QueryOutcome
        ensures queries { SnapshotQueries self.old.place.value query.now bytes.old.place.value result bytes.new.place.value }
        ensures same { self.new.place.value ≡ self.old.place.value }
    {
        if bytes.is_open {
            return QueryOutcome::of(ALREADY_OPEN);
        }
        let Some(engine) = self.take(alloc) else {
            return QueryOutcome::of(CLOSED);
        };
        let Engine::Snapshot(snapshot) = &*engine else {
            self.put(engine);
            return QueryOutcome::of(CLOSED);
        };
        let outcome = bytes.query_taken(alloc, snapshot, query);
        self.put(engine);
        outcome
    }

    // Fills a closed handle with the row that the transaction read.
    fn query_own(&mut self, alloc: Global, reads: &Reads, query: &[u8]) -> QueryOutcome
        requires { self.old.place.value ≡ None }
        ensures { ReadInto reads.now query.now result self.new.place.value }
    {
        let answer = typed_calls::query_read(alloc, reads, query);
        self.keep_rows(alloc, answer)
    }

    /// Answers a query of a row that a transaction read, as it was read, under the schema of its
    /// lease's version, into the closed handle `bytes`; the query's only condition is a key. `OK`;
    /// else `ALREADY_OPEN` (of `bytes`), `CLOSED`, `BAD_CODE`, `NO_TABLE`, `NOT_PUBLIC` with the
    /// column, `WRONG_TYPE`, `VIEW_MISMATCH`, or `OUT_OF_MEMORY`, which may come in place of the
    /// five before it. It needs no world; what was read stays, and a refusal changes nothing.
    pub fn query_read(&mut self, alloc: Global, query: &[u8], bytes: &mut Handle) -> QueryOutcome
        ensures queries { ReadQueries self.old.place.value query.now bytes.old.place.value result bytes.new.place.value }
        ensures same { self.new.place.value ≡ self.old.place.value }
    {
        if bytes.is_open {
            return QueryOutcome::of(ALREADY_OPEN);
        }
        let Some(engine) = self.take(alloc) else {
            return QueryOutcome::of(CLOSED);
        };
        let Engine::Reads(reads) = &*engine else {
            self.put(engine);
            return QueryOutcome::of(CLOSED);
        };
        let outcome = bytes.query_own(alloc, reads, query);
        self.put(engine);
        outcome
    }
}
