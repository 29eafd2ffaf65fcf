//! Pages of queries, whose rows are kept in handles of their own.
ghost use Rattle.std.specs.Prelude.{◌≡◌, None};
ghost use Rattle.handles.specs.Pages.{page_alone, page_refused, KeepsPage, PagesInto, PagesUnder, Pages, PageTakenInto, SnapshotPages};

use crate::engine::Engine;
use crate::handle::Handle;
use std::alloc::Global;
use typed_calls::script_session::ServerLease;
use typed_calls::status::{ALREADY_OPEN, CLOSED, OK};
use typed_calls::world::Snapshot;
use typed_calls::{BoundedWorld, CodedPage, QueryOutcome};

/// What a page came to.
#[repr(C)]
#[derive(Clone, Copy, Drop)]
pub struct PageOutcome {
    /// The status.
    pub status: i32,
    /// At `NOT_PUBLIC` the number that was named; else 0.
    pub column: u32,
    /// 1 if the range has further rows that are asked for; else 0.
    pub more: u32,
}

impl PageOutcome {
    /// A status alone.
    fn of(status: i32) -> PageOutcome
        ensures { result ≡ page_alone status }
    {
        PageOutcome {
            status,
            column: 0,
            more: 0,
        }
    }

    // What a refusal is reported as.
    fn refused(refusal: QueryOutcome) -> PageOutcome
        ensures { result ≡ page_refused refusal }
    {
        PageOutcome {
            status: refusal.status,
            column: refusal.column,
            more: 0,
        }
    }
}

impl Handle {
    // Fills a closed handle with the rows of a page.
    fn keep_page(&mut self, alloc: Global, answer: Result<CodedPage, QueryOutcome>) -> PageOutcome
        requires { self.old.place.value ≡ None }
        ensures { KeepsPage answer result self.new.place.value }
    {
        match answer {
            Ok(page) => {
                let CodedPage { rows, more } = page;
                let status = self.fill(alloc, Engine::Bytes(rows));
                PageOutcome {
                    status,
                    column: 0,
                    more: if status == OK && more { 1 } else { 0 },
                }
            }
            Err(refusal) => PageOutcome::refused(refusal),
        }
    }

    // Fills a closed handle with the rows of the page that the world answers.
    fn page_into(
        &mut self,
        alloc: Global,
        bounded: &BoundedWorld,
        moment: u64,
        held: &ServerLease,
        asked: &[u8],
    ) -> PageOutcome
        requires { self.old.place.value ≡ None }
        ensures { PagesInto bounded.now moment held.now asked.now result self.new.place.value }
    {
        let answer = typed_calls::query_page(alloc, bounded, moment, held, asked);
        self.keep_page(alloc, answer)
    }

    // Queries the world under the lease of this handle.
    fn page_under(
        &mut self,
        alloc: Global,
        bounded: &BoundedWorld,
        moment: u64,
        asked: &[u8],
        bytes: &mut Handle,
    ) -> PageOutcome
        requires { bytes.old.place.value ≡ None }
        ensures pages { PagesUnder bounded.now moment self.old.place.value asked.now result bytes.new.place.value }
        ensures same { self.new.place.value ≡ self.old.place.value }
    {
        let Some(engine) = self.take(alloc) else {
            return PageOutcome::of(CLOSED);
        };
        let Engine::Lease(held) = &*engine else {
            self.put(engine);
            return PageOutcome::of(CLOSED);
        };
        let outcome = bytes.page_into(alloc, bounded, moment, held, asked);
        self.put(engine);
        outcome
    }

    /// Answers a page of a query of the world, under a lease, into the closed handle `bytes`: the
    /// bytes are the code of the request, and the handle then holds the code of the page's rows.
    /// `OK`, with whether there are more; else `ALREADY_OPEN` (of `bytes`), `CLOSED` (of `world`,
    /// then of `lease`), `TOO_FAR`, `BAD_CODE`, `MOMENT_TOO_LARGE`, `BAD_LEASE`, `LEASE_ENDED`,
    /// `BAD_COUNT`, `NO_TABLE`, `NOT_PUBLIC` with the column, `WRONG_TYPE`, or `OUT_OF_MEMORY`, which
    /// may come in place of `BAD_CODE` and those after it. World and lease stay, and a refusal
    /// changes nothing.
    pub fn query_page(
        &mut self,
        alloc: Global,
        moment: u64,
        lease: &mut Handle,
        asked: &[u8],
        bytes: &mut Handle,
    ) -> PageOutcome
        ensures pages { Pages self.old.place.value moment lease.old.place.value asked.now bytes.old.place.value result bytes.new.place.value }
        ensures same { self.new.place.value ≡ self.old.place.value }
        ensures lease_stays { lease.new.place.value ≡ lease.old.place.value }
    {
        if bytes.is_open {
            return PageOutcome::of(ALREADY_OPEN);
        }
        let Some(engine) = self.take(alloc) else {
            return PageOutcome::of(CLOSED);
        };
        let Engine::World(bounded) = &*engine else {
            self.put(engine);
            return PageOutcome::of(CLOSED);
        };
        let outcome = lease.page_under(alloc, bounded, moment, asked, bytes);
        self.put(engine);
        outcome
    }

    // Fills a closed handle with the rows of the page that the snapshot answers.
    fn page_taken(&mut self, alloc: Global, snapshot: &Snapshot, asked: &[u8]) -> PageOutcome
        requires { self.old.place.value ≡ None }
        ensures { PageTakenInto snapshot.now asked.now result self.new.place.value }
    {
        let answer = typed_calls::query_page_snapshot(alloc, snapshot, asked);
        self.keep_page(alloc, answer)
    }

    /// Answers a page of a query of a snapshot, under the schema of its lease's version, into the
    /// closed handle `bytes`. `OK`, with whether there are more; else `ALREADY_OPEN` (of `bytes`),
    /// `CLOSED`, `BAD_CODE`, `BAD_COUNT`, `NO_TABLE`, `NOT_PUBLIC` with the column, `WRONG_TYPE`, or
    /// `OUT_OF_MEMORY`, which may come in place of the five before it. The snapshot stays, and a
    /// refusal changes nothing.
    pub fn query_page_snapshot(
        &mut self,
        alloc: Global,
        asked: &[u8],
        bytes: &mut Handle,
    ) -> PageOutcome
        ensures pages { SnapshotPages self.old.place.value asked.now bytes.old.place.value result bytes.new.place.value }
        ensures same { self.new.place.value ≡ self.old.place.value }
    {
        if bytes.is_open {
            return PageOutcome::of(ALREADY_OPEN);
        }
        let Some(engine) = self.take(alloc) else {
            return PageOutcome::of(CLOSED);
        };
        let Engine::Snapshot(snapshot) = &*engine else {
            self.put(engine);
            return PageOutcome::of(CLOSED);
        };
        let outcome = bytes.page_taken(alloc, snapshot, asked);
        self.put(engine);
        outcome
    }
}
