//! Snapshots in handles of their own, and audits.
ghost use Rattle.std.specs.Prelude.{◌≡◌, None};
ghost use Rattle.handles.specs.Snapshots.{check_outcome, Snapshots, SnapshotsUnder, SnapshotsInto, Checks, ChecksSnapshot};

use crate::engine::Engine;
use crate::handle::Handle;
use std::alloc::Global;
use typed_calls::BoundedWorld;
use typed_calls::script_session::ServerLease;
use typed_calls::status::{ALREADY_OPEN, CLOSED, OK};
use typed_calls::world::CheckReport;

/// What an audit found.
#[repr(C)]
#[derive(Clone, Copy, Drop)]
pub struct CheckOutcome {
    /// The status. The other fields are 0 if it is not `OK`.
    pub status: i32,
    /// How many rows there are.
    pub rows: u64,
    /// How many pairs are missing.
    pub missing: u64,
    /// How many pairs no row gives.
    pub extra: u64,
}

impl CheckOutcome {
    /// A status alone.
    pub(crate) fn of(status: i32) -> CheckOutcome
        ensures { result ≡ record { status = status; rows = 0; missing = 0; extra = 0 } }
    {
        CheckOutcome {
            status,
            rows: 0,
            missing: 0,
            extra: 0,
        }
    }

    // What an audit is reported as.
    fn reported(answer: &Result<CheckReport, i32>) -> CheckOutcome
        ensures { result ≡ check_outcome answer.now }
    {
        match answer {
            Ok(report) => CheckOutcome {
                status: OK,
                rows: report.rows,
                missing: report.missing,
                extra: report.extra,
            },
            Err(status) => CheckOutcome::of(*status),
        }
    }
}

impl Handle {
    // Fills a closed handle with a snapshot of the world.
    fn keep_snapshot(
        &mut self,
        alloc: Global,
        bounded: &BoundedWorld,
        moment: u64,
        held: &ServerLease,
    ) -> i32
        requires { self.old.place.value ≡ None }
        ensures { SnapshotsInto bounded.now moment held.now result self.new.place.value }
    {
        match typed_calls::snapshot(bounded, moment, &held.lease) {
            Ok(snapshot) => self.fill(alloc, Engine::Snapshot(snapshot)),
            Err(status) => status,
        }
    }

    // Takes a snapshot of the world under the lease of this handle.
    fn snapshot_under(
        &mut self,
        alloc: Global,
        bounded: &BoundedWorld,
        moment: u64,
        snapshot: &mut Handle,
    ) -> i32
        requires { snapshot.old.place.value ≡ None }
        ensures snapshots { SnapshotsUnder bounded.now moment self.old.place.value result snapshot.new.place.value }
        ensures same { self.new.place.value ≡ self.old.place.value }
    {
        let Some(engine) = self.take(alloc) else {
            return CLOSED;
        };
        let Engine::Lease(held) = &*engine else {
            self.put(engine);
            return CLOSED;
        };
        let status = snapshot.keep_snapshot(alloc, bounded, moment, held);
        self.put(engine);
        status
    }

    /// Takes a snapshot of what the world holds, under a lease, into the closed handle `snapshot`.
    /// `OK`; else `ALREADY_OPEN` (of `snapshot`), `CLOSED` (of `world`, then of `lease`), `TOO_FAR`,
    /// `MOMENT_TOO_LARGE`, `BAD_LEASE`, `LEASE_ENDED` or `OUT_OF_MEMORY`. World and lease stay, and
    /// a refusal changes nothing.
    pub fn snapshot(
        &mut self,
        alloc: Global,
        moment: u64,
        lease: &mut Handle,
        snapshot: &mut Handle,
    ) -> i32
        ensures snapshots { Snapshots self.old.place.value moment lease.old.place.value snapshot.old.place.value result snapshot.new.place.value }
        ensures same { self.new.place.value ≡ self.old.place.value }
        ensures lease_stays { lease.new.place.value ≡ lease.old.place.value }
    {
        if snapshot.is_open {
            return ALREADY_OPEN;
        }
        let Some(engine) = self.take(alloc) else {
            return CLOSED;
        };
        let Engine::World(bounded) = &*engine else {
            self.put(engine);
            return CLOSED;
        };
        let status = lease.snapshot_under(alloc, bounded, moment, snapshot);
        self.put(engine);
        status
    }

    /// Audits the pairs of a world. `OK`; else `CLOSED` or `OUT_OF_MEMORY`. Nothing changes.
    pub fn check(&mut self, alloc: Global) -> CheckOutcome
        ensures checks { Checks self.old.place.value result }
        ensures same { self.new.place.value ≡ self.old.place.value }
    {
        let Some(engine) = self.take(alloc) else {
            return CheckOutcome::of(CLOSED);
        };
        let Engine::World(bounded) = &*engine else {
            self.put(engine);
            return CheckOutcome::of(CLOSED);
        };
        let outcome = CheckOutcome::reported(&typed_calls::check(alloc, &bounded.world));
        self.put(engine);
        outcome
    }

    /// Audits the pairs of a snapshot. `OK`; else `CLOSED` or `OUT_OF_MEMORY`. Nothing changes.
    pub fn check_snapshot(&mut self, alloc: Global) -> CheckOutcome
        ensures checks { ChecksSnapshot self.old.place.value result }
        ensures same { self.new.place.value ≡ self.old.place.value }
    {
        let Some(engine) = self.take(alloc) else {
            return CheckOutcome::of(CLOSED);
        };
        let Engine::Snapshot(snapshot) = &*engine else {
            self.put(engine);
            return CheckOutcome::of(CLOSED);
        };
        let outcome = CheckOutcome::reported(&typed_calls::check_snapshot(alloc, snapshot));
        self.put(engine);
        outcome
    }
}
