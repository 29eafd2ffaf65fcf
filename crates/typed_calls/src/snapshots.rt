//! Snapshots and audits.
ghost use Rattle.std.specs.Prelude.{◌≡◌};
ghost use Rattle.typed_calls.specs.Snapshots.{snapshot_status, SnapshotsWorld, SnapshotsIn, ChecksWorld, ChecksTaken};

use crate::bounded::BoundedWorld;
use crate::status::{BAD_LEASE, LEASE_ENDED, MOMENT_TOO_LARGE, OUT_OF_MEMORY, TOO_FAR};
use lease::Lease;
use script_session::world::{CheckReport, Snapshot, SnapshotFault, World};
use std::alloc::Global;

// The status of a snapshot that was not taken.
fn snapshot_status(fault: SnapshotFault) -> i32
    ensures { result ≡ snapshot_status fault }
{
    match fault {
        SnapshotFault::MomentTooLarge => MOMENT_TOO_LARGE,
        SnapshotFault::BadLease => BAD_LEASE,
        SnapshotFault::LeaseEnded { until: _, now: _ } => LEASE_ENDED,
        SnapshotFault::Memory => OUT_OF_MEMORY,
    }
}

// A snapshot of the world under a lease.
fn snapshot_of(world: &World, moment: u64, lease: &Lease) -> Result<Snapshot, i32>
    ensures { SnapshotsWorld world.now moment lease.now result }
{
    match world.snapshot(moment, lease) {
        Ok(snapshot) => Ok(snapshot),
        Err(fault) => Err(snapshot_status(fault)),
    }
}

/// A snapshot of a world under a lease. Nothing changes.
///
/// - `moment`: the present moment. The one that counts is the greater of it and the moment of the
///   last entry.
///
/// Refused, in this order: `TOO_FAR`; `MOMENT_TOO_LARGE` if the moment that counts is above 2^62;
/// `BAD_LEASE` if no grant could have given the lease; `LEASE_ENDED` if it is not in force any more;
/// `OUT_OF_MEMORY`.
pub fn snapshot(bounded: &BoundedWorld, moment: u64, lease: &Lease) -> Result<Snapshot, i32>
    ensures { SnapshotsIn bounded.now moment lease.now result }
{
    if bounded.is_too_far(moment) {
        return Err(TOO_FAR);
    }
    snapshot_of(&bounded.world, moment, lease)
}

/// The audit of a world's pairs. Refused only by `OUT_OF_MEMORY`.
pub fn check(alloc: Global, world: &World) -> Result<CheckReport, i32>
    ensures { ChecksWorld world.now result }
{
    match world.check(alloc) {
        Ok(report) => Ok(report),
        Err(_) => Err(OUT_OF_MEMORY),
    }
}

/// The audit of a snapshot's pairs. Refused only by `OUT_OF_MEMORY`.
pub fn check_snapshot(alloc: Global, snapshot: &Snapshot) -> Result<CheckReport, i32>
    ensures { ChecksTaken snapshot.now result }
{
    match snapshot.check(alloc) {
        Ok(report) => Ok(report),
        Err(_) => Err(OUT_OF_MEMORY),
    }
}
