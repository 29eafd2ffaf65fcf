//! The engine for C: each function is a call of `handles` or `operator_calls` on handles that the
//! caller keeps, and takes any bytes and any numbers. What each does, and what its caller owes, is
//! in `include/cagzhomul.h`. C has a type of handle for each thing; here a parameter is named by it.
#![tactic(auto)]

mod changes;
mod closes;
mod codes;
mod faults;
mod layer;
mod logs;
mod pages;
mod sessions;

ghost use Rattle.std.specs.Prelude.{◌≡◌};
ghost use Rattle.handles.specs.Calls.{ShowsText};
ghost use Rattle.handles.specs.Leases.{Opens, Leases};
ghost use Rattle.handles.specs.Txns.{ReadsFirst, ReadsAgain, PreparesTo};
ghost use Rattle.handles.specs.Commits.{Commits, Proposes};
ghost use Rattle.handles.specs.Snapshots.{Snapshots, Checks, ChecksSnapshot};
ghost use Rattle.handles.specs.Queries.{Queries, SnapshotQueries, ReadQueries, BytesFrom};
ghost use Rattle.handles.specs.Writes.{Writes};

use handles::{CheckOutcome, CommitOutcome, Handle, LeaseOutcome, Outcome, show_text};
use std::alloc::Global;
use typed_calls::{PrepareOutcome, QueryOutcome};

/// The version of the header that this library has: a thousand times the major one, and the minor
/// one.
#[unsafe(no_mangle)]
pub extern "C" fn cagzhomul_version() -> u32
    ensures { result ≡ 2001 }
{
    2001
}

/// `Handle::open`.
#[unsafe(no_mangle)]
pub extern "C" fn cagzhomul_open(
    alloc: Global,
    world: &mut Handle,
    opening: &[u8],
    furthest_jump: u64,
) -> i32
    ensures { Opens world.old.place.value opening.now furthest_jump result world.new.place.value }
{
    world.open(alloc, opening, furthest_jump)
}

/// `Handle::lease`.
#[unsafe(no_mangle)]
pub extern "C" fn cagzhomul_lease(
    alloc: Global,
    world: &mut Handle,
    moment: u64,
    lease: &mut Handle,
) -> LeaseOutcome
    ensures { Leases world.old.place.value moment lease.old.place.value result world.new.place.value lease.new.place.value }
{
    world.lease(alloc, moment, lease)
}

/// `Handle::read`.
#[unsafe(no_mangle)]
pub extern "C" fn cagzhomul_read(
    alloc: Global,
    world: &mut Handle,
    lease: &mut Handle,
    operations: &[u8],
    reads: &mut Handle,
) -> i32
    ensures reads { ReadsFirst world.old.place.value lease.old.place.value operations.now reads.old.place.value result reads.new.place.value }
    ensures same { world.new.place.value ≡ world.old.place.value }
    ensures lease_stays { lease.new.place.value ≡ lease.old.place.value }
{
    world.read(alloc, lease, operations, reads)
}

/// `Handle::read_again`.
#[unsafe(no_mangle)]
pub extern "C" fn cagzhomul_read_again(
    alloc: Global,
    world: &mut Handle,
    reads: &mut Handle,
    operations: &[u8],
) -> i32
    ensures reads { ReadsAgain world.old.place.value reads.old.place.value operations.now result reads.new.place.value }
    ensures same { world.new.place.value ≡ world.old.place.value }
{
    world.read_again(alloc, reads, operations)
}

/// `Handle::query_read`.
#[unsafe(no_mangle)]
pub extern "C" fn cagzhomul_query_read(
    alloc: Global,
    reads: &mut Handle,
    query: &[u8],
    bytes: &mut Handle,
) -> QueryOutcome
    ensures queries { ReadQueries reads.old.place.value query.now bytes.old.place.value result bytes.new.place.value }
    ensures same { reads.new.place.value ≡ reads.old.place.value }
{
    reads.query_read(alloc, query, bytes)
}

/// `Handle::prepare`.
#[unsafe(no_mangle)]
pub extern "C" fn cagzhomul_prepare(
    alloc: Global,
    reads: &mut Handle,
    txn: &mut Handle,
) -> PrepareOutcome
    ensures prepares { PreparesTo reads.old.place.value txn.old.place.value result txn.new.place.value }
    ensures same { reads.new.place.value ≡ reads.old.place.value }
{
    reads.prepare(alloc, txn)
}

/// `Handle::commit`.
#[unsafe(no_mangle)]
pub extern "C" fn cagzhomul_commit(
    alloc: Global,
    world: &mut Handle,
    moment: u64,
    txn: &mut Handle,
    out: &mut [u8],
) -> CommitOutcome
    ensures { Commits world.old.place.value moment txn.old.place.value out.old result out.new world.new.place.value txn.new.place.value }
{
    world.commit(alloc, moment, txn, out)
}

/// `Handle::txn_entry`.
#[unsafe(no_mangle)]
pub extern "C" fn cagzhomul_txn_entry(
    alloc: Global,
    world: &mut Handle,
    moment: u64,
    txn: &mut Handle,
    out: &mut [u8],
    bytes: &mut Handle,
) -> CommitOutcome
    ensures proposes { Proposes world.old.place.value moment txn.old.place.value out.old bytes.old.place.value result out.new txn.new.place.value bytes.new.place.value }
    ensures same { world.new.place.value ≡ world.old.place.value }
{
    world.txn_entry(alloc, moment, txn, out, bytes)
}

/// `Handle::write`.
#[unsafe(no_mangle)]
pub extern "C" fn cagzhomul_write(
    alloc: Global,
    world: &mut Handle,
    moment: u64,
    lease: &mut Handle,
    operations: &[u8],
) -> CommitOutcome
    ensures writes { Writes world.old.place.value moment lease.old.place.value operations.now result world.new.place.value }
    ensures lease_stays { lease.new.place.value ≡ lease.old.place.value }
{
    world.write(alloc, moment, lease, operations)
}

/// `Handle::snapshot`.
#[unsafe(no_mangle)]
pub extern "C" fn cagzhomul_snapshot(
    alloc: Global,
    world: &mut Handle,
    moment: u64,
    lease: &mut Handle,
    snapshot: &mut Handle,
) -> i32
    ensures snapshots { Snapshots world.old.place.value moment lease.old.place.value snapshot.old.place.value result snapshot.new.place.value }
    ensures same { world.new.place.value ≡ world.old.place.value }
    ensures lease_stays { lease.new.place.value ≡ lease.old.place.value }
{
    world.snapshot(alloc, moment, lease, snapshot)
}

/// `Handle::query`.
#[unsafe(no_mangle)]
pub extern "C" fn cagzhomul_query(
    alloc: Global,
    world: &mut Handle,
    moment: u64,
    lease: &mut Handle,
    query: &[u8],
    bytes: &mut Handle,
) -> QueryOutcome
    ensures queries { Queries world.old.place.value moment lease.old.place.value query.now bytes.old.place.value result bytes.new.place.value }
    ensures same { world.new.place.value ≡ world.old.place.value }
    ensures lease_stays { lease.new.place.value ≡ lease.old.place.value }
{
    world.query(alloc, moment, lease, query, bytes)
}

/// `Handle::query_snapshot`.
#[unsafe(no_mangle)]
pub extern "C" fn cagzhomul_snapshot_query(
    alloc: Global,
    snapshot: &mut Handle,
    query: &[u8],
    bytes: &mut Handle,
) -> QueryOutcome
    ensures queries { SnapshotQueries snapshot.old.place.value query.now bytes.old.place.value result bytes.new.place.value }
    ensures same { snapshot.new.place.value ≡ snapshot.old.place.value }
{
    snapshot.query_snapshot(alloc, query, bytes)
}

/// `Handle::bytes_from`.
#[unsafe(no_mangle)]
pub extern "C" fn cagzhomul_bytes_from(
    alloc: Global,
    bytes: &mut Handle,
    from: usize,
    out: &mut [u8],
) -> Outcome
    ensures from { BytesFrom bytes.old.place.value from out.old result out.new }
    ensures same { bytes.new.place.value ≡ bytes.old.place.value }
{
    bytes.bytes_from(alloc, from, out)
}

/// `Handle::check`.
#[unsafe(no_mangle)]
pub extern "C" fn cagzhomul_check(alloc: Global, world: &mut Handle) -> CheckOutcome
    ensures checks { Checks world.old.place.value result }
    ensures same { world.new.place.value ≡ world.old.place.value }
{
    world.check(alloc)
}

/// `Handle::check_snapshot`.
#[unsafe(no_mangle)]
pub extern "C" fn cagzhomul_snapshot_check(alloc: Global, snapshot: &mut Handle) -> CheckOutcome
    ensures checks { ChecksSnapshot snapshot.old.place.value result }
    ensures same { snapshot.new.place.value ≡ snapshot.old.place.value }
{
    snapshot.check_snapshot(alloc)
}

/// `show_text`.
#[unsafe(no_mangle)]
pub extern "C" fn cagzhomul_text_of(status: i32, out: &mut [u8]) -> usize
    ensures { ShowsText status out.old result out.new }
{
    show_text(status, out)
}
