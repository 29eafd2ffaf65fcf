//! Pages of queries, exported for C.
ghost use Rattle.std.specs.Prelude.{◌≡◌};
ghost use Rattle.handles.specs.Pages.{Pages, SnapshotPages};

use handles::{Handle, PageOutcome};
use std::alloc::Global;

/// `Handle::query_page`.
#[unsafe(no_mangle)]
pub extern "C" fn cagzhomul_query_page(
    alloc: Global,
    world: &mut Handle,
    moment: u64,
    lease: &mut Handle,
    request: &[u8],
    bytes: &mut Handle,
) -> PageOutcome
    ensures pages { Pages world.old.place.value moment lease.old.place.value request.now bytes.old.place.value result bytes.new.place.value }
    ensures same { world.new.place.value ≡ world.old.place.value }
    ensures lease_stays { lease.new.place.value ≡ lease.old.place.value }
{
    world.query_page(alloc, moment, lease, request, bytes)
}

/// `Handle::query_page_snapshot`.
#[unsafe(no_mangle)]
pub extern "C" fn cagzhomul_snapshot_query_page(
    alloc: Global,
    snapshot: &mut Handle,
    request: &[u8],
    bytes: &mut Handle,
) -> PageOutcome
    ensures pages { SnapshotPages snapshot.old.place.value request.now bytes.old.place.value result bytes.new.place.value }
    ensures same { snapshot.new.place.value ≡ snapshot.old.place.value }
{
    snapshot.query_page_snapshot(alloc, request, bytes)
}
