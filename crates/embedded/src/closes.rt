//! The close of each type of handle, exported for C: here they are one.
ghost use Rattle.handles.specs.Calls.{Closes};

use handles::Handle;
use std::alloc::Global;

/// `Handle::close`.
#[unsafe(no_mangle)]
pub extern "C" fn cagzhomul_close_world(alloc: Global, world: &mut Handle) -> i32
    ensures { Closes world.old.place.value result world.new.place.value }
{
    world.close(alloc)
}

/// `Handle::close`.
#[unsafe(no_mangle)]
pub extern "C" fn cagzhomul_close_session(alloc: Global, session: &mut Handle) -> i32
    ensures { Closes session.old.place.value result session.new.place.value }
{
    session.close(alloc)
}

/// `Handle::close`.
#[unsafe(no_mangle)]
pub extern "C" fn cagzhomul_close_lease(alloc: Global, lease: &mut Handle) -> i32
    ensures { Closes lease.old.place.value result lease.new.place.value }
{
    lease.close(alloc)
}

/// `Handle::close`.
#[unsafe(no_mangle)]
pub extern "C" fn cagzhomul_close_reads(alloc: Global, reads: &mut Handle) -> i32
    ensures { Closes reads.old.place.value result reads.new.place.value }
{
    reads.close(alloc)
}

/// `Handle::close`.
#[unsafe(no_mangle)]
pub extern "C" fn cagzhomul_close_txn(alloc: Global, txn: &mut Handle) -> i32
    ensures { Closes txn.old.place.value result txn.new.place.value }
{
    txn.close(alloc)
}

/// `Handle::close`.
#[unsafe(no_mangle)]
pub extern "C" fn cagzhomul_close_snapshot(alloc: Global, snapshot: &mut Handle) -> i32
    ensures { Closes snapshot.old.place.value result snapshot.new.place.value }
{
    snapshot.close(alloc)
}

/// `Handle::close`.
#[unsafe(no_mangle)]
pub extern "C" fn cagzhomul_close_bytes(alloc: Global, bytes: &mut Handle) -> i32
    ensures { Closes bytes.old.place.value result bytes.new.place.value }
{
    bytes.close(alloc)
}

/// `Handle::close`.
#[unsafe(no_mangle)]
pub extern "C" fn cagzhomul_close_piece(alloc: Global, work: &mut Handle) -> i32
    ensures { Closes work.old.place.value result work.new.place.value }
{
    work.close(alloc)
}

/// `Handle::close`.
#[unsafe(no_mangle)]
pub extern "C" fn cagzhomul_close_prepared_piece(alloc: Global, prepared: &mut Handle) -> i32
    ensures { Closes prepared.old.place.value result prepared.new.place.value }
{
    prepared.close(alloc)
}

/// `Handle::close`.
#[unsafe(no_mangle)]
pub extern "C" fn cagzhomul_close_checkpoint(alloc: Global, checkpoint: &mut Handle) -> i32
    ensures { Closes checkpoint.old.place.value result checkpoint.new.place.value }
{
    checkpoint.close(alloc)
}
