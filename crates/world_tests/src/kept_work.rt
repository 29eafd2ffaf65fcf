//! Work that stays with its caller, and audits by several threads.
use crate::fixtures::{FIRST, opened};
use crate::transactions::prepared;
use std::alloc::{AllocError, Global};
use world::{CheckReport, CommitFault, Committed, World};

/// How many rows are inserted.
const ROWS: i64 = 40;

// Inserts a row, and again by the same work: whether that was then too late.
fn inserts_once(alloc: Global, world: &mut World, id: i64) -> bool {
    let Ok(work) = prepared(alloc, world, 1, FIRST, (id, 5)) else {
        return false;
    };
    let first = world.commit_kept(alloc, 0, &work);
    let again = world.commit_kept(alloc, 0, &work);
    matches!(first, Ok(Committed::Done(_))) && matches!(again, Err(CommitFault::Conflict { .. }))
}

// Whether an audit found so many rows, and nothing else.
fn is_clean(found: &Result<CheckReport, AllocError>, rows: u64) -> bool {
    match found {
        Ok(found) => (found.rows, found.missing, found.extra) == (rows, 0, 0),
        Err(AllocError) => false,
    }
}

#[test]
fn work_is_committed_once_and_stays(rt: HostRuntime) {
    let Ok(mut world) = opened(rt.alloc()) else {
        panic!(rt; "no world");
    };
    for id in 0..ROWS {
        assert!(rt; inserts_once(rt.alloc(), &mut world, id), "row {id}");
    }
    assert!(rt; world.log_len() == 40, "one entry for each row");
    for threads in [0, 1, 3] {
        assert!(rt;
            is_clean(&world.check_on(&rt, rt.alloc(), threads), 40),
            "{threads} threads"
        );
    }
}
