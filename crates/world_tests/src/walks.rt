//! Acts on a world in turn: commits, queries and a snapshot, a column that is cleared, an index
//! that enters and is filled, work under another schema, pieces of another world, a commit that
//! cuts a page in two.

use crate::acts::{Act, Kept, acted};
use crate::fixtures::{FIRST, mark, opened};
use crate::pieces::Refusal::{Moved, NotWanted, WrongElement};
use crate::replicas::are_alike;
use crate::reported::{Reported, seen};
use Act::{
    Begin, ByHand, Check, Commit, Cut, Enter, Find, Go, Insert, Keep, Left, LetGo, Look, LookOver,
    Read, Reopen, Stand, State, Strange, Swap, Take,
};
use lease::Lease;
use reorganise::Work::{Clear, Fill};
use schema_version::ElementState::{DeleteOnly, Public, WriteOnly};
use std::alloc::Global;
use std::process::Abort;
use world::{BeginFault, PublishFault, World};

// An act, and how many entries there are then.
type Row = (Act, usize);

// Whether an act is answered as it has to be. If memory was short the world stands as before, and
// it is asked once more.
fn is_right(alloc: Global, world: &mut World, kept: &mut Kept, act: &Act) -> bool {
    let before = seen(world);
    let reported = match acted(alloc, world, kept, act) {
        Reported::Short if seen(world) == before => acted(alloc, world, kept, act),
        reported => reported,
    };
    matches!(reported, Reported::Right)
}

// How many of the acts are, up to the first that is not.
fn walked(alloc: Global, world: &mut World, kept: &mut Kept, rows: &[Row]) -> usize {
    for (place, (act, entries)) in rows.iter().enumerate() {
        if !is_right(alloc, world, kept, act) || world.log_len() != *entries as u64 {
            return place;
        }
    }
    rows.len()
}

// Whether a world that was opened alike repeats the log of this one, and then is as it is.
fn is_repeated(alloc: Global, world: &World) -> bool {
    match opened(alloc) {
        Ok(mut again) => are_alike(alloc, world, &mut again),
        Err(_) => false,
    }
}

// How many of the acts are answered as they have to be on a world of their own, whose log is then
// repeated.
fn walked_anew(alloc: Global, kept: &mut Kept, rows: &[Row]) -> usize {
    let Ok(mut world) = opened(alloc) else {
        return 0;
    };
    let place = walked(alloc, &mut world, kept, rows);
    let is_repeated = world.log_start() > 0 || is_repeated(alloc, &world);
    drop(world);
    if is_repeated { place } else { 0 }
}

fn nothing() -> Kept {
    Kept {
        snapshot: None,
        piece: None,
        aside: None,
    }
}

// How many of the acts are on two worlds in turn, which share what they keep. That goes by `drop`,
// which is proved apart: the end of a function that owns as much is dear to prove.
fn both_walked(alloc: Global, first: &[Row], second: &[Row]) -> (usize, usize) {
    let mut kept = nothing();
    let one = walked_anew(alloc, &mut kept, first);
    let other = walked_anew(alloc, &mut kept, second);
    drop(kept);
    (one, other)
}

// Behind the mark, the acts on two worlds in turn.
fn are_right<R: Print + Abort>(rt: &R, alloc: Global, first: &[Row], second: &[Row]) {
    assert!(rt; mark(rt));
    let (one, other) = both_walked(alloc, first, second);
    let are_all = (one, other) == (first.len(), second.len());
    assert!(rt; are_all, "acts {one} and {other}");
}

// Rows 1 and 3 have the value, row 2 another. An insert that is let go leaves no trace, so that row
// 4 can be added; a snapshot from before it has rows 1 and 3 all the same, and three rows in all.
// Then the column is cleared: a fill of the same definition, over the same range, is not one of its
// pieces; a clear that is made by hand in the same way is.
static COMMITS: [Row; 18] = [
    (Act::Lease(FIRST), 1),
    (Insert(FIRST, (1, 5)), 2),
    (Insert(FIRST, (2, 9)), 3),
    (Insert(FIRST, (3, 5)), 4),
    (Find(FIRST), 4),
    (Keep(FIRST), 4),
    (Check(3), 4),
    (LetGo(FIRST, (4, 5)), 4),
    (Insert(FIRST, (4, 5)), 5),
    (Look, 5),
    (LookOver(3), 5),
    (Go(1, DeleteOnly, 10, Ok(2)), 6),
    (Begin(1, 1, Ok(())), 7),
    (ByHand(Fill), 7),
    (Commit(Err(WrongElement)), 7),
    (ByHand(Clear), 7),
    (Commit(Ok(())), 8),
    (Check(4), 8),
];

#[test]
fn under_refusal_commits_and_queries(rt: HostRuntime) {
    are_right(&rt, rt.alloc(), &[], &COMMITS);
}

// A lease that is granted at 10.
const LATER: Lease = Lease {
    version: 1,
    granted: 10,
    until: 20,
};

// The lease still serves while version 2 is the newest, and its transactions have version 1's
// schema. The versions that are to be had are the newest and the one before it.
static VERSIONS: [Row; 10] = [
    (Act::Lease(LATER), 1),
    (Enter("i"), 2),
    (Strange(2, LATER, (9, 6)), 2),
    (Insert(LATER, (8, 6)), 3),
    (State(0, None), 3),
    (State(3, None), 3),
    (Go(2, WriteOnly, 20, Ok(3)), 4),
    (State(1, None), 4),
    (State(2, Some(DeleteOnly)), 4),
    (State(3, Some(WriteOnly)), 4),
];

#[test]
fn under_refusal_two_versions(rt: HostRuntime) {
    are_right(&rt, rt.alloc(), &[], &VERSIONS);
}

// A piece of a world whose element 2 is an index of another name.
static OTHER: [Row; 7] = [
    (Left(None, None, None), 0),
    (Act::Lease(FIRST), 1),
    (Insert(FIRST, (7, 5)), 2),
    (Enter("j"), 3),
    (Go(2, WriteOnly, 20, Ok(3)), 4),
    (Begin(2, 1, Ok(())), 5),
    (Read, 5),
];

// It is refused before a fill has begun and after. The refusals of a begin are in their order: a
// bad count comes before a fill that has begun only if none has. Of two readings of the world's own
// piece the second has moved when the first is committed. The fill puts the row's pair, and only
// then may the index become public.
static FILL: [Row; 25] = [
    (Commit(Err(NotWanted)), 0),
    (Act::Lease(FIRST), 1),
    (Insert(FIRST, (7, 5)), 2),
    (Enter("i"), 3),
    (Go(2, WriteOnly, 20, Ok(3)), 4),
    (Begin(2, 0, Err(BeginFault::BadCount)), 4),
    (Begin(2, 65, Err(BeginFault::BadCount)), 4),
    (Begin(2, 1, Ok(())), 5),
    (Begin(2, 65, Err(BeginFault::Begun)), 5),
    (Commit(Err(WrongElement)), 5),
    (
        Go(2, Public, 30, Err(PublishFault::Unfinished { element: 2 })),
        5,
    ),
    (Stand(Some((Fill, 1, false))), 5),
    (Left(Some(0), Some(1), Some(1)), 5),
    (Read, 5),
    (Swap, 5),
    (Read, 5),
    (Commit(Ok(())), 6),
    (Swap, 6),
    (Commit(Err(Moved)), 6),
    (Stand(Some((Fill, 1, true))), 6),
    (Left(None, Some(0), Some(1)), 6),
    (Go(2, Public, 30, Ok(4)), 7),
    (Stand(None), 7),
    (Begin(2, 1, Err(BeginFault::NotWanted)), 7),
    (Check(1), 7),
];

#[test]
fn under_refusal_fills(rt: HostRuntime) {
    are_right(&rt, rt.alloc(), &OTHER, &FILL);
}

// A fill in a world whose entries are handed out and given back, and that opens from its checkpoint
// again and again: the lease and the prepared piece of before serve, and places go on.
static REOPENED: [Row; 24] = [
    (Act::Lease(FIRST), 1),
    (Insert(FIRST, (7, 5)), 2),
    (Take(2), 2),
    (Reopen, 2),
    (Insert(FIRST, (8, 6)), 3),
    (Enter("i"), 4),
    (Reopen, 4),
    (Go(2, WriteOnly, 20, Ok(3)), 5),
    (Take(1), 5),
    (Reopen, 5),
    (Begin(2, 1, Ok(())), 6),
    (Read, 6),
    (Reopen, 6),
    (Stand(Some((Fill, 1, false))), 6),
    (Commit(Ok(())), 7),
    (Cut, 7),
    (Stand(Some((Fill, 1, true))), 7),
    (Reopen, 7),
    (Go(2, Public, 30, Ok(4)), 8),
    (State(2, None), 8),
    (State(3, Some(WriteOnly)), 8),
    (State(4, Some(Public)), 8),
    (Take(1), 8),
    (Check(2), 8),
];

#[test]
fn under_refusal_reopened(rt: HostRuntime) {
    are_right(&rt, rt.alloc(), &[], &REOPENED);
}

// A lease, and 22 rows of even keys, whose 44 pairs are one page.
fn fills_a_page(alloc: Global, world: &mut World, kept: &mut Kept) -> bool {
    if !is_right(alloc, world, kept, &Act::Lease(FIRST)) {
        return false;
    }
    for row in 0..22i64 {
        if !is_right(alloc, world, kept, &Insert(FIRST, (row.wrapping_mul(2), 5))) {
            return false;
        }
    }
    true
}

// The row of an odd key comes between them.
static CUT: [Row; 2] = [(Insert(FIRST, (21, 5)), 24), (Check(23), 24)];

fn cuts_a_page<R: Print>(rt: &R, alloc: Global, world: &mut World, kept: &mut Kept) -> bool {
    fills_a_page(alloc, world, kept) && mark(rt) && walked(alloc, world, kept, &CUT) == CUT.len()
}

fn is_page_cut<R: Print>(rt: &R, alloc: Global) -> bool {
    let Ok(mut world) = opened(alloc) else {
        return false;
    };
    let mut kept = nothing();
    let is_cut = cuts_a_page(rt, alloc, &mut world, &mut kept);
    drop(kept);
    drop(world);
    is_cut
}

#[test]
fn under_refusal_a_page_is_cut(rt: HostRuntime) {
    assert!(rt; is_page_cut(&rt, rt.alloc()));
}
