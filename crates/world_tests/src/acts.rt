//! Calls of a world, each with the answer that it has to give.

use crate::fixtures::{a_is_5, are_1_and_3, entering, going};
use crate::pieces::{Refusal, begins, commits, piece, piece_by_hand};
use crate::reported::{Reported, judged};
use crate::transactions::{inserts, lets_go};
use lease::Lease;
use reorganise::{PreparedPiece, Work};
use row_query::QueryFault;
use schema_version::{ElementState, Step};
use std::alloc::{AllocError, Global};
use std::mem;
use world::{BeginFault, GrantFault, PublishFault, QueryRefusal, Snapshot, SnapshotFault, World};

/// What is asked of the world.
#[derive(Drop)]
pub(crate) enum Act {
    /// A lease at the moment of its grant.
    Lease(Lease),
    /// insert t (ID) set a = A, committed at 0
    Insert(Lease, (i64, i64)),
    /// The same, prepared by the schema of this version, and refused for it.
    Strange(u64, Lease, (i64, i64)),
    /// The same, prepared by the schema of its lease's version and let go before it is committed,
    /// which leaves no trace.
    LetGo(Lease, (i64, i64)),
    /// select a from t where a = 5 at 9, which finds rows 1 and 3.
    Find(Lease),
    /// A snapshot at 9.
    Keep(Lease),
    /// The same query of the snapshot.
    Look,
    /// A check of the snapshot: so many rows, with no pair missing and none without a reason.
    LookOver(u64),
    /// add index NAME on t (a), at 10
    Enter(&'static str),
    /// move ELEMENT to STATE, at this moment: the version that it gives
    Go(u32, ElementState, u64, Result<u64, PublishFault>),
    /// The begin of a reorganisation of an element in so many pieces.
    Begin(u32, u32, Result<(), BeginFault>),
    /// The one piece of the fill, read and prepared and kept.
    Read,
    /// One made by hand of column a, and kept.
    ByHand(Work),
    /// The kept piece is laid aside, and what was laid aside is kept.
    Swap,
    /// The kept piece is committed and ends, or is refused so.
    Commit(Result<(), Refusal>),
    /// How the reorganisation of the index stands.
    Stand(Option<(Work, usize, bool)>),
    /// The first piece of the index's reorganisation that has not ended, how many items are left,
    /// and how many there are in all.
    Left(Option<u32>, Option<usize>, Option<usize>),
    /// The state of the index in a version, none if the version is not to be had.
    State(u64, Option<ElementState>),
    /// So many rows, with no pair missing and none without a reason.
    Check(u64),
    /// The entries in memory are handed out, so many of them.
    Take(usize),
    /// The memory of all entries is given back.
    Cut,
    /// The world is one that opens from its checkpoint.
    Reopen,
}

/// What acts keep for later ones.
#[derive(Drop)]
pub(crate) struct Kept {
    pub(crate) snapshot: Option<Snapshot>,
    pub(crate) piece: Option<PreparedPiece>,
    pub(crate) aside: Option<PreparedPiece>,
}

fn leases(alloc: Global, world: &mut World, lease: Lease) -> Reported {
    match world.lease(alloc, lease.granted) {
        Ok(grant) => judged(grant.lease == lease),
        Err(GrantFault::Memory) => Reported::Short,
        Err(_) => Reported::Wrong,
    }
}

fn finds(alloc: Global, world: &World, lease: Lease) -> Reported {
    let Ok(query) = a_is_5(alloc) else {
        return Reported::Short;
    };
    match world.query(alloc, 9, &lease, &query) {
        Ok(rows) => judged(are_1_and_3(rows.as_slice())),
        Err(QueryRefusal::Query(QueryFault::Memory)) => Reported::Short,
        Err(_) => Reported::Wrong,
    }
}

fn keeps(world: &World, kept: &mut Option<Snapshot>, lease: Lease) -> Reported {
    match world.snapshot(9, &lease) {
        Ok(snapshot) => {
            *kept = Some(snapshot);
            Reported::Right
        }
        Err(SnapshotFault::Memory) => Reported::Short,
        Err(_) => Reported::Wrong,
    }
}

fn looks(alloc: Global, kept: &Option<Snapshot>) -> Reported {
    let Some(snapshot) = kept else {
        return Reported::Wrong;
    };
    let Ok(query) = a_is_5(alloc) else {
        return Reported::Short;
    };
    match snapshot.query(alloc, &query) {
        Ok(rows) => judged(are_1_and_3(rows.as_slice())),
        Err(QueryFault::Memory) => Reported::Short,
        Err(_) => Reported::Wrong,
    }
}

fn looks_over(alloc: Global, kept: &Option<Snapshot>, rows: u64) -> Reported {
    let Some(snapshot) = kept else {
        return Reported::Wrong;
    };
    match snapshot.check(alloc) {
        Ok(found) => judged((found.rows, found.missing, found.extra) == (rows, 0, 0)),
        Err(AllocError) => Reported::Short,
    }
}

fn publishes(
    alloc: Global,
    world: &mut World,
    moment: u64,
    step: Result<Step, AllocError>,
    wanted: &Result<u64, PublishFault>,
) -> Reported {
    let Ok(step) = step else {
        return Reported::Short;
    };
    match world.publish(alloc, moment, &step) {
        Ok((version, _)) => judged(*wanted == Ok(version)),
        Err(PublishFault::Memory) => Reported::Short,
        Err(fault) => judged(*wanted == Err(fault)),
    }
}

fn keeps_piece(
    kept: &mut Option<PreparedPiece>,
    piece: Result<PreparedPiece, Reported>,
) -> Reported {
    match piece {
        Ok(piece) => {
            *kept = Some(piece);
            Reported::Right
        }
        Err(reported) => reported,
    }
}

fn swaps(kept: &mut Kept) -> Reported {
    mem::swap(&mut kept.piece, &mut kept.aside);
    Reported::Right
}

fn state_in(world: &World, version: u64) -> Option<ElementState> {
    let schema = world.schema(version)?;
    Some(schema.get().state(2))
}

fn checks(alloc: Global, world: &World, rows: u64) -> Reported {
    match world.check(alloc) {
        Ok(found) => judged((found.rows, found.missing, found.extra) == (rows, 0, 0)),
        Err(AllocError) => Reported::Short,
    }
}

// Whether no entry is in memory any more, and as many are counted as before.
fn is_cut(world: &World, count: u64) -> bool {
    world.log().is_empty() && world.log_start() == count && world.log_len() == count
}

fn takes(world: &mut World, entries: usize) -> Reported {
    let count = world.log_len();
    let start = world.log_start();
    let taken = world.take_log();
    judged(taken.len() == entries && start + entries as u64 == count && is_cut(world, count))
}

fn cuts(world: &mut World) -> Reported {
    let count = world.log_len();
    world.cut();
    judged(is_cut(world, count))
}

fn reopens(alloc: Global, world: &mut World) -> Reported {
    let count = world.log_len();
    let Ok(checkpoint) = world.checkpoint() else {
        return Reported::Short;
    };
    *world = World::open_at(alloc, checkpoint);
    judged(is_cut(world, count))
}

/// What comes of an act.
pub(crate) fn acted(alloc: Global, world: &mut World, kept: &mut Kept, act: &Act) -> Reported {
    match act {
        Act::Lease(lease) => leases(alloc, world, *lease),
        Act::Insert(lease, row) => inserts(alloc, world, lease.version, *lease, *row),
        Act::Strange(version, lease, row) => inserts(alloc, world, *version, *lease, *row),
        Act::LetGo(lease, row) => lets_go(alloc, world, *lease, *row),
        Act::Find(lease) => finds(alloc, world, *lease),
        Act::Keep(lease) => keeps(world, &mut kept.snapshot, *lease),
        Act::Look => looks(alloc, &kept.snapshot),
        Act::LookOver(rows) => looks_over(alloc, &kept.snapshot, *rows),
        Act::Enter(name) => publishes(alloc, world, 10, entering(alloc, name), &Ok(2)),
        Act::Go(element, to, moment, wanted) => {
            publishes(alloc, world, *moment, going(alloc, *element, *to), wanted)
        }
        Act::Begin(element, pieces, wanted) => begins(alloc, world, *element, *pieces, wanted),
        Act::Read => keeps_piece(&mut kept.piece, piece(alloc, world)),
        Act::ByHand(kind) => keeps_piece(&mut kept.piece, piece_by_hand(alloc, world, *kind)),
        Act::Swap => swaps(kept),
        Act::Commit(wanted) => commits(alloc, world, &mut kept.piece, wanted),
        Act::Stand(progress) => judged(world.progress(2) == *progress),
        Act::Left(piece, left, all) => judged(
            world.next_piece(2) == *piece
                && world.items_left(2) == *left
                && world.items_in_all(2) == *all,
        ),
        Act::State(version, state) => judged(state_in(world, *version) == *state),
        Act::Check(rows) => checks(alloc, world, *rows),
        Act::Take(entries) => takes(world, *entries),
        Act::Cut => cuts(world),
        Act::Reopen => reopens(alloc, world),
    }
}
