//! Calls through a handle, each with the answer that it has to give.

use crate::fixtures::{FIRST, are, delete, entering, going, insert, whole_table};
use crate::handle_port::{HandlePort, Reported, judged, prepared};
use crate::pieces::{begun, works};
use collections::{ArcValue, List};
use reorganise::{PreparedPiece, Work};
use row_map::Row;
use row_query::QueryFault;
use row_write::{Prepared, RowOps};
use schema_version::{ElementState, Schema, Step};
use shared_rollout::locked_store::{SharedFault, SharedLedger, WentBack};
use shared_rollout::world::{
    Checkpoint, CommitFault, Committed, Entry, Grant, GrantFault, PublishFault, QueryRefusal,
    Receipt, Snapshot, SnapshotFault,
};
use std::alloc::{AllocError, Global};
use std::mem;
use std::sync::Wait;

/// Rows by their keys and their values of a.
pub(crate) type Rows = &'static [(i64, i64)];

/// What is asked through the handle.
pub(crate) enum Act {
    /// A lease at 0.
    Lease,
    /// insert t (ID) set a = VALUE
    Insert(i64, i64),
    /// delete t (ID)
    Delete(i64),
    /// select a from t, which finds these rows.
    Find(Rows),
    /// A snapshot, in place of the one before.
    Keep,
    /// The same query of the snapshot.
    Look(Rows),
    /// add index i on t (a), at 10
    Enter,
    /// move t.i to STATE, at this moment
    Go(ElementState, u64),
    /// The begin of the fill.
    Begin,
    /// The piece of the fill.
    Piece,
    /// How the fill stands.
    Stand(Option<(Work, usize, bool)>),
    /// The state of the index in a version, none if the version is not known.
    State(u64, Option<ElementState>),
    /// The entries in memory are handed out: how many there were before them, and how many they are.
    Take(u64, usize),
    /// The memory of all entries is given back.
    Cut,
    /// A checkpoint, before which there were so many entries.
    Save(u64),
}

fn granted(answer: Result<Grant, SharedFault<GrantFault>>) -> Reported {
    match answer {
        Ok(grant) => judged(grant.lease == FIRST),
        Err(SharedFault::World(GrantFault::Memory)) => Reported::Short,
        Err(_) => Reported::Wrong,
    }
}

// The insert of this value, or the delete if there is none.
fn ops_of(alloc: Global, id: i64, value: Option<i64>) -> Result<RowOps, AllocError> {
    match value {
        Some(value) => insert(alloc, id, value),
        None => delete(alloc, id),
    }
}

// What was prepared comes back if memory was short.
fn committed(
    answer: Result<Committed, (SharedFault<CommitFault>, Prepared)>,
    back: &mut Option<Prepared>,
) -> Reported {
    match answer {
        Ok(Committed::Done(_)) => Reported::Right,
        Err((SharedFault::World(CommitFault::Memory), work)) => {
            drop(mem::replace(back, Some(work)));
            Reported::Short
        }
        _ => Reported::Wrong,
    }
}

// What came back is committed, else what is prepared anew.
fn commits<L: SharedLedger, R: Wait>(
    port: &mut HandlePort<L, R>,
    back: &mut Option<Prepared>,
    id: i64,
    value: Option<i64>,
) -> Reported {
    let work = match back.take() {
        Some(work) => Ok(work),
        None => prepared(port, ops_of(port.alloc, id, value)),
    };
    match work {
        Ok(work) => {
            let (rt, alloc) = (port.rt, port.alloc);
            committed(port.shared.commit(rt, alloc, port.me, 0, work), back)
        }
        Err(reported) => reported,
    }
}

fn found(answer: Result<List<Row>, SharedFault<QueryRefusal>>, wanted: Rows) -> Reported {
    match answer {
        Ok(rows) => judged(are(rows.as_slice(), wanted)),
        Err(SharedFault::World(QueryRefusal::Query(QueryFault::Memory))) => Reported::Short,
        Err(_) => Reported::Wrong,
    }
}

fn finds<L: SharedLedger, R: Wait>(port: &mut HandlePort<L, R>, wanted: Rows) -> Reported {
    let (rt, alloc) = (port.rt, port.alloc);
    match whole_table(alloc) {
        Ok(query) => found(
            port.shared.query(rt, alloc, port.me, 0, &FIRST, &query),
            wanted,
        ),
        Err(AllocError) => Reported::Short,
    }
}

fn taken(
    answer: Result<Snapshot, SharedFault<SnapshotFault>>,
    kept: &mut Option<Snapshot>,
) -> Reported {
    match answer {
        Ok(snapshot) => {
            drop(mem::replace(kept, Some(snapshot)));
            Reported::Right
        }
        Err(SharedFault::World(SnapshotFault::Memory)) => Reported::Short,
        Err(_) => Reported::Wrong,
    }
}

fn looks(alloc: Global, kept: &Option<Snapshot>, wanted: Rows) -> Reported {
    let Some(snapshot) = kept else {
        return Reported::Wrong;
    };
    let Ok(query) = whole_table(alloc) else {
        return Reported::Short;
    };
    match snapshot.query(alloc, &query) {
        Ok(rows) => judged(are(rows.as_slice(), wanted)),
        Err(QueryFault::Memory) => Reported::Short,
        Err(_) => Reported::Wrong,
    }
}

fn published(answer: Result<(u64, Receipt), SharedFault<PublishFault>>) -> Reported {
    match answer {
        Ok(_) => Reported::Right,
        Err(SharedFault::World(PublishFault::Memory)) => Reported::Short,
        Err(_) => Reported::Wrong,
    }
}

fn publishes<L: SharedLedger, R: Wait>(
    port: &mut HandlePort<L, R>,
    moment: u64,
    step: Result<Step, AllocError>,
) -> Reported {
    let (rt, alloc) = (port.rt, port.alloc);
    match step {
        Ok(step) => published(port.shared.publish(rt, alloc, port.me, moment, &step)),
        Err(AllocError) => Reported::Short,
    }
}

fn stated(
    answer: Result<Option<ArcValue<Schema>>, SharedFault<AllocError>>,
    wanted: Option<ElementState>,
) -> Reported {
    match answer {
        Ok(Some(schema)) => judged(Some(schema.get().state(2)) == wanted),
        Ok(None) => judged(wanted.is_none()),
        Err(SharedFault::World(AllocError)) => Reported::Short,
        Err(_) => Reported::Wrong,
    }
}

fn takes(answer: Result<(u64, Vec<Entry>), WentBack>, wanted: (u64, usize)) -> Reported {
    match answer {
        Ok((start, entries)) => judged((start, entries.len()) == wanted),
        Err(_) => Reported::Wrong,
    }
}

fn saves(answer: Result<Checkpoint, SharedFault<AllocError>>, place: u64) -> Reported {
    match answer {
        Ok(checkpoint) => judged(checkpoint.place() == place),
        Err(SharedFault::World(AllocError)) => Reported::Short,
        Err(_) => Reported::Wrong,
    }
}

/// What acts keep for later ones: the last snapshot, and what came back.
#[derive(Drop)]
pub(crate) struct Kept {
    pub(crate) snapshot: Option<Snapshot>,
    pub(crate) work: Option<Prepared>,
    pub(crate) piece: Option<PreparedPiece>,
}

/// What comes of an act.
pub(crate) fn acted<L: SharedLedger, R: Wait>(
    port: &mut HandlePort<L, R>,
    kept: &mut Kept,
    act: &Act,
) -> Reported {
    let (rt, alloc) = (port.rt, port.alloc);
    match act {
        Act::Lease => granted(port.shared.lease(rt, alloc, port.me, 0)),
        Act::Insert(id, value) => commits(port, &mut kept.work, *id, Some(*value)),
        Act::Delete(id) => commits(port, &mut kept.work, *id, None),
        Act::Find(rows) => finds(port, *rows),
        Act::Keep => taken(
            port.shared.snapshot(rt, port.me, 0, &FIRST),
            &mut kept.snapshot,
        ),
        Act::Look(rows) => looks(alloc, &kept.snapshot, *rows),
        Act::Enter => publishes(port, 10, entering(alloc)),
        Act::Go(to, moment) => publishes(port, *moment, going(alloc, *to)),
        Act::Begin => begun(port.shared.begin_reorg(rt, alloc, port.me, 30, 2, 1)),
        Act::Piece => works(port, &mut kept.piece),
        Act::Stand(progress) => judged(port.shared.progress(rt, port.me, 2) == Ok(*progress)),
        Act::State(version, state) => stated(port.shared.schema(rt, port.me, *version), *state),
        Act::Take(start, count) => takes(port.shared.take_log(rt, port.me), (*start, *count)),
        Act::Cut => judged(port.shared.cut(rt, port.me) == Ok(())),
        Act::Save(place) => saves(port.shared.checkpoint(rt, port.me), *place),
    }
}
