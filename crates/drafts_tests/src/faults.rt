//! Why nothing is drafted.

use crate::acts::{Act, comes, opened};
use crate::fixtures::{Change, bytes_of, step};
use crate::server::Outcome;
use byte_map::Bytes;
use drafts::{
    BeginFault, DivideFault, Newest, PublishFault, draft_begin, draft_divide, draft_publish,
};
use keycode::Value;
use row_map::exists_key;
use schema_version::{ElementState, StepFault};
use std::alloc::{AllocError, Global};

const ROW_2: &[u8] = b"\x52\0\0\0\x01\x02\x80\0\0\0\0\0\0\x02\0\0\0\0";

const ROW_7: &[u8] = b"\x52\0\0\0\x01\x02\x80\0\0\0\0\0\0\x07\0\0\0\0";
/// The key of the pair of a in row 7, of row 7 in table 2, and of a pair of the index.
const A_7: &[u8] = b"\x52\0\0\0\x01\x02\x80\0\0\0\0\0\0\x07\0\0\0\x01";

const OTHER_7: &[u8] = b"\x52\0\0\0\x02\x02\x80\0\0\0\0\0\0\x07\0\0\0\0";

const I_5_7: &[u8] = b"\x58\0\0\0\x02\x02\x80\0\0\0\0\0\0\x05\x02\x80\0\0\0\0\0\0\x07";
/// Where the range of the table begins.
const TABLE: &[u8] = b"\x52\0\0\0\x01";

/// Keys at which pieces are to begin, by the number of an element.
type Keys = (u32, &'static [&'static [u8]], Result<(), DivideFault>);

const KEYS: [Keys; 11] = [
    (2, &[], Ok(())),
    (2, &[ROW_2, ROW_7], Ok(())),
    (1, &[ROW_2], Err(DivideFault::NotWanted)),
    (9, &[ROW_2], Err(DivideFault::NotWanted)),
    (2, &[ROW_7, ROW_2], Err(DivideFault::BadKey { at: 1 })),
    (2, &[ROW_7, ROW_7], Err(DivideFault::BadKey { at: 1 })),
    (2, &[ROW_2, A_7], Err(DivideFault::BadKey { at: 1 })),
    (2, &[OTHER_7], Err(DivideFault::BadKey { at: 0 })),
    (2, &[I_5_7], Err(DivideFault::BadKey { at: 0 })),
    (2, &[TABLE, ROW_2], Err(DivideFault::BadKey { at: 0 })),
    (2, &[b"", b""], Err(DivideFault::BadKey { at: 0 })),
];

/// The steps from version 1 to version 3, in which the index wants a fill.
const STEPS: [(Act, Outcome); 2] = [
    (Act::Publish(0, Change::Enter), Outcome::Applied),
    (
        Act::Publish(1, Change::Go(ElementState::WriteOnly)),
        Outcome::Applied,
    ),
];

/// The newest version, number 3.
fn third(alloc: Global) -> Option<Newest> {
    let mut servers = opened(alloc).ok()?;
    for (act, outcome) in STEPS {
        if !comes(alloc, &mut servers, act, outcome) {
            return None;
        }
    }
    servers.store.newest(2).ok()?
}

/// Whether these keys are taken or refused so.
fn are_taken(alloc: Global, newest: &Newest, (number, keys, wanted): &Keys) -> bool {
    let Ok(keys) = bytes_of(alloc, keys) else {
        return false;
    };
    match draft_divide(alloc, newest, *number, keys.as_slice()) {
        Ok(_) => *wanted == Ok(()),
        Err(fault) => *wanted == Err(fault),
    }
}

#[test]
fn pieces_begin_at_keys_of_items_that_rise(rt: HostRuntime) {
    let Some(newest) = third(rt.alloc()) else {
        assert!(rt; false, "no third version");
        return;
    };
    for (at, keys) in KEYS.iter().enumerate() {
        assert!(rt; are_taken(rt.alloc(), &newest, keys), "keys {at}");
    }
}

/// The keys of so many rows, from 1 on.
fn rows(alloc: Global, count: i64) -> Result<Vec<Bytes>, AllocError> {
    let mut keys = Vec::new(alloc);
    for id in 1..=count {
        keys.push(exists_key(alloc, 1, &[Value::Int(id)])?)?;
    }
    Ok(keys)
}

/// What comes of so many keys.
fn divided(alloc: Global, newest: &Newest, count: i64) -> Result<usize, DivideFault> {
    let keys = rows(alloc, count)?;
    let control = draft_divide(alloc, newest, 2, keys.as_slice())?;
    Ok(control.writes.len())
}

#[test]
fn there_are_at_most_64_pieces(rt: HostRuntime) {
    let Some(newest) = third(rt.alloc()) else {
        assert!(rt; false, "no third version");
        return;
    };
    // the record and a cursor for each piece
    assert!(rt; divided(rt.alloc(), &newest, 63) == Ok(65));
    assert!(rt; divided(rt.alloc(), &newest, 64) == Err(DivideFault::TooManyPieces));
}

/// What a step comes to from version 3, when no reorganisation was found.
fn published(alloc: Global, newest: &Newest, change: Change) -> Result<usize, PublishFault> {
    let step = step(alloc, change)?;
    let control = draft_publish(alloc, newest, &step, &[])?;
    Ok(control.writes.len())
}

#[test]
fn steps_are_refused_so(rt: HostRuntime) {
    let Some(mut newest) = third(rt.alloc()) else {
        assert!(rt; false, "no third version");
        return;
    };
    let cases = [
        (
            Change::Go(ElementState::Public),
            Err(PublishFault::Unfinished { element: 2 }),
        ),
        (
            Change::Go(ElementState::Absent),
            Err(PublishFault::Step(StepFault::NotAdjacent)),
        ),
        (Change::Enter, Err(PublishFault::Step(StepFault::NameTaken))),
        // the next version, the one that is closed, and the reorganisation that is over
        (Change::Turn, Ok(3)),
    ];
    for (change, wanted) in cases {
        assert!(rt; published(rt.alloc(), &newest, change) == wanted);
    }
    newest.before = 1_000_001;
    assert!(rt; published(rt.alloc(), &newest, Change::Turn) == Err(PublishFault::VersionsSpent));
    assert!(rt; draft_begin(rt.alloc(), &newest, 1).err() == Some(BeginFault::NotWanted));
}
