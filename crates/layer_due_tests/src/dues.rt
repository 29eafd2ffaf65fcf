//! What is due while an index enters.
use crate::fixtures::{step, stepped};
use Act::{Begin, Close, Nothing, Publish, Work};
use byte_map::Bytes;
use collections::{ArcValue, List};
use drafts::{Newest, Reorg};
use layer_due::{Act, Cursor, DueFault, Records, due};
use schema_version::ElementState::{Absent, DeleteOnly, Public, WriteOnly};
use schema_version::{ElementState, Schema, Work as Kind};
use std::alloc::{AllocError, Global};
use std::test::*;

/// The pieces are from a to c and from c to e.
static BOUNDS: [(&[u8], &[u8]); 2] = [(b"a", b"c"), (b"c", b"e")];

/// The fill of the index, in these two pieces.
fn fill(alloc: Global, schema: &Schema) -> Result<Reorg, AllocError> {
    let mut bounds = Vec::new(alloc);
    for (low, high) in &BOUNDS {
        let low = Bytes::from_slice(alloc, *low)?;
        bounds.push((low, Bytes::from_slice(alloc, *high)?))?;
    }
    match schema.element(2) {
        Some(element) => Ok(Reorg {
            element: element.clone()?,
            work: Kind::Fill,
            bounds: List::new(bounds),
        }),
        None => Err(AllocError),
    }
}

/// The cursors of the pieces in turn.
fn cursors(alloc: Global, keys: &[&[u8]]) -> Result<Vec<Cursor>, AllocError> {
    let mut out = Vec::new(alloc);
    for (at, key) in keys.iter().enumerate() {
        out.push(Cursor {
            element: 2,
            piece: at as u64,
            key: Bytes::from_slice(alloc, *key)?,
        })?;
    }
    Ok(out)
}

/// What is in the store: the states through which the index went, whether the version before the
/// newest is open, and the cursors of the fill, if it has begun.
type Stand = (
    &'static [ElementState],
    bool,
    Option<&'static [&'static [u8]]>,
);

fn records(alloc: Global, (states, is_open, keys): Stand) -> Result<Records, AllocError> {
    let schema = stepped(alloc, states)?;
    let mut reorgs = Vec::new(alloc);
    let mut found = Vec::new(alloc);
    if let Some(keys) = keys {
        reorgs.push(fill(alloc, &schema)?)?;
        found = cursors(alloc, keys)?;
    }
    Ok(Records {
        newest: Newest {
            before: u32::try_from(states.len()).unwrap_or(0),
            schema: ArcValue::new(alloc, schema)?,
        },
        previous_is_open: is_open,
        reorgs: List::new(reorgs),
        cursors: List::new(found),
    })
}

/// What is due, if the index is still to go through these states.
fn due_at(
    alloc: Global,
    stand: Stand,
    ahead: &[ElementState],
) -> Result<Result<Act, DueFault>, AllocError> {
    let records = records(alloc, stand)?;
    let mut steps = Vec::new(alloc);
    for to in ahead {
        steps.push(step(alloc, *to)?)?;
    }
    Ok(due(&records, steps.as_slice()))
}

const NO_CURSOR: Result<Act, DueFault> = Err(DueFault::NoCursor {
    element: 2,
    piece: 1,
});

/// What is in the store, the states that are still planned, and what is due.
static DUE: [(&str, Stand, &[ElementState], Result<Act, DueFault>); 14] = [
    ("nothing is planned", (&[], false, None), &[], Ok(Nothing)),
    (
        "the index enters",
        (&[], false, None),
        &[DeleteOnly, WriteOnly, Public],
        Ok(Publish),
    ),
    (
        "a step that needs no fill, and no close",
        (&[DeleteOnly], true, None),
        &[WriteOnly, Public],
        Ok(Publish),
    ),
    (
        "a fill waits for the close",
        (&[DeleteOnly, WriteOnly], true, None),
        &[Public],
        Ok(Close),
    ),
    (
        "then it begins",
        (&[DeleteOnly, WriteOnly], false, None),
        &[Public],
        Ok(Begin { element: 2 }),
    ),
    (
        "also if no plan is left",
        (&[DeleteOnly, WriteOnly], false, None),
        &[],
        Ok(Begin { element: 2 }),
    ),
    (
        "the first piece",
        (&[DeleteOnly, WriteOnly], false, Some(&[b"b", b"c"])),
        &[Public],
        Ok(Work {
            element: 2,
            piece: 0,
        }),
    ),
    (
        "the second",
        (&[DeleteOnly, WriteOnly], false, Some(&[b"c", b"c"])),
        &[Public],
        Ok(Work {
            element: 2,
            piece: 1,
        }),
    ),
    (
        "also if no plan is left",
        (&[DeleteOnly, WriteOnly], false, Some(&[b"c", b"c"])),
        &[],
        Ok(Work {
            element: 2,
            piece: 1,
        }),
    ),
    (
        "a cursor is missing",
        (&[DeleteOnly, WriteOnly], false, Some(&[b"c"])),
        &[Public],
        NO_CURSOR,
    ),
    (
        "all pieces have ended",
        (&[DeleteOnly, WriteOnly], false, Some(&[b"c", b"e"])),
        &[Public],
        Ok(Publish),
    ),
    (
        "the same, and nothing is planned",
        (&[DeleteOnly, WriteOnly], false, Some(&[b"c", b"e"])),
        &[],
        Ok(Nothing),
    ),
    (
        "the index is public",
        (&[DeleteOnly, WriteOnly, Public], true, None),
        &[],
        Ok(Nothing),
    ),
    (
        "a step that needs a clear, which no element wants",
        (&[DeleteOnly, WriteOnly, Public], true, None),
        &[Absent],
        Err(DueFault::NotReady),
    ),
];

#[test]
fn what_is_due_while_an_index_enters(rt: HostRuntime) {
    for (name, stand, ahead, wanted) in &DUE {
        assert!(rt; due_at(rt.alloc(), *stand, *ahead) == Ok(*wanted), "{name}");
    }
}
