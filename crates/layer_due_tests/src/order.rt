//! Which of two elements comes first.
use crate::fixtures::two_stepped;
use Act::{Begin, Work};
use byte_map::Bytes;
use collections::{ArcValue, List};
use drafts::{Newest, Reorg};
use layer_due::{Act, Cursor, DueFault, Records, due};
use schema_version::ElementState::{DeleteOnly, WriteOnly};
use schema_version::{Schema, Work as Kind};
use std::alloc::{AllocError, Global};
use std::test::*;

/// The fill of an element in one piece, from a to c.
fn fill(alloc: Global, schema: &Schema, number: u32) -> Result<Reorg, AllocError> {
    let low = Bytes::from_slice(alloc, b"a")?;
    let high = Bytes::from_slice(alloc, b"c")?;
    match schema.element(number) {
        Some(element) => Ok(Reorg {
            element: element.clone()?,
            work: Kind::Fill,
            bounds: List::new(vec![in alloc; (low, high)]?),
        }),
        None => Err(AllocError),
    }
}

/// The cursor of an element's piece, at b.
fn cursor(alloc: Global, element: u32) -> Result<Cursor, AllocError> {
    Ok(Cursor {
        element,
        piece: 0,
        key: Bytes::from_slice(alloc, b"b")?,
    })
}

/// What is due if both indexes are write-only, by the fills of these elements in this order and the
/// cursors of these.
fn due_by(
    alloc: Global,
    begun: &[u32],
    with_cursor: &[u32],
) -> Result<Result<Act, DueFault>, AllocError> {
    let schema = two_stepped(alloc, &[DeleteOnly, WriteOnly])?;
    let mut reorgs = Vec::new(alloc);
    for number in begun {
        reorgs.push(fill(alloc, &schema, *number)?)?;
    }
    let mut cursors = Vec::new(alloc);
    for number in with_cursor {
        cursors.push(cursor(alloc, *number)?)?;
    }
    let records = Records {
        newest: Newest {
            before: 2,
            schema: ArcValue::new(alloc, schema)?,
        },
        previous_is_open: false,
        reorgs: List::new(reorgs),
        cursors: List::new(cursors),
    };
    Ok(due(&records, &[]))
}

const NO_CURSOR: Result<Act, DueFault> = Err(DueFault::NoCursor {
    element: 2,
    piece: 0,
});

/// What has begun, in the order in which it was found, whose cursors were found, and what is due.
static DUE: [(&str, &[u32], &[u32], Result<Act, DueFault>); 7] = [
    (
        "the lower number begins",
        &[],
        &[],
        Ok(Begin { element: 2 }),
    ),
    ("then the other", &[2], &[2], Ok(Begin { element: 3 })),
    (
        "the lower one, if the other has begun",
        &[3],
        &[3],
        Ok(Begin { element: 2 }),
    ),
    (
        "a piece of what was found first",
        &[2, 3],
        &[2, 3],
        Ok(Work {
            element: 2,
            piece: 0,
        }),
    ),
    (
        "also if that has the higher number",
        &[3, 2],
        &[2, 3],
        Ok(Work {
            element: 3,
            piece: 0,
        }),
    ),
    (
        "its cursor is missing, and not the other's",
        &[2, 3],
        &[3],
        NO_CURSOR,
    ),
    (
        "the other's cursor is missing",
        &[3, 2],
        &[3],
        Ok(Work {
            element: 3,
            piece: 0,
        }),
    ),
];

#[test]
fn which_of_two_indexes_comes_first(rt: HostRuntime) {
    for (name, begun, with_cursor, wanted) in &DUE {
        assert!(rt;
            due_by(rt.alloc(), *begun, *with_cursor) == Ok(*wanted),
            "{name}"
        );
    }
}
