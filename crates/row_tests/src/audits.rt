//! Audits of stores that no list of calls could give.
use crate::fixtures::{
    A_1, A_2, EMPTY, FIVE, I_5_1, I_NULL_1, Pairs, R_1, ROW_1, SIX, mark, stepped, store,
};
use audit::audit;
use byte_map::{Bytes, KeyMap};
use schema_version::ElementState::{self, Absent, DeleteOnly, Public, WriteOnly};
use schema_version::Schema;
use std::alloc::{AllocError, Global};

/// The keys of a pair of row 1 for element 7, and of a pair of the index 3: neither is there.
const NO_COLUMN: &[u8] = b"\x52\0\0\0\x01\x02\x80\0\0\0\0\0\0\x01\0\0\0\x07";

const NO_INDEX: &[u8] = b"\x58\0\0\0\x03\x01\x02\x80\0\0\0\0\0\0\x01";

/// The rows, the missing pairs and the extra pairs.
fn counts(
    alloc: Global,
    schema: &Schema,
    store: &KeyMap<Bytes>,
) -> Result<(u64, u64, u64), AllocError> {
    let report = audit(alloc, schema, store)?;
    Ok((report.rows, report.missing, report.extra))
}

/// The same in a store of these pairs, if an element went through these states.
fn counted(
    alloc: Global,
    element: u32,
    states: &[ElementState],
    pairs: Pairs,
) -> Result<(u64, u64, u64), AllocError> {
    let store = store(alloc, pairs)?;
    let schema = stepped(alloc, element, states)?;
    counts(alloc, &schema, &store)
}

/// The same, asked once more if memory was short.
fn counted_at_last(
    alloc: Global,
    element: u32,
    states: &[ElementState],
    pairs: Pairs,
) -> Result<(u64, u64, u64), AllocError> {
    match counted(alloc, element, states, pairs) {
        Err(AllocError) => counted(alloc, element, states, pairs),
        reported => reported,
    }
}

/// The states through which the index went, the pairs, and what is counted.
static COUNTS: [(&str, &[ElementState], Pairs, (u64, u64, u64)); 23] = [
    ("no pair", &[], &[], (0, 0, 0)),
    (
        "a row",
        &[],
        &[(ROW_1, EMPTY), (A_1, FIVE), (I_5_1, EMPTY)],
        (1, 0, 0),
    ),
    (
        "no pair of the index",
        &[],
        &[(ROW_1, EMPTY), (A_1, FIVE)],
        (1, 1, 0),
    ),
    ("one of the index alone", &[], &[(I_5_1, EMPTY)], (0, 0, 1)),
    ("one of the column alone", &[], &[(A_1, FIVE)], (0, 0, 1)),
    ("both alone", &[], &[(A_1, FIVE), (I_5_1, EMPTY)], (0, 0, 2)),
    (
        "no value",
        &[],
        &[(ROW_1, EMPTY), (I_NULL_1, EMPTY)],
        (1, 0, 0),
    ),
    (
        "a long Null",
        &[],
        &[(ROW_1, EMPTY), (A_1, b"\x01\x01"), (I_5_1, EMPTY)],
        (1, 1, 1),
    ),
    (
        "a Bool",
        &[],
        &[(ROW_1, EMPTY), (A_1, b"\x04\x01"), (I_NULL_1, EMPTY)],
        (1, 0, 0),
    ),
    (
        "a cut number",
        &[],
        &[(ROW_1, EMPTY), (A_1, b"\x02\x80"), (I_5_1, EMPTY)],
        (1, 1, 1),
    ),
    (
        "no tag",
        &[],
        &[(ROW_1, EMPTY), (A_1, b"\x09\x09"), (I_NULL_1, EMPTY)],
        (1, 0, 0),
    ),
    (
        "a cut key",
        &[],
        &[
            (ROW_1, EMPTY),
            (A_1, FIVE),
            (I_5_1, EMPTY),
            (b"\x52\0", EMPTY),
        ],
        (1, 0, 1),
    ),
    (
        "a cut key of an index",
        &[],
        &[
            (ROW_1, EMPTY),
            (A_1, FIVE),
            (I_5_1, EMPTY),
            (b"\x58\0", EMPTY),
        ],
        (1, 0, 1),
    ),
    (
        "a key of nothing",
        &[],
        &[
            (ROW_1, EMPTY),
            (A_1, FIVE),
            (I_5_1, EMPTY),
            (b"\x53\0", EMPTY),
        ],
        (1, 0, 1),
    ),
    (
        "no such column",
        &[],
        &[
            (ROW_1, EMPTY),
            (A_1, FIVE),
            (I_5_1, EMPTY),
            (NO_COLUMN, FIVE),
        ],
        (1, 0, 1),
    ),
    (
        "no such row",
        &[],
        &[(ROW_1, EMPTY), (A_1, FIVE), (I_5_1, EMPTY), (A_2, FIVE)],
        (1, 0, 1),
    ),
    (
        "no such index",
        &[],
        &[
            (ROW_1, EMPTY),
            (A_1, FIVE),
            (I_5_1, EMPTY),
            (NO_INDEX, EMPTY),
        ],
        (1, 0, 1),
    ),
    (
        "an exists pair with a value",
        &[],
        &[(ROW_1, FIVE), (A_1, FIVE), (I_5_1, EMPTY)],
        (1, 0, 0),
    ),
    (
        "an index's pair with a value",
        &[],
        &[(ROW_1, EMPTY), (A_1, FIVE), (I_5_1, FIVE)],
        (1, 1, 1),
    ),
    (
        "write-only",
        &[WriteOnly],
        &[(ROW_1, EMPTY), (A_1, FIVE)],
        (1, 0, 0),
    ),
    (
        "delete-only",
        &[WriteOnly, DeleteOnly],
        &[(ROW_1, EMPTY), (A_1, FIVE), (I_5_1, EMPTY)],
        (1, 0, 0),
    ),
    (
        "of another value",
        &[WriteOnly, DeleteOnly],
        &[(ROW_1, EMPTY), (A_1, FIVE), (I_NULL_1, EMPTY)],
        (1, 0, 1),
    ),
    (
        "absent",
        &[WriteOnly, DeleteOnly, Absent],
        &[(ROW_1, EMPTY), (A_1, FIVE), (I_5_1, EMPTY)],
        (1, 0, 1),
    ),
];

/// The same of the required column, beside a row without a value in `a`.
static REQUIRED_COUNTS: [(&str, &[ElementState], Pairs, (u64, u64, u64)); 8] = [
    (
        "no pair of the required column",
        &[WriteOnly, Public],
        &[(ROW_1, EMPTY), (I_NULL_1, EMPTY)],
        (1, 1, 0),
    ),
    (
        "the default",
        &[WriteOnly, Public],
        &[(ROW_1, EMPTY), (I_NULL_1, EMPTY), (R_1, FIVE)],
        (1, 0, 0),
    ),
    (
        "a value of its own",
        &[WriteOnly, Public],
        &[(ROW_1, EMPTY), (I_NULL_1, EMPTY), (R_1, SIX)],
        (1, 0, 0),
    ),
    // The row has the default, and the pair is another.
    (
        "a Bool in the required column",
        &[WriteOnly, Public],
        &[(ROW_1, EMPTY), (I_NULL_1, EMPTY), (R_1, b"\x04\x01")],
        (1, 1, 0),
    ),
    (
        "one of the required column alone",
        &[WriteOnly, Public],
        &[(R_1, FIVE)],
        (0, 0, 1),
    ),
    (
        "a write-only required column",
        &[WriteOnly],
        &[(ROW_1, EMPTY), (I_NULL_1, EMPTY)],
        (1, 0, 0),
    ),
    (
        "a delete-only required column",
        &[],
        &[(ROW_1, EMPTY), (I_NULL_1, EMPTY), (R_1, SIX)],
        (1, 0, 0),
    ),
    (
        "a required column that has gone",
        &[WriteOnly, Public, WriteOnly, DeleteOnly, Absent],
        &[(ROW_1, EMPTY), (I_NULL_1, EMPTY), (R_1, FIVE)],
        (1, 0, 1),
    ),
];

#[test]
fn under_refusal_pairs_are_counted(rt: HostRuntime) {
    assert!(rt; mark(&rt));
    for (name, states, pairs, want) in &COUNTS {
        assert!(rt;
            counted_at_last(rt.alloc(), 2, *states, *pairs) == Ok(*want),
            "{name}"
        );
    }
    for (name, states, pairs, want) in &REQUIRED_COUNTS {
        assert!(rt;
            counted_at_last(rt.alloc(), 3, *states, *pairs) == Ok(*want),
            "{name}"
        );
    }
}
