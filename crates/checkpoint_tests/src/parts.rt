//! Checkpoints whose versions and begun reorganisations fit one another, or do not.
use crate::fixtures::{
    A_2, Age, EMPTY, FIVE, FRONT, I_6_2, I_NULL_1, Pairs, R_1, ROW_1, ROW_2, SIX, TAIL, mark,
    tested_at_last,
};
use checkpoint_check::CheckpointFault::{self, BadElements, BadReorganisations, BadVersions};
use reorganise::Work::{self, Clear, Fill};
use schema_version::ElementState::{self, DeleteOnly, WriteOnly};

/// The element, and the states that it goes through, of which the last is the newest version's; how
/// old the checkpoint is; the works that have begun on it, and where the cursor of the one piece of
/// each has come; the pairs; the answer.
type Case = (
    &'static str,
    u32,
    &'static [ElementState],
    Age,
    &'static [(Work, &'static [u8])],
    Pairs<'static>,
    Result<(), CheckpointFault>,
);

/// A row that has no pair of `r`.
const UNFILLED: Pairs<'static> = &[(ROW_1, EMPTY), (I_NULL_1, EMPTY)];

/// The same row with its pair of `r`.
const FILLED: Pairs<'static> = &[(ROW_1, EMPTY), (R_1, FIVE), (I_NULL_1, EMPTY)];

/// That row, and a second one that has no pair of `r`.
const HALF_FILLED: Pairs<'static> = &[
    (ROW_1, EMPTY),
    (R_1, FIVE),
    (I_NULL_1, EMPTY),
    (ROW_2, EMPTY),
    (A_2, SIX),
    (I_6_2, EMPTY),
];

static CASES: [Case; 16] = [
    (
        "before the last publication",
        2,
        &[WriteOnly],
        Age::Early,
        &[],
        &[],
        Err(BadVersions),
    ),
    (
        "without the version before",
        2,
        &[WriteOnly],
        Age::OneLost,
        &[],
        &[],
        Err(BadVersions),
    ),
    (
        "with a version before the first",
        2,
        &[],
        Age::OneLost,
        &[],
        &[],
        Err(BadVersions),
    ),
    (
        "from public to delete-only",
        2,
        &[WriteOnly, DeleteOnly],
        Age::OneSkipped,
        &[],
        &[],
        Err(BadElements),
    ),
    (
        "from write-only to delete-only",
        2,
        &[WriteOnly, DeleteOnly],
        Age::BothInUse,
        &[],
        &[],
        Ok(()),
    ),
    (
        "a fill at its begin",
        3,
        &[WriteOnly],
        Age::NewestAlone,
        &[(Fill, FRONT)],
        UNFILLED,
        Ok(()),
    ),
    (
        "a fill at its end",
        3,
        &[WriteOnly],
        Age::NewestAlone,
        &[(Fill, TAIL)],
        FILLED,
        Ok(()),
    ),
    (
        "a fill that has left a row out",
        3,
        &[WriteOnly],
        Age::NewestAlone,
        &[(Fill, TAIL)],
        UNFILLED,
        Err(BadReorganisations),
    ),
    (
        "a fill at the second row",
        3,
        &[WriteOnly],
        Age::NewestAlone,
        &[(Fill, ROW_2)],
        HALF_FILLED,
        Ok(()),
    ),
    (
        "a fill past its end",
        3,
        &[WriteOnly],
        Age::NewestAlone,
        &[(Fill, b"\x52\0\0\0\x03")],
        FILLED,
        Err(BadReorganisations),
    ),
    (
        "a fill at a key of no row",
        3,
        &[WriteOnly],
        Age::NewestAlone,
        &[(Fill, b"\x52\0\0\0\x01\x02")],
        UNFILLED,
        Err(BadReorganisations),
    ),
    (
        "two fills of one element",
        3,
        &[WriteOnly],
        Age::NewestAlone,
        &[(Fill, FRONT), (Fill, FRONT)],
        UNFILLED,
        Err(BadReorganisations),
    ),
    (
        "a clear of what wants a fill",
        3,
        &[WriteOnly],
        Age::NewestAlone,
        &[(Clear, FRONT)],
        UNFILLED,
        Err(BadReorganisations),
    ),
    (
        "a fill while the version before is delete-only",
        3,
        &[WriteOnly],
        Age::BothInUse,
        &[(Fill, FRONT)],
        UNFILLED,
        Err(BadReorganisations),
    ),
    (
        "a clear of the index at its begin",
        2,
        &[WriteOnly, DeleteOnly],
        Age::NewestAlone,
        &[(Clear, b"\x58\0\0\0\x02")],
        UNFILLED,
        Ok(()),
    ),
    (
        "a clear that has left a pair",
        2,
        &[WriteOnly, DeleteOnly],
        Age::NewestAlone,
        &[(Clear, b"\x58\0\0\0\x03")],
        UNFILLED,
        Err(BadReorganisations),
    ),
];

#[test]
fn under_refusal_parts_of_checkpoints_are_tested(rt: HostRuntime) {
    assert!(rt; mark(&rt));
    for (name, element, states, age, begun, pairs, want) in &CASES {
        assert!(rt;
            tested_at_last(rt.alloc(), *element, *states, *age, *begun, *pairs) == *want,
            "{name}"
        );
    }
}
