//! Checkpoints whose pairs agree with the versions that may be used, or do not.
use crate::fixtures::{
    A_1, A_2, Age, EMPTY, FIVE, I_5_1, I_6_2, I_NULL_1, Pairs, R_1, R_2, ROW_1, ROW_2, SIX, mark,
    tested_at_last,
};
use checkpoint_check::CheckpointFault::{self, BadPairs};
use schema_version::ElementState::{self, Public, WriteOnly};

/// The element, and the states that it goes through, of which the last is the newest version's; how
/// old the checkpoint is; the pairs; the answer.
type Case = (
    &'static str,
    u32,
    &'static [ElementState],
    Age,
    Pairs<'static>,
    Result<(), CheckpointFault>,
);

static CASES: [Case; 18] = [
    ("no pair", 2, &[], Age::BothInUse, &[], Ok(())),
    (
        "a row",
        2,
        &[],
        Age::BothInUse,
        &[(ROW_1, EMPTY), (A_1, FIVE), (I_5_1, EMPTY)],
        Ok(()),
    ),
    (
        "a row without a value",
        2,
        &[],
        Age::BothInUse,
        &[(ROW_1, EMPTY), (I_NULL_1, EMPTY)],
        Ok(()),
    ),
    (
        "no pair of the index",
        2,
        &[],
        Age::BothInUse,
        &[(ROW_1, EMPTY), (A_1, FIVE)],
        Err(BadPairs),
    ),
    (
        "another value",
        2,
        &[],
        Age::BothInUse,
        &[(ROW_1, EMPTY), (A_1, SIX), (I_5_1, EMPTY)],
        Err(BadPairs),
    ),
    (
        "no row",
        2,
        &[],
        Age::BothInUse,
        &[(A_1, FIVE), (I_5_1, EMPTY)],
        Err(BadPairs),
    ),
    (
        "a number that is cut off",
        2,
        &[],
        Age::BothInUse,
        &[(ROW_1, EMPTY), (A_1, b"\x02\x80"), (I_NULL_1, EMPTY)],
        Err(BadPairs),
    ),
    (
        "a key that is cut off",
        2,
        &[],
        Age::BothInUse,
        &[(b"\x52\0", EMPTY)],
        Err(BadPairs),
    ),
    (
        "a value of an exists pair",
        2,
        &[],
        Age::BothInUse,
        &[(ROW_1, FIVE), (I_NULL_1, EMPTY)],
        Err(BadPairs),
    ),
    (
        "two pairs of the index for one row",
        2,
        &[],
        Age::BothInUse,
        &[
            (ROW_1, EMPTY),
            (A_1, FIVE),
            (I_5_1, EMPTY),
            (I_NULL_1, EMPTY),
        ],
        Err(BadPairs),
    ),
    (
        "the index is write-only, and public in the version before",
        2,
        &[WriteOnly],
        Age::BothInUse,
        &[(ROW_1, EMPTY), (A_1, FIVE)],
        Err(BadPairs),
    ),
    (
        "the index is write-only",
        2,
        &[WriteOnly],
        Age::NewestAlone,
        &[(ROW_1, EMPTY), (A_1, FIVE)],
        Ok(()),
    ),
    (
        "a wrong pair of a write-only index",
        2,
        &[WriteOnly],
        Age::NewestAlone,
        &[(ROW_1, EMPTY), (A_1, FIVE), (I_NULL_1, EMPTY)],
        Err(BadPairs),
    ),
    (
        "the default of a required column before its fill",
        3,
        &[WriteOnly],
        Age::NewestAlone,
        &[(ROW_1, EMPTY), (R_1, FIVE), (I_NULL_1, EMPTY)],
        Ok(()),
    ),
    (
        "another value than the default before the fill",
        3,
        &[WriteOnly],
        Age::NewestAlone,
        &[(ROW_1, EMPTY), (R_1, SIX), (I_NULL_1, EMPTY)],
        Err(BadPairs),
    ),
    (
        "a public required column without a pair",
        3,
        &[WriteOnly, Public],
        Age::NewestAlone,
        &[(ROW_1, EMPTY), (I_NULL_1, EMPTY)],
        Err(BadPairs),
    ),
    (
        "a value of its own in a public required column",
        3,
        &[WriteOnly, Public],
        Age::BothInUse,
        &[(ROW_1, EMPTY), (R_1, SIX), (I_NULL_1, EMPTY)],
        Ok(()),
    ),
    (
        "two rows",
        3,
        &[WriteOnly, Public],
        Age::NewestAlone,
        &[
            (ROW_1, EMPTY),
            (R_1, SIX),
            (I_NULL_1, EMPTY),
            (ROW_2, EMPTY),
            (A_2, SIX),
            (I_6_2, EMPTY),
            (R_2, FIVE),
        ],
        Ok(()),
    ),
];

#[test]
fn under_refusal_pairs_of_checkpoints_are_tested(rt: HostRuntime) {
    assert!(rt; mark(&rt));
    for (name, element, states, age, pairs, want) in &CASES {
        assert!(rt;
            tested_at_last(rt.alloc(), *element, *states, *age, &[], *pairs) == *want,
            "{name}"
        );
    }
}
