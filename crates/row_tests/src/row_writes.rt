//! What the preparation of transactions gives.
use crate::fixtures::{
    A_1, A_2, EMPTY, FIVE, I_5_1, I_6_1, I_6_2, I_NULL_1, Plain, Points, ROW_1, ROW_2, SIX, mark,
};
use crate::operations::{ONE, Op, TWO, Verb};
use crate::row_outcomes::{outcome, outcome_shared};
use Plain::{Bool, Int, Null};
use PrepareFault::{NoTable, NotPublic, ViewMismatch, WrongType};
use RowOutcome::{Done, Refused};
use Verb::{Delete, Insert, Update};
use row_write::{PrepareFault, RowFault, RowOutcome};

/// Row 1 is not there, or it has a 5 in `a`, or row 2 is not there either, or row 1 alone is.
const NO_ROW: Points<'static> = &[(ROW_1, None), (A_1, None)];

const A_ROW: Points<'static> = &[(ROW_1, Some(EMPTY)), (A_1, Some(FIVE))];

const NO_ROWS: Points<'static> = &[(ROW_1, None), (A_1, None), (ROW_2, None), (A_2, None)];

const ONE_OF_TWO: Points<'static> = &[
    (ROW_1, Some(EMPTY)),
    (A_1, Some(FIVE)),
    (ROW_2, None),
    (A_2, None),
];

/// Operations, what is read, and what is written.
static ACCEPTED: [(&str, &[Op], Points, Points); 12] = [
    (
        "an insert",
        &[(Insert, 1, Int(1), &[(1, Int(5))])],
        NO_ROW,
        &[
            (ROW_1, Some(EMPTY)),
            (A_1, Some(FIVE)),
            (I_5_1, Some(EMPTY)),
        ],
    ),
    (
        "an insert of Null",
        &[(Insert, 1, Int(1), &[(1, Null)])],
        NO_ROW,
        &[(ROW_1, Some(EMPTY)), (I_NULL_1, Some(EMPTY))],
    ),
    (
        "an insert without a value",
        &[(Insert, 1, Int(1), &[])],
        NO_ROW,
        &[(ROW_1, Some(EMPTY)), (I_NULL_1, Some(EMPTY))],
    ),
    (
        "an update",
        &[(Update, 1, Int(1), &[(1, Int(6))])],
        A_ROW,
        &[(A_1, Some(SIX)), (I_5_1, None), (I_6_1, Some(EMPTY))],
    ),
    (
        "Null takes the value away",
        &[(Update, 1, Int(1), &[(1, Null)])],
        A_ROW,
        &[(A_1, None), (I_5_1, None), (I_NULL_1, Some(EMPTY))],
    ),
    (
        "an update of nothing",
        &[(Update, 1, Int(1), &[])],
        A_ROW,
        &[],
    ),
    (
        "an update by the same value",
        &[(Update, 1, Int(1), &[(1, Int(5))])],
        A_ROW,
        &[],
    ),
    (
        "a delete",
        &[(Delete, 1, Int(1), &[])],
        A_ROW,
        &[(ROW_1, None), (A_1, None), (I_5_1, None)],
    ),
    (
        "an update of what was inserted",
        &[
            (Insert, 1, Int(1), &[(1, Null)]),
            (Update, 1, Int(1), &[(1, Int(6))]),
        ],
        NO_ROW,
        &[
            (ROW_1, Some(EMPTY)),
            (I_NULL_1, Some(EMPTY)),
            (A_1, Some(SIX)),
            (I_NULL_1, None),
            (I_6_1, Some(EMPTY)),
        ],
    ),
    (
        "two updates of a row",
        &[
            (Update, 1, Int(1), &[(1, Int(6))]),
            (Update, 1, Int(1), &[(1, Null)]),
        ],
        A_ROW,
        &[
            (A_1, Some(SIX)),
            (I_5_1, None),
            (I_6_1, Some(EMPTY)),
            (A_1, None),
            (I_6_1, None),
            (I_NULL_1, Some(EMPTY)),
        ],
    ),
    (
        "a row that goes and comes again",
        &[
            (Delete, 1, Int(1), &[]),
            (Insert, 1, Int(1), &[(1, Int(6))]),
        ],
        A_ROW,
        &[
            (ROW_1, None),
            (A_1, None),
            (I_5_1, None),
            (ROW_1, Some(EMPTY)),
            (A_1, Some(SIX)),
            (I_6_1, Some(EMPTY)),
        ],
    ),
    (
        "two rows, the later first",
        &[
            (Insert, 1, Int(2), &[(1, Int(6))]),
            (Update, 1, Int(1), &[(1, Int(6))]),
        ],
        ONE_OF_TWO,
        &[
            (ROW_2, Some(EMPTY)),
            (A_2, Some(SIX)),
            (I_6_2, Some(EMPTY)),
            (A_1, Some(SIX)),
            (I_5_1, None),
            (I_6_1, Some(EMPTY)),
        ],
    ),
];

#[test]
fn under_refusal_accepted_operations_write_pairs(rt: HostRuntime) {
    assert!(rt; mark(&rt));
    for (name, plain, points, wanted) in &ACCEPTED {
        let reported = outcome(rt.alloc(), *plain, *points, *wanted);
        assert!(rt; reported == Ok(Some(Done)), "{name}");
        let reported = outcome_shared(rt.alloc(), *plain, *points, *wanted);
        assert!(rt; reported == Ok(Some(Done)), "{name}, shared");
    }
}

/// Operations, what is read, and what is reported if nothing is written.
static TOLD: [(
    &str,
    &[Op],
    Points,
    Result<Option<RowOutcome>, PrepareFault>,
); 21] = [
    ("nothing", &[], &[], Ok(Some(Done))),
    (
        "twice",
        &[ONE, ONE],
        NO_ROW,
        Ok(Some(Refused {
            op: 1,
            why: RowFault::Duplicate,
        })),
    ),
    (
        "another between",
        &[ONE, TWO, ONE],
        NO_ROWS,
        Ok(Some(Refused {
            op: 2,
            why: RowFault::Duplicate,
        })),
    ),
    (
        "no row",
        &[(Delete, 1, Int(1), &[])],
        NO_ROW,
        Ok(Some(Refused {
            op: 0,
            why: RowFault::NoRow,
        })),
    ),
    (
        "no row to update",
        &[ONE, (Update, 1, Int(2), &[])],
        NO_ROWS,
        Ok(Some(Refused {
            op: 1,
            why: RowFault::NoRow,
        })),
    ),
    (
        "no table",
        &[(Insert, 2, Int(1), &[(9, Int(5))])],
        &[],
        Err(NoTable),
    ),
    (
        "an index as a column",
        &[(
            Insert,
            1,
            Null,
            &[(1, Bool(true)), (2, Int(5)), (9, Int(5))],
        )],
        &[],
        Err(NotPublic { column: 2 }),
    ),
    (
        "a key of Null",
        &[(Insert, 1, Null, &[])],
        &[],
        Err(WrongType),
    ),
    (
        "a key of another type",
        &[(Insert, 1, Bool(true), &[])],
        &[],
        Err(WrongType),
    ),
    (
        "a value of another type",
        &[(Insert, 1, Int(1), &[(1, Bool(true))])],
        &[],
        Err(WrongType),
    ),
    (
        "a column twice",
        &[(Insert, 1, Int(1), &[(1, Int(5)), (1, Int(5))])],
        &[],
        Err(WrongType),
    ),
    (
        "the first operation with a fault",
        &[ONE, (Insert, 1, Null, &[]), (Insert, 2, Int(1), &[])],
        &[],
        Err(WrongType),
    ),
    (
        "a key that is not seen",
        &[(Delete, 1, Int(1), &[])],
        &[(ROW_1, None)],
        Err(ViewMismatch),
    ),
    (
        "a key that is not read",
        &[(Delete, 1, Int(1), &[])],
        &[(ROW_1, None), (A_1, None), (ROW_2, None)],
        Err(ViewMismatch),
    ),
    (
        "a key that none of several reads",
        &[ONE, (Update, 1, Int(1), &[])],
        NO_ROWS,
        Err(ViewMismatch),
    ),
    (
        "a row of several that is not seen",
        &[ONE, TWO],
        NO_ROW,
        Err(ViewMismatch),
    ),
    (
        "an exists pair with a value",
        &[(Delete, 1, Int(1), &[])],
        &[(ROW_1, Some(b"\0")), (A_1, None)],
        Err(ViewMismatch),
    ),
    (
        "a value without its row",
        &[(Delete, 1, Int(1), &[])],
        &[(ROW_1, None), (A_1, Some(FIVE))],
        Err(ViewMismatch),
    ),
    (
        "a Bool",
        &[(Delete, 1, Int(1), &[])],
        &[(ROW_1, Some(EMPTY)), (A_1, Some(b"\x04\x01"))],
        Err(ViewMismatch),
    ),
    (
        "a cut number",
        &[(Delete, 1, Int(1), &[])],
        &[(ROW_1, Some(EMPTY)), (A_1, Some(b"\x02\x80"))],
        Err(ViewMismatch),
    ),
    (
        "a Null",
        &[(Delete, 1, Int(1), &[])],
        &[(ROW_1, Some(EMPTY)), (A_1, Some(b"\x01"))],
        Err(ViewMismatch),
    ),
];

#[test]
fn under_refusal_what_writes_nothing_is_reported(rt: HostRuntime) {
    assert!(rt; mark(&rt));
    for (name, plain, points, want) in &TOLD {
        assert!(rt;
            outcome(rt.alloc(), *plain, *points, &[]) == *want,
            "{name}"
        );
        assert!(rt;
            outcome_shared(rt.alloc(), *plain, *points, &[]) == *want,
            "{name}, shared"
        );
    }
}
