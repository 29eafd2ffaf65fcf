//! Pieces over stores that are put together by hand.
use crate::fixtures::{
    A_1, A_2, EMPTY, FIVE, I_5_1, I_6_2, I_7_3, I_NULL_1, I_NULL_2, Pairs, Points, R_1, R_2, ROW_1,
    ROW_2, ROW_3, ROW_4, ROW_5, SIX, are_writes, mark, required, store, text,
};
use Of::{Column, Index, Required};
use Work::{Clear, Fill};
use byte_map::{Bytes, KeyMap};
use collections::List;
use reorganise::{PieceView, PreparedPiece, Progress, Span, ViewFault, Work, prepare_piece};
use row_map::ColumnType;
use schema_version::{ElementDef, ElementState, Kind, Way};
use std::alloc::{AllocError, Global};

/// Where the rows of table 1 begin, and where they end.
const TABLE: &[u8] = b"\x52\0\0\0\x01";

const NEXT_TABLE: &[u8] = b"\x52\0\0\0\x02";
/// The same of the pairs of the index.
const INDEX: &[u8] = b"\x58\0\0\0\x02";

const NEXT_INDEX: &[u8] = b"\x58\0\0\0\x03";

/// Which element is filled or cleared.
#[derive(Clone, Copy)]
enum Of {
    Column,
    Index,
    Required,
}

fn element(alloc: Global, of: Of) -> Result<ElementDef, AllocError> {
    let name = text(alloc, "e")?;
    let (number, kind) = match of {
        Column => (1, Kind::Optional(ColumnType::Int)),
        Index => (2, Kind::Index(List::new(vec![in alloc; 1]?))),
        Required => (3, required()),
    };
    Ok(ElementDef {
        number,
        table: 1,
        name,
        kind,
        state: ElementState::WriteOnly,
        way: Way::Adding,
    })
}

/// The begin of a fill or a clear over these pairs, in 1 to 64 pieces.
fn begun(
    alloc: Global,
    (of, work): (Of, Work),
    store: &KeyMap<Bytes>,
    pieces: u32,
) -> Result<Progress, AllocError> {
    if pieces < 1 || pieces > 64 {
        return Err(AllocError);
    }
    Progress::begin(alloc, element(alloc, of)?, work, store, pieces)
}

/// Whether a piece stands from `low` to `high`, with its cursor at the front.
fn stands(span: &Span, low: &[u8], high: &[u8]) -> bool {
    span.low.as_slice() == low && span.high.as_slice() == high && span.cursor.as_slice() == low
}

/// Whether the pieces stand between these bounds.
fn stand(spans: &[Span], bounds: Pairs) -> bool {
    for (span, (low, high)) in spans.iter().zip(bounds) {
        if !stands(span, low, high) {
            return false;
        }
    }
    spans.len() == bounds.len()
}

/// The same of so many pieces at the begin.
fn divided(
    alloc: Global,
    what: (Of, Work),
    pairs: Pairs,
    pieces: u32,
    bounds: Pairs,
) -> Result<bool, AllocError> {
    let store = store(alloc, pairs)?;
    let progress = begun(alloc, what, &store, pieces)?;
    Ok(stand(progress.pieces.as_slice(), bounds))
}

/// The same, asked once more if memory was short.
fn divided_at_last(
    alloc: Global,
    what: (Of, Work),
    pairs: Pairs,
    pieces: u32,
    bounds: Pairs,
) -> Result<bool, AllocError> {
    match divided(alloc, what, pairs, pieces, bounds) {
        Err(AllocError) => divided(alloc, what, pairs, pieces, bounds),
        reported => reported,
    }
}

const FIVE_ROWS: Pairs<'static> = &[
    (ROW_1, EMPTY),
    (ROW_2, EMPTY),
    (ROW_3, EMPTY),
    (ROW_4, EMPTY),
    (ROW_5, EMPTY),
];

/// The index's pairs of the rows 1 to 3, whose values are 5, 6 and 7.
const ENTRIES: Pairs<'static> = &[(I_5_1, EMPTY), (I_6_2, EMPTY), (I_7_3, EMPTY)];

/// What is done over which pairs, the number of pieces, and their bounds.
static PIECES: [(&str, (Of, Work), Pairs, u32, Pairs); 5] = [
    (
        "five rows",
        (Index, Fill),
        FIVE_ROWS,
        2,
        &[(TABLE, ROW_3), (ROW_3, NEXT_TABLE)],
    ),
    (
        "five rows without a value in a required column",
        (Required, Fill),
        FIVE_ROWS,
        2,
        &[(TABLE, ROW_3), (ROW_3, NEXT_TABLE)],
    ),
    (
        "no row",
        (Index, Fill),
        &[],
        3,
        &[
            (TABLE, NEXT_TABLE),
            (NEXT_TABLE, NEXT_TABLE),
            (NEXT_TABLE, NEXT_TABLE),
        ],
    ),
    (
        "more pieces than rows",
        (Column, Clear),
        &[(ROW_1, EMPTY), (ROW_2, EMPTY)],
        3,
        &[(TABLE, ROW_1), (ROW_1, ROW_2), (ROW_2, NEXT_TABLE)],
    ),
    (
        "an index's pairs",
        (Index, Clear),
        ENTRIES,
        2,
        &[(INDEX, I_6_2), (I_6_2, NEXT_INDEX)],
    ),
];

#[test]
fn under_refusal_pieces_have_as_many_items(rt: HostRuntime) {
    assert!(rt; mark(&rt));
    for (name, what, pairs, pieces, bounds) in &PIECES {
        assert!(rt;
            divided_at_last(rt.alloc(), *what, *pairs, *pieces, *bounds) == Ok(true),
            "{name}"
        );
    }
}

/// What is read in one piece with a limit.
fn read(alloc: Global, what: (Of, Work), pairs: Pairs, limit: u32) -> Result<PieceView, ViewFault> {
    let store = store(alloc, pairs)?;
    let progress = begun(alloc, what, &store, 1)?;
    progress.read_piece(alloc, &store, 0, limit)
}

/// A piece of what was read, which comes back if memory was short: then it is prepared once more.
fn piece_of(alloc: Global, view: PieceView) -> Result<PreparedPiece, ViewFault> {
    let reported = match prepare_piece(alloc, view) {
        Ok(piece) => return Ok(piece),
        Err((AllocError, view)) => prepare_piece(alloc, view),
    };
    match reported {
        Ok(piece) => Ok(piece),
        Err(_) => Err(ViewFault::BadLimit),
    }
}

/// The same, prepared.
fn prepared(
    alloc: Global,
    what: (Of, Work),
    pairs: Pairs,
    limit: u32,
) -> Result<PreparedPiece, ViewFault> {
    let view = read(alloc, what, pairs, limit)?;
    piece_of(alloc, view)
}

/// The row 1 with a 5 in `a`, and the row 2 without a value.
const TWO_ROWS: Pairs<'static> = &[(ROW_1, EMPTY), (A_1, FIVE), (ROW_2, EMPTY)];

/// Whether a piece makes just these writes in this order, and whether it comes to this key.
fn writes(piece: &PreparedPiece, wanted: Points, cursor: &[u8]) -> (bool, bool) {
    (
        are_writes(piece.batch().writes(), wanted),
        piece.cursors().1 == cursor,
    )
}

/// The same of what is prepared with a limit.
fn written_once(
    alloc: Global,
    what: (Of, Work),
    pairs: Pairs,
    limit: u32,
    wanted: Points,
    cursor: &[u8],
) -> Result<(bool, bool), ViewFault> {
    let piece = prepared(alloc, what, pairs, limit)?;
    Ok(writes(&piece, wanted, cursor))
}

/// The same, asked once more if memory was short.
fn written(
    alloc: Global,
    what: (Of, Work),
    pairs: Pairs,
    limit: u32,
    wanted: Points,
    cursor: &[u8],
) -> Result<(bool, bool), ViewFault> {
    match written_once(alloc, what, pairs, limit, wanted, cursor) {
        Err(ViewFault::Memory) => written_once(alloc, what, pairs, limit, wanted, cursor),
        reported => reported,
    }
}

/// What is done over which pairs with which limit, what is written, and where the piece comes to.
/// 05 begins no value, and after 01, which is Null, nothing may stand.
static WRITTEN: [(&str, (Of, Work), Pairs, u32, Points, &[u8]); 9] = [
    (
        "a fill",
        (Index, Fill),
        TWO_ROWS,
        1000,
        &[(I_5_1, Some(EMPTY)), (I_NULL_2, Some(EMPTY))],
        NEXT_TABLE,
    ),
    (
        "no tag",
        (Index, Fill),
        &[(ROW_1, EMPTY), (A_1, b"\x05"), (ROW_2, EMPTY)],
        1,
        &[(I_NULL_1, Some(EMPTY))],
        ROW_2,
    ),
    (
        "a long Null",
        (Index, Fill),
        &[(ROW_1, EMPTY), (A_1, b"\x01\x01"), (ROW_2, EMPTY)],
        1,
        &[(I_NULL_1, Some(EMPTY))],
        ROW_2,
    ),
    (
        "a fill of a column",
        (Column, Fill),
        TWO_ROWS,
        1000,
        &[],
        NEXT_TABLE,
    ),
    (
        "a clear of a column",
        (Column, Clear),
        TWO_ROWS,
        1000,
        &[(A_1, None), (A_2, None)],
        NEXT_TABLE,
    ),
    // The value that is there is kept.
    (
        "a fill of a required column",
        (Required, Fill),
        &[(ROW_1, EMPTY), (R_1, SIX), (ROW_2, EMPTY)],
        1000,
        &[(R_1, Some(SIX)), (R_2, Some(FIVE))],
        NEXT_TABLE,
    ),
    (
        "a Bool in a required column",
        (Required, Fill),
        &[(ROW_1, EMPTY), (R_1, b"\x04\x01"), (ROW_2, EMPTY)],
        1,
        &[(R_1, Some(FIVE))],
        ROW_2,
    ),
    (
        "a clear of a required column",
        (Required, Clear),
        &[(ROW_1, EMPTY), (R_1, SIX), (ROW_2, EMPTY)],
        1000,
        &[(R_1, None), (R_2, None)],
        NEXT_TABLE,
    ),
    (
        "a clear of an index",
        (Index, Clear),
        ENTRIES,
        2,
        &[(I_5_1, None), (I_6_2, None)],
        I_7_3,
    ),
];

#[test]
fn under_refusal_pieces_write_pairs(rt: HostRuntime) {
    assert!(rt; mark(&rt));
    for (name, what, pairs, limit, wanted, cursor) in &WRITTEN {
        let done = written(rt.alloc(), *what, *pairs, *limit, *wanted, *cursor);
        assert!(rt; done == Ok((true, true)), "{name}");
    }
}
