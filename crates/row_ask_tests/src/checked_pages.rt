//! Audits of a store that is read in pages of so many pairs.
use crate::fixtures::{
    A_1, A_3, A_4, EMPTY, FIVE, I_5_1, I_5_3, I_9_4, I_NULL_2, NINE, Pairs, ROW_1, ROW_2, ROW_3,
    ROW_4, bytes, declared, mark, store,
};
use audit::{CheckReport, audit};
use byte_map::{Bytes, KeyMap};
use page_check::{check_page, given_ranges, row_ranges};
use schema_version::Schema;
use std::alloc::{AllocError, Global};
use std::test::*;

/// The key of a pair of the index for the value 9 and row 1, and that of `a` in row 5.
const I_9_1: &[u8] = b"\x58\0\0\0\x02\x02\x80\0\0\0\0\0\0\x09\x02\x80\0\0\0\0\0\0\x01";

const A_5: &[u8] = b"\x52\0\0\0\x01\x02\x80\0\0\0\0\0\0\x05\0\0\0\x01";

/// Rows 1 with a = 5, 2, 3 with a = 5 and 4 with a = 9, with the index's pairs.
const SOUND: Pairs<'static> = &[
    (ROW_1, EMPTY),
    (A_1, FIVE),
    (ROW_2, EMPTY),
    (ROW_3, EMPTY),
    (A_3, FIVE),
    (ROW_4, EMPTY),
    (A_4, NINE),
    (I_NULL_2, EMPTY),
    (I_5_1, EMPTY),
    (I_5_3, EMPTY),
    (I_9_4, EMPTY),
];

/// The same without the index's pair of row 3, and with one that row 1 does not give.
const DAMAGED: Pairs<'static> = &[
    (ROW_1, EMPTY),
    (A_1, FIVE),
    (ROW_2, EMPTY),
    (ROW_3, EMPTY),
    (A_3, FIVE),
    (ROW_4, EMPTY),
    (A_4, NINE),
    (I_NULL_2, EMPTY),
    (I_5_1, EMPTY),
    (I_9_1, EMPTY),
    (I_9_4, EMPTY),
];

/// Row 1 without its column's pair, whose index pairs are thus of no value, and a column's pair of
/// no row.
const ALONE: Pairs<'static> = &[(ROW_1, EMPTY), (A_5, FIVE), (I_5_1, EMPTY)];

/// What a page counts for, how many ranges of rows it needs, and then of pairs.
type Found = (u64, u64, u64, usize, usize);

/// Adds the pairs from `low` on and below `high`.
fn add(
    all: &mut KeyMap<Bytes>,
    from: &KeyMap<Bytes>,
    low: &Bytes,
    high: &Bytes,
) -> Result<(), AllocError> {
    for entry in from.range(low.as_slice(), high.as_slice()) {
        all.insert(entry.0.clone()?, entry.1.clone()?)?;
    }
    Ok(())
}

/// The key from which on the next page is read, if there is one after so many pairs.
fn end_of(from: &KeyMap<Bytes>, low: &Bytes, limit: usize) -> Result<Option<Bytes>, AllocError> {
    match from.range(low.as_slice(), b"\xff").get(limit) {
        Some(entry) => Ok(Some(entry.0.clone()?)),
        None => Ok(None),
    }
}

fn copy_of(alloc: Global, to: &Option<Bytes>) -> Result<Bytes, AllocError> {
    match to {
        Some(to) => to.clone(),
        None => bytes(alloc, b"\xff"),
    }
}

/// Reads a page and what it needs, and checks it.
fn check_one(
    alloc: Global,
    schema: &Schema,
    from: &KeyMap<Bytes>,
    low: &Bytes,
    to: &Option<Bytes>,
) -> Result<Found, AllocError> {
    let mut view = KeyMap::new(alloc);
    add(&mut view, from, low, &copy_of(alloc, to)?)?;
    let low = low.as_slice();
    let to = match to {
        Some(to) => Some(to.as_slice()),
        None => None,
    };
    let rows = row_ranges(alloc, schema, &view, low, to)?;
    for range in rows.as_slice() {
        add(&mut view, from, &range.0, &range.1)?;
    }
    let given = given_ranges(alloc, schema, &view, low, to)?;
    for range in given.as_slice() {
        add(&mut view, from, &range.0, &range.1)?;
    }
    let CheckReport {
        rows: count,
        missing,
        extra,
    } = check_page(alloc, schema, &view, low, to)?;
    let (rows, given) = (rows.as_slice().len(), given.as_slice().len());
    Ok((count, missing, extra, rows, given))
}

/// What the pages of so many pairs count for, in turn.
fn check_all(alloc: Global, pairs: Pairs, limit: usize) -> Result<Vec<Found>, AllocError> {
    let schema = declared(alloc)?;
    let from = store(alloc, pairs)?;
    let mut found = Vec::new(alloc);
    let mut low = bytes(alloc, EMPTY)?;
    for _i in 0..=pairs.len() {
        let to = end_of(&from, &low, limit)?;
        found.push(check_one(alloc, &schema, &from, &low, &to)?)?;
        match to {
            Some(to) => low = to,
            None => return Ok(found),
        }
    }
    Err(AllocError)
}

/// Whether the pages of so many pairs count for these.
fn are_counted(alloc: Global, pairs: Pairs, limit: usize, wanted: &[Found]) -> bool {
    match check_all(alloc, pairs, limit) {
        Ok(found) => found.as_slice() == wanted,
        Err(_) => false,
    }
}

/// What the pages of so many pairs count for in all.
fn total(alloc: Global, pairs: Pairs, limit: usize) -> Result<(u64, u64, u64), AllocError> {
    let mut sums = (0u64, 0u64, 0u64);
    for (rows, missing, extra, _, _) in &check_all(alloc, pairs, limit)? {
        sums = (
            sums.0.saturating_add(*rows),
            sums.1.saturating_add(*missing),
            sums.2.saturating_add(*extra),
        );
    }
    Ok(sums)
}

/// What the audit of the whole store counts.
fn whole(alloc: Global, pairs: Pairs) -> Result<(u64, u64, u64), AllocError> {
    let report = audit(alloc, &declared(alloc)?, &store(alloc, pairs)?)?;
    Ok((report.rows, report.missing, report.extra))
}

/// Row 4 goes on after the second page, and is read for it, for the third and for the fourth; so are
/// the rows that the index's pairs name.
#[test]
fn pages_of_three_are_counted(rt: HostRuntime) {
    let wanted = [
        (2, 0, 0, 0, 2),
        (2, 1, 0, 1, 2),
        (0, 0, 0, 3, 0),
        (0, 0, 1, 2, 0),
    ];
    assert!(rt; are_counted(rt.alloc(), DAMAGED, 3, &wanted));
}

static SUMS: [(&str, Pairs, (u64, u64, u64)); 3] = [
    ("sound", SOUND, (4, 0, 0)),
    ("damaged", DAMAGED, (4, 1, 1)),
    ("alone", ALONE, (1, 1, 2)),
];

#[test]
fn pages_come_to_the_audit(rt: HostRuntime) {
    for (name, pairs, wanted) in &SUMS {
        assert!(rt; whole(rt.alloc(), *pairs) == Ok(*wanted), "{name}");
        for limit in [1usize, 2, 3, 4, 20] {
            assert!(rt;
                total(rt.alloc(), *pairs, limit) == Ok(*wanted),
                "{name}, by {limit} pairs"
            );
        }
    }
}

#[test]
fn under_refusal_pages_are_counted(rt: HostRuntime) {
    assert!(rt; mark(&rt));
    let found = match total(rt.alloc(), DAMAGED, 4) {
        Err(_) => total(rt.alloc(), DAMAGED, 4),
        found => found,
    };
    assert!(rt; found == Ok((4, 1, 1)));
}
