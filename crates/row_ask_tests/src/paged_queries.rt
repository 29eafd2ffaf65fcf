//! Queries over a store that is read in pages of so many pairs.
use crate::fixtures::{
    A_1, A_3, A_4, EMPTY, FIVE, I_5_1, I_5_3, I_9_4, I_NULL_2, NINE, Pairs, Plain, ROW_1, ROW_2,
    ROW_3, ROW_4, key, mark, stepped, store, value,
};
use Asked::{Between, Equal, Key};
use Plain::{Int, Null};
use Stand::{Indexed, Scanned};
use byte_map::{Bytes, KeyMap};
use collections::List;
use keycode::Values;
use row_ask::{
    IndexRange, Remaining, begin, gather_page, keys_of, row_range, rows_of, scan_page, table_end,
};
use row_map::Row;
use row_query::{Cond, Path, Query, QueryFault, answer};
use schema_version::ElementState::WriteOnly;
use schema_version::Schema;
use std::alloc::{AllocError, Global};
use std::collections::BTreeSet;
use std::test::*;

/// A condition as a literal: a key, or a column with its value or its bounds.
#[derive(Clone, Copy)]
enum Asked {
    Key(Plain),
    Equal(u32, Plain),
    Between(u32, Plain, Plain),
}

fn condition(alloc: Global, asked: Asked) -> Result<Cond, AllocError> {
    match asked {
        Asked::Key(plain) => Ok(Cond::Key(key(alloc, plain)?)),
        Asked::Equal(column, plain) => Ok(Cond::Equal {
            column,
            value: value(alloc, plain)?,
        }),
        Asked::Between(column, low, high) => Ok(Cond::Between {
            column,
            low: Some(value(alloc, low)?),
            high: Some(value(alloc, high)?),
        }),
    }
}

/// A query of the column 1 of table 1.
fn query(alloc: Global, asked: &[Asked]) -> Result<Query, AllocError> {
    let mut conditions = Vec::new(alloc);
    for asked in asked {
        conditions.push(condition(alloc, *asked)?)?;
    }
    let column = 1u32;
    Ok(Query {
        table: 1,
        columns: List::new(vec![in alloc; column]?),
        conditions: List::new(conditions),
    })
}

/// Rows 1 with a = 5, 2, 3 with a = 5 and 4 with a = 9, with the index's pairs.
const INDEXED: Pairs<'static> = &[
    (ROW_1, EMPTY),
    (A_1, FIVE),
    (ROW_2, EMPTY),
    (ROW_3, EMPTY),
    (A_3, FIVE),
    (ROW_4, EMPTY),
    (A_4, NINE),
    (I_5_1, EMPTY),
    (I_NULL_2, EMPTY),
    (I_5_3, EMPTY),
    (I_9_4, EMPTY),
];

/// At most so many pairs from `low` on and below `high`, and how far they go.
fn read(
    alloc: Global,
    from: &KeyMap<Bytes>,
    low: &[u8],
    high: &[u8],
    limit: usize,
) -> Result<(KeyMap<Bytes>, Bytes), AllocError> {
    let mut page = KeyMap::new(alloc);
    let mut left = limit;
    for entry in from.range(low, high) {
        if left == 0 {
            return Ok((page, Bytes::from_slice(alloc, entry.0.as_slice())?));
        }
        page.insert(entry.0.clone()?, entry.1.clone()?)?;
        left -= 1;
    }
    Ok((page, Bytes::from_slice(alloc, high)?))
}

fn add_all(all: &mut Vec<Row>, rows: &List<Row>) -> Result<(), AllocError> {
    for row in rows.as_slice() {
        all.push(row.clone()?)?;
    }
    Ok(())
}

fn by_keys(
    alloc: Global,
    schema: &Schema,
    from: &KeyMap<Bytes>,
    query: &Query,
    keys: &[Values],
) -> Result<Vec<Row>, AllocError> {
    let mut all = Vec::new(alloc);
    for at in 0..keys.len() {
        let (low, high) = row_range(alloc, query.table, keys[at].as_slice())?;
        let (page, _) = read(alloc, from, low.as_slice(), high.as_slice(), 1000)?;
        let rows = rows_of(alloc, schema, query, &keys[at..at + 1], &page)?;
        add_all(&mut all, &rows)?;
    }
    Ok(all)
}

fn gathered(
    alloc: Global,
    from: &KeyMap<Bytes>,
    range: &mut IndexRange,
    limit: usize,
) -> Result<List<Values>, AllocError> {
    let mut keys = BTreeSet::new(alloc);
    for _i in 0..100 {
        if range.is_read() {
            break;
        }
        let (page, to) = read(
            alloc,
            from,
            range.low.as_slice(),
            range.high.as_slice(),
            limit,
        )?;
        gather_page(alloc, range, &mut keys, &page, to.as_slice())?;
    }
    keys_of(alloc, keys)
}

/// The page of a table from `low` on: its rows, and from where on to read the next one.
fn scan_once(
    alloc: Global,
    (schema, query): (&Schema, &Query),
    from: &KeyMap<Bytes>,
    low: &Bytes,
    limit: usize,
    all: &mut Vec<Row>,
) -> Result<Option<Bytes>, AllocError> {
    let end = table_end(alloc, query.table)?;
    let (page, to) = read(alloc, from, low.as_slice(), end.as_slice(), limit)?;
    let found = scan_page(alloc, schema, query, low.as_slice(), &page, to.as_slice())?;
    add_all(all, &found.rows)?;
    match &found.next {
        None => Ok(None),
        Some(next) => Ok(Some(next.clone()?)),
    }
}

fn scanned(
    alloc: Global,
    asked: (&Schema, &Query),
    from: &KeyMap<Bytes>,
    start: &Bytes,
    limit: usize,
) -> Result<Vec<Row>, AllocError> {
    let mut all = Vec::new(alloc);
    let mut low = start.clone()?;
    for _i in 0..100 {
        match scan_once(alloc, asked, from, &low, limit, &mut all)? {
            None => return Ok(all),
            Some(next) => low = next,
        }
    }
    Ok(Vec::new(alloc))
}

/// The rows that are found page by page, and by which path.
fn found_by_pages(
    alloc: Global,
    schema: &Schema,
    from: &KeyMap<Bytes>,
    query: &Query,
    limit: usize,
) -> Result<(Path, Vec<Row>), QueryFault> {
    let mut remaining = begin(alloc, schema, query)?;
    match &mut remaining {
        Remaining::Rows(keys) => Ok((
            Path::Key,
            by_keys(alloc, schema, from, query, keys.as_slice())?,
        )),
        Remaining::Index(range) => {
            let number = range.number;
            let keys = gathered(alloc, from, range, limit)?;
            Ok((
                Path::Index(number),
                by_keys(alloc, schema, from, query, keys.as_slice())?,
            ))
        }
        Remaining::Scan(low) => Ok((
            Path::Scan,
            scanned(alloc, (schema, query), from, low, limit)?,
        )),
    }
}

/// Whether the index is public.
#[derive(Clone, Copy)]
enum Stand {
    Indexed,
    Scanned,
}

/// By which path, how many rows, and whether they are the plain answer.
fn compare(
    alloc: Global,
    schema: &Schema,
    from: &KeyMap<Bytes>,
    query: &Query,
    limit: usize,
) -> Result<(Path, usize, bool), QueryFault> {
    let (path, rows) = found_by_pages(alloc, schema, from, query, limit)?;
    let plain = answer(alloc, schema, from, query)?;
    Ok((path, rows.len(), rows.as_slice() == plain.as_slice()))
}

/// The same of a query of the indexed store.
fn compared_once(
    alloc: Global,
    stand: Stand,
    asked: &[Asked],
    limit: usize,
) -> Result<(Path, usize, bool), QueryFault> {
    let schema = match stand {
        Indexed => stepped(alloc, &[])?,
        Scanned => stepped(alloc, &[WriteOnly])?,
    };
    let query = query(alloc, asked)?;
    let from = store(alloc, INDEXED)?;
    compare(alloc, &schema, &from, &query, limit)
}

/// The same, asked once more if memory was short.
fn compared(
    alloc: Global,
    stand: Stand,
    asked: &[Asked],
    limit: usize,
) -> Result<(Path, usize, bool), QueryFault> {
    match compared_once(alloc, stand, asked, limit) {
        Err(QueryFault::Memory) => compared_once(alloc, stand, asked, limit),
        reported => reported,
    }
}

/// The conditions, the path and the number of rows.
static FOUND: [(&str, Stand, &[Asked], Path, usize); 9] = [
    ("a key", Indexed, &[Key(Int(3))], Path::Key, 1),
    ("a key of no row", Indexed, &[Key(Int(7))], Path::Key, 0),
    (
        "a key of a row with another value",
        Indexed,
        &[Key(Int(3)), Equal(1, Int(9))],
        Path::Key,
        0,
    ),
    ("a value", Indexed, &[Equal(1, Int(5))], Path::Index(2), 2),
    (
        "both ends",
        Indexed,
        &[Between(1, Int(5), Int(9))],
        Path::Index(2),
        3,
    ),
    ("no value", Indexed, &[Equal(1, Null)], Path::Index(2), 1),
    ("no condition", Indexed, &[], Path::Scan, 4),
    (
        "an index that is not read",
        Scanned,
        &[Equal(1, Int(5))],
        Path::Scan,
        2,
    ),
    (
        "a part of the table",
        Scanned,
        &[Between(1, Int(6), Int(9))],
        Path::Scan,
        1,
    ),
];

#[test]
fn pages_give_the_plain_answer(rt: HostRuntime) {
    for (name, stand, asked, path, count) in &FOUND {
        for limit in [4usize, 5, 6, 7, 20] {
            let found = compared(rt.alloc(), *stand, *asked, limit);
            assert!(rt;
                found == Ok((*path, *count, true)),
                "{name}, by {limit} pairs"
            );
        }
    }
}

/// One query for each path.
static ONE_EACH: [(&str, &[Asked], Path, usize); 3] = [
    ("a key", &[Key(Int(3))], Path::Key, 1),
    ("a value", &[Equal(1, Int(5))], Path::Index(2), 2),
    ("no condition", &[], Path::Scan, 4),
];

#[test]
fn under_refusal_each_path_gives_the_plain_answer(rt: HostRuntime) {
    assert!(rt; mark(&rt));
    for (name, asked, path, count) in &ONE_EACH {
        let found = compared(rt.alloc(), Indexed, *asked, 5);
        assert!(rt; found == Ok((*path, *count, true)), "{name}");
    }
}

#[test]
fn under_refusal_a_query_with_a_fault_is_refused(rt: HostRuntime) {
    assert!(rt; mark(&rt));
    let found = compared(rt.alloc(), Indexed, &[Equal(2, Int(5))], 5);
    assert!(rt; found == Err(QueryFault::NotPublic { column: 2 }));
}
