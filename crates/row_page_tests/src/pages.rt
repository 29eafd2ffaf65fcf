//! Pages of the five rows, each worked out by hand.
use crate::fixtures::{after_short, after_value, declared, mark, query, range, store};
use keycode::{Value, Values};
use row_map::Row;
use row_page::{KeyRange, PageFault, RowPage, answer_page};
use row_query::{Query, QueryFault, answer};
use std::alloc::{AllocError, Global};
use std::test::*;

/// The rows of a page by the two numbers of their keys, and whether there are more.
type Shown = (Vec<(i64, i64)>, bool);

fn number_at(values: &[Value], at: usize) -> i64 {
    if at >= values.len() {
        return -1;
    }
    match &values[at] {
        Value::Int(number) => *number,
        _ => -1,
    }
}

fn keys_of(alloc: Global, rows: &[Row]) -> Result<Vec<(i64, i64)>, AllocError> {
    let mut keys = Vec::new(alloc);
    for row in rows {
        let values = row.key.as_slice();
        keys.push((number_at(values, 0), number_at(values, 1)))?;
    }
    Ok(keys)
}

/// The page of a query in a range.
fn page(alloc: Global, query: &Query, range: &KeyRange, limit: u32) -> Result<RowPage, PageFault> {
    let schema = declared(alloc)?;
    let from = store(alloc)?;
    answer_page(alloc, &schema, &from, query, range, limit)
}

/// What the page of all rows, or of those with this `a`, has, after a key and before another.
fn shown_once(
    alloc: Global,
    equal: Option<(u32, i64)>,
    after: Option<(i64, i64)>,
    before: Option<(i64, i64)>,
    limit: u32,
) -> Result<Shown, PageFault> {
    let query = query(alloc, 1, equal)?;
    let range = range(alloc, after, before)?;
    let page = page(alloc, &query, &range, limit)?;
    Ok((keys_of(alloc, page.rows.as_slice())?, page.more))
}

/// Whether that page has the rows of these keys, and says so of further ones; asked once more if
/// memory was short.
fn has_page(
    alloc: Global,
    asked: (Option<i64>, Option<(i64, i64)>, Option<(i64, i64)>, u32),
    wanted: &[(i64, i64)],
    more: bool,
) -> bool {
    let equal = match asked.0 {
        None => None,
        Some(number) => Some((1u32, number)),
    };
    let mut shown = shown_once(alloc, equal, asked.1, asked.2, asked.3);
    if matches!(&shown, Err(PageFault::Query(QueryFault::Memory))) {
        shown = shown_once(alloc, equal, asked.1, asked.2, asked.3);
    }
    match shown {
        Ok((keys, is_more)) => keys.as_slice() == wanted && is_more == more,
        Err(_) => false,
    }
}

#[test]
fn pages_of_two_are_the_five_rows(rt: HostRuntime) {
    let alloc = rt.alloc();
    assert!(rt; has_page(alloc, (None, None, None, 2), &[(1, 1), (1, 2)], true));
    assert!(rt;
        has_page(
            alloc,
            (None, Some((1, 2)), None, 2),
            &[(2, 1), (2, 7)],
            true
        )
    );
    assert!(rt; has_page(alloc, (None, Some((2, 7)), None, 2), &[(3, 0)], false));
}

#[test]
fn a_page_that_all_rows_fit_has_no_more(rt: HostRuntime) {
    let alloc = rt.alloc();
    let all = &[(1, 1), (1, 2), (2, 1), (2, 7), (3, 0)];
    assert!(rt; has_page(alloc, (None, None, None, 5), all, false));
    assert!(rt; has_page(alloc, (None, None, None, 1000), all, false));
}

#[test]
fn conditions_pass_over_rows(rt: HostRuntime) {
    let alloc = rt.alloc();
    assert!(rt; has_page(alloc, (Some(5), None, None, 1), &[(1, 1)], true));
    assert!(rt; has_page(alloc, (Some(5), Some((1, 1)), None, 1), &[(2, 1)], true));
    assert!(rt; has_page(alloc, (Some(5), Some((2, 1)), None, 1), &[(3, 0)], false));
    assert!(rt; has_page(alloc, (Some(9), None, None, 1), &[(2, 7)], false));
    assert!(rt; has_page(alloc, (Some(8), None, None, 3), &[], false));
}

#[test]
fn a_range_has_neither_of_its_keys(rt: HostRuntime) {
    let alloc = rt.alloc();
    let between = (None, Some((1, 2)), Some((2, 7)), 9);
    assert!(rt; has_page(alloc, between, &[(2, 1)], false));
    assert!(rt; has_page(alloc, (None, None, Some((2, 1)), 1), &[(1, 1)], true));
    assert!(rt; has_page(alloc, (None, None, Some((1, 1)), 9), &[], false));
}

#[test]
fn a_key_that_no_row_has_is_a_bound(rt: HostRuntime) {
    let alloc = rt.alloc();
    assert!(rt; has_page(alloc, (None, Some((1, 5)), None, 1), &[(2, 1)], true));
    assert!(rt;
        has_page(
            alloc,
            (None, Some((-3, 4)), Some((1, 2)), 9),
            &[(1, 1)],
            false
        )
    );
    assert!(rt; has_page(alloc, (None, Some((3, 0)), None, 9), &[], false));
}

#[test]
fn a_range_whose_end_comes_first_is_empty(rt: HostRuntime) {
    let alloc = rt.alloc();
    assert!(rt; has_page(alloc, (None, Some((2, 7)), Some((2, 7)), 9), &[], false));
    assert!(rt; has_page(alloc, (None, Some((2, 7)), Some((1, 2)), 9), &[], false));
}

fn last_key(rows: &[Row]) -> Result<Option<Values>, AllocError> {
    match rows {
        [] => Ok(None),
        [.., last] => Ok(Some(last.key.clone()?)),
    }
}

fn add_all(all: &mut Vec<Row>, rows: &[Row]) -> Result<(), AllocError> {
    for row in rows {
        all.push(row.clone()?)?;
    }
    Ok(())
}

/// Whether the pages of two rows are together what the query answers.
fn are_whole(alloc: Global) -> Result<bool, PageFault> {
    let asked = query(alloc, 1, None)?;
    let mut after: Option<Values> = None;
    let mut all = Vec::new(alloc);
    for _i in 0..9 {
        let before = None;
        let page = page(alloc, &asked, &KeyRange { after, before }, 2)?;
        after = last_key(page.rows.as_slice())?;
        add_all(&mut all, page.rows.as_slice())?;
        if !page.more {
            break;
        }
    }
    let schema = declared(alloc)?;
    let from = store(alloc)?;
    let plain = answer(alloc, &schema, &from, &asked)?;
    Ok(all.len() == 5 && all.as_slice() == plain.as_slice())
}

#[test]
fn pages_are_together_the_plain_answer(rt: HostRuntime) {
    assert!(rt; matches!(are_whole(rt.alloc()), Ok(true)));
}

/// A key that is none of the table's, after which rows are asked for.
#[derive(Clone, Copy)]
enum Wrong {
    OneValue,
    Null,
    Flag,
}

fn range_after(alloc: Global, wrong: Wrong) -> Result<KeyRange, AllocError> {
    match wrong {
        Wrong::OneValue => after_short(alloc),
        Wrong::Null => after_value(alloc, Value::Null),
        Wrong::Flag => after_value(alloc, Value::Bool(true)),
    }
}

/// Why a page of a table is refused, of the rows with a 5 in a column.
fn refusal(
    alloc: Global,
    table: u32,
    column: u32,
    wrong: Wrong,
    limit: u32,
) -> Result<Option<PageFault>, AllocError> {
    let query = query(alloc, table, Some((column, 5)))?;
    let range = range_after(alloc, wrong)?;
    match page(alloc, &query, &range, limit) {
        Ok(_) => Ok(None),
        Err(fault) => Ok(Some(fault)),
    }
}

#[test]
fn the_limit_comes_first(rt: HostRuntime) {
    for limit in [0u32, 1001, 4294967295] {
        let found = refusal(rt.alloc(), 7, 9, Wrong::OneValue, limit);
        assert!(rt; found == Ok(Some(PageFault::BadLimit)));
    }
}

#[test]
fn the_query_comes_before_the_range(rt: HostRuntime) {
    let alloc = rt.alloc();
    let no_table = PageFault::Query(QueryFault::NoTable);
    let not_public = PageFault::Query(QueryFault::NotPublic { column: 9 });
    assert!(rt; refusal(alloc, 7, 9, Wrong::OneValue, 1000) == Ok(Some(no_table)));
    assert!(rt; refusal(alloc, 1, 9, Wrong::OneValue, 1) == Ok(Some(not_public)));
}

#[test]
fn a_key_of_another_shape_is_no_bound(rt: HostRuntime) {
    let wrong_type = PageFault::Query(QueryFault::WrongType);
    for wrong in [Wrong::OneValue, Wrong::Null, Wrong::Flag] {
        let found = refusal(rt.alloc(), 1, 1, wrong, 1);
        assert!(rt; found == Ok(Some(wrong_type)));
    }
}

#[test]
fn under_refusal_a_page_is_answered(rt: HostRuntime) {
    assert!(rt; mark(&rt));
    let asked = (Some(5), Some((1, 1)), None, 1);
    assert!(rt; has_page(rt.alloc(), asked, &[(2, 1)], true));
}
