//! Pages of the rows with a = 5, which are 1, 3 and 4.
use crate::fixtures::{FIRST, a_is_5, after, inserts, mark, with_rows};
use keycode::Value;
use row_map::Row;
use row_page::{PageFault, RowPage};
use row_query::QueryFault;
use std::alloc::Global;
use std::test::*;
use world::{PageRefusal, Snapshot, World};

// Whether the row has this key and a = 5.
fn is_row(row: &Row, id: i64) -> bool {
    match (row.key.as_slice(), row.cells.as_slice()) {
        ([Value::Int(key)], [(column, Value::Int(a))]) => (*key, *column, *a) == (id, 1, 5),
        _ => false,
    }
}

// Whether the page has these two rows, or the one, and says so of further ones.
fn is_page(page: &RowPage, ids: (i64, Option<i64>), more: bool) -> bool {
    let are_rows = match (page.rows.as_slice(), ids.1) {
        ([row], None) => is_row(row, ids.0),
        ([first, second], Some(id)) => is_row(first, ids.0) && is_row(second, id),
        _ => false,
    };
    are_rows && page.more == more
}

/// What was asked for.
#[derive(Clone, Copy)]
struct Asked {
    moment: u64,
    after: Option<i64>,
    limit: u32,
}

fn page_of(alloc: Global, world: &World, asked: Asked) -> Result<RowPage, PageRefusal> {
    let (Ok(query), Ok(range)) = (a_is_5(alloc), after(alloc, asked.after)) else {
        return Err(PageRefusal::Page(PageFault::Query(QueryFault::Memory)));
    };
    world.query_page(alloc, asked.moment, &FIRST, &query, &range, asked.limit)
}

fn page_kept(alloc: Global, snapshot: &Snapshot, asked: Asked) -> Result<RowPage, PageFault> {
    let (Ok(query), Ok(range)) = (a_is_5(alloc), after(alloc, asked.after)) else {
        return Err(PageFault::Query(QueryFault::Memory));
    };
    snapshot.query_page(alloc, &query, &range, asked.limit)
}

fn has_page(
    alloc: Global,
    world: &World,
    asked: Asked,
    ids: (i64, Option<i64>),
    more: bool,
) -> bool {
    match page_of(alloc, world, asked) {
        Ok(page) => is_page(&page, ids, more),
        Err(_) => false,
    }
}

fn keeps_page(
    alloc: Global,
    snapshot: &Snapshot,
    asked: Asked,
    ids: (i64, Option<i64>),
    more: bool,
) -> bool {
    match page_kept(alloc, snapshot, asked) {
        Ok(page) => is_page(&page, ids, more),
        Err(_) => false,
    }
}

// At most so many rows after this one, at 0.
fn at_most(limit: u32, after: Option<i64>) -> Asked {
    Asked {
        moment: 0,
        after,
        limit,
    }
}

fn pages_are_found(alloc: Global, world: &World) -> bool {
    has_page(alloc, world, at_most(2, None), (1, Some(3)), true)
        && has_page(alloc, world, at_most(2, Some(3)), (4, None), false)
        && has_page(alloc, world, at_most(1, Some(2)), (3, None), true)
}

fn pages_are_kept(alloc: Global, snapshot: &Snapshot) -> bool {
    keeps_page(alloc, snapshot, at_most(2, None), (1, Some(3)), true)
        && keeps_page(alloc, snapshot, at_most(2, Some(3)), (4, None), false)
        && keeps_page(alloc, snapshot, at_most(1, Some(2)), (3, None), true)
}

#[test]
fn a_world_answers_pages(rt: HostRuntime) {
    let world = with_rows(rt.alloc());
    assert!(rt;
        match &world {
            Some(world) => pages_are_found(rt.alloc(), world),
            None => false,
        }
    );
}

// A row with a = 5 is committed after the snapshot was taken.
fn is_kept_and_found(alloc: Global) -> bool {
    let Some(mut world) = with_rows(alloc) else {
        return false;
    };
    let Ok(snapshot) = world.snapshot(0, &FIRST) else {
        return false;
    };
    inserts(alloc, &mut world, (7, 5))
        && pages_are_kept(alloc, &snapshot)
        && has_page(alloc, &world, at_most(2, Some(3)), (4, Some(7)), false)
}

#[test]
fn a_snapshot_answers_pages_as_it_was_taken(rt: HostRuntime) {
    assert!(rt; is_kept_and_found(rt.alloc()));
}

// Why a page is refused.
fn refusal(alloc: Global, world: &World, moment: u64, limit: u32) -> Option<PageRefusal> {
    let after = None;
    let asked = Asked {
        moment,
        after,
        limit,
    };
    page_of(alloc, world, asked).err()
}

fn refuses_in_order(alloc: Global) -> bool {
    let Some(world) = with_rows(alloc) else {
        return false;
    };
    let Ok(snapshot) = world.snapshot(0, &FIRST) else {
        return false;
    };
    let ended = PageRefusal::LeaseEnded { until: 10, now: 10 };
    let bad_limit = PageRefusal::Page(PageFault::BadLimit);
    refusal(alloc, &world, 10, 0) == Some(ended)
        && refusal(alloc, &world, 9, 0) == Some(bad_limit)
        && refusal(alloc, &world, 9, 1001) == Some(bad_limit)
        && refusal(alloc, &world, 9, 1000).is_none()
        && page_kept(alloc, &snapshot, at_most(0, None)).err() == Some(PageFault::BadLimit)
}

#[test]
fn a_lease_comes_before_the_limit(rt: HostRuntime) {
    assert!(rt; refuses_in_order(rt.alloc()));
}

// Whether the snapshot has its second page, asked once more if memory was short.
fn keeps_second(alloc: Global, snapshot: &Snapshot) -> bool {
    let asked = at_most(2, Some(3));
    match page_kept(alloc, snapshot, asked) {
        Err(PageFault::Query(QueryFault::Memory)) => {
            keeps_page(alloc, snapshot, asked, (4, None), false)
        }
        Ok(page) => is_page(&page, (4, None), false),
        Err(_) => false,
    }
}

fn taken(alloc: Global) -> Option<Snapshot> {
    with_rows(alloc)?.snapshot(0, &FIRST).ok()
}

#[test]
fn under_refusal_a_snapshot_answers_a_page(rt: HostRuntime) {
    let snapshot = taken(rt.alloc());
    assert!(rt; mark(&rt));
    assert!(rt;
        match &snapshot {
            Some(snapshot) => keeps_second(rt.alloc(), snapshot),
            None => false,
        }
    );
}
