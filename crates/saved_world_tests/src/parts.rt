//! A checkpoint that is written part by part: its head, and its pairs in pages.
use crate::by_hand::{HEAD, PAIRS, page, whole};
use saved_world::{Pages, load, pages_of, save_head};
use std::alloc::Global;
use world::Checkpoint;

// The worked checkpoint.
fn checkpoint(alloc: Global) -> Option<Checkpoint> {
    let bytes = whole(alloc, HEAD, PAIRS).ok()?;
    load(alloc, bytes.as_slice()).ok()
}

// Whether the next page has the pairs in this range; if it is empty, whether there is none.
fn is_page(alloc: Global, pages: &mut Pages<'_>, limit: usize, from: usize, to: usize) -> bool {
    let Some(pairs) = PAIRS.get(from..to) else {
        return false;
    };
    let Ok(wanted) = page(alloc, pairs) else {
        return false;
    };
    match pages.next_page(alloc, limit) {
        Ok(Some(bytes)) => !pairs.is_empty() && bytes == wanted,
        Ok(None) => pairs.is_empty(),
        Err(_) => false,
    }
}

fn are_pages(alloc: Global, limit: usize, ends: &[usize]) -> bool {
    let Some(checkpoint) = checkpoint(alloc) else {
        return false;
    };
    let mut pages = pages_of(&checkpoint);
    let mut from = 0usize;
    for to in ends {
        if !is_page(alloc, &mut pages, limit, from, *to) {
            return false;
        }
        from = *to;
    }
    true
}

/// A limit, and how many pairs came before the end of each page; where that stays, there is none.
static LIMITS: [(usize, &[usize]); 6] = [
    (0, &[1, 2, 3, 4, 5, 6, 7, 7, 7]),
    (1, &[1, 2, 3, 4, 5, 6, 7, 7, 7]),
    (3, &[3, 6, 7, 7, 7]),
    (7, &[7, 7, 7]),
    (8, &[7, 7, 7]),
    (usize::MAX, &[7, 7, 7]),
];

#[test]
fn pages_have_all_pairs_in_order(rt: HostRuntime) {
    for (limit, ends) in &LIMITS {
        assert!(rt; are_pages(rt.alloc(), *limit, ends), "{limit}");
    }
}

fn is_head_saved(alloc: Global) -> bool {
    let Some(checkpoint) = checkpoint(alloc) else {
        return false;
    };
    match save_head(alloc, &checkpoint) {
        Ok(bytes) => bytes.as_slice() == HEAD,
        Err(_) => false,
    }
}

#[test]
fn a_head_has_all_but_the_pairs(rt: HostRuntime) {
    assert!(rt; is_head_saved(rt.alloc()));
}
