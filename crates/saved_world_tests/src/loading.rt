//! A checkpoint that is read part by part: a page that is refused changes nothing.
use crate::by_hand::{EMPTY_HEAD, HEAD, OTHER_HEAD, PAIRS, page, parts_in, whole};
use checkpoint_code::PageFault;
use saved_world::{LoadFault, Loading, save};
use std::alloc::Global;
use world::CheckpointFault;

/// What is wrong with the bytes of a page.
#[derive(Clone, Copy)]
enum Flaw {
    Nothing,
    /// There is none.
    Empty,
    /// The last one is missing.
    Cut,
    /// One follows.
    Longer,
}

use Flaw::{Cut, Empty, Longer, Nothing};

/// From which pair to which a page is, what is wrong with it, and the answer.
type Step = (usize, usize, Flaw, Result<(), LoadFault>);

/// A name, the head, the pages, and the answer at the end: how many pairs the checkpoint has.
type Case = (
    &'static str,
    &'static [u8],
    &'static [Step],
    Result<usize, CheckpointFault>,
);

static CASES: [Case; 11] = [
    (
        "all pages in order",
        HEAD,
        &[
            (0, 3, Nothing, Ok(())),
            (3, 6, Nothing, Ok(())),
            (6, 7, Nothing, Ok(())),
        ],
        Ok(7),
    ),
    ("one page", HEAD, &[(0, 7, Nothing, Ok(()))], Ok(7)),
    (
        "each page twice",
        HEAD,
        &[
            (0, 3, Nothing, Ok(())),
            (0, 3, Nothing, Err(LoadFault::Unordered)),
            (3, 7, Nothing, Ok(())),
            (3, 7, Nothing, Err(LoadFault::Unordered)),
        ],
        Ok(7),
    ),
    (
        "pages that overlap",
        HEAD,
        &[
            (0, 3, Nothing, Ok(())),
            (2, 5, Nothing, Err(LoadFault::Unordered)),
            (0, 1, Nothing, Err(LoadFault::Unordered)),
            (3, 7, Nothing, Ok(())),
        ],
        Ok(7),
    ),
    (
        "the last page first",
        HEAD,
        &[
            (3, 7, Nothing, Ok(())),
            (0, 3, Nothing, Err(LoadFault::Unordered)),
        ],
        Err(CheckpointFault::BadPairs),
    ),
    (
        "pages that are not read",
        HEAD,
        &[
            (0, 3, Empty, Err(LoadFault::Page(PageFault::Version))),
            (0, 3, Nothing, Ok(())),
            (3, 7, Cut, Err(LoadFault::Page(PageFault::Malformed))),
            (3, 7, Longer, Err(LoadFault::Page(PageFault::Trailing))),
            (3, 7, Nothing, Ok(())),
        ],
        Ok(7),
    ),
    (
        "pages without pairs",
        HEAD,
        &[
            (0, 0, Nothing, Ok(())),
            (0, 7, Nothing, Ok(())),
            (3, 3, Nothing, Ok(())),
        ],
        Ok(7),
    ),
    (
        "a page is left out, and with it a row of a value",
        HEAD,
        &[(0, 2, Nothing, Ok(())), (3, 7, Nothing, Ok(()))],
        Err(CheckpointFault::BadPairs),
    ),
    ("all pages are left out", HEAD, &[], Ok(0)),
    (
        "another opening, without the index",
        EMPTY_HEAD,
        &[(0, 7, Nothing, Ok(()))],
        Err(CheckpointFault::BadPairs),
    ),
    (
        "another opening, where the column has texts",
        OTHER_HEAD,
        &[(0, 6, Nothing, Ok(()))],
        Err(CheckpointFault::BadPairs),
    ),
];

fn flawed(alloc: Global, from: usize, to: usize, flaw: Flaw) -> Option<Vec<u8>> {
    let pairs = PAIRS.get(from..to)?;
    let mut bytes = page(alloc, pairs).ok()?;
    match flaw {
        Nothing => {}
        Empty => bytes.clear(),
        Cut => bytes.truncate(bytes.len().saturating_sub(1)),
        Longer => bytes.push(0).ok()?,
    }
    Some(bytes)
}

fn is_added(alloc: Global, loading: &mut Loading, step: &Step) -> bool {
    match flawed(alloc, step.0, step.1, step.2) {
        Some(bytes) => loading.add(alloc, bytes.as_slice()) == step.3,
        None => false,
    }
}

fn are_added(alloc: Global, loading: &mut Loading, steps: &[Step]) -> bool {
    for step in steps {
        if !is_added(alloc, loading, step) {
            return false;
        }
    }
    true
}

// The bytes of the checkpoint in which the loading ends.
fn ended(alloc: Global, loading: Loading) -> Result<Vec<u8>, CheckpointFault> {
    let checkpoint = loading.end(alloc)?;
    Ok(save(alloc, &checkpoint)?)
}

// Whether it is a checkpoint of this head and the first so many pairs, or refused so.
fn is_ended(
    alloc: Global,
    loading: Loading,
    head: &[u8],
    wanted: &Result<usize, CheckpointFault>,
) -> bool {
    match (ended(alloc, loading), wanted) {
        (Ok(bytes), Ok(count)) => is_whole(alloc, bytes.as_slice(), head, *count),
        (Err(fault), Err(wanted)) => fault == *wanted,
        _ => false,
    }
}

fn is_whole(alloc: Global, bytes: &[u8], head: &[u8], count: usize) -> bool {
    let Some(pairs) = PAIRS.get(..count) else {
        return false;
    };
    match whole(alloc, head, pairs) {
        Ok(wanted) => parts_in(bytes) == wanted.as_slice(),
        Err(_) => false,
    }
}

fn is_right(alloc: Global, case: &Case) -> bool {
    let Ok(mut loading) = Loading::begin(alloc, case.1) else {
        return false;
    };
    are_added(alloc, &mut loading, case.2) && is_ended(alloc, loading, case.1, &case.3)
}

#[test]
fn pages_are_added_in_order(rt: HostRuntime) {
    for case in &CASES {
        assert!(rt; is_right(rt.alloc(), case), "{}", case.0);
    }
}
