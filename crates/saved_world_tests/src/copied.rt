//! A checkpoint that is copied part by part: a call that was out of memory is asked once more.
use crate::by_hand::{HEAD, PAIRS, whole};
use crate::saved::is_saved_as;
use crate::worlds::mark;
use saved_world::{Loading, Pages, load, pages_of, save_head};
use std::alloc::{AllocError, Global};
use world::{Checkpoint, CheckpointFault};

fn head_of(alloc: Global, checkpoint: &Checkpoint) -> Result<Vec<u8>, AllocError> {
    match save_head(alloc, checkpoint) {
        Ok(head) => Ok(head),
        Err(_) => save_head(alloc, checkpoint),
    }
}

fn next_page(alloc: Global, pages: &mut Pages<'_>) -> Result<Option<Vec<u8>>, AllocError> {
    match pages.next_page(alloc, 2) {
        Ok(page) => Ok(page),
        Err(_) => pages.next_page(alloc, 2),
    }
}

fn begun(alloc: Global, head: &[u8]) -> Result<Loading, AllocError> {
    match Loading::begin(alloc, head) {
        Ok(loading) => Ok(loading),
        Err(_) => match Loading::begin(alloc, head) {
            Ok(loading) => Ok(loading),
            Err(_) => Err(AllocError),
        },
    }
}

fn is_added(alloc: Global, loading: &mut Loading, page: &[u8]) -> bool {
    loading.add(alloc, page).is_ok() || loading.add(alloc, page).is_ok()
}

// How many pages were added.
fn add_all(
    alloc: Global,
    loading: &mut Loading,
    checkpoint: &Checkpoint,
) -> Result<u32, AllocError> {
    let mut pages = pages_of(checkpoint);
    for count in 0..10 {
        let Some(page) = next_page(alloc, &mut pages)? else {
            return Ok(count);
        };
        if !is_added(alloc, loading, page.as_slice()) {
            return Err(AllocError);
        }
    }
    Err(AllocError)
}

// The end of a loading cannot be asked for twice.
fn copied_once(alloc: Global, checkpoint: &Checkpoint) -> Result<Checkpoint, CheckpointFault> {
    let head = head_of(alloc, checkpoint)?;
    let mut loading = begun(alloc, head.as_slice())?;
    add_all(alloc, &mut loading, checkpoint)?;
    loading.end(alloc)
}

fn copied(alloc: Global, checkpoint: &Checkpoint) -> Result<Checkpoint, CheckpointFault> {
    match copied_once(alloc, checkpoint) {
        Err(CheckpointFault::Memory) => copied_once(alloc, checkpoint),
        answer => answer,
    }
}

fn is_copied<R: Print>(rt: &R, alloc: Global) -> bool {
    let Ok(bytes) = whole(alloc, HEAD, PAIRS) else {
        return false;
    };
    let Ok(checkpoint) = load(alloc, bytes.as_slice()) else {
        return false;
    };
    if !mark(rt) {
        return false;
    }
    match copied(alloc, &checkpoint) {
        Ok(copy) => is_saved_as(alloc, &copy, bytes.as_slice()),
        Err(_) => false,
    }
}

#[test]
fn under_refusal_a_checkpoint_is_copied(rt: HostRuntime) {
    assert!(rt; is_copied(&rt, rt.alloc()));
}
