//! Lists, and a value of two owners.
use crate::fixtures::mark;
use collections::{ArcValue, List};
use std::alloc::{AllocError, Global};

/// Whether a clone of a list, which two owners share, has what was put after the list.
fn is_kept_once(alloc: Global) -> Result<bool, AllocError> {
    let mut list = List::new(vec![in alloc; 3, 1]?);
    list.push(2)?;
    let first = ArcValue::new(alloc, list.clone()?)?;
    let second = first.clone()?;
    Ok(second.get().as_slice() == [3, 1, 2].as_slice())
}

/// The same, asked once more if memory was short.
fn is_kept(alloc: Global) -> Result<bool, AllocError> {
    match is_kept_once(alloc) {
        Err(AllocError) => is_kept_once(alloc),
        reported => reported,
    }
}

#[test]
fn under_refusal_lists_grow_and_are_shared(rt: HostRuntime) {
    assert!(rt; mark(&rt));
    assert!(rt; is_kept(rt.alloc()) == Ok(true));
}
