//! Stores of more than a page, beside what a snapshot keeps.
use crate::fixtures::{byte, bytes, mark, set};
use byte_map::KeyMap;
use row_map::{Batch, Expect, PairView};
use std::alloc::{AllocError, Global};
use txn_store::{PairSnapshot, Store};

/// Notes that a key of two bytes is put or removed.
fn note(alloc: Global, batch: &mut Batch, number: u16, is_put: bool) -> Result<(), AllocError> {
    let key = bytes(alloc, number.to_be_bytes().as_slice())?;
    if is_put {
        batch.put(key, byte(alloc, 1)?)
    } else {
        batch.remove(key)
    }
}

/// A batch that puts or removes the keys from 0 to below this one.
fn batch(alloc: Global, count: u16, is_put: bool) -> Result<Batch, AllocError> {
    let mut batch = Batch::new(alloc);
    for number in 0..count {
        note(alloc, &mut batch, number, is_put)?;
    }
    Ok(batch)
}

/// How many pairs a view gives, one after another from the least key on.
fn walked<P: PairView>(view: &P) -> usize {
    let mut from = 0u16;
    for count in 0..200 {
        match view.next_at(from.to_be_bytes().as_slice()) {
            Some(([high, low], _)) => from = u16::from_be_bytes([*high, *low]).wrapping_add(1),
            _ => return count,
        }
    }
    200
}

/// How many pairs a range gives.
fn ranged(store: &Store) -> usize {
    let high = [255];
    let mut range = store.range([].as_slice(), high.as_slice());
    for count in 0..200 {
        if range.next().is_none() {
            return count;
        }
    }
    200
}

/// A snapshot, taken once more if memory was short.
fn snapshot(store: &Store) -> Option<PairSnapshot> {
    match store.snapshot() {
        Ok(taken) => Some(taken),
        Err(AllocError) => store.snapshot().ok(),
    }
}

/// Puts or removes the keys from 0 to below this one, and tells whether that was done.
fn is_set(alloc: Global, store: &mut Store, count: u16, is_put: bool) -> Result<bool, AllocError> {
    let batch = batch(alloc, count, is_put)?;
    let nothing = Expect {
        points: KeyMap::new(alloc),
        key_range: None,
    };
    Ok(set(alloc, store, &nothing, &batch).is_ok())
}

/// How many pairs a walk over a snapshot finds once 45 keys were removed; none if a call could not
/// be made.
fn found_behind(alloc: Global, store: &mut Store) -> Result<usize, AllocError> {
    let Some(snapshot) = snapshot(store) else {
        return Ok(0);
    };
    let is_removed = is_set(alloc, store, 45, false)?;
    Ok(if is_removed { walked(&snapshot) } else { 0 })
}

/// Whether 45 keys could be put after the first ones, how many pairs a range gives then, how many a
/// snapshot has, and how many are left once they are removed.
fn counts(alloc: Global, first: u16) -> Result<(bool, usize, usize, usize), AllocError> {
    let mut store = Store::new(alloc);
    let is_begun = is_set(alloc, &mut store, first, true)?;
    let is_put = is_set(alloc, &mut store, 45, true)?;
    let given = ranged(&store);
    let found = found_behind(alloc, &mut store)?;
    Ok((is_begun && is_put, given, found, store.len()))
}

/// The same, once more if there was no memory for what is handed in.
fn counts_at_last(alloc: Global, first: u16) -> Result<(bool, usize, usize, usize), AllocError> {
    match counts(alloc, first) {
        Err(AllocError) => counts(alloc, first),
        reported => reported,
    }
}

/// A page is cut after 44 pairs: 45 that are put at once take two, and a 45th that comes after 44
/// cuts their page.
#[test]
fn under_refusal_pages_are_cut_and_a_snapshot_stays(rt: HostRuntime) {
    assert!(rt; mark(&rt));
    for first in [0, 44] {
        assert!(rt;
            counts_at_last(rt.alloc(), first) == Ok((true, 45, 45, 0)),
            "behind {first}"
        );
    }
}
