//! Pairs with an empty value, counted and found by their number in a store of several pages and in
//! a snapshot of it. Keys are one byte, 0 to 199, and every third one has an empty value.
use crate::fixtures::{byte, bytes, mark, set};
use byte_map::KeyMap;
use row_map::{Batch, Expect, RankedView};
use std::alloc::{AllocError, Global};
use txn_store::{PairSnapshot, Store};

/// How many keys there are at first.
const KEYS: u8 = 200;

/// Three changes: a value in place of an empty one, a pair that goes, an empty value in place of
/// another.
const CHANGES: &[(u8, Option<&[u8]>)] = &[(102, Some(b"x")), (3, None), (100, Some(b""))];

/// From which key, to below which, the number asked for, how many there are and the key of that
/// number.
type Case = (u8, u8, usize, usize, Option<u8>);

const BEFORE: &[Case] = &[
    (0, 200, 0, 67, Some(0)),
    (0, 200, 66, 67, Some(198)),
    (0, 200, 67, 67, None),
    (1, 200, 0, 66, Some(3)),
    (100, 103, 0, 1, Some(102)),
    (100, 103, 1, 1, None),
    (100, 102, 0, 0, None),
    (150, 100, 0, 0, None),
    (199, 255, 0, 0, None),
];

const AFTER: &[Case] = &[
    (0, 200, 1, 66, Some(6)),
    (0, 200, 65, 66, Some(198)),
    (0, 200, 66, 66, None),
    (100, 103, 0, 1, Some(100)),
    (102, 106, 0, 1, Some(105)),
];

fn first_batch(alloc: Global) -> Result<Batch, AllocError> {
    let mut batch = Batch::new(alloc);
    for key in 0..KEYS {
        let is_empty = key.checked_rem(3) == Some(0);
        let value: &[u8] = if is_empty { b"" } else { b"v" };
        batch.put(byte(alloc, key)?, bytes(alloc, value)?)?;
    }
    Ok(batch)
}

fn second_batch(alloc: Global) -> Result<Batch, AllocError> {
    let mut batch = Batch::new(alloc);
    for (key, value) in CHANGES {
        let key = byte(alloc, *key)?;
        match value {
            Some(value) => batch.put(key, bytes(alloc, value)?)?,
            None => batch.remove(key)?,
        }
    }
    Ok(batch)
}

/// Writes a batch, once more if memory was short.
fn is_written(alloc: Global, store: &mut Store, batch: &Batch) -> bool {
    let nothing = Expect {
        points: KeyMap::new(alloc),
        key_range: None,
    };
    set(alloc, store, &nothing, batch).is_ok()
}

/// How many of the cases are as they say, up to the first that is not.
fn are_ranked<V: RankedView>(view: &V, cases: &[Case]) -> usize {
    for (place, (low, high, n, count, key)) in cases.iter().enumerate() {
        let (low, high) = ([*low], [*high]);
        let found = view.nth_empty(low.as_slice(), high.as_slice(), *n);
        if view.count_empty(low.as_slice(), high.as_slice()) != *count
            || found.map(|k| k.first().copied()) != key.map(Some)
        {
            return place;
        }
    }
    cases.len()
}

/// A snapshot, taken once more if memory was short.
fn taken(store: &Store) -> Result<PairSnapshot, AllocError> {
    match store.snapshot() {
        Err(AllocError) => store.snapshot(),
        taken => taken,
    }
}

/// How many cases are right of the store at first, of the changed store, and of a snapshot from
/// before the changes.
fn ranked(alloc: Global) -> Result<(usize, usize, usize), AllocError> {
    let mut store = Store::new(alloc);
    let first = first_batch(alloc)?;
    let second = second_batch(alloc)?;
    if !is_written(alloc, &mut store, &first) {
        return Ok((0, 0, 0));
    }
    let before = are_ranked(&store, BEFORE);
    let snapshot = taken(&store)?;
    if !is_written(alloc, &mut store, &second) {
        return Ok((before, 0, 0));
    }
    Ok((
        before,
        are_ranked(&store, AFTER),
        are_ranked(&snapshot, BEFORE),
    ))
}

/// The same, once more if there was no memory for what is handed in.
fn ranked_at_last(alloc: Global) -> Result<(usize, usize, usize), AllocError> {
    match ranked(alloc) {
        Err(AllocError) => ranked(alloc),
        reported => reported,
    }
}

#[test]
fn under_refusal_empty_values_are_counted(rt: HostRuntime) {
    assert!(rt; mark(&rt));
    assert!(rt; ranked_at_last(rt.alloc()) == Ok((BEFORE.len(), AFTER.len(), BEFORE.len())));
}
