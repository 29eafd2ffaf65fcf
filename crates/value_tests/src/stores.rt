//! What a store writes, and what it refuses.
use crate::fixtures::{byte, byte_or_none, mark, set, writes, written};
use byte_map::KeyMap;
use row_map::{Batch, Expect, KeyRange, ReadView};
use std::alloc::{AllocError, Global};
use txn_store::{Range, SetFault, Store};

/// Writes of a byte, or of none, to keys of a byte.
type Writes<'a> = &'a [(u8, Option<u8>)];

/// The keys from the first to below the second, with their pairs; no range is expected if the two
/// are equal.
type Within<'a> = (u8, u8, Writes<'a>);

const NO_RANGE: (u8, u8, &[(u8, Option<u8>)]) = (0, 0, &[]);

/// 1, 3 and 5, with ten times the key.
const THREE: &[(u8, Option<u8>)] = &[(5, Some(50)), (1, Some(10)), (3, Some(30))];

fn key_range(alloc: Global, (low, high, wanted): Within) -> Result<Option<KeyRange>, AllocError> {
    if low == high {
        return Ok(None);
    }
    let low = byte(alloc, low)?;
    let high = byte(alloc, high)?;
    let pairs = written(alloc, wanted)?;
    Ok(Some(KeyRange { low, high, pairs }))
}

fn points(alloc: Global, wanted: Writes) -> Result<ReadView, AllocError> {
    let mut points = KeyMap::new(alloc);
    for (key, value) in wanted {
        let key = byte(alloc, *key)?;
        points.insert(key, byte_or_none(alloc, *value)?)?;
    }
    Ok(points)
}

fn expect(alloc: Global, wanted: Writes, within: Within) -> Result<Expect, AllocError> {
    let points = points(alloc, wanted)?;
    let key_range = key_range(alloc, within)?;
    Ok(Expect { points, key_range })
}

fn batch(alloc: Global, made: Writes) -> Result<Batch, AllocError> {
    let mut batch = Batch::new(alloc);
    batch.note_all(writes(alloc, made)?)?;
    Ok(batch)
}

/// Sets a store, and gives the key of the conflict, or none; 0 if a call that found no memory
/// changed something.
fn reported(alloc: Global, store: &mut Store, expected: &Expect, batch: &Batch) -> Option<u8> {
    match set(alloc, store, expected, batch) {
        Ok(()) => None,
        Err(SetFault::Conflict { key }) => key.as_slice().first().copied(),
        Err(SetFault::Memory) => Some(0),
    }
}

/// The same if these points and this range are expected, and these writes are made.
fn conflict_of(
    alloc: Global,
    store: &mut Store,
    wanted: Writes,
    within: Within,
    made: Writes,
) -> Result<Option<u8>, AllocError> {
    let expected = expect(alloc, wanted, within)?;
    let batch = batch(alloc, made)?;
    Ok(reported(alloc, store, &expected, &batch))
}

/// A store of the three pairs.
fn three(alloc: Global) -> Result<Store, AllocError> {
    let mut store = Store::new(alloc);
    conflict_of(alloc, &mut store, [].as_slice(), NO_RANGE, THREE)?;
    Ok(store)
}

/// Whether these are the pairs, in their order.
fn go_over(mut range: Range, wanted: &[(u8, u8)]) -> bool {
    for (key, value) in wanted {
        match range.next() {
            None => return false,
            Some((found, content)) => {
                if found != [*key].as_slice() || content != [*value].as_slice() {
                    return false;
                }
            }
        }
    }
    range.next().is_none()
}

/// A conflict's key, if there is one, the number of pairs, whether there is none, and whether they
/// are those that were wanted.
type Left = Result<(Option<u8>, usize, bool, bool), AllocError>;

/// The key of the conflict, if there is one, when such writes are made to the three pairs, how many
/// pairs are left, whether there is none, and whether these are they.
fn sets(alloc: Global, wanted: Writes, within: Within, made: Writes, left: &[(u8, u8)]) -> Left {
    let mut store = three(alloc)?;
    let reported = conflict_of(alloc, &mut store, wanted, within, made)?;
    let are = go_over(store.range([0].as_slice(), [255].as_slice()), left);
    Ok((reported, store.len(), store.is_empty(), are))
}

/// The same, once more if there was no memory for what is handed in.
fn sets_at_last(
    alloc: Global,
    wanted: Writes,
    within: Within,
    made: Writes,
    left: &[(u8, u8)],
) -> Left {
    match sets(alloc, wanted, within, made, left) {
        Err(AllocError) => sets(alloc, wanted, within, made, left),
        reported => reported,
    }
}

/// Points and a range that are expected, the writes, and the conflict with the pairs that are left.
const SETS: &[(
    Writes<'static>,
    Within<'static>,
    Writes<'static>,
    Option<u8>,
    &[(u8, u8)],
)] = &[
    (
        &[(1, Some(11))],
        NO_RANGE,
        &[(7, Some(70)), (1, None)],
        Some(1),
        &[(1, 10), (3, 30), (5, 50)],
    ),
    (
        &[(2, Some(20))],
        NO_RANGE,
        &[(7, Some(70)), (1, None)],
        Some(2),
        &[(1, 10), (3, 30), (5, 50)],
    ),
    (
        &[(5, None), (3, None)],
        NO_RANGE,
        &[(1, None)],
        Some(3),
        &[(1, 10), (3, 30), (5, 50)],
    ),
    (
        &[],
        (0, 4, &[(1, Some(10))]),
        &[(1, None)],
        Some(3),
        &[(1, 10), (3, 30), (5, 50)],
    ),
    (
        &[],
        (1, 4, &[(1, Some(10)), (2, Some(20))]),
        &[(1, None)],
        Some(2),
        &[(1, 10), (3, 30), (5, 50)],
    ),
    (
        &[],
        (1, 4, &[(1, Some(10)), (3, Some(31))]),
        &[(1, None)],
        Some(3),
        &[(1, 10), (3, 30), (5, 50)],
    ),
    (
        &[(1, None)],
        (2, 9, &[(5, Some(50))]),
        &[(1, None)],
        Some(1),
        &[(1, 10), (3, 30), (5, 50)],
    ),
    (
        &[(5, None)],
        (2, 9, &[(5, Some(50))]),
        &[(1, None)],
        Some(3),
        &[(1, 10), (3, 30), (5, 50)],
    ),
    (
        &[(1, Some(10)), (2, None)],
        (3, 6, &[(3, Some(30)), (5, Some(50))]),
        &[(2, Some(20)), (3, Some(33)), (5, None), (2, Some(21))],
        None,
        &[(1, 10), (2, 21), (3, 33)],
    ),
    (&[], NO_RANGE, &[(1, None), (3, None), (5, None)], None, &[]),
];

#[test]
fn under_refusal_writes_are_made_or_the_least_conflict_is_reported(rt: HostRuntime) {
    assert!(rt; mark(&rt));
    for (wanted, within, made, reported, left) in SETS {
        let want = (*reported, left.len(), left.is_empty(), true);
        assert!(rt;
            sets_at_last(rt.alloc(), wanted, *within, made, left) == Ok(want),
            "{wanted:?} {within:?}"
        );
    }
}
