//! What several tests make of plain literals.
use byte_map::{Bytes, KeyMap};
use row_map::{Batch, Expect, PairView, Write};
use std::alloc::{AllocError, Global};
use txn_store::{SetFault, Store};

/// Prints the line from which on the step for refusals counts allocations.
pub fn mark<R: Print>(rt: &R) -> bool {
    rt.println("from here on").is_ok()
}

pub fn bytes(alloc: Global, content: &[u8]) -> Result<Bytes, AllocError> {
    Bytes::new(Vec::from_slice(alloc, content)?)
}

/// A byte string of one byte.
pub fn byte(alloc: Global, content: u8) -> Result<Bytes, AllocError> {
    bytes(alloc, [content].as_slice())
}

/// A byte string of one byte, if there is one.
pub fn byte_or_none(alloc: Global, content: Option<u8>) -> Result<Option<Bytes>, AllocError> {
    match content {
        None => Ok(None),
        Some(content) => Ok(Some(byte(alloc, content)?)),
    }
}

/// Writes of one byte, or of none, to keys of one byte.
pub fn writes(alloc: Global, content: &[(u8, Option<u8>)]) -> Result<Vec<Write>, AllocError> {
    let mut writes = Vec::new(alloc);
    for (key, value) in content {
        let key = byte(alloc, *key)?;
        writes.push((key, byte_or_none(alloc, *value)?))?;
    }
    Ok(writes)
}

/// The map that these writes make of none.
pub fn written(alloc: Global, content: &[(u8, Option<u8>)]) -> Result<KeyMap<Bytes>, AllocError> {
    let mut map = KeyMap::new(alloc);
    map.write_all(writes(alloc, content)?)?;
    Ok(map)
}

/// The number that these bytes and their order make of another.
fn mixed(sum: u64, bytes: &[u8]) -> u64 {
    let mut sum = sum.wrapping_mul(31).wrapping_add(7);
    for byte in bytes {
        sum = sum.wrapping_mul(31).wrapping_add(u64::from(*byte));
    }
    sum
}

/// A number that all pairs make, so that other pairs hardly make the same.
pub fn sum_of<P: PairView>(pairs: &P) -> u64 {
    let mut sum = 0u64;
    let mut walk = pairs.walk();
    for _i in 0..u64::MAX {
        let Some((key, value)) = walk.next() else {
            return sum;
        };
        sum = mixed(mixed(sum, key), value);
    }
    sum
}

/// Sets a store, once more if memory was short and the pairs are as before.
pub fn set(
    alloc: Global,
    store: &mut Store,
    expected: &Expect,
    batch: &Batch,
) -> Result<(), SetFault> {
    let before = sum_of(store);
    match store.test_and_set(alloc, expected, batch) {
        Err(SetFault::Memory) if sum_of(store) == before => {
            store.test_and_set(alloc, expected, batch)
        }
        reported => reported,
    }
}
