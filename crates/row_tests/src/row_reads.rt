//! What transactions read.
use crate::fixtures::{A_1, A_2, Plain, ROW_1, ROW_2, declared, mark};
use crate::operations::{ONE, Op, TWO, Verb, operations};
use Plain::Int;
use Verb::Delete;
use byte_map::Bytes;
use row_map::ReadSet;
use row_write::{RowOp, reads_of};
use std::alloc::{AllocError, Global};

fn read_set(alloc: Global, ops: &[RowOp]) -> Result<ReadSet, AllocError> {
    let schema = declared(alloc)?;
    reads_of(alloc, &schema, ops)
}

fn are_keys(entries: &[(Bytes, ())], wanted: &[&[u8]]) -> bool {
    for ((key, _), wanted) in entries.iter().zip(wanted) {
        if key.as_slice() != *wanted {
            return false;
        }
    }
    entries.len() == wanted.len()
}

/// Whether operations read just these keys in this order.
fn are_read(alloc: Global, plain: &[Op], wanted: &[&[u8]]) -> Result<bool, AllocError> {
    let ops = operations(alloc, plain)?;
    let reads = read_set(alloc, ops.as_slice())?;
    Ok(are_keys(reads.entries(), wanted))
}

/// The table 2 is not there.
const READING: &[Op] = &[TWO, ONE, ONE, (Delete, 2, Int(1), &[])];

/// The same, asked once more if memory was short.
fn are_read_at_last(alloc: Global, plain: &[Op], wanted: &[&[u8]]) -> Result<bool, AllocError> {
    match are_read(alloc, plain, wanted) {
        Err(AllocError) => are_read(alloc, plain, wanted),
        reported => reported,
    }
}

#[test]
fn under_refusal_keys_that_are_read(rt: HostRuntime) {
    assert!(rt; mark(&rt));
    let wanted = [ROW_1, A_1, ROW_2, A_2];
    assert!(rt; are_read_at_last(rt.alloc(), READING, &wanted) == Ok(true));
}
