//! Audits by several threads at once, each of a part of the pairs.
use crate::fixtures::{FIVE, ROW_1, stepped};
use audit::{CheckReport, audit_on};
use byte_map::{Bytes, KeyMap};
use row_map::{Batch, Expect};
use schema_version::Schema;
use std::alloc::{AllocError, Global};
use std::test::Fail;
use std::thread::Threads;
use txn_store::{SetFault, Store};

/// How many rows there are, with the keys 1, 2, ..: more than one page of pairs has.
const ROWS: u8 = 200;

/// A pair that is put beside the rows, or none.
type More = Option<&'static [u8]>;

fn written(alloc: Global, store: &mut Store, batch: &Batch) -> Result<(), AllocError> {
    let expect = Expect {
        points: KeyMap::new(alloc),
        key_range: None,
    };
    match store.test_and_set(alloc, &expect, batch) {
        Ok(()) => Ok(()),
        Err(SetFault::Memory | SetFault::Conflict { .. }) => Err(AllocError),
    }
}

fn put(alloc: Global, batch: &mut Batch, key: &[u8], value: &[u8]) -> Result<(), AllocError> {
    let key = Bytes::from_slice(alloc, key)?;
    batch.put(key, Bytes::from_slice(alloc, value)?)
}

/// The `exists` pair of a row, that of its column `a` with 5, and that of the index, unless the key
/// is a multiple of `unindexed`.
fn put_row(alloc: Global, batch: &mut Batch, number: u8, unindexed: u8) -> Result<(), AllocError> {
    let mut exists = [0u8; 18];
    exists.copy_from_slice(ROW_1);
    exists[13] = number;
    put(alloc, batch, &exists, b"")?;
    let mut column = exists;
    column[17] = 1;
    put(alloc, batch, &column, FIVE)?;
    if number.checked_rem(unindexed) == Some(0) {
        return Ok(());
    }
    let mut index = *b"\x58\0\0\0\x02\x02\x80\0\0\0\0\0\0\x05\x02\x80\0\0\0\0\0\0\0";
    index[22] = number;
    put(alloc, batch, &index, b"")
}

/// A store of so many rows, and another pair.
fn filled(alloc: Global, rows: u8, unindexed: u8, more: More) -> Result<Store, AllocError> {
    let mut batch = Batch::new(alloc);
    for before in 0..rows {
        put_row(alloc, &mut batch, before.saturating_add(1), unindexed)?;
    }
    if let Some(key) = more {
        put(alloc, &mut batch, key, b"")?;
    }
    let mut store = Store::new(alloc);
    written(alloc, &mut store, &batch)?;
    Ok(store)
}

/// How many rows, of which one in so many lacks its index's pair, the other pair, and what is counted.
static COUNTS: [(u8, u8, More, (u64, u64, u64)); 9] = [
    (0, 1, None, (0, 0, 0)),
    (1, 0, None, (1, 0, 0)),
    (ROWS, 0, None, (200, 0, 0)),
    (ROWS, 1, None, (200, 200, 0)),
    (ROWS, 7, None, (200, 28, 0)),
    // before all rows, between the rows and the indexes, and behind all
    (ROWS, 7, Some(b"\0"), (200, 28, 1)),
    (ROWS, 7, Some(b"\x53\0"), (200, 28, 1)),
    (ROWS, 7, Some(b"\x59"), (200, 28, 1)),
    (ROWS, 7, Some(b"\xff\xff"), (200, 28, 1)),
];

fn counted<R: Threads + Sync>(
    rt: &R,
    alloc: Global,
    schema: &Schema,
    store: &Store,
    threads: usize,
) -> Option<(u64, u64, u64)> {
    match audit_on(rt, alloc, schema, store, threads) {
        Ok(
            CheckReport {
                rows,
                missing,
                extra,
            },
        ) => Some((rows, missing, extra)),
        Err(AllocError) => None,
    }
}

#[test]
fn any_number_of_threads_counts_the_same(rt: HostRuntime) -> Result<(), Fail> {
    let schema = stepped(rt.alloc(), 2, &[])?;
    for (rows, unindexed, more, want) in &COUNTS {
        let store = filled(rt.alloc(), *rows, *unindexed, *more)?;
        for threads in [0, 1, 2, 3, 5, 300] {
            assert!(rt;
                counted(&rt, rt.alloc(), &schema, &store, threads) == Some(*want),
                "{rows} rows, {threads} threads"
            );
        }
    }
    Ok(())
}
