//! Pages of pairs written to a store.
ghost use Rattle.std.specs.Prelude.{◌≡◌, IfOk, OnErr, OnOk};
ghost use Rattle.std.specs.FinMap as map;
ghost use Rattle.byte_map.specs.Writes.{noted, written_all};
ghost use Rattle.saved_world.specs.inner.Puts.{puts};

use byte_map::{Bytes, KeyMap};
use row_map::{Batch, Expect, Write};
use std::alloc::{AllocError, Global};
use txn_store::Store;

// A write of each pair.
fn writes_of(alloc: Global, page: &[(Bytes, Bytes)]) -> Result<Vec<Write>, AllocError>
    ensures { IfOk result (λ writes. writes.items ≡ puts page.now) }
{
    let mut writes = Vec::with_capacity(alloc, page.len())?;
    for (key, value) in page {
        writes.push((key.clone()?, Some(value.clone()?)))?;
    }
    Ok(writes)
}

fn batch_of(alloc: Global, page: &[(Bytes, Bytes)]) -> Result<Batch, AllocError>
    ensures { IfOk result (λ batch. batch ≡ noted map.empty (puts page.now)) }
{
    let mut batch = Batch::new(alloc);
    batch.note_all(writes_of(alloc, page)?)?;
    Ok(batch)
}

/// Puts the pairs of a page, in turn. Refused only when out of memory, and the store is then
/// unchanged.
pub(crate) fn put_all(
    alloc: Global,
    store: &mut Store,
    page: &[(Bytes, Bytes)],
) -> Result<(), AllocError>
    ensures ok { OnOk result (store.new ≡ written_all store.old (puts page.now)) }
    ensures err { OnErr result (store.new ≡ store.old) }
{
    let batch = batch_of(alloc, page)?;
    let nothing = Expect {
        points: KeyMap::new(alloc),
        key_range: None,
    };
    match store.test_and_set(alloc, &nothing, &batch) {
        Ok(()) => Ok(()),
        // Nothing is expected, so there is no conflict.
        Err(_) => Err(AllocError),
    }
}
