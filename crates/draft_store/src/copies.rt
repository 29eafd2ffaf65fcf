//! What a draft's parts are as a batch, and as what a store expects.
ghost use Rattle.std.specs.FinMap as map;
ghost use Rattle.std.specs.Prelude.{◌≡◌, IfOk, OnOk};
ghost use Rattle.draft_store.specs.Apply.{map_of};
ghost use Rattle.draft_store.specs.inner.Least.{range_of as the_range, expect_range as range_expected, expect_nothing as nothing};
ghost use Rattle.row_map.specs.Writes.{noted};

use byte_map::{Bytes, KeyMap};
use entry_code::RangeParts;
use row_map::{Batch, Expect, KeyRange, Write};
use std::alloc::{AllocError, Global};

fn note(batch: &mut Batch, write: &Write) -> Result<(), AllocError>
    ensures { OnOk result (batch.new ≡ map.insert batch.old write.now.0 write.now.1) }
{
    let key = write.0.clone()?;
    match &write.1 {
        None => batch.remove(key),
        Some(value) => batch.put(key, value.clone()?),
    }
}

/// The writes as a batch.
pub(crate) fn batch_of(alloc: Global, writes: &[Write]) -> Result<Batch, AllocError>
    ensures { IfOk result (λ batch. batch ≡ noted map.empty writes.now) }
{
    let mut batch = Batch::new(alloc);
    for write in writes {
        note(&mut batch, write)?;
    }
    Ok(batch)
}

/// The pairs as a map.
fn pairs_of(alloc: Global, pairs: &[(Bytes, Bytes)]) -> Result<KeyMap<Bytes>, AllocError>
    ensures { IfOk result (λ found. found ≡ map_of pairs.now) }
{
    let mut out = KeyMap::new(alloc);
    for (key, value) in pairs {
        out.insert(key.clone()?, value.clone()?)?;
    }
    Ok(out)
}

fn range_of(alloc: Global, part: &RangeParts) -> Result<KeyRange, AllocError>
    ensures { IfOk result (λ range. range ≡ the_range part.now) }
{
    let pairs = pairs_of(alloc, part.pairs.as_slice())?;
    let low = part.low.clone()?;
    let high = part.high.clone()?;
    Ok(KeyRange { low, high, pairs })
}

/// That a range has its pairs, and no other.
pub(crate) fn expect_range(alloc: Global, part: &RangeParts) -> Result<Expect, AllocError>
    ensures { IfOk result (λ expect. expect ≡ range_expected part.now) }
{
    let range = range_of(alloc, part)?;
    Ok(Expect {
        points: KeyMap::new(alloc),
        key_range: Some(range),
    })
}

/// Nothing at all.
pub(crate) fn expect_nothing(alloc: Global) -> Expect
    ensures { result ≡ nothing }
{
    Expect {
        points: KeyMap::new(alloc),
        key_range: None,
    }
}
