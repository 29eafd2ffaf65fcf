//! The items of a scan range, by which the pieces are fixed: how many, and each by its number.
ghost use Rattle.std.specs.Prelude.{◌≡◌, List, IfOk, length, option_map, slice_get};
ghost use Rattle.row_map.specs.Rows.{Bytes as KeyBytes};
ghost use Rattle.row_map.specs.Walk.{empties, key_range};
ghost use Rattle.reorganise.specs.ScanRanges.{items};

use crate::begin::copy_bytes;
use crate::scan_range::{ScanRange, end, is_item, start};
use byte_map::Bytes;
use row_map::{PairView, RankedView};
use std::alloc::{AllocError, Global};

/// Keys that are counted, and found by their number.
pub(crate) trait ItemKeys {
    /// The keys, in order.
    ghost keys: { Self → List KeyBytes };

    /// How many there are.
    fn count(&self) -> usize
        ensures { result ≡ length (keys self.now) };

    /// The key with so many before it, if there is one.
    fn nth(&self, n: usize) -> Option<&[u8]>
        ensures { option_map (λ k. k.now) result ≡ slice_get (keys self.now) n };
}

/// Keys that a walk collected.
impl ItemKeys for Vec<Bytes> {
    ghost keys = { λ v. v.items };

    fn count(&self) -> usize {
        self.len()
    }

    fn nth(&self, n: usize) -> Option<&[u8]> {
        match self.get(n) {
            None => None,
            Some(key) => Some(key.as_slice()),
        }
    }
}

/// The keys of the pairs of a range whose value is empty. The view finds them without a walk.
#[derive(Drop)]
pub(crate) struct EmptyKeys<'a, V> {
    pub(crate) view: &'a V,
    /// The first key of the range.
    pub(crate) low: Bytes,
    /// The key before which the range ends.
    pub(crate) high: Bytes,
}

impl<V: RankedView> ItemKeys for EmptyKeys<'_, V> {
    ghost keys = { λ e. empties (key_range (V.pairs e.view.now) e.low e.high) };

    fn count(&self) -> usize {
        self.view
            .count_empty(self.low.as_slice(), self.high.as_slice())
    }

    fn nth(&self, n: usize) -> Option<&[u8]> {
        self.view
            .nth_empty(self.low.as_slice(), self.high.as_slice(), n)
    }
}

/// The keys of all items, in order, by a walk over the pairs of the range.
pub(crate) fn item_keys<V: PairView>(
    alloc: Global,
    scan_range: ScanRange,
    view: &V,
) -> Result<Vec<Bytes>, AllocError>
    ensures { IfOk result (λ keys. keys.items ≡ items scan_range (V.pairs view.now)) }
{
    let low = start(alloc, scan_range)?;
    let high = end(alloc, scan_range)?;
    let mut keys = Vec::new(alloc);
    let mut walk = view.walk_within(low.as_slice(), high.as_slice());
    while let Some((key, _)) = walk.next() {
        if is_item(alloc, scan_range, key)? {
            keys.push(copy_bytes(alloc, key)?)?;
        }
    }
    Ok(keys)
}
