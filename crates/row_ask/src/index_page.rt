//! The primary keys in a page of an index.
ghost use Rattle.std.specs.Prelude.{◌≡◌, true, IfOk, OnOk};
ghost use Rattle.std.specs.declared.cmp.Ordering.TheVariants.{Less};
ghost use Rattle.std.specs.Ordering.{is_le};
ghost use Rattle.keycode.specs.Order.{bytes_cmp};
ghost use Rattle.row_map.specs.Rows.{Pairs};
ghost use Rattle.row_ask.specs.Remaining.{IsRead, keys_with_rest, range_from};

use crate::gather::gather;
use crate::remaining::IndexRange;
use byte_map::Bytes;
use collections::List;
use keycode::Values;
use row_map::PairView;
use std::alloc::{AllocError, Global};
use std::collections::BTreeSet;

fn bytes_of(alloc: Global, bytes: &[u8]) -> Result<Bytes, AllocError>
    ensures { IfOk result (λ b. b ≡ bytes.now) }
{
    Bytes::from_slice(alloc, bytes)
}

/// Adds the primary keys in a page of an index, and moves the range's lower bound to the page's
/// end. Refused only when out of memory: discard the range and the keys then, and begin anew.
///
/// - `range`: the part of the index, as `begin` gives it.
/// - `keys`: the keys so far; none before the first page.
/// - `view`: what was read of the store at one moment: all its pairs from the lower bound to below
///   `to`. What else it has does not matter.
/// - `to`: the key below which the page was read, not below the lower bound. If it is above it, the
///   next page begins above this one's lower bound, until the range `is_read`.
pub fn gather_page<V: PairView>(
    alloc: Global,
    range: &mut IndexRange,
    keys: &mut BTreeSet<Values>,
    view: &V,
    to: &[u8],
) -> Result<(), AllocError>
    ensures moved { OnOk result (range.new ≡ range_from range.old to.now) }
    ensures goes_on { bytes_cmp range.old.low to.now ≡ Less → bytes_cmp range.old.low range.old.high ≡ Less → OnOk result (bytes_cmp range.old.low range.new.low ≡ Less) }
    ensures keys { (store : Pairs) → is_le (bytes_cmp range.old.low to.now) ≡ true → IsRead store (V.pairs view.now) range.old.low to.now → OnOk result (keys_with_rest store range.new keys.new.keys ≡ keys_with_rest store range.old keys.old.keys) }
{
    let (number, width) = (range.number, range.width);
    if range.high.compare(to).is_le() {
        gather(
            alloc,
            view,
            number,
            width,
            keys,
            range.low.as_slice(),
            range.high.as_slice(),
        )?;
        range.low = bytes_of(alloc, range.high.as_slice())?;
        return Ok(());
    }
    gather(alloc, view, number, width, keys, range.low.as_slice(), to)?;
    range.low = bytes_of(alloc, to)?;
    Ok(())
}

/// The keys that were gathered, by rising primary key. Refused only when out of memory: begin anew
/// then.
///
/// - `keys`: those of all pages of the range.
pub fn keys_of(alloc: Global, keys: BTreeSet<Values>) -> Result<List<Values>, AllocError>
    ensures { IfOk result (λ all. all ≡ keys.keys) }
{
    let mut all = Vec::new(alloc);
    for key in keys {
        all.push(key)?;
    }
    Ok(List::new(all))
}
