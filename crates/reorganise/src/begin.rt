//! Where the pieces of a reorganisation begin and end.
ghost use Rattle.std.specs.Prelude.{◌≡◌, ◌≤◌, IfOk, length};
ghost use Rattle.reorganise.specs.ScanRanges.{ItemsAreEmpty, scan_range_of as scan_range_for, start as front_of, end as back_of};
ghost use Rattle.reorganise.specs.Pieces.{bound as bound_of, spans as spans_of, begun, are_ended};
ghost use Rattle.reorganise.specs.Partition.{AreJoined, IsPartition};

use crate::ranks::{EmptyKeys, ItemKeys, item_keys};
use crate::scan_range::{ScanRange, end, scan_range_of, start};
use crate::work::{Progress, Span};
use byte_map::Bytes;
use collections::List;
use row_map::{PairView, RankedView};
use schema_version::{ElementDef, Work};
use std::alloc::{AllocError, Global};

/// The bytes, as an owner has them.
pub(crate) fn copy_bytes(alloc: Global, bytes: &[u8]) -> Result<Bytes, AllocError>
    ensures { IfOk result (λ copy. copy ≡ bytes.now) }
{
    let mut out = Vec::new(alloc);
    out.extend_from_slice(bytes)?;
    Bytes::new(out)
}

/// A further owner of the bytes.
pub(crate) fn share_bytes(bytes: &Bytes) -> Result<Bytes, AllocError>
    ensures { IfOk result (λ owner. owner ≡ bytes.now) }
{
    bytes.clone()
}

/// Where piece `k` begins, and the one before it ends.
fn bound<I: ItemKeys>(
    alloc: Global,
    scan_range: ScanRange,
    items: &I,
    count: usize,
    pieces: u32,
    k: u32,
) -> Result<Bytes, AllocError>
    requires some { 1 ≤ pieces }
    requires within { k ≤ pieces }
    requires counted { count ≡ length (I.keys items.now) }
    ensures { IfOk result (λ bytes. bytes ≡ bound_of scan_range (I.keys items.now) pieces k) }
{
    if k == 0 {
        return start(alloc, scan_range);
    }
    let place = u128::from(k) * (count as u128) / u128::from(pieces);
    match items.nth(place as usize) {
        Some(key) => copy_bytes(alloc, key),
        None => end(alloc, scan_range),
    }
}

/// All pieces, each with its cursor at its lower bound. Each bound is found once.
fn spans<I: ItemKeys>(
    alloc: Global,
    scan_range: ScanRange,
    items: &I,
    pieces: u32,
) -> Result<List<Span>, AllocError>
    requires some { 1 ≤ pieces }
    requires bounded { pieces ≤ 64 }
    ensures { IfOk result (λ list. list ≡ spans_of scan_range (I.keys items.now) pieces pieces) }
{
    let count = items.count();
    let mut list = Vec::new(alloc);
    let mut low = bound(alloc, scan_range, items, count, pieces, 0)?;
    for k in 0..pieces {
        let high = bound(alloc, scan_range, items, count, pieces, k + 1)?;
        let next = share_bytes(&high)?;
        let cursor = share_bytes(&low)?;
        list.push(Span { low, high, cursor })?;
        low = next;
    }
    Ok(List::new(list))
}

impl Progress {
    /// Begins a fill or a clear: fixes the pieces by the items that are present. A fill, and a
    /// clear of a column, go by the rows of the element's table; a clear of an index goes by the
    /// index's pairs. With `n` items, piece `k` begins at the key of item `k * n / pieces`, rounded
    /// down, and the first at the start of the range; each ends where the next one begins, the last
    /// at the end of the range. So the pieces have as many items each, but for one.
    ///
    /// - `element`: what is filled or cleared. Its state is not looked at.
    /// - `kind`: whether it is filled or cleared.
    /// - `view`: the pairs that are present. A key that `read_key` refuses is no item. All pairs of
    ///   the range are walked over; `begin_ranked` does without.
    /// - `pieces`: how many pieces, 1 to 64.
    ///
    /// Refused only when out of memory.
    pub fn begin<V: PairView>(
        alloc: Global,
        element: ElementDef,
        kind: Work,
        view: &V,
        pieces: u32,
    ) -> Result<Progress, AllocError>
        requires some { 1 ≤ pieces }
        requires bounded { pieces ≤ 64 }
        ensures begun { IfOk result (λ progress. progress ≡ begun element kind (V.pairs view.now) pieces) }
        // Each piece ends where the next one begins, from the start of the range to its end.
        ensures joined { IfOk result (λ progress. AreJoined (front_of (scan_range_for element kind)) (back_of (scan_range_for element kind)) progress.pieces) }
        // Each key of the range lies in just one piece.
        ensures partition { IfOk result (λ progress. IsPartition (front_of (scan_range_for element kind)) (back_of (scan_range_for element kind)) progress.pieces) }
    {
        let scan_range = scan_range_of(&element, kind);
        let keys = item_keys(alloc, scan_range, view)?;
        let pieces = spans(alloc, scan_range, &keys, pieces)?;
        Ok(Progress {
            element,
            kind,
            pieces,
        })
    }

    /// Begins a fill or a clear as `begin` does, without a walk: the items are the pairs of the
    /// range whose value is empty, and the view finds each that begins a piece by its number.
    ///
    /// - `element`: what is filled or cleared. Its state is not looked at.
    /// - `kind`: whether it is filled or cleared.
    /// - `view`: the pairs that are present.
    /// - `pieces`: how many pieces, 1 to 64.
    ///
    /// Refused only when out of memory.
    pub fn begin_ranked<V: RankedView>(
        alloc: Global,
        element: ElementDef,
        kind: Work,
        view: &V,
        pieces: u32,
    ) -> Result<Progress, AllocError>
        requires some { 1 ≤ pieces }
        requires bounded { pieces ≤ 64 }
        requires ranked { ItemsAreEmpty (scan_range_for element kind) (V.pairs view.now) }
        ensures begun { IfOk result (λ progress. progress ≡ begun element kind (V.pairs view.now) pieces) }
        // Each piece ends where the next one begins, from the start of the range to its end.
        ensures joined { IfOk result (λ progress. AreJoined (front_of (scan_range_for element kind)) (back_of (scan_range_for element kind)) progress.pieces) }
        // Each key of the range lies in just one piece.
        ensures partition { IfOk result (λ progress. IsPartition (front_of (scan_range_for element kind)) (back_of (scan_range_for element kind)) progress.pieces) }
    {
        let scan_range = scan_range_of(&element, kind);
        let low = start(alloc, scan_range)?;
        let high = end(alloc, scan_range)?;
        let keys = EmptyKeys { view, low, high };
        let pieces = spans(alloc, scan_range, &keys, pieces)?;
        Ok(Progress {
            element,
            kind,
            pieces,
        })
    }

    /// Whether every piece has ended: its cursor is its upper bound. Never refused.
    pub fn finished(&self) -> bool
        ensures { result ≡ are_ended self.now.pieces }
    {
        for span in self.pieces.as_slice() {
            if !span.cursor.cmp(&span.high).is_eq() {
                return false;
            }
        }
        true
    }
}
