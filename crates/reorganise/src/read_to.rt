//! Reading a piece as far as a given key.
ghost use Rattle.std.specs.Bool.{Decides};
ghost use Rattle.std.specs.Ordering.{is_le};
ghost use Rattle.std.specs.Prelude.{◌≡◌, ◌⊎◌, true, IfOk, MatchOption};
ghost use Rattle.keycode.specs.Order.{bytes_cmp};
ghost use Rattle.reorganise.specs.Pieces.{part, view_to, ComesTo, CanCome, IsReadTo};
ghost use Rattle.reorganise.specs.ScanRanges.{scan_range_of as scan_range_for, IsItemKey};

use crate::begin::{copy_bytes, share_bytes};
use crate::cursor::is_key;
use crate::read::{Reading, element_copied};
use crate::scan_range::{ScanRange, is_item, scan_range_of};
use crate::view::PieceView;
use crate::work::{Progress, Span};
use byte_map::{Bytes, KeyMap};
use row_map::{KeyRange, PairView};
use std::alloc::{AllocError, Global};

/// The pairs with keys from `low` to below `high`.
fn read_between<V: PairView>(
    alloc: Global,
    view: &V,
    low: &[u8],
    high: &[u8],
) -> Result<KeyMap<Bytes>, AllocError>
    requires { is_le (bytes_cmp low.now high.now) ≡ true }
    ensures { IfOk result (λ pairs. pairs ≡ part (V.pairs view.now) low.now high.now) }
{
    let mut pairs = KeyMap::new(alloc);
    let mut walk = view.walk_within(low, high);
    while let Some((key, value)) = walk.next() {
        let name = copy_bytes(alloc, key)?;
        pairs.insert(name, copy_bytes(alloc, value)?)?;
    }
    Ok(pairs)
}

/// Whether the first key is not after the second.
fn is_at_most(one: &Bytes, other: &Bytes) -> bool
    ensures { result ≡ is_le (bytes_cmp one.now other.now) }
{
    one.cmp(other).is_le()
}

/// Whether this is the key of an item, present or not.
#[tactic(auto, using(crate::proofs::ReadTo::item_tested))]
fn is_item_key(alloc: Global, scan_range: ScanRange, key: &Bytes) -> Result<bool, AllocError>
    ensures { IfOk result (λ b. Decides b (IsItemKey scan_range key.now)) }
{
    Ok(is_item(alloc, scan_range, key.as_slice())?)
}

/// Whether a piece with this upper bound may be read as far as this key, if that is in the piece.
fn is_end(
    alloc: Global,
    scan_range: ScanRange,
    high: &Bytes,
    to: &Bytes,
) -> Result<bool, AllocError>
    ensures { IfOk result (λ b. Decides b ((to.now ≡ high.now) ⊎ IsItemKey scan_range to.now)) }
{
    if is_key(to.as_slice(), high.as_slice()) {
        return Ok(true);
    }
    is_item_key(alloc, scan_range, to)
}

/// Whether a piece with this cursor and this upper bound can come to this key.
fn can_come(
    alloc: Global,
    scan_range: ScanRange,
    cursor: &Bytes,
    high: &Bytes,
    to: &Bytes,
) -> Result<bool, AllocError>
    ensures { IfOk result (λ b. Decides b (ComesTo scan_range cursor.now high.now to.now)) }
{
    let ends = is_end(alloc, scan_range, high, to)?;
    Ok(is_at_most(cursor, to) && is_at_most(to, high) && ends)
}

/// The pairs of a piece from its cursor to below this key.
fn read_span_to<V: PairView>(
    alloc: Global,
    progress: &Progress,
    view: &V,
    piece: u32,
    span: &Span,
    to: &Bytes,
) -> Result<PieceView, AllocError>
    requires { ComesTo (scan_range_for progress.now.element progress.now.kind) span.now.cursor span.now.high to.now }
    ensures { IfOk result (λ read. read ≡ view_to progress.now (V.pairs view.now) piece to.now span.now) }
{
    let pairs = read_between(alloc, view, span.cursor.as_slice(), to.as_slice())?;
    let cursor = share_bytes(&span.cursor)?;
    let end = share_bytes(to)?;
    let element = element_copied(&progress.element)?;
    let low = share_bytes(&span.low)?;
    let high = share_bytes(&span.high)?;
    Ok(PieceView {
        inside: Reading {
            element,
            kind: progress.kind,
            piece,
            low,
            high,
            key_range: KeyRange {
                low: cursor,
                high: end,
                pairs,
            },
        },
    })
}

impl Progress {
    /// Reads the pairs of a piece as far as a given key: from its cursor to below that key. None if
    /// there is no such piece, or the piece can't come to that key. It changes nothing.
    ///
    /// A piece can come to any key that is not before its cursor and not after its upper bound, and
    /// that is this bound or the key of an item, whether or not such an item is present. So what
    /// `read_piece` reads with some limit can be read again by the key to which it came, also when
    /// the item at that key has been deleted since.
    ///
    /// - `view`: the pairs that are present.
    /// - `piece`: the number of the piece, from 0.
    /// - `to`: the key before which the reading ends.
    ///
    /// Refused only when out of memory.
    pub fn read_piece_to<V: PairView>(
        &self,
        alloc: Global,
        view: &V,
        piece: u32,
        to: &Bytes,
    ) -> Result<Option<PieceView>, AllocError>
        ensures { IfOk result (λ found. MatchOption found (CanCome self.now piece to.now → ⊥) (λ read. IsReadTo self.now (V.pairs view.now) piece to.now read)) }
    {
        let Some(span) = self.pieces.as_slice().get(piece as usize) else {
            return Ok(None);
        };
        let scan_range = scan_range_of(&self.element, self.kind);
        if !can_come(alloc, scan_range, &span.cursor, &span.high, to)? {
            return Ok(None);
        }
        Ok(Some(read_span_to(alloc, self, view, piece, span, to)?))
    }
}
