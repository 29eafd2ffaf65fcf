//! Reading the next items of a piece.
ghost use Rattle.std.specs.Prelude.{◌≡◌, Some, IfOk, IfErr, OnOk, slice_get};
ghost use Rattle.std.specs.declared.cmp.Ordering.TheVariants.{Less};
ghost use Rattle.collections.specs.Refusal.{IsFirst, IsRefusal, IsClear};
ghost use Rattle.keycode.specs.Order.{bytes_cmp};
ghost use Rattle.reorganise.specs.declared.fault.ViewFault.TheVariants.{Memory as OutOfMemory};
ghost use Rattle.reorganise.specs.Refusals.{rank, Condition};
ghost use Rattle.reorganise.specs.Pieces.{key_range_read, view_at, ComesTo, IsReadOf};

use crate::begin::{copy_bytes, share_bytes};
use crate::fault::ViewFault;
use crate::scan_range::{ScanRange, is_item, scan_range_of};
use crate::view::PieceView;
use crate::work::{Progress, Span};
use byte_map::{Bytes, KeyMap};
use row_map::{KeyRange, PairView};
use schema_version::{ElementDef, Work};
use std::alloc::{AllocError, Global};

/// The largest limit.
const MAX_LIMIT: u32 = 1000;

/// A piece, and what was read of it.
#[derive(Drop)]
pub struct Reading {
    /// What is filled or cleared.
    pub(crate) element: ElementDef,
    /// Whether it is filled or cleared.
    pub(crate) kind: Work,
    /// The number of the piece, from 0.
    pub(crate) piece: u32,
    /// The piece's lower bound.
    pub(crate) low: Bytes,
    /// The piece's upper bound.
    pub(crate) high: Bytes,
    /// The pairs from the old cursor to the new one.
    pub(crate) key_range: KeyRange,
}

/// The pairs from a cursor on, as far as so many items.
fn read_key_range<V: PairView>(
    alloc: Global,
    scan_range: ScanRange,
    view: &V,
    cursor: &[u8],
    high: &[u8],
    limit: u32,
) -> Result<KeyRange, AllocError>
    requires { bytes_cmp cursor.now high.now ≡ Less }
    ensures exact { IfOk result (λ key_range. key_range ≡ key_range_read scan_range (V.pairs view.now) cursor.now high.now limit) }
    ensures comes { IfOk result (λ key_range. ComesTo scan_range cursor.now high.now key_range.high) }
{
    let mut pairs = KeyMap::new(alloc);
    let mut left = limit;
    let mut walk = view.walk_within(cursor, high);
    while let Some((key, value)) = walk.next() {
        if is_item(alloc, scan_range, key)? {
            if left == 0 {
                let low = copy_bytes(alloc, cursor)?;
                let high = copy_bytes(alloc, key)?;
                return Ok(KeyRange { low, high, pairs });
            }
            left -= 1;
        }
        let name = copy_bytes(alloc, key)?;
        pairs.insert(name, copy_bytes(alloc, value)?)?;
    }
    let low = copy_bytes(alloc, cursor)?;
    let high = copy_bytes(alloc, high)?;
    Ok(KeyRange { low, high, pairs })
}

/// A copy of the definition.
pub(crate) fn element_copied(element: &ElementDef) -> Result<ElementDef, AllocError>
    ensures { IfOk result (λ copy. copy ≡ element.now) }
{
    element.clone()
}

/// The piece, if it can be read with this limit.
fn open_span(progress: &Progress, piece: u32, limit: u32) -> Result<&Span, ViewFault>
    ensures found { IfOk result (λ span. slice_get progress.now.pieces piece ≡ Some span.now) }
    ensures open { IfOk result (λ span. bytes_cmp span.now.cursor span.now.high ≡ Less) }
    ensures clear { OnOk result (IsClear (Condition progress.now piece limit)) }
    ensures refused { IfErr result (λ e. IsFirst rank (Condition progress.now piece limit) e) }
{
    let span = match progress.pieces.as_slice().get(piece as usize) {
        Some(span) => span,
        None => return Err(ViewFault::BadPiece),
    };
    if !span.cursor.cmp(&span.high).is_lt() {
        return Err(ViewFault::Spent);
    }
    if limit < 1 || limit > MAX_LIMIT {
        return Err(ViewFault::BadLimit);
    }
    Ok(span)
}

/// The pairs of the next items of an open piece.
fn read_span<V: PairView>(
    alloc: Global,
    progress: &Progress,
    view: &V,
    piece: u32,
    span: &Span,
    limit: u32,
) -> Result<PieceView, AllocError>
    requires { bytes_cmp span.now.cursor span.now.high ≡ Less }
    ensures { IfOk result (λ read. read ≡ view_at progress.now (V.pairs view.now) piece limit span.now) }
{
    let scan_range = scan_range_of(&progress.element, progress.kind);
    let cursor = span.cursor.as_slice();
    let key_range = read_key_range(alloc, scan_range, view, cursor, span.high.as_slice(), limit)?;
    let element = element_copied(&progress.element)?;
    let low = share_bytes(&span.low)?;
    let high = share_bytes(&span.high)?;
    Ok(PieceView {
        inside: Reading {
            element,
            kind: progress.kind,
            piece,
            low,
            high,
            key_range,
        },
    })
}

impl Progress {
    /// Reads the pairs of the next items of a piece: from its cursor to the key of the item after
    /// so many, or to the piece's upper bound if no more are left. It changes nothing, and what
    /// it gives can grow as old as it likes: it is committed only if its whole range is unchanged.
    ///
    /// - `view`: the pairs that are present.
    /// - `piece`: the number of the piece, from 0.
    /// - `limit`: how many items, 1 to 1,000.
    ///
    /// The refusals, in their order: `BadPiece`, there is no such piece; `Spent`, its cursor is not
    /// below its upper bound; `BadLimit`; `Memory`, only if none of these holds.
    pub fn read_piece<V: PairView>(
        &self,
        alloc: Global,
        view: &V,
        piece: u32,
        limit: u32,
    ) -> Result<PieceView, ViewFault>
        ensures exact { IfOk result (λ read. IsReadOf self.now (V.pairs view.now) piece limit read) }
        ensures clear { OnOk result (IsClear (Condition self.now piece limit)) }
        ensures refused { IfErr result (λ e. IsRefusal rank (Condition self.now piece limit) OutOfMemory e) }
    {
        let span = open_span(self, piece, limit)?;
        Ok(read_span(alloc, self, view, piece, span, limit)?)
    }
}
