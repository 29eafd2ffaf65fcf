//! Whether a begun reorganisation is one that its element wants, in pieces that share its range.
ghost use Rattle.std.specs.Prelude.{◌≡◌, ◌<◌, ◌≤◌, true, IfOk, Some, length};
ghost use Rattle.std.specs.Bool.{Decides};
ghost use Rattle.std.specs.List.{AllByRecursion};
ghost use Rattle.std.specs.Ordering.{is_le};
ghost use Rattle.keycode.specs.Order.{bytes_cmp};
ghost use Rattle.reorganise.specs.Laws.{IsPieceBound, HasBounds};
ghost use Rattle.reorganise.specs.Partition.{AreJoined};
ghost use Rattle.reorganise.specs.ScanRanges.{scan_range_of, prefix as prefix_of, prefix_end as prefix_end_of, start, end, IsItemKey};
ghost use Rattle.replay.specs.Kept.{IsBegun, IsOfAnother};
ghost use Rattle.checkpoint_check.specs.inner.Pieces.{names_row as names_row_of, names_entry as names_entry_of, names_item as names_item_of, IsReachedWithin, IsWithin, IsWanted};

use audit::key_of;
use byte_map::Bytes;
use reorganise::{Progress, Span};
use row_map::KeyOf;
use schema_version::{ElementDef, Kind, Schema, Work};
use std::alloc::{AllocError, Global};

// A byte and a number of four bytes.
fn prefix(alloc: Global, tag: u8, number: u32) -> Result<Bytes, AllocError>
    ensures { IfOk result (λ bytes. bytes ≡ prefix_of tag number) }
{
    let mut out = Vec::new(alloc);
    out.push(tag)?;
    out.extend_from_slice(&number.to_be_bytes())?;
    Bytes::new(out)
}

// The first key above all that begin with this byte and this number.
fn prefix_end(alloc: Global, tag: u8, number: u32) -> Result<Bytes, AllocError>
    requires { tag < 255 }
    ensures { IfOk result (λ bytes. bytes ≡ prefix_end_of tag number) }
{
    if number < u32::MAX {
        prefix(alloc, tag, number + 1)
    } else {
        let mut out = Vec::new(alloc);
        out.push(tag + 1)?;
        Bytes::new(out)
    }
}

// Where the range of a fill or a clear begins.
fn front(alloc: Global, element: &ElementDef, kind: Work) -> Result<Bytes, AllocError>
    ensures { IfOk result (λ bytes. bytes ≡ start (scan_range_of element.now kind)) }
{
    match (kind, &element.kind) {
        (Work::Clear, Kind::Index(_)) => prefix(alloc, b'X', element.number),
        _ => prefix(alloc, b'R', element.table),
    }
}

// Where it ends.
fn back(alloc: Global, element: &ElementDef, kind: Work) -> Result<Bytes, AllocError>
    ensures { IfOk result (λ bytes. bytes ≡ end (scan_range_of element.now kind)) }
{
    match (kind, &element.kind) {
        (Work::Clear, Kind::Index(_)) => prefix_end(alloc, b'X', element.number),
        _ => prefix_end(alloc, b'R', element.table),
    }
}

fn same_bytes(one: &[u8], other: &[u8]) -> bool
    ensures { Decides result (one.now ≡ other.now) }
{
    one == other
}

fn is_at_most(one: &Bytes, other: &Bytes) -> bool
    ensures { result ≡ is_le (bytes_cmp one.now other.now) }
{
    one.cmp(other).is_le()
}

// Whether a key is that of a row of the table.
fn names_row(read: &Option<KeyOf>, table: u32) -> bool
    ensures { result ≡ names_row_of table read.now }
{
    match read {
        Some(KeyOf::Exists { table: of, .. }) => *of == table,
        _ => false,
    }
}

// Whether a key is that of a pair of the index.
fn names_entry(read: &Option<KeyOf>, number: u32) -> bool
    ensures { result ≡ names_entry_of number read.now }
{
    match read {
        Some(KeyOf::Index { element: of, .. }) => *of == number,
        _ => false,
    }
}

// Whether a key is that of an item of a fill or a clear.
fn names_item(read: &Option<KeyOf>, element: &ElementDef, kind: Work) -> bool
    ensures { result ≡ names_item_of element.now kind read.now }
{
    match (kind, &element.kind) {
        (Work::Clear, Kind::Index(_)) => names_entry(read, element.number),
        _ => names_row(read, element.table),
    }
}

// Whether bytes are the key of an item.
fn is_item_key(
    alloc: Global,
    element: &ElementDef,
    kind: Work,
    key: &[u8],
) -> Result<bool, AllocError>
    ensures { IfOk result (λ item. Decides item (IsItemKey (scan_range_of element.now kind) key.now)) }
{
    let read = key_of(alloc, key)?;
    Ok(names_item(&read, element, kind))
}

// Whether a piece may begin or end at the key.
fn is_bound(
    alloc: Global,
    element: &ElementDef,
    kind: Work,
    low: &Bytes,
    high: &Bytes,
    key: &[u8],
) -> Result<bool, AllocError>
    requires low { low.now ≡ start (scan_range_of element.now kind) }
    requires high { high.now ≡ end (scan_range_of element.now kind) }
    ensures { IfOk result (λ bound. Decides bound (IsPieceBound (scan_range_of element.now kind) key.now)) }
{
    if same_bytes(key, low.as_slice()) || same_bytes(key, high.as_slice()) {
        return Ok(true);
    }
    is_item_key(alloc, element, kind, key)
}

fn has_bounds(
    alloc: Global,
    element: &ElementDef,
    kind: Work,
    low: &Bytes,
    high: &Bytes,
    span: &Span,
) -> Result<bool, AllocError>
    requires low { low.now ≡ start (scan_range_of element.now kind) }
    requires high { high.now ≡ end (scan_range_of element.now kind) }
    ensures { IfOk result (λ has. Decides has (HasBounds (scan_range_of element.now kind) span.now)) }
{
    Ok(
        is_bound(alloc, element, kind, low, high, span.low.as_slice())?
            && is_bound(alloc, element, kind, low, high, span.high.as_slice())?
            && is_bound(alloc, element, kind, low, high, span.cursor.as_slice())?,
    )
}

fn have_bounds(
    alloc: Global,
    element: &ElementDef,
    kind: Work,
    low: &Bytes,
    high: &Bytes,
    pieces: &[Span],
) -> Result<bool, AllocError>
    requires low { low.now ≡ start (scan_range_of element.now kind) }
    requires high { high.now ≡ end (scan_range_of element.now kind) }
    ensures { IfOk result (λ have. Decides have (AllByRecursion (HasBounds (scan_range_of element.now kind)) pieces.now)) }
{
    for span in pieces {
        if !has_bounds(alloc, element, kind, low, high, span)? {
            return Ok(false);
        }
    }
    Ok(true)
}

// Whether each piece ends where the next one begins.
fn are_joined(low: &Bytes, high: &Bytes, pieces: &[Span]) -> bool
    ensures { Decides result (AreJoined low.now high.now pieces.now) }
{
    let mut at = low;
    for span in pieces {
        if !same_bytes(span.low.as_slice(), at.as_slice()) || !is_at_most(&span.low, &span.high) {
            return false;
        }
        at = &span.high;
    }
    same_bytes(at.as_slice(), high.as_slice())
}

fn is_reached(span: &Span) -> bool
    ensures { Decides result (IsReachedWithin span.now) }
{
    is_at_most(&span.low, &span.cursor) && is_at_most(&span.cursor, &span.high)
}

fn are_reached(pieces: &[Span]) -> bool
    ensures { Decides result (AllByRecursion IsReachedWithin pieces.now) }
{
    for span in pieces {
        if !is_reached(span) {
            return false;
        }
    }
    true
}

// Whether there are not too many pieces, each with its cursor within its bounds.
pub(crate) fn is_in_pieces(progress: &Progress) -> bool
    ensures { Decides result (IsWithin progress.now) }
{
    progress.pieces.len() <= 64 && are_reached(progress.pieces.as_slice())
}

// Whether the newest version has the element, which wants the work.
fn is_wanted(newest: &Schema, progress: &Progress) -> bool
    ensures { Decides result (IsWanted newest.now progress.now) }
{
    let Some(element) = newest.element(progress.element.number) else {
        return false;
    };
    if !element.is_same(&progress.element) {
        return false;
    }
    match (progress.element.wanted_work(), progress.kind) {
        (Some(Work::Fill), Work::Fill) | (Some(Work::Clear), Work::Clear) => true,
        _ => false,
    }
}

// Whether a begun reorganisation is what its element wants, and its pieces share the range.
pub(crate) fn is_begun(
    alloc: Global,
    newest: &Schema,
    progress: &Progress,
) -> Result<bool, AllocError>
    ensures { IfOk result (λ begun. Decides begun (IsBegun newest.now progress.now)) }
{
    let element = &progress.element;
    if !is_wanted(newest, progress) {
        return Ok(false);
    }
    let low = front(alloc, element, progress.kind)?;
    let high = back(alloc, element, progress.kind)?;
    let pieces = progress.pieces.as_slice();
    if !are_joined(&low, &high, pieces) {
        return Ok(false);
    }
    have_bounds(alloc, element, progress.kind, &low, &high, pieces)
}

// Whether none of these is of the element of this one.
pub(crate) fn are_of_others(one: &Progress, others: &[Progress]) -> bool
    ensures { Decides result (AllByRecursion (IsOfAnother one.now) others.now) }
{
    for other in others {
        if other.element.number == one.element.number {
            return false;
        }
    }
    true
}
