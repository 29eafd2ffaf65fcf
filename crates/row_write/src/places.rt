//! Where the pairs of a row are in a view: side by side, as its keys have them in their order.
ghost use Rattle.std.specs.Prelude.{◌≡◌, ◌+◌, ◌≤◌, ℕ, List, IsTrue, IfOk, IfErr, IfSome, OnOk, length};
ghost use Rattle.std.specs.Bool.{Decides};
ghost use Rattle.std.specs.FinMap as map;
ghost use Rattle.keycode.specs.declared.value.Value.{Value};
ghost use Rattle.row_map.specs.Keys.{row_code};
ghost use Rattle.row_write.specs.declared.op.RowOp.{RowOp};
ghost use Rattle.row_write.specs.Plain.{table_of, key_of};
ghost use Rattle.row_write.specs.inner.Enter.{column_keys, row_keys};
ghost use Rattle.row_write.specs.inner.Places.{IsRowAt, AreMarked, AreOrOld};
ghost use Rattle.row_write.specs.inner.View.{IsMissed, IsVisible, IsExistsKey, keys_of};

use crate::fault::PrepareFault;
use crate::op::RowOp;
use crate::seek::sought_place;
use crate::view::{cells_in, presence_in, read_row};
use byte_map::Bytes;
use collections::List;
use keycode::Value;
use row_keys::{is_column_key, is_exists_key};
use row_map::{ColumnType, ReadView, exists_key};
use std::alloc::Global;

/// In a view of up to so many rows each is tried. It shows in the speed alone.
const FEW: usize = 8;

/// Whether these entries have the keys of a row's pairs for these columns, in their order.
fn are_column_keys(
    entries: &[(Bytes, Option<Bytes>)],
    exists: &[u8],
    columns: &[(u32, ColumnType)],
) -> bool
    ensures { IsTrue result → (op : RowOp) → exists.now ≡ row_code (table_of op) (key_of op) 0 → keys_of entries.now ≡ column_keys op columns.now }
{
    if entries.len() != columns.len() {
        return false;
    }
    for i in 0..columns.len() {
        if !is_column_key(entries[i].0.as_slice(), exists, columns[i].0) {
            return false;
        }
    }
    true
}

pub(crate) fn is_same_key(a: &Bytes, b: &Bytes) -> bool
    ensures { Decides result (a.now ≡ b.now) }
{
    a == b
}

/// Whether the entries from this place on have the keys of the operation's row: that of its `exists`
/// pair, and those of its pairs for these columns.
fn is_row_at(
    entries: &[(Bytes, Option<Bytes>)],
    at: usize,
    op: &RowOp,
    columns: &[(u32, ColumnType)],
) -> bool
    ensures { IsTrue result → IsRowAt entries.now op.now columns.now at }
{
    if at >= entries.len() {
        return false;
    }
    let after = at + 1;
    if entries.len() - after < columns.len() {
        return false;
    }
    let exists = entries[at].0.as_slice();
    if !is_exists_key(exists, op.table(), op.key().as_slice()) {
        return false;
    }
    are_column_keys(&entries[after..after + columns.len()], exists, columns)
}

/// Whether the row is there, and its cells of these columns, from the entries from this place on.
fn row_at(
    alloc: Global,
    view: &ReadView,
    op: &RowOp,
    columns: &[(u32, ColumnType)],
    at: usize,
) -> Result<(bool, List<(u32, Value)>), PrepareFault>
    requires { IsRowAt (map.entries view.now) op.now columns.now at }
    ensures found { IfOk result (λ row. IsVisible view.now op.now columns.now row.0 row.1) }
    ensures missed { IfErr result (IsMissed ((there : _) (cells : _) → ¬ (IsVisible view.now op.now columns.now there cells))) }
{
    let entries = view.entries();
    let after = at + 1;
    let there = presence_in(&entries[at])?;
    let own = &entries[after..after + columns.len()];
    let cells = cells_in(alloc, there, own, columns)?;
    Ok((there, cells))
}

/// What `find_row` gives, if the view has the keys of the operation's row and no other. None of a
/// view with others.
pub(crate) fn only_row(
    alloc: Global,
    view: &ReadView,
    op: &RowOp,
    columns: &[(u32, ColumnType)],
) -> Result<Option<(bool, List<(u32, Value)>, Bytes)>, PrepareFault>
    ensures keys { IfOk result (λ found. IfSome found (λ row. keys_of (map.entries view.now) ≡ row_keys op.now columns.now)) }
    ensures found { IfOk result (λ found. IfSome found (λ row. IsVisible view.now op.now columns.now row.0 row.1)) }
    ensures exists { IfOk result (λ found. IfSome found (λ row. IsExistsKey op.now row.2)) }
    ensures missed { IfErr result (IsMissed ((there : _) (cells : _) → ¬ (IsVisible view.now op.now columns.now there cells))) }
{
    let entries = view.entries();
    if entries.len() != columns.len() + 1 {
        return Ok(None);
    }
    if !is_row_at(entries, 0, op, columns) {
        return Ok(None);
    }
    let (there, cells) = row_at(alloc, view, op, columns, 0)?;
    Ok(Some((there, cells, entries[0].0.clone()?)))
}

/// Marks so many entries from a place on.
fn mark(marks: &mut [bool], at: usize, count: usize)
    requires { at + count ≤ length marks.old }
    ensures { (i : ℕ) → AreOrOld marks.old marks.new i ((at ≤ i) × (i + 1 ≤ at + count)) }
{
    for i in at..at + count {
        marks[i] = true;
    }
}

/// Where the operation's row is, if it is at this place, or in a view of few rows.
fn near_place(
    entries: &[(Bytes, Option<Bytes>)],
    op: &RowOp,
    columns: &[(u32, ColumnType)],
    from: usize,
) -> Option<usize>
    ensures { IfSome result (λ at. IsRowAt entries.now op.now columns.now at) }
{
    if is_row_at(entries, from, op, columns) {
        return Some(from);
    }
    let step = columns.len().saturating_add(1);
    if entries.len() > step.saturating_mul(FEW) {
        return None;
    }
    let mut at = 0;
    for _ in 0..FEW {
        if is_row_at(entries, at, op, columns) {
            return Some(at);
        }
        at = step.saturating_add(at);
    }
    None
}

/// Where the operation's row is, if its entries are side by side.
fn row_place(
    entries: &[(Bytes, Option<Bytes>)],
    op: &RowOp,
    columns: &[(u32, ColumnType)],
    from: usize,
) -> Option<usize>
    ensures { IfSome result (λ at. IsRowAt entries.now op.now columns.now at) }
{
    if let Some(at) = near_place(entries, op, columns, from) {
        return Some(at);
    }
    let at = sought_place(entries, op.table(), op.key().as_slice());
    if is_row_at(entries, at, op, columns) {
        Some(at)
    } else {
        None
    }
}

/// The operation's row by a look-up of each key, and the key of its `exists` pair.
fn looked_up_row(
    alloc: Global,
    view: &ReadView,
    op: &RowOp,
    columns: &[(u32, ColumnType)],
) -> Result<(bool, List<(u32, Value)>, Bytes), PrepareFault>
    ensures found { IfOk result (λ row. IsVisible view.now op.now columns.now row.0 row.1) }
    ensures exists { IfOk result (λ row. IsExistsKey op.now row.2) }
    ensures missed { IfErr result (IsMissed ((there : _) (cells : _) → ¬ (IsVisible view.now op.now columns.now there cells))) }
{
    let exists = exists_key(alloc, op.table(), op.key().as_slice())?;
    let (there, cells) = read_row(alloc, view, op, columns, &exists)?;
    Ok((there, cells, exists))
}

/// The operation's row, whose entries from this place on are marked, and the key of its `exists` pair.
/// `next` becomes the place after them.
fn marked_row(
    alloc: Global,
    view: &ReadView,
    op: &RowOp,
    columns: &[(u32, ColumnType)],
    at: usize,
    marks: &mut [bool],
    next: &mut usize,
) -> Result<(bool, List<(u32, Value)>, Bytes), PrepareFault>
    requires place { IsRowAt (map.entries view.now) op.now columns.now at }
    requires long { length marks.old ≡ length (map.entries view.now) }
    ensures found { IfOk result (λ row. IsVisible view.now op.now columns.now row.0 row.1) }
    ensures exists { IfOk result (λ row. IsExistsKey op.now row.2) }
    ensures missed { IfErr result (IsMissed ((there : _) (cells : _) → ¬ (IsVisible view.now op.now columns.now there cells))) }
    ensures marked { OnOk result (AreMarked (keys_of (map.entries view.now)) (row_keys op.now columns.now) marks.old marks.new) }
{
    let exists = view.entries()[at].0.clone()?;
    let (there, cells) = row_at(alloc, view, op, columns, at)?;
    mark(marks, at, columns.len() + 1);
    *next = at + columns.len() + 1;
    Ok((there, cells, exists))
}

/// Whether the operation's row is there, its cells of these columns, and the key of its `exists` pair.
/// The row's entries are marked, if they are side by side.
///
/// - `next`: where the row may be; then the place after it.
pub(crate) fn find_row(
    alloc: Global,
    view: &ReadView,
    op: &RowOp,
    columns: &[(u32, ColumnType)],
    marks: &mut [bool],
    next: &mut usize,
) -> Result<(bool, List<(u32, Value)>, Bytes), PrepareFault>
    requires { length marks.old ≡ length (map.entries view.now) }
    ensures found { IfOk result (λ row. IsVisible view.now op.now columns.now row.0 row.1) }
    ensures exists { IfOk result (λ row. IsExistsKey op.now row.2) }
    ensures missed { IfErr result (IsMissed ((there : _) (cells : _) → ¬ (IsVisible view.now op.now columns.now there cells))) }
    ensures marked { OnOk result (AreMarked (keys_of (map.entries view.now)) (row_keys op.now columns.now) marks.old marks.new) }
{
    match row_place(view.entries(), op, columns, *next) {
        Some(at) => marked_row(alloc, view, op, columns, at, marks, next),
        None => looked_up_row(alloc, view, op, columns),
    }
}
