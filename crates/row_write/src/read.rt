//! The rows of a transaction, as its view encodes them.
ghost use Rattle.std.specs.Prelude.{◌≡◌, ◌↔◌, ◌&&◌, ◌∷◌, [], IsTrue, Some, Option, Bool, List, ℕ, IfOk, IfErr, IfSome, OnOk, is_some, length, replicate, false};
ghost use Rattle.std.specs.List.{AllByRecursion, list_all};
ghost use Rattle.std.specs.FinMap as map;
ghost use Rattle.keycode.specs.declared.value.Value.{Value};
ghost use Rattle.row_map.specs.Rows.{Bytes as ByteString, Rows};
ghost use Rattle.row_map.specs.Writes.{written};
ghost use Rattle.row_write.specs.Plain.{row_of};
ghost use Rattle.row_write.specs.Prepare.{IsEncodedRow, Encodes};
ghost use Rattle.row_write.specs.Made.{IsSound};
ghost use Rattle.row_write.specs.Reads.{IsRead};
ghost use Rattle.row_write.specs.inner.Enter.{row_keys};
ghost use Rattle.row_write.specs.inner.Places.{AreMarked, AreReads};
ghost use Rattle.row_write.specs.inner.View.{IsMissed, IsVisible, cells_there, keys_of, HaveSameKeys, IsExistsKey, exists_keys};

use crate::edit::copy_key;
use crate::fault::PrepareFault;
use crate::lemmas::lemma_served;
use crate::op::RowOp;
use crate::places::{find_row, is_same_key, only_row};
use crate::public_columns::columns_of;
use crate::reads::reads_of;
use crate::work_rows::WorkRows;
use byte_map::{Bytes, KeyMap};
use collections::List;
use keycode::Value;
use row_map::{ColumnType, ReadSet, ReadView, Row};
use schema_version::Schema;
use std::alloc::{AllocError, Global};

/// Puts the operation's row, as it was read.
fn put_row(
    rows: &mut WorkRows,
    op: &RowOp,
    there: bool,
    cells: List<(u32, Value)>,
) -> Result<(), AllocError>
    ensures { OnOk result (rows.new ≡ written rows.old (row_of op.now) (cells_there there cells)) }
{
    let key = copy_key(op.key())?;
    rows.put(op.table(), Row { key, cells }, there)
}

/// Reads the row of an operation, marks its entries if they are side by side, and gives the key of its
/// `exists` pair.
///
/// - `next`: where the row may be; then the place after it.
fn read_op(
    alloc: Global,
    view: &ReadView,
    rows: &mut WorkRows,
    op: &RowOp,
    columns: &[(u32, ColumnType)],
    marks: &mut [bool],
    next: &mut usize,
) -> Result<Bytes, PrepareFault>
    requires { length marks.old ≡ length (map.entries view.now) }
    ensures exists { IfOk result (IsExistsKey op.now) }
    ensures found { OnOk result ((there : Bool) × (cells : _) × IsVisible view.now op.now columns.now there cells × (rows.new ≡ written rows.old (row_of op.now) (cells_there there cells))) }
    ensures missed { IfErr result (IsMissed ((there : Bool) (cells : _) → ¬ (IsVisible view.now op.now columns.now there cells))) }
    ensures marked { OnOk result (AreMarked (keys_of (map.entries view.now)) (row_keys op.now columns.now) marks.old marks.new) }
{
    let (there, cells, exists) = find_row(alloc, view, op, columns, marks, next)?;
    put_row(rows, op, there, cells)?;
    Ok(exists)
}

/// Rows that the view encodes for these operations, and for each the key of its row's `exists` pair.
/// Entries that are found side by side are marked.
fn read_rows(
    alloc: Global,
    schema: &Schema,
    view: &ReadView,
    ops: &[RowOp],
    marks: &mut [bool],
) -> Result<(WorkRows, Vec<Bytes>), PrepareFault>
    requires long { length marks.old ≡ length (map.entries view.now) }
    requires sound { AllByRecursion (IsSound schema.now) ops.now }
    ensures found { IfOk result (λ read. AllByRecursion (IsEncodedRow schema.now view.now read.0) ops.now) }
    ensures exists { IfOk result (λ read. read.1.items ≡ exists_keys ops.now) }
    ensures missed { IfErr result (IsMissed ((rows : Rows) → ¬ (AllByRecursion (IsEncodedRow schema.now view.now rows) ops.now))) }
    ensures marked { OnOk result (AreReads schema.now ops.now view.now marks.old → AreReads schema.now ops.now view.now marks.new) }
{
    lemma_served(schema);
    let mut rows = WorkRows::new(alloc);
    let mut keys = Vec::new(alloc);
    let mut next = 0;
    for op in ops {
        let columns = columns_of(alloc, schema, op.table())?;
        let exists = read_op(
            alloc,
            view,
            &mut rows,
            op,
            columns.as_slice(),
            marks,
            &mut next,
        )?;
        keys.push(exists)?;
    }
    Ok((rows, keys))
}

/// Whether the keys are all in the map.
fn all_in<V, W>(entries: &[(Bytes, V)], other: &KeyMap<W>) -> bool
    ensures { result ≡ list_all (λ e. is_some (map.get other.now e.0)) entries.now }
{
    entries.iter().all(|e| other.get(e.0.as_slice()).is_some())
}

fn are_both(a: bool, b: bool) -> bool
    ensures { result ≡ (a && b) }
{
    a && b
}

/// Whether these have the same keys in the same order.
fn are_same_keys(reads: &[(Bytes, ())], view: &[(Bytes, Option<Bytes>)]) -> bool
    ensures { IsTrue result → keys_of reads.now ≡ keys_of view.now }
{
    if reads.len() != view.len() {
        return false;
    }
    for i in 0..reads.len() {
        if !is_same_key(&reads[i].0, &view[i].0) {
            return false;
        }
    }
    true
}

/// Whether the view has the keys that are read, and no other.
fn has_keys(reads: &ReadSet, view: &ReadView) -> bool
    ensures { IsTrue result ↔ HaveSameKeys reads.now view.now }
{
    // Keys are kept in their order, so most views are reported by one walk.
    if are_same_keys(reads.entries(), view.entries()) {
        return true;
    }
    let read = all_in(reads.entries(), view);
    let visible = all_in(view.entries(), reads);
    are_both(read, visible)
}

/// The operation's row and no other. One that isn't there needs no mention.
fn one_row(
    alloc: Global,
    op: &RowOp,
    there: bool,
    cells: List<(u32, Value)>,
) -> Result<WorkRows, AllocError>
    ensures { IfOk result (λ rows. rows ≡ written map.empty (row_of op.now) (cells_there there cells)) }
{
    let mut rows = WorkRows::new(alloc);
    if !there {
        return Ok(rows);
    }
    put_row(&mut rows, op, there, cells)?;
    Ok(rows)
}

/// The row that the view encodes for one operation, and the key of its `exists` pair. None of a view
/// with other keys.
pub(crate) fn encoded_row(
    alloc: Global,
    schema: &Schema,
    view: &ReadView,
    op: &RowOp,
) -> Result<Option<(WorkRows, Bytes)>, PrepareFault>
    requires { IsSound schema.now op.now }
    ensures found { IfOk result (λ found. IfSome found (λ row. Encodes schema.now (op.now ∷ []) view.now row.0)) }
    ensures exists { IfOk result (λ found. IfSome found (λ row. IsExistsKey op.now row.1)) }
    ensures missed { IfErr result (IsMissed ((rows : Rows) → ¬ (Encodes schema.now (op.now ∷ []) view.now rows))) }
{
    lemma_served(schema);
    let columns = columns_of(alloc, schema, op.table())?;
    let Some((there, cells, exists)) = only_row(alloc, view, op, columns.as_slice())? else {
        return Ok(None);
    };
    Ok(Some((one_row(alloc, op, there, cells)?, exists)))
}

/// Whether each entry of the view is marked, as one of a row that is read.
fn are_all(marks: &[bool]) -> bool
    ensures { result ≡ list_all (λ m. m) marks.now }
{
    marks.iter().all(|m| *m)
}

/// Whether the view has only keys that are read. All are read if all entries are marked; otherwise each
/// key is made, and looked up.
fn check_keys(
    alloc: Global,
    schema: &Schema,
    view: &ReadView,
    ops: &[RowOp],
    marks: &[bool],
) -> Result<(), PrepareFault>
    requires long { length marks.now ≡ length (map.entries view.now) }
    requires marked { AreReads schema.now ops.now view.now marks.now }
    ensures read { OnOk result ((key : ByteString) (value : Option ByteString) → map.get view.now key ≡ Some value → IsRead schema.now ops.now key) }
    ensures missed { IfErr result (IsMissed ((rows : Rows) → ¬ (Encodes schema.now ops.now view.now rows))) }
{
    if are_all(marks) {
        return Ok(());
    }
    let reads = reads_of(alloc, schema, ops)?;
    if has_keys(&reads, view) {
        Ok(())
    } else {
        Err(PrepareFault::ViewMismatch)
    }
}

/// So many entries, none of them marked.
fn no_marks(alloc: Global, count: usize) -> Result<Vec<bool>, AllocError>
    ensures { IfOk result (λ marks. marks.items ≡ replicate count false) }
{
    vec![in alloc; false; count]
}

/// What `encoded_rows` gives, with room for marks.
fn read_marked(
    alloc: Global,
    schema: &Schema,
    view: &ReadView,
    ops: &[RowOp],
    marks: &mut [bool],
) -> Result<(WorkRows, Vec<Bytes>), PrepareFault>
    requires sound { AllByRecursion (IsSound schema.now) ops.now }
    requires none { marks.old ≡ replicate (length (map.entries view.now)) false }
    ensures found { IfOk result (λ read. Encodes schema.now ops.now view.now read.0) }
    ensures exists { IfOk result (λ read. read.1.items ≡ exists_keys ops.now) }
    ensures missed { IfErr result (IsMissed ((rows : Rows) → ¬ (Encodes schema.now ops.now view.now rows))) }
{
    let (rows, keys) = read_rows(alloc, schema, view, ops, marks)?;
    check_keys(alloc, schema, view, ops, marks)?;
    Ok((rows, keys))
}

/// Rows that the view encodes, and for each operation the key of its row's `exists` pair.
pub(crate) fn encoded_rows(
    alloc: Global,
    schema: &Schema,
    view: &ReadView,
    ops: &[RowOp],
) -> Result<(WorkRows, Vec<Bytes>), PrepareFault>
    requires { AllByRecursion (IsSound schema.now) ops.now }
    ensures found { IfOk result (λ read. Encodes schema.now ops.now view.now read.0) }
    ensures exists { IfOk result (λ read. read.1.items ≡ exists_keys ops.now) }
    ensures missed { IfErr result (IsMissed ((rows : Rows) → ¬ (Encodes schema.now ops.now view.now rows))) }
{
    let mut marks = no_marks(alloc, view.entries().len())?;
    read_marked(alloc, schema, view, ops, marks.as_mut_slice())
}
