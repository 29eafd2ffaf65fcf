//! Drafts as bytes.
ghost use Rattle.std.specs.FinMap as map;
ghost use Rattle.std.specs.Prelude.{◌≡◌, ◌++◌, option_map, IfOk, OnOk, IfSome};
ghost use Rattle.reorganise.specs.Batches.{expect_of, batch_for};
ghost use Rattle.drafts.specs.Calls.{nothing, txn_draft};
ghost use Rattle.drafts.specs.Coded.{coded, IsFit};
ghost use Rattle.drafts.specs.Store.{version_key, mark_key};
ghost use Rattle.drafts.specs.declared.record.Record.TheVariants.{Version as OfVersion};
ghost use Rattle.entry_code.specs.Records.{draft_parts_code};
ghost use Rattle.record_code.specs.Drafts.{points_of, ranges_of, parts_of, draft_code, AreFitPoints, IsFitDraft, draft_with};
ghost use Rattle.record_code.specs.Keys.{key_code, HasKey};
ghost use Rattle.keycode.specs.Valid.{IsStorable};
ghost use Rattle.record_code.specs.Records.{record_code, IsKnown, HasRecord};

use crate::keys::{key_bytes, version_key_bytes, with_name};
use crate::write::record_bytes;
use byte_map::{Bytes, KeyMap};
use drafts::{Control, Key, Record, TxnDraft};
use entry_code::borrowed_draft_bytes;
use reorganise::PreparedPiece;
use row_map::{Batch, Expect};
use std::alloc::{AllocError, Global};

/// A key with its value or none.
type Point = (Bytes, Option<Bytes>);

// ---- control records

fn code_of(alloc: Global, record: &Option<Record>) -> Result<Option<Bytes>, AllocError>
    ensures code { IfOk result (λ value. value ≡ option_map record_code record.now) }
    ensures known { OnOk result (IfSome record.now HasRecord) }
{
    match record {
        None => Ok(None),
        Some(record) => Ok(Some(Bytes::new(record_bytes(alloc, record)?)?)),
    }
}

fn coded_point(alloc: Global, point: &(Key, Option<Record>)) -> Result<Point, AllocError>
    ensures code { IfOk result (λ made. made ≡ coded key_code record_code point.now) }
    ensures fit { OnOk result (IsFit HasKey HasRecord point.now) }
{
    let key = Bytes::new(key_bytes(alloc, &point.0)?)?;
    let value = code_of(alloc, &point.1)?;
    Ok((key, value))
}

fn push_coded(
    alloc: Global,
    out: &mut Vec<Point>,
    points: &[(Key, Option<Record>)],
) -> Result<(), AllocError>
    ensures code { OnOk result (out.new.items ≡ out.old.items ++ points_of points.now) }
    ensures fit { OnOk result (AreFitPoints points.now) }
{
    for point in points {
        out.push(coded_point(alloc, point)?)?;
    }
    Ok(())
}

/// Control records with their codes.
fn coded_points(alloc: Global, points: &[(Key, Option<Record>)]) -> Result<Vec<Point>, AllocError>
    ensures code { IfOk result (λ made. made.items ≡ points_of points.now) }
    ensures fit { OnOk result (AreFitPoints points.now) }
{
    let mut out = Vec::with_capacity(alloc, points.len())?;
    push_coded(alloc, &mut out, points)?;
    Ok(out)
}

/// What compares that a version is open, by the code of its record.
fn version_point(alloc: Global, number: u64, record: &[u8]) -> Result<Point, AllocError>
    ensures { IfOk result (λ made. made ≡ (key_code (version_key number), Some record.now)) }
{
    let key = Bytes::from_slice(alloc, &version_key_bytes(number))?;
    Ok((key, Some(Bytes::from_slice(alloc, record)?)))
}

/// The key of a mark.
fn mark_key_of(alloc: Global, name: &Bytes) -> Result<Bytes, AllocError>
    ensures { IfOk result (λ key. key ≡ key_code (mark_key name.now)) }
{
    Bytes::new(with_name(alloc, name.as_slice())?)
}

// ---- pairs of rows and indexes

fn copy_of(value: &Option<Bytes>) -> Result<Option<Bytes>, AllocError>
    ensures { IfOk result (λ copy. copy ≡ value.now) }
{
    match value {
        None => Ok(None),
        Some(bytes) => Ok(Some(bytes.clone()?)),
    }
}

fn copy_point(point: &Point) -> Result<Point, AllocError>
    ensures { IfOk result (λ copy. copy ≡ point.now) }
{
    let key = point.0.clone()?;
    Ok((key, copy_of(&point.1)?))
}

/// Each key that a batch writes, with what it writes last, by rising key.
fn last_writes(alloc: Global, batch: &Batch) -> Result<KeyMap<Option<Bytes>>, AllocError>
    ensures { IfOk result (λ writes. writes ≡ batch.now) }
{
    let mut out = KeyMap::new(alloc);
    for write in batch.writes() {
        let (key, value) = copy_point(write)?;
        out.insert(key, value)?;
    }
    Ok(out)
}

// ---- the whole

/// The code of a draft of control records as points, pairs that are compared and pairs that are
/// written.
fn code_with(
    alloc: Global,
    reads: &[Point],
    expect: &Expect,
    writes: &[Point],
    batch: &Batch,
) -> Result<Vec<u8>, AllocError>
    ensures { IfOk result (λ bytes. bytes.items ≡ draft_parts_code (record { compare = reads.now ++ map.entries expect.now.points; ranges = ranges_of expect.now.key_range; write = writes.now ++ map.entries batch.now })) }
{
    let last = last_writes(alloc, batch)?;
    let compare = (reads, expect.points.entries());
    let write = (writes, last.entries());
    borrowed_draft_bytes(alloc, compare, &expect.key_range, write)
}

/// The code of the draft of control records, pairs that are compared and pairs that are written.
fn bytes_of(
    alloc: Global,
    control: &Control,
    expect: &Expect,
    batch: &Batch,
) -> Result<Vec<u8>, AllocError>
    ensures code { IfOk result (λ bytes. bytes.items ≡ draft_code (draft_with control.now expect.now batch.now)) }
    ensures fit { OnOk result (IsFitDraft (draft_with control.now expect.now batch.now)) }
{
    let reads = coded_points(alloc, control.reads.as_slice())?;
    let writes = coded_points(alloc, control.writes.as_slice())?;
    code_with(alloc, reads.as_slice(), expect, writes.as_slice(), batch)
}

/// The code of a draft that compares and writes control records alone: a step, a close or a begin.
///
/// Refused only when out of memory. It takes time and memory in proportion to the code's length.
pub fn control_bytes(alloc: Global, control: &Control) -> Result<Vec<u8>, AllocError>
    ensures code { IfOk result (λ bytes. bytes.items ≡ draft_code (draft_with control.now nothing map.empty)) }
    ensures fit { OnOk result (IsFitDraft (draft_with control.now nothing map.empty)) }
{
    let expect = Expect {
        points: KeyMap::new(alloc),
        key_range: None,
    };
    let batch = Batch::new(alloc);
    bytes_of(alloc, control, &expect, &batch)
}

/// The code of the draft of a transaction: what its operations read and write, and its control
/// records.
///
/// Refused, and bounded, as `control_bytes`.
pub fn txn_bytes(alloc: Global, txn: &TxnDraft) -> Result<Vec<u8>, AllocError>
    ensures code { IfOk result (λ bytes. bytes.items ≡ draft_code (txn_draft txn.now.txn txn.now.mark)) }
    ensures fit { OnOk result (IsFitDraft (txn_draft txn.now.txn txn.now.mark)) }
{
    let control = txn.control(alloc)?;
    bytes_of(alloc, &control, txn.expect(), txn.batch())
}

/// The code of the draft of a transaction, as `txn_bytes` gives it, by the record of its version, which
/// is then not made anew.
///
/// - `record`: the value of which `record_of` gave that version.
///
/// Refused, and bounded, as `control_bytes`.
pub fn txn_bytes_under(alloc: Global, txn: &TxnDraft, record: &[u8]) -> Result<Vec<u8>, AllocError>
    requires known { IsKnown IsStorable (OfVersion txn.now.txn.schema) }
    requires spelled { record.now ≡ record_code (OfVersion txn.now.txn.schema) }
    ensures code { IfOk result (λ bytes. bytes.items ≡ draft_code (txn_draft txn.now.txn txn.now.mark)) }
    ensures fit { OnOk result (IsFitDraft (txn_draft txn.now.txn txn.now.mark)) }
{
    let version = version_point(alloc, txn.number(), record)?;
    match txn.mark() {
        None => code_with(alloc, &[version], txn.expect(), &[], txn.batch()),
        Some(name) => {
            let key = mark_key_of(alloc, name)?;
            let put = Bytes::from_slice(alloc, &[1])?;
            let reads = [version, (key.clone()?, None)];
            let writes = [(key, Some(put))];
            code_with(alloc, &reads, txn.expect(), &writes, txn.batch())
        }
    }
}

/// The code of the draft of a prepared piece: the range that it read, what it writes, and its control
/// records.
///
/// - `control`: what `draft_piece` gives for it.
/// - `piece`: the piece.
///
/// Refused, and bounded, as `control_bytes`.
pub fn piece_bytes(
    alloc: Global,
    control: &Control,
    piece: &PreparedPiece,
) -> Result<Vec<u8>, AllocError>
    ensures code { IfOk result (λ bytes. bytes.items ≡ draft_code (draft_with control.now (expect_of piece.now.key_range) (batch_for piece.now))) }
    ensures fit { OnOk result (IsFitDraft (draft_with control.now (expect_of piece.now.key_range) (batch_for piece.now))) }
{
    bytes_of(alloc, control, piece.expect(), piece.batch())
}
