//! Drafts by hand: table t with the key `id` and the column `a`, element 1.
ghost use Rattle.std.specs.Prelude.{◌≡◌, IfSome};
ghost use Rattle.keycode.specs.Valid.{IsStorable};
ghost use Rattle.record_code.specs.Records.{IsKnown, record_code};

use byte_map::{Bytes, KeyMap};
use collections::{ArcValue, List};
use drafts::{Drafted, Newest, Record, Reorg, TxnDraft, draft_close, draft_piece, draft_txn};
use keycode::{Text, Value};
use record_code::{
    RecordKind, control_bytes, open_bytes, piece_bytes, record_of, txn_bytes, txn_bytes_under,
};
use reorganise::{PreparedPiece, Progress, Span, prepare_piece};
use row_map::{ColumnType, ReadView};
use row_write::{RowOp, RowOps};
use schema_version::{Columns, DeclareFault, Schema, TableDef};
use std::alloc::{AllocError, Global};

fn named(alloc: Global, name: &str) -> Result<Text, AllocError> {
    Ok(Text::new(String::from_str(alloc, name)?))
}

fn column(alloc: Global, name: &str) -> Result<Columns, AllocError> {
    Ok(List::new(vec![in alloc; (named(alloc, name)?, ColumnType::Int)]?))
}

/// The table `t (id int key, a int)`.
fn table(alloc: Global) -> Result<TableDef, AllocError> {
    let name = named(alloc, "t")?;
    let key = column(alloc, "id")?;
    let columns = column(alloc, "a")?;
    Ok(TableDef {
        name,
        key,
        columns,
        indexes: List::new(Vec::new(alloc)),
    })
}

fn tables(alloc: Global) -> Result<Vec<TableDef>, AllocError> {
    Ok(vec![in alloc; table(alloc)?]?)
}

fn opened(alloc: Global) -> Option<Vec<u8>> {
    let tables = tables(alloc).ok()?;
    open_bytes(alloc, tables.as_slice()).ok()
}

/// The value of version 1, of 70 bytes.
pub(crate) const VERSION: &[u8] = b"\x01\
\0\0\0\0\0\0\0\x01\0\0\0\0\0\0\0\x01t\0\0\0\0\0\0\0\x01\0\0\0\0\0\0\0\x02id\0\
\0\0\0\0\0\0\0\x01\
\0\0\0\x01\0\0\0\x01\0\0\0\0\0\0\0\x01a\x01\0\x03\0\
\0\0\0\x02";

/// Version 1 is missing; it is put.
pub(crate) const OPEN: &[u8] = b"\x01\
\0\0\0\0\0\0\0\x01\
\0\0\0\0\0\0\0\x09\0\0\0\0\0\0\0\0\x01\0\
\0\0\0\0\0\0\0\0\
\0\0\0\0\0\0\0\x01\
\0\0\0\0\0\0\0\x09\0\0\0\0\0\0\0\0\x01\x01\0\0\0\0\0\0\0\x46\
\x01\
\0\0\0\0\0\0\0\x01\0\0\0\0\0\0\0\x01t\0\0\0\0\0\0\0\x01\0\0\0\0\0\0\0\x02id\0\
\0\0\0\0\0\0\0\x01\
\0\0\0\x01\0\0\0\x01\0\0\0\0\0\0\0\x01a\x01\0\x03\0\
\0\0\0\x02";

fn schema_in(record: &Record) -> Option<ArcValue<Schema>> {
    match record {
        Record::Version(schema) => schema.clone().ok(),
        _ => None,
    }
}

fn version(alloc: Global) -> Option<ArcValue<Schema>> {
    let record = record_of(alloc, RecordKind::Version, VERSION).ok()?;
    schema_in(&record)
}

/// The close of version 1 under version 2, which has the same schema.
fn closed(alloc: Global) -> Option<Vec<u8>> {
    let schema = version(alloc)?;
    let newest = Newest { before: 1, schema };
    let control = draft_close(alloc, &newest).ok()?;
    drop(newest);
    control_bytes(alloc, &control).ok()
}

/// Version 2 is there, and no version 3; version 1 is removed.
pub(crate) const CLOSE: &[u8] = b"\x01\
\0\0\0\0\0\0\0\x02\
\0\0\0\0\0\0\0\x09\0\0\0\0\0\0\0\0\x02\x01\0\0\0\0\0\0\0\x46\
\x01\
\0\0\0\0\0\0\0\x01\0\0\0\0\0\0\0\x01t\0\0\0\0\0\0\0\x01\0\0\0\0\0\0\0\x02id\0\
\0\0\0\0\0\0\0\x01\
\0\0\0\x01\0\0\0\x01\0\0\0\0\0\0\0\x01a\x01\0\x03\0\
\0\0\0\x02\
\0\0\0\0\0\0\0\x09\0\0\0\0\0\0\0\0\x03\0\
\0\0\0\0\0\0\0\0\
\0\0\0\0\0\0\0\x01\
\0\0\0\0\0\0\0\x09\0\0\0\0\0\0\0\0\x01\0";

/// Delete the row 7.
fn deletion(alloc: Global) -> Result<RowOps, AllocError> {
    let key = List::new(vec![in alloc; Value::Int(7)]?);
    Ok(List::new(vec![in alloc; RowOp::Delete { table: 1, key }]?))
}

pub(crate) const EXISTS: &[u8] = b"R\0\0\0\x01\x02\x80\0\0\0\0\0\0\x07\0\0\0\0";

pub(crate) const COLUMN: &[u8] = b"R\0\0\0\x01\x02\x80\0\0\0\0\0\0\x07\0\0\0\x01";

pub(crate) const FIVE: &[u8] = b"\x02\x80\0\0\0\0\0\0\x05";

fn pair(alloc: Global, key: &[u8], value: &[u8]) -> Result<(Bytes, Bytes), AllocError> {
    let key = Bytes::from_slice(alloc, key)?;
    Ok((key, Bytes::from_slice(alloc, value)?))
}

fn add(alloc: Global, row: &mut KeyMap<Bytes>, key: &[u8], value: &[u8]) -> Result<(), AllocError> {
    let (key, value) = pair(alloc, key, value)?;
    row.insert(key, value)
}

fn add_read(
    alloc: Global,
    view: &mut ReadView,
    key: &[u8],
    value: &[u8],
) -> Result<(), AllocError> {
    let (key, value) = pair(alloc, key, value)?;
    view.insert(key, Some(value))
}

/// The row 7, which has 5 in `a`, as it is read.
fn view(alloc: Global) -> Result<ReadView, AllocError> {
    let mut view = KeyMap::new(alloc);
    add_read(alloc, &mut view, EXISTS, &[])?;
    add_read(alloc, &mut view, COLUMN, FIVE)?;
    Ok(view)
}

fn mark(alloc: Global) -> Option<Bytes> {
    Bytes::from_slice(alloc, b"m").ok()
}

/// Its deletion under version 1, with this mark or none.
fn drafted(alloc: Global, schema: ArcValue<Schema>, mark: Option<Bytes>) -> Option<TxnDraft>
    ensures { IfSome result (λ draft. draft.txn.schema ≡ schema) }
{
    let ops = ArcValue::new(alloc, deletion(alloc).ok()?).ok()?;
    let view = view(alloc).ok()?;
    match draft_txn(alloc, 1, schema, ops, mark, view) {
        Ok(Drafted::Draft(txn)) => Some(txn),
        _ => None,
    }
}

fn transacted(alloc: Global) -> Option<Vec<u8>> {
    let txn = drafted(alloc, version(alloc)?, Some(mark(alloc)?))?;
    txn_bytes(alloc, &txn).ok()
}

/// The same, by the value of which this record was read.
fn transacted_under(
    alloc: Global,
    value: &[u8],
    record: &Record,
    mark: Option<Bytes>,
) -> Option<Vec<u8>>
    requires known { IsKnown IsStorable record.now }
    requires spelled { value.now ≡ record_code record.now }
{
    let Record::Version(schema) = record else {
        return None;
    };
    let txn = drafted(alloc, schema.clone().ok()?, mark)?;
    txn_bytes_under(alloc, &txn, value).ok()
}

fn transacted_as_read(alloc: Global, mark: Option<Bytes>) -> Option<Vec<u8>> {
    match record_of(alloc, RecordKind::Version, VERSION) {
        Ok(record) => transacted_under(alloc, VERSION, &record, mark),
        Err(_) => None,
    }
}

/// Version 1 is there, the mark is not, and the row is as it was read; the mark is put, and the row's
/// pairs are removed.
pub(crate) const TXN: &[u8] = b"\x01\
\0\0\0\0\0\0\0\x04\
\0\0\0\0\0\0\0\x09\0\0\0\0\0\0\0\0\x01\x01\0\0\0\0\0\0\0\x46\
\x01\
\0\0\0\0\0\0\0\x01\0\0\0\0\0\0\0\x01t\0\0\0\0\0\0\0\x01\0\0\0\0\0\0\0\x02id\0\
\0\0\0\0\0\0\0\x01\
\0\0\0\x01\0\0\0\x01\0\0\0\0\0\0\0\x01a\x01\0\x03\0\
\0\0\0\x02\
\0\0\0\0\0\0\0\x02\x03m\0\
\0\0\0\0\0\0\0\x12R\0\0\0\x01\x02\x80\0\0\0\0\0\0\x07\0\0\0\0\x01\0\0\0\0\0\0\0\0\
\0\0\0\0\0\0\0\x12R\0\0\0\x01\x02\x80\0\0\0\0\0\0\x07\0\0\0\x01\x01\0\0\0\0\0\0\0\x09\x02\x80\0\0\0\0\0\0\x05\
\0\0\0\0\0\0\0\0\
\0\0\0\0\0\0\0\x03\
\0\0\0\0\0\0\0\x02\x03m\x01\0\0\0\0\0\0\0\x01\x01\
\0\0\0\0\0\0\0\x12R\0\0\0\x01\x02\x80\0\0\0\0\0\0\x07\0\0\0\0\0\
\0\0\0\0\0\0\0\x12R\0\0\0\x01\x02\x80\0\0\0\0\0\0\x07\0\0\0\x01\0";

/// The same without a mark.
const UNMARKED: &[u8] = b"\x01\
\0\0\0\0\0\0\0\x03\
\0\0\0\0\0\0\0\x09\0\0\0\0\0\0\0\0\x01\x01\0\0\0\0\0\0\0\x46\
\x01\
\0\0\0\0\0\0\0\x01\0\0\0\0\0\0\0\x01t\0\0\0\0\0\0\0\x01\0\0\0\0\0\0\0\x02id\0\
\0\0\0\0\0\0\0\x01\
\0\0\0\x01\0\0\0\x01\0\0\0\0\0\0\0\x01a\x01\0\x03\0\
\0\0\0\x02\
\0\0\0\0\0\0\0\x12R\0\0\0\x01\x02\x80\0\0\0\0\0\0\x07\0\0\0\0\x01\0\0\0\0\0\0\0\0\
\0\0\0\0\0\0\0\x12R\0\0\0\x01\x02\x80\0\0\0\0\0\0\x07\0\0\0\x01\x01\0\0\0\0\0\0\0\x09\x02\x80\0\0\0\0\0\0\x05\
\0\0\0\0\0\0\0\0\
\0\0\0\0\0\0\0\x02\
\0\0\0\0\0\0\0\x12R\0\0\0\x01\x02\x80\0\0\0\0\0\0\x07\0\0\0\0\0\
\0\0\0\0\0\0\0\x12R\0\0\0\x01\x02\x80\0\0\0\0\0\0\x07\0\0\0\x01\0";

/// The fill of index i on column 1, element 2, write-only, in one piece: all rows of t. It has 68
/// bytes.
const FILL: &[u8] = b"\x01\
\0\0\0\x02\0\0\0\x01\0\0\0\0\0\0\0\x01i\0\0\0\0\0\0\0\0\x01\0\0\0\x01\x02\0\
\0\
\0\0\0\0\0\0\0\x01\
\0\0\0\0\0\0\0\x05R\0\0\0\x01\0\0\0\0\0\0\0\x05R\0\0\0\x02";

fn span_of(bound: &(Bytes, Bytes)) -> Result<Span, AllocError> {
    let low = bound.0.clone()?;
    let high = bound.1.clone()?;
    let cursor = bound.0.clone()?;
    Ok(Span { low, high, cursor })
}

fn pieces_of(alloc: Global, bounds: &[(Bytes, Bytes)]) -> Result<List<Span>, AllocError> {
    let mut pieces = Vec::new(alloc);
    for bound in bounds {
        pieces.push(span_of(bound)?)?;
    }
    Ok(List::new(pieces))
}

/// The reorganisation as it has begun.
fn progress_of(alloc: Global, reorg: &Reorg) -> Result<Progress, AllocError> {
    let pieces = pieces_of(alloc, reorg.bounds.as_slice())?;
    let element = reorg.element.clone()?;
    Ok(Progress {
        element,
        kind: reorg.work,
        pieces,
    })
}

fn row(alloc: Global) -> Result<KeyMap<Bytes>, AllocError> {
    let mut row = KeyMap::new(alloc);
    add(alloc, &mut row, EXISTS, &[])?;
    add(alloc, &mut row, COLUMN, FIVE)?;
    Ok(row)
}

/// Its piece, prepared from the row 7.
fn piece_of(alloc: Global, reorg: &Reorg) -> Option<PreparedPiece> {
    let progress = progress_of(alloc, reorg).ok()?;
    let row = row(alloc).ok()?;
    let read = progress.read_piece(alloc, &row, 0, 10).ok()?;
    prepare_piece(alloc, read).ok()
}

fn piece_of_record(alloc: Global, record: &Record) -> Option<Vec<u8>> {
    let Record::Reorg(reorg) = record else {
        return None;
    };
    let piece = piece_of(alloc, reorg)?;
    let control = draft_piece(alloc, &piece, &reorg.bounds).ok()?;
    piece_bytes(alloc, &control, &piece).ok()
}

fn moved(alloc: Global) -> Option<Vec<u8>> {
    let record = record_of(alloc, RecordKind::Reorg, FILL).ok()?;
    piece_of_record(alloc, &record)
}

/// The reorganisation is there, its cursor at the lower bound, and from there to the upper bound the
/// row's pairs alone; the cursor is put at the upper bound, and the index's pair is put.
pub(crate) const PIECE: &[u8] = b"\x01\
\0\0\0\0\0\0\0\x02\
\0\0\0\0\0\0\0\x09\x01\0\0\0\0\0\0\0\x02\x01\0\0\0\0\0\0\0\x44\
\x01\
\0\0\0\x02\0\0\0\x01\0\0\0\0\0\0\0\x01i\0\0\0\0\0\0\0\0\x01\0\0\0\x01\x02\0\
\0\
\0\0\0\0\0\0\0\x01\
\0\0\0\0\0\0\0\x05R\0\0\0\x01\0\0\0\0\0\0\0\x05R\0\0\0\x02\
\0\0\0\0\0\0\0\x11\x02\0\0\0\0\0\0\0\x02\0\0\0\0\0\0\0\0\x01\0\0\0\0\0\0\0\x06\x01R\0\0\0\x01\
\0\0\0\0\0\0\0\x01\
\0\0\0\0\0\0\0\x05R\0\0\0\x01\0\0\0\0\0\0\0\x05R\0\0\0\x02\
\0\0\0\0\0\0\0\x02\
\0\0\0\0\0\0\0\x12R\0\0\0\x01\x02\x80\0\0\0\0\0\0\x07\0\0\0\0\0\0\0\0\0\0\0\0\
\0\0\0\0\0\0\0\x12R\0\0\0\x01\x02\x80\0\0\0\0\0\0\x07\0\0\0\x01\0\0\0\0\0\0\0\x09\x02\x80\0\0\0\0\0\0\x05\
\0\0\0\0\0\0\0\x02\
\0\0\0\0\0\0\0\x11\x02\0\0\0\0\0\0\0\x02\0\0\0\0\0\0\0\0\x01\0\0\0\0\0\0\0\x06\x01R\0\0\0\x02\
\0\0\0\0\0\0\0\x17X\0\0\0\x02\x02\x80\0\0\0\0\0\0\x05\x02\x80\0\0\0\0\0\0\x07\x01\0\0\0\0\0\0\0\0";

/// What drafts are made of here.
#[derive(Clone, Copy, Debug)]
enum What {
    Open,
    Close,
    Txn,
    TxnAsRead,
    UnmarkedAsRead,
    Piece,
}

fn made(alloc: Global, what: What) -> Option<Vec<u8>> {
    match what {
        What::Open => opened(alloc),
        What::Close => closed(alloc),
        What::Txn => transacted(alloc),
        What::TxnAsRead => transacted_as_read(alloc, Some(mark(alloc)?)),
        What::UnmarkedAsRead => transacted_as_read(alloc, None),
        What::Piece => moved(alloc),
    }
}

/// Whether the draft has these bytes; made once more if memory was short.
fn has(alloc: Global, what: What, bytes: &[u8]) -> bool {
    let draft = match made(alloc, what) {
        None => made(alloc, what),
        draft => draft,
    };
    match draft {
        Some(draft) => draft.as_slice() == bytes,
        None => false,
    }
}

const DRAFTS: &[(What, &[u8])] = &[
    (What::Open, OPEN),
    (What::Close, CLOSE),
    (What::Txn, TXN),
    (What::TxnAsRead, TXN),
    (What::UnmarkedAsRead, UNMARKED),
    (What::Piece, PIECE),
];

#[test]
fn under_refusal_drafts_are_written_so(rt: HostRuntime) {
    assert!(rt; rt.println("from here on").is_ok());
    for (what, bytes) in DRAFTS {
        assert!(rt; has(rt.alloc(), *what, bytes), "{what:?}");
    }
}

#[test]
fn tables_that_may_not_be_declared_are_refused(rt: HostRuntime) {
    assert!(rt; open_bytes(rt.alloc(), &[]).err() == Some(DeclareFault::BadTable));
}
