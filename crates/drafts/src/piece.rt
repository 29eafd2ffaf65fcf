//! A piece of a reorganisation.
ghost use Rattle.std.specs.Bool.{Decides};
ghost use Rattle.std.specs.Prelude.{◌≡◌, [], IfOk, IfErr};
ghost use Rattle.drafts.specs.Calls.{piece_draft};
ghost use Rattle.drafts.specs.Made.{working, IsControlOf, IsPieceBy, IsAmong, PieceRefusal};
ghost use Rattle.drafts.specs.declared.piece.PieceFault.TheVariants.{Memory};

use crate::key::Key;
use crate::record::{Control, Record, Reorg};
use byte_map::Bytes;
use collections::List;
use reorganise::PreparedPiece;
use std::alloc::{AllocError, Global};
use thiserror::Error;

/// Why no piece is drafted.
#[derive(Clone, Copy, Debug, PartialEq, Eq, Error)]
pub enum PieceFault {
    /// The bounds at the piece's number are not the piece's.
    #[error("no such piece")]
    BadPiece,
    /// Out of memory.
    #[error("out of memory")]
    Memory,
}

impl From<AllocError> for PieceFault {
    ghost from_gives = { λ _ fault. fault ≡ Memory };

    fn from(_: AllocError) -> PieceFault {
        PieceFault::Memory
    }
}

/// Whether two byte strings are the same.
fn are_bytes(one: &[u8], other: &Bytes) -> bool
    ensures { Decides result (one.now ≡ other.now) }
{
    one == other.as_slice()
}

/// Whether this is the piece of its number within the bounds.
fn is_within(piece: &PreparedPiece, bounds: &[(Bytes, Bytes)]) -> bool
    ensures { Decides result (IsAmong piece.now bounds.now) }
{
    let (low, high) = piece.bounds();
    match bounds.get(piece.piece() as usize) {
        None => false,
        Some(bound) => are_bytes(low, &bound.0) && are_bytes(high, &bound.1),
    }
}

/// What a piece compares.
fn piece_reads(
    alloc: Global,
    piece: &PreparedPiece,
    bounds: &List<(Bytes, Bytes)>,
) -> Result<Vec<(Key, Option<Record>)>, AllocError>
    ensures { IfOk result (λ points. points.items ≡ (piece_draft (working piece.now bounds.now)).reads) }
{
    let number = piece.element().number;
    let reorg = Reorg {
        element: piece.element().clone()?,
        work: piece.kind(),
        bounds: bounds.clone()?,
    };
    let cursor = Bytes::from_slice(alloc, piece.cursors().0)?;
    let mut out = Vec::new(alloc);
    out.push((Key::reorg(number), Some(Record::Reorg(reorg))))?;
    out.push((
        Key::cursor(number, u64::from(piece.piece())),
        Some(Record::Cursor(cursor)),
    ))?;
    Ok(out)
}

/// What it writes.
fn piece_writes(
    alloc: Global,
    piece: &PreparedPiece,
) -> Result<Vec<(Key, Option<Record>)>, AllocError>
    ensures { IfOk result (λ points. points.items ≡ (piece_draft (working piece.now [])).writes) }
{
    let cursor = Bytes::from_slice(alloc, piece.cursors().1)?;
    let mut out = Vec::new(alloc);
    out.push((
        Key::cursor(piece.element().number, u64::from(piece.piece())),
        Some(Record::Cursor(cursor)),
    ))?;
    Ok(out)
}

/// The piece of the reorganisation with these bounds.
fn piece_control(
    alloc: Global,
    piece: &PreparedPiece,
    bounds: &List<(Bytes, Bytes)>,
) -> Result<Control, AllocError>
    ensures { IfOk result (λ control. IsControlOf (piece_draft (working piece.now bounds.now)) control) }
{
    let reads = piece_reads(alloc, piece, bounds)?;
    let writes = piece_writes(alloc, piece)?;
    Ok(Control {
        reads: List::new(reads),
        writes: List::new(writes),
    })
}

/// Drafts a prepared piece. The store applies it if its element still has this reorganisation, the
/// piece's cursor is where it was read, and the pairs of its range are just those that were read;
/// those and the batch are the prepared piece's own `expect` and `batch`. Workers on two pieces do
/// not meet.
///
/// - `piece`: the prepared piece, however old.
/// - `bounds`: those of all pieces, as the record of the reorganisation has them.
///
/// The refusals, in their order: `BadPiece`, the bounds at the piece's number are others than the
/// piece's, or there are none; `Memory`, only if `BadPiece` is not due.
pub fn draft_piece(
    alloc: Global,
    piece: &PreparedPiece,
    bounds: &List<(Bytes, Bytes)>,
) -> Result<Control, PieceFault>
    ensures drafted { IfOk result (λ control. IsPieceBy piece.now bounds.now control) }
    ensures refused { IfErr result (λ fault. PieceRefusal piece.now bounds.now fault) }
{
    piece.lemma_made();
    if !is_within(piece, bounds.as_slice()) {
        return Err(PieceFault::BadPiece);
    }
    Ok(piece_control(alloc, piece, bounds)?)
}
