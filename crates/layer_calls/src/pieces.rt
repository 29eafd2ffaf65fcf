//! The pieces of a reorganisation: the draft of what was read of one.
ghost use Rattle.std.specs.Prelude.{◌≡◌, ◌++◌, length, IfOk, OnOk};
ghost use Rattle.layer_calls.specs.Given.{With, GivesReorg, GivesCursor, GivesPairs};
ghost use Rattle.layer_calls.specs.Pieces.{spans_from, progress_at as progress_of, IsPartTo, IsLastPart, IsNextPart, PiecesOf, PiecesAt};

use crate::given;
use crate::outcome::{LayerOutcome, LayerReply};
use byte_map::{Bytes, KeyMap};
use collections::List;
use drafts::{PieceFault, Reorg, draft_piece};
use handles::typed_calls::status::{BAD_COUNT, BAD_PIECE, OUT_OF_MEMORY, SPENT};
use record_code::piece_bytes;
use reorganise::{PieceView, Progress, Span, prepare_piece};
use std::alloc::{AllocError, Global};

// The pieces with these bounds, of which the one of this number has come to the cursor.
fn spans(
    bounds: &[(Bytes, Bytes)],
    out: &mut Vec<Span>,
    piece: u32,
    cursor: &Bytes,
) -> Result<(), AllocError>
    ensures { OnOk result (out.new.items ≡ out.old.items ++ spans_from (length out.old.items) piece cursor.now bounds.now) }
{
    for bound in bounds {
        let is_here = out.len() == piece as usize;
        let at = if is_here { cursor } else { &bound.0 };
        out.push(Span {
            low: bound.0.clone()?,
            high: bound.1.clone()?,
            cursor: at.clone()?,
        })?;
    }
    Ok(())
}

// The reorganisation, of which the piece of this number has come to the cursor.
fn progress_at(
    alloc: Global,
    reorg: &Reorg,
    piece: u32,
    cursor: &Bytes,
) -> Result<Progress, AllocError>
    ensures { IfOk result (λ progress. progress ≡ progress_of reorg.now piece cursor.now) }
{
    let mut pieces = Vec::new(alloc);
    spans(reorg.bounds.as_slice(), &mut pieces, piece, cursor)?;
    Ok(Progress {
        element: reorg.element.clone()?,
        kind: reorg.work,
        pieces: List::new(pieces),
    })
}

// What was read of a piece as far as this key, if the piece can go on to it from its cursor.
fn part_to(
    alloc: Global,
    progress: &Progress,
    view: &KeyMap<Bytes>,
    piece: u32,
    cursor: &Bytes,
    to: &Bytes,
) -> Result<Option<PieceView>, AllocError>
    ensures { IfOk result (λ found. IsPartTo progress.now view.now piece cursor.now to.now found) }
{
    if !cursor.cmp(to).is_lt() {
        return Ok(None);
    }
    progress.read_piece_to(alloc, view, piece, to)
}

// What was read of a piece as far as the last of these pairs to which it can go on.
fn last_part(
    alloc: Global,
    progress: &Progress,
    view: &KeyMap<Bytes>,
    piece: u32,
    cursor: &Bytes,
    pairs: &[(Bytes, Bytes)],
) -> Result<Option<PieceView>, AllocError>
    ensures { IfOk result (λ found. IsLastPart progress.now view.now piece cursor.now pairs.now found) }
{
    let mut at = pairs.len();
    while at > 0 {
        at -= 1;
        let found = part_to(alloc, progress, view, piece, cursor, &pairs[at].0)?;
        if let Some(read) = found {
            return Ok(Some(read));
        }
    }
    Ok(None)
}

// What was read of a piece as far as it can go on: to its end, if that was reached, else to the last
// item of which any pair was read.
fn next_part(
    alloc: Global,
    progress: &Progress,
    view: &KeyMap<Bytes>,
    piece: u32,
    cursor: &Bytes,
    high: &Bytes,
    to: &[u8],
) -> Result<Option<PieceView>, AllocError>
    ensures { IfOk result (λ found. IsNextPart progress.now view.now piece cursor.now high.now to.now found) }
{
    if high.compare(to).is_le() {
        return part_to(alloc, progress, view, piece, cursor, high);
    }
    last_part(alloc, progress, view, piece, cursor, view.entries())
}

// The code of the draft of what was read.
#[tactic(auto, using(crate::proofs::Fits::fit_by))]
fn draft_of(alloc: Global, reorg: &Reorg, read: PieceView) -> Result<LayerReply, LayerOutcome>
    ensures { PiecesOf reorg.now.bounds read result }
{
    let Ok(prepared) = prepare_piece(alloc, read) else {
        return Err(LayerOutcome::of(OUT_OF_MEMORY));
    };
    match draft_piece(alloc, &prepared, &reorg.bounds) {
        Ok(control) => Ok(LayerReply::of(piece_bytes(alloc, &control, &prepared)?)),
        Err(PieceFault::BadPiece) => Err(LayerOutcome::of(BAD_PIECE)),
        Err(PieceFault::Memory) => Err(LayerOutcome::of(OUT_OF_MEMORY)),
    }
}

// The draft of a piece that has come to this cursor.
fn piece_at(
    alloc: Global,
    reorg: &Reorg,
    piece: u32,
    cursor: &Bytes,
    to: &[u8],
    view: &KeyMap<Bytes>,
) -> Result<LayerReply, LayerOutcome>
    ensures { PiecesAt reorg.now piece cursor.now to.now view.now result }
{
    let Some(bound) = reorg.bounds.as_slice().get(piece as usize) else {
        return Err(LayerOutcome::of(BAD_PIECE));
    };
    if !cursor.cmp(&bound.1).is_lt() {
        return Err(LayerOutcome::of(SPENT));
    }
    let progress = progress_at(alloc, reorg, piece, cursor)?;
    let found = next_part(alloc, &progress, view, piece, cursor, &bound.1, to)?;
    match found {
        Some(read) => draft_of(alloc, reorg, read),
        None => Err(LayerOutcome::of(BAD_COUNT)),
    }
}

/// The code of the draft of a piece on what was read of it, at whatever moments: from its cursor to
/// below `to`. It goes on to the piece's end if `to` is there, else to the last key that was read of
/// which a row, or a pair of a cleared index, may begin.
///
/// - `reorg`: the record of the reorganisation.
/// - `piece`: the number of the piece, from 0.
/// - `cursor`: the record of its cursor.
/// - `to`: the key below which the pairs were read.
/// - `pairs`: the code of all pairs from the cursor to below `to`, by rising key.
///
/// Refused, in this order: `BAD_CODE` if a record or the pairs are none; `BAD_PIECE` if there is no such
/// piece; `SPENT` if it has ended; `BAD_COUNT` if too little was read for it to go on; `OUT_OF_MEMORY`,
/// which may come in place of any.
pub fn piece(
    alloc: Global,
    reorg: &[u8],
    piece: u32,
    cursor: &[u8],
    to: &[u8],
    pairs: &[u8],
) -> Result<LayerReply, LayerOutcome>
    ensures { With GivesReorg (λ r a. With GivesCursor (λ c b. With GivesPairs (PiecesAt r piece c to.now) pairs.now b) cursor.now a) reorg.now result }
{
    let reorg = given::reorg(alloc, reorg)?;
    let cursor = given::cursor(alloc, cursor)?;
    let view = given::pairs(alloc, pairs)?;
    piece_at(alloc, &reorg, piece, &cursor, to, &view)
}
