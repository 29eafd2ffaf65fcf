//! The first piece of a reorganisation that has not ended.
ghost use Rattle.std.specs.Prelude.{◌≢◌, ℕ, IfOk, IfErr, MatchOption, Ok, Err};
ghost use Rattle.reorganise.specs.declared.fault.ViewFault.TheVariants.{Spent};
ghost use Rattle.world.specs.declared.piece.ReadFault.TheVariants.{View};
ghost use Rattle.world.specs.Piece.{ReadStep};
ghost use Rattle.piece_work.specs.WorkOff.{NextStep};
ghost use Rattle.piece_work.specs.inner.Steps.{HasPieces, WasSpent};

use reorganise::{PieceView, ViewFault};
use std::alloc::Global;
use world::{ReadFault, World};

/// How many pieces the begun reorganisation of an element has.
fn pieces_of(world: &World, element: u32) -> Result<u32, ReadFault>
    ensures begun { IfOk result (λ pieces. HasPieces world.now element pieces) }
    ensures refused { IfErr result (λ fault. (limit : ℕ) → NextStep world.now element limit (Err fault)) }
{
    world.lemma_agrees();
    let Some((_, pieces, _)) = world.progress(element) else {
        return Err(ReadFault::NotWanted);
    };
    Ok(pieces as u32)
}

/// The next items of a piece, none if it has ended.
fn next_items(
    alloc: Global,
    world: &World,
    element: u32,
    piece: u32,
    limit: u32,
) -> Result<Option<PieceView>, ReadFault>
    ensures read { IfOk result (λ found. MatchOption found (WasSpent world.now element piece limit) (λ view. ReadStep world.now element piece limit (Ok view))) }
    ensures refused { IfErr result (λ fault. ReadStep world.now element piece limit (Err fault)) }
    ensures other { IfErr result (λ fault. fault ≢ View Spent) }
{
    world.lemma_agrees();
    match world.read_piece(alloc, element, piece, limit) {
        Ok(view) => Ok(Some(view)),
        Err(ReadFault::View(ViewFault::Spent)) => Ok(None),
        Err(fault) => Err(fault),
    }
}

/// Reads the next items of the first piece that has not ended, of the begun reorganisation of an
/// element; `None` if all pieces have ended, whatever the limit. It changes nothing.
///
/// - `element`: the number of the element whose reorganisation it is.
/// - `limit`: how many items are read at most, 1 to 1,000.
///
/// Refused in this order: `NotWanted` if no reorganisation of the element has begun, or it is over;
/// `View` with why that piece can't be read, which is `BadLimit` or `Memory`.
pub fn next_view(
    alloc: Global,
    world: &World,
    element: u32,
    limit: u32,
) -> Result<Option<PieceView>, ReadFault>
    ensures { NextStep world.now element limit result }
{
    let pieces = match pieces_of(world, element) {
        Ok(pieces) => pieces,
        Err(fault) => return Err(fault),
    };
    let mut piece = 0u32;
    while piece < pieces {
        match next_items(alloc, world, element, piece, limit) {
            Ok(Some(view)) => return Ok(Some(view)),
            Ok(None) => piece += 1,
            Err(fault) => return Err(fault),
        }
    }
    Ok(None)
}
