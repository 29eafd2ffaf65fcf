//! The pieces of a begun reorganisation: each is read, prepared and committed.
ghost use Rattle.std.specs.Prelude.{◌≡◌};
ghost use Rattle.typed_calls.specs.Pieces.{view_status, unread_status, ReadsPiece, PreparesPiece, piece_status, CommitsPiece, CommitsPieceIn};

use crate::bounded::BoundedWorld;
use crate::status::{
    BAD_COUNT, BAD_PIECE, CONFLICT, MOMENT_TOO_LARGE, MOVED, NOT_WANTED, OUT_OF_MEMORY, SPENT,
    TOO_FAR, WRONG_ELEMENT,
};
use reorganise::{PieceView, PreparedPiece, ViewFault};
use script_session::world::{PieceDone, PieceFault, ReadFault, World};
use std::alloc::Global;

// What a piece that can't be read is reported as.
fn view_status(fault: ViewFault) -> i32
    ensures { result ≡ view_status fault }
{
    match fault {
        ViewFault::BadPiece => BAD_PIECE,
        ViewFault::Spent => SPENT,
        ViewFault::BadLimit => BAD_COUNT,
        ViewFault::Memory => OUT_OF_MEMORY,
    }
}

// The status of a piece that was not read.
fn unread_status(fault: ReadFault) -> i32
    ensures { result ≡ unread_status fault }
{
    match fault {
        ReadFault::NotWanted => NOT_WANTED,
        ReadFault::View(fault) => view_status(fault),
    }
}

/// Reads the next items of a piece of the begun reorganisation of an element, of a world, which does
/// not change.
///
/// - `element`: the number of the element whose reorganisation it is.
/// - `piece`: the number of the piece, from 0.
/// - `limit`: how many items, 1 to 1,000.
///
/// Refused, in this order, as `World::read_piece` refuses: `NOT_WANTED` if no reorganisation of the
/// element has begun, `BAD_PIECE` if it has no such piece, `SPENT` if the piece has ended,
/// `BAD_COUNT` for the limit; `OUT_OF_MEMORY`.
pub fn read_piece(
    alloc: Global,
    world: &World,
    element: u32,
    piece: u32,
    limit: u32,
) -> Result<PieceView, i32>
    ensures { ReadsPiece world.now element piece limit result }
{
    match world.read_piece(alloc, element, piece, limit) {
        Ok(view) => Ok(view),
        Err(fault) => Err(unread_status(fault)),
    }
}

/// Prepares a piece that was read: what it writes for the items that were read, and what it expects
/// to find again. It takes no world and no lock. Refused only by `OUT_OF_MEMORY`, and then the piece
/// comes back as it was.
pub fn prepare_piece(alloc: Global, view: PieceView) -> Result<PreparedPiece, (i32, PieceView)>
    ensures { PreparesPiece view result }
{
    match reorganise::prepare_piece(alloc, view) {
        Ok(prepared) => Ok(prepared),
        Err((_, view)) => Err((OUT_OF_MEMORY, view)),
    }
}

// The status of a piece that was not committed.
fn piece_status(fault: &PieceFault) -> i32
    ensures { result ≡ piece_status fault.now }
{
    match fault {
        PieceFault::MomentTooLarge => MOMENT_TOO_LARGE,
        PieceFault::NotWanted => NOT_WANTED,
        PieceFault::WrongElement => WRONG_ELEMENT,
        PieceFault::Moved { cursor: _ } => MOVED,
        PieceFault::Conflict { key: _ } => CONFLICT,
        PieceFault::Memory => OUT_OF_MEMORY,
    }
}

// A prepared piece is committed to the world.
fn commit_to(
    alloc: Global,
    world: &mut World,
    moment: u64,
    prepared: PreparedPiece,
) -> Result<PieceDone, (i32, PreparedPiece)>
    ensures { CommitsPiece world.old moment prepared result world.new }
{
    match world.commit_piece(alloc, moment, prepared) {
        Ok(done) => Ok(done),
        Err((fault, prepared)) => Err((piece_status(&fault), prepared)),
    }
}

/// Commits a prepared piece to a world: it is logged, its pairs are written, and its cursor comes on.
///
/// - `moment`: the present moment. The one that counts is the greater of it and the moment of the
///   last entry.
///
/// Refused, in this order, and then nothing changes and the piece comes back: `TOO_FAR`; then as
/// `World::commit_piece` refuses: `MOMENT_TOO_LARGE`; `NOT_WANTED` if no reorganisation of the
/// element has begun; `WRONG_ELEMENT` if the piece is not one of that reorganisation; `MOVED` if its
/// cursor is not where it was read; `CONFLICT` if a pair of its range is not what was read;
/// `OUT_OF_MEMORY`, which may come in place of `MOVED` and of `CONFLICT`.
pub fn commit_piece(
    alloc: Global,
    bounded: &mut BoundedWorld,
    moment: u64,
    prepared: PreparedPiece,
) -> Result<PieceDone, (i32, PreparedPiece)>
    ensures { CommitsPieceIn bounded.old moment prepared result bounded.new }
{
    if bounded.is_too_far(moment) {
        return Err((TOO_FAR, prepared));
    }
    commit_to(alloc, &mut bounded.world, moment, prepared)
}
