//! A piece repeated.
ghost use Rattle.std.specs.Prelude.{◌≡◌, ◌≤◌};
ghost use Rattle.replay.specs.declared.entry.What.TheVariants.{Piece};
ghost use Rattle.world.specs.declared.piece.PieceFault.TheVariants.{Memory as NoMemory};
ghost use Rattle.world.specs.Piece.{IsReadAsFar};
ghost use Rattle.world.specs.State.{facts_of};
ghost use Rattle.replica.specs.declared.fault.RepeatFault.TheVariants.{NotNext};
ghost use Rattle.replica.specs.Next.{RepeatAt};

use crate::fault::RepeatFault;
use byte_map::Bytes;
use reorganise::{PieceView, PreparedPiece, prepare_piece};
use std::alloc::Global;
use world::{PieceFault, Receipt, World};

/// What is reported if the piece is not committed.
fn piece_fault(fault: &PieceFault) -> RepeatFault
    ensures { result ≡ NotNext → fault.now ≡ NoMemory → ⊥ }
{
    match fault {
        PieceFault::Memory => RepeatFault::Memory,
        _ => RepeatFault::NotNext,
    }
}

/// The same, of a prepared piece that comes back.
fn piece_refusal(refusal: (PieceFault, PreparedPiece)) -> RepeatFault
    ensures { result ≡ NotNext → refusal.0 ≡ NoMemory → ⊥ }
{
    piece_fault(&refusal.0)
}

/// Commits what was prepared of this piece.
fn commit_piece(
    world: &mut World,
    alloc: Global,
    now: u64,
    element: u32,
    piece: u32,
    cursor: &Bytes,
    prepared: PreparedPiece,
) -> Result<Receipt, RepeatFault>
    requires later { (facts_of world.old).moment ≤ now }
    requires read { IsReadAsFar world.old element piece cursor.now prepared }
    ensures { RepeatAt world.old now (Piece element piece cursor.now) result world.new }
{
    prepared.lemma_made();
    match world.commit_piece(alloc, now, prepared) {
        Ok(done) => Ok(done.receipt),
        Err(refusal) => Err(piece_refusal(refusal)),
    }
}

/// Prepares and commits what was read of this piece.
fn commit_view(
    world: &mut World,
    alloc: Global,
    now: u64,
    element: u32,
    piece: u32,
    cursor: &Bytes,
    view: PieceView,
) -> Result<Receipt, RepeatFault>
    requires later { (facts_of world.old).moment ≤ now }
    requires read { IsReadAsFar world.old element piece cursor.now view }
    ensures { RepeatAt world.old now (Piece element piece cursor.now) result world.new }
{
    match prepare_piece(alloc, view) {
        Ok(prepared) => commit_piece(world, alloc, now, element, piece, cursor, prepared),
        Err(_) => Err(RepeatFault::Memory),
    }
}

/// Repeats the commit of the piece of this number, as far as this key.
pub(crate) fn repeat_piece(
    world: &mut World,
    alloc: Global,
    now: u64,
    element: u32,
    piece: u32,
    cursor: &Bytes,
) -> Result<Receipt, RepeatFault>
    requires later { (facts_of world.old).moment ≤ now }
    ensures { RepeatAt world.old now (Piece element piece cursor.now) result world.new }
{
    match world.read_piece_to(alloc, element, piece, cursor) {
        Ok(Some(view)) => commit_view(world, alloc, now, element, piece, cursor, view),
        Ok(None) => Err(RepeatFault::NotNext),
        Err(_) => Err(RepeatFault::Memory),
    }
}
