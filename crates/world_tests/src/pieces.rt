//! Pieces of reorganisations: of a world's own, and made by hand.

use crate::reported::{Reported, judged, seen};
use reorganise::{PieceView, PreparedPiece, Progress, ViewFault, Work, prepare_piece};
use std::alloc::{AllocError, Global};
use world::{BeginFault, PieceDone, PieceFault, ReadFault, World};

/// Why a piece is refused.
#[derive(Drop)]
pub(crate) enum Refusal {
    NotWanted,
    WrongElement,
    Moved,
}

/// What a begin at 30 answers.
pub(crate) fn begins(
    alloc: Global,
    world: &mut World,
    element: u32,
    pieces: u32,
    wanted: &Result<(), BeginFault>,
) -> Reported {
    match world.begin_reorg(alloc, 30, element, pieces) {
        Ok(_) => judged(wanted.is_ok()),
        Err(BeginFault::Memory) => Reported::Short,
        Err(fault) => judged(*wanted == Err(fault)),
    }
}

// What is prepared of a piece that was read, which comes back if memory was short.
fn piece_of(alloc: Global, view: PieceView) -> Result<PreparedPiece, Reported> {
    match prepare_piece(alloc, view) {
        Ok(piece) => Ok(piece),
        Err((AllocError, view)) => match prepare_piece(alloc, view) {
            Ok(piece) => Ok(piece),
            Err(_) => Err(Reported::Wrong),
        },
    }
}

// What is prepared of what was read.
fn prepared(alloc: Global, view: Result<PieceView, ViewFault>) -> Result<PreparedPiece, Reported> {
    match view {
        Ok(view) => piece_of(alloc, view),
        Err(ViewFault::Memory) => Err(Reported::Short),
        Err(_) => Err(Reported::Wrong),
    }
}

/// The one piece of the fill of element 2, prepared.
pub(crate) fn piece(alloc: Global, world: &World) -> Result<PreparedPiece, Reported> {
    match world.read_piece(alloc, 2, 0, 10) {
        Ok(view) => prepared(alloc, Ok(view)),
        Err(ReadFault::View(fault)) => prepared(alloc, Err(fault)),
        Err(ReadFault::NotWanted) => Err(Reported::Wrong),
    }
}

fn progress_by_hand(alloc: Global, world: &World, kind: Work) -> Result<Progress, AllocError> {
    match world.newest().get().element(1) {
        Some(element) => Progress::begin(alloc, element.clone()?, kind, world, 1),
        None => Err(AllocError),
    }
}

/// A piece of work on column a, made by hand from the world's own definition of it and the world's
/// own pairs.
pub(crate) fn piece_by_hand(
    alloc: Global,
    world: &World,
    kind: Work,
) -> Result<PreparedPiece, Reported> {
    let Ok(progress) = progress_by_hand(alloc, world, kind) else {
        return Err(Reported::Short);
    };
    let view = progress.read_piece(alloc, world, 0, 10);
    prepared(alloc, view)
}

// The answer to a commit of a piece, which comes back if memory was short.
fn committed(
    alloc: Global,
    world: &mut World,
    piece: PreparedPiece,
) -> Result<PieceDone, (PieceFault, PreparedPiece)> {
    let before = seen(world);
    match world.commit_piece(alloc, 30, piece) {
        Err((PieceFault::Memory, piece)) => {
            if seen(world) != before {
                return Err((PieceFault::Memory, piece));
            }
            world.commit_piece(alloc, 30, piece)
        }
        reported => reported,
    }
}

fn is_refusal(fault: &PieceFault, wanted: &Result<(), Refusal>) -> bool {
    matches!(
        (fault, wanted),
        (PieceFault::NotWanted, Err(Refusal::NotWanted))
            | (PieceFault::WrongElement, Err(Refusal::WrongElement))
            | (PieceFault::Moved { .. }, Err(Refusal::Moved))
    )
}

/// The kept piece is committed and has then ended, or is refused so and comes back.
pub(crate) fn commits(
    alloc: Global,
    world: &mut World,
    kept: &mut Option<PreparedPiece>,
    wanted: &Result<(), Refusal>,
) -> Reported {
    let Some(piece) = kept.take() else {
        return Reported::Wrong;
    };
    match committed(alloc, world, piece) {
        Ok(done) => judged(done.ended && wanted.is_ok()),
        Err((fault, piece)) => {
            *kept = Some(piece);
            judged(is_refusal(&fault, wanted))
        }
    }
}
