//! The fill of the index through a handle.

use crate::handle_port::{HandlePort, Reported, judged};
use reorganise::{PieceView, PreparedPiece, ViewFault, prepare_piece};
use shared_rollout::locked_store::{SharedFault, SharedLedger};
use shared_rollout::world::{BeginFault, PieceDone, PieceFault, ReadFault, Receipt};
use std::alloc::Global;
use std::mem;
use std::sync::Wait;

/// Whether it has begun.
pub(crate) fn begun(answer: Result<Receipt, SharedFault<BeginFault>>) -> Reported {
    match answer {
        Ok(_) => Reported::Right,
        Err(SharedFault::World(BeginFault::Memory)) => Reported::Short,
        Err(_) => Reported::Wrong,
    }
}

// The one piece goes from the front of table 1 to that of table 2, and has the row's two pairs.
fn is_whole(view: &PieceView) -> bool {
    let (cursor, end) = view.cursors();
    let is_between = cursor == [82u8, 0, 0, 0, 1].as_slice()
        && end == [82u8, 0, 0, 0, 2].as_slice();
    is_between && view.pairs().len() == 2
}

// What is prepared of the piece that was read.
fn prepared(
    alloc: Global,
    answer: Result<PieceView, SharedFault<ReadFault>>,
) -> Result<PreparedPiece, Reported> {
    match answer {
        Ok(view) if is_whole(&view) => match prepare_piece(alloc, view) {
            Ok(piece) => Ok(piece),
            Err(_) => Err(Reported::Short),
        },
        Err(SharedFault::World(ReadFault::View(ViewFault::Memory))) => Err(Reported::Short),
        _ => Err(Reported::Wrong),
    }
}

// What is prepared of the piece comes back if memory was short.
fn refused(
    back: &mut Option<PreparedPiece>,
    fault: SharedFault<PieceFault>,
    piece: PreparedPiece,
) -> Reported {
    let is_short = matches!(&fault, SharedFault::World(PieceFault::Memory));
    drop(fault);
    if is_short {
        drop(mem::replace(back, Some(piece)));
        Reported::Short
    } else {
        drop(piece);
        Reported::Wrong
    }
}

// The piece ends with what is prepared of it.
fn ended(
    answer: Result<PieceDone, (SharedFault<PieceFault>, PreparedPiece)>,
    back: &mut Option<PreparedPiece>,
) -> Reported {
    match answer {
        Ok(done) => judged(done.ended),
        Err((fault, piece)) => refused(back, fault, piece),
    }
}

/// Its piece is committed: what came back, else what is prepared anew of the first ten items.
pub(crate) fn works<L: SharedLedger, R: Wait>(
    port: &mut HandlePort<L, R>,
    back: &mut Option<PreparedPiece>,
) -> Reported {
    let (rt, alloc) = (port.rt, port.alloc);
    let piece = match back.take() {
        Some(piece) => Ok(piece),
        None => prepared(alloc, port.shared.read_piece(rt, alloc, port.me, 2, 0, 10)),
    };
    match piece {
        Ok(piece) => ended(
            port.shared.commit_piece(rt, alloc, port.me, 30, piece),
            back,
        ),
        Err(reported) => reported,
    }
}
