//! The attempts of one piece: its next items are read, prepared and committed.
ghost use Rattle.std.specs.Prelude.{◌≡◌, ◌+◌, ◌≤◌, length, All, IfOk, IfErr, None};
ghost use Rattle.locked_store.specs.Answers.{Counts};
ghost use Rattle.locked_store.specs.Known.{own_of};
ghost use Rattle.reorganise_workers.specs.Ends.{HasSeen, IsAttempt, IsPieceReceipt, WasRead};
ghost use Rattle.reorganise_workers.specs.inner.Attempts.{WasSpent, failed_by, unread_end, attempt_of};

use crate::end::PieceEnd;
use crate::job::Job;
use locked_store::world::{PieceDone, PieceFault, ReadFault, Receipt};
use locked_store::{Handle, Shared, SharedFault, SharedLedger, WentBack};
use reorganise::{PieceView, ViewFault, prepare_piece};
use std::alloc::Global;
use std::sync::Wait;

/// What an attempt came to.
#[derive(Drop)]
pub(crate) enum Attempt {
    /// Its items are committed, and more are left.
    More,
    /// Another has written there, or moved the piece: it is read again.
    Again,
    /// It was found at its end, and then no longer there: it is read again, and no try is counted.
    Reread,
    /// The piece is done with.
    Ended(PieceEnd),
}

// The next items of a piece, if the work is of the kind with which the call began; an `Err` is what
// the attempt came to without them.
fn next_items<L: SharedLedger, R: Wait>(
    rt: &R,
    alloc: Global,
    shared: &Shared<L>,
    me: &mut Handle<L>,
    job: &Job,
    piece: u32,
) -> Result<PieceView, Attempt>
    requires seen { job.now.front ≤ me.old.front }
    requires had { HasSeen L.start job.now.most me.old.front }
    ensures same { Counts me.old None me.new }
    ensures rises { me.old.front ≤ me.new.front }
    ensures had { HasSeen L.start job.now.most me.new.front }
    ensures own { IfOk result (λ view. view.piece ≡ piece) }
    ensures kind { IfOk result (λ view. view.kind ≡ job.now.kind) }
    ensures read { IfOk result (λ view. WasRead L.start job.now piece view) }
    ensures attempt { IfErr result (λ attempt. IsAttempt L.start job.now piece attempt) }
    ensures unfailed { IfErr result (λ attempt. failed_by attempt ≡ 0) }
{
    match shared.read_piece(rt, alloc, me, job.element, piece, job.limit) {
        Ok(view) => {
            if view.kind() == job.kind {
                Ok(view)
            } else {
                Err(Attempt::Ended(PieceEnd::Refused(PieceFault::WrongElement)))
            }
        }
        Err(fault) => match unread_end(fault) {
            Some(end) => Err(Attempt::Ended(end)),
            None => Err(look(rt, shared, me, job, piece)),
        },
    }
}

// How a piece ends that is not read; None if it was found at its end. Its limit was tested before.
fn unread_end(fault: SharedFault<ReadFault>) -> Option<PieceEnd>
    ensures { result ≡ unread_end fault }
{
    match fault {
        SharedFault::WentBack { seen } => Some(PieceEnd::WentBack { seen }),
        SharedFault::World(ReadFault::NotWanted | ReadFault::View(ViewFault::BadPiece)) => {
            Some(PieceEnd::Refused(PieceFault::NotWanted))
        }
        SharedFault::World(ReadFault::View(ViewFault::Spent)) => None,
        SharedFault::World(ReadFault::View(ViewFault::BadLimit | ViewFault::Memory)) => {
            Some(PieceEnd::Memory)
        }
    }
}

// What becomes of a piece that was found at its end, by how it stands now: the read did not say of
// which kind of work that end is.
fn look<L: SharedLedger, R: Wait>(
    rt: &R,
    shared: &Shared<L>,
    me: &mut Handle<L>,
    job: &Job,
    piece: u32,
) -> Attempt
    requires seen { job.now.front ≤ me.old.front }
    requires had { HasSeen L.start job.now.most me.old.front }
    requires spent { WasSpent L.start job.now piece }
    ensures same { Counts me.old None me.new }
    ensures rises { me.old.front ≤ me.new.front }
    ensures had { HasSeen L.start job.now.most me.new.front }
    ensures attempt { IsAttempt L.start job.now piece result }
    ensures unfailed { failed_by result ≡ 0 }
{
    match shared.piece_progress(rt, me, job.element, piece) {
        Ok(Some((kind, ended))) => {
            if kind != job.kind {
                Attempt::Ended(PieceEnd::Refused(PieceFault::WrongElement))
            } else if ended {
                Attempt::Ended(PieceEnd::Finished)
            } else {
                Attempt::Reread
            }
        }
        Ok(None) => Attempt::Ended(PieceEnd::Refused(PieceFault::NotWanted)),
        Err(WentBack { seen }) => Attempt::Ended(PieceEnd::WentBack { seen }),
    }
}

// What a commit came to, by its refusal.
fn refused(fault: SharedFault<PieceFault>) -> Attempt
    ensures { result ≡ attempt_of fault }
{
    match fault {
        SharedFault::WentBack { seen } => Attempt::Ended(PieceEnd::WentBack { seen }),
        SharedFault::World(PieceFault::Conflict { .. } | PieceFault::Moved { .. }) =>
            Attempt::Again,
        SharedFault::World(PieceFault::Memory) => Attempt::Ended(PieceEnd::Memory),
        SharedFault::World(PieceFault::MomentTooLarge) => {
            Attempt::Ended(PieceEnd::Refused(PieceFault::MomentTooLarge))
        }
        SharedFault::World(PieceFault::NotWanted) => {
            Attempt::Ended(PieceEnd::Refused(PieceFault::NotWanted))
        }
        SharedFault::World(PieceFault::WrongElement) => {
            Attempt::Ended(PieceEnd::Refused(PieceFault::WrongElement))
        }
    }
}

// Prepares what was read, outside of any lock, and commits it. The receipt's room is made first.
#[tactic(auto, using(crate::proofs::Ends::own_back, crate::proofs::Ends::refused_back, crate::proofs::Ends::unrefused))]
fn commit_items<L: SharedLedger, R: Wait>(
    rt: &R,
    alloc: Global,
    shared: &Shared<L>,
    me: &mut Handle<L>,
    kept_receipts: &mut Vec<Receipt>,
    job: &Job,
    view: PieceView,
) -> Attempt
    requires seen { job.now.front ≤ me.old.front }
    requires had { HasSeen L.start job.now.most me.old.front }
    requires kind { view.kind ≡ job.now.kind }
    requires read { WasRead L.start job.now view.piece view }
    ensures own { own_of me.new ≡ own_of me.old }
    ensures refusals { me.old.refused + failed_by result ≤ me.new.refused }
    ensures rises { me.old.front ≤ me.new.front }
    ensures had { HasSeen L.start job.now.most me.new.front }
    ensures counted { me.new.count + length kept_receipts.old.items ≡ me.old.count + length kept_receipts.new.items }
    ensures pieces { All (IsPieceReceipt L.start job.now) kept_receipts.old.items → All (IsPieceReceipt L.start job.now) kept_receipts.new.items }
    ensures attempt { IsAttempt L.start job.now view.piece result }
{
    if kept_receipts.reserve(1).is_err() {
        return Attempt::Ended(PieceEnd::Memory);
    }
    let Ok(prepared) = prepare_piece(alloc, view) else {
        return Attempt::Ended(PieceEnd::Memory);
    };
    match shared.commit_piece(rt, alloc, me, job.moment, prepared) {
        Ok(PieceDone { receipt, ended }) => {
            kept_receipts.push_reserved(receipt);
            if ended {
                Attempt::Ended(PieceEnd::Finished)
            } else {
                Attempt::More
            }
        }
        Err((fault, _)) => refused(fault),
    }
}

/// One attempt: reads a piece's next items, and commits them. A failed try is a commit that was refused.
pub(crate) fn make_attempt<L: SharedLedger, R: Wait>(
    rt: &R,
    alloc: Global,
    shared: &Shared<L>,
    me: &mut Handle<L>,
    kept_receipts: &mut Vec<Receipt>,
    job: &Job,
    piece: u32,
) -> Attempt
    requires seen { job.now.front ≤ me.old.front }
    requires had { HasSeen L.start job.now.most me.old.front }
    ensures own { own_of me.new ≡ own_of me.old }
    ensures refusals { me.old.refused + failed_by result ≤ me.new.refused }
    ensures rises { me.old.front ≤ me.new.front }
    ensures had { HasSeen L.start job.now.most me.new.front }
    ensures counted { me.new.count + length kept_receipts.old.items ≡ me.old.count + length kept_receipts.new.items }
    ensures pieces { All (IsPieceReceipt L.start job.now) kept_receipts.old.items → All (IsPieceReceipt L.start job.now) kept_receipts.new.items }
    ensures attempt { IsAttempt L.start job.now piece result }
{
    match next_items(rt, alloc, shared, me, job, piece) {
        Ok(view) => commit_items(rt, alloc, shared, me, kept_receipts, job, view),
        Err(attempt) => attempt,
    }
}
