//! One worker: a handle that works on pieces.
ghost use Rattle.std.specs.Prelude.{◌≡◌, ◌+◌, ◌≤◌, length, All};
ghost use Rattle.locked_store.specs.Known.{own_of};
ghost use Rattle.reorganise_workers.specs.Ends.{HasSeen, IsEndOf, IsPieceReceipt, tries_of};
ghost use Rattle.reorganise_workers.specs.inner.Jobs.{IsJob};

use crate::attempt::{Attempt, make_attempt};
use crate::end::PieceEnd;
use crate::job::Job;
use locked_store::world::Receipt;
use locked_store::{Handle, Shared, SharedLedger};
use std::alloc::Global;
use std::marker::Model;
use std::sync::Wait;
use tasks::Worker;

/// A handle, with the receipts of the pieces that it committed.
#[derive(Drop)]
pub(crate) struct PieceWorker<'a, L: SharedLedger, R: Wait> {
    pub(crate) rt: &'a R,
    pub(crate) shared: &'a Shared<L>,
    pub(crate) handle: Handle<L>,
    /// The front with which the handle came.
    pub(crate) first_front: u64,
    pub(crate) kept_receipts: Vec<Receipt>,
    pub(crate) job: Job,
}

impl<'a, L: SharedLedger, R: Wait> Model for PieceWorker<'a, L, R> {
    ghost use Rattle.reorganise_workers.specs.inner.Workers.{Filling, IsAtWork};

    ghost Value = { Filling };

    ghost view = { λ w. record { handle = w.handle; first_front = w.first_front; kept_receipts = w.kept_receipts.items; job = w.job } };

    ghost invariant = { λ w. IsAtWork L.start (record { handle = w.handle; first_front = w.first_front; kept_receipts = w.kept_receipts.items; job = w.job }) };
}

// Works on one piece, attempt by attempt, until it has ended or is given up.
fn work_piece<L: SharedLedger, R: Wait>(
    rt: &R,
    alloc: Global,
    shared: &Shared<L>,
    me: &mut Handle<L>,
    kept_receipts: &mut Vec<Receipt>,
    job: &Job,
    piece: u32,
) -> PieceEnd
    requires job { IsJob job.now }
    requires seen { job.now.front ≤ me.old.front }
    requires had { HasSeen L.start job.now.most me.old.front }
    ensures own { own_of me.new ≡ own_of me.old }
    ensures rises { me.old.front ≤ me.new.front }
    ensures had { HasSeen L.start job.now.most me.new.front }
    ensures counted { me.new.count + length kept_receipts.old.items ≡ me.old.count + length kept_receipts.new.items }
    ensures pieces { All (IsPieceReceipt L.start job.now) kept_receipts.old.items → All (IsPieceReceipt L.start job.now) kept_receipts.new.items }
    ensures end { IsEndOf L.start job.now piece result }
    ensures tried { me.old.refused + tries_of result ≤ me.new.refused }
{
    let mut failed = 0u32;
    for _i in rt.forever() {
        match make_attempt(rt, alloc, shared, me, kept_receipts, job, piece) {
            Attempt::More => {}
            Attempt::Reread => {}
            Attempt::Again => {
                failed += 1;
                if failed >= job.tries {
                    return PieceEnd::Busy { tries: job.tries };
                }
            }
            Attempt::Ended(end) => return end,
        }
    }
    unreachable!()
}

impl<'a, L: SharedLedger, R: Wait> Worker for PieceWorker<'a, L, R> {
    ghost use Rattle.std.specs.Prelude.{ℕ, length};
    ghost use Rattle.locked_store.specs.Known.{own_of};
    ghost use Rattle.reorganise_workers.specs.Ends.{IsEndOf, tries_of};
    ghost use Rattle.reorganise_workers.specs.declared.job.Job.{Job};

    type Outcome = PieceEnd;

    ghost Plan = { Job };

    ghost plan = { λ w. w.job };

    ghost total = { λ job. job.pieces };

    ghost Id = { (ℕ × ℕ) × ℕ };

    ghost id = { λ w. (own_of w.handle, w.first_front) };

    ghost count = { λ w. w.handle.count };

    ghost kept_receipts = { λ w. length w.kept_receipts };

    ghost held = { λ end. 0 };

    ghost failed = { λ w. w.handle.refused };

    ghost reported = { tries_of };

    ghost fits = { IsEndOf L.start };

    fn perform(&mut self, alloc: Global, number: usize) -> PieceEnd {
        let PieceWorker {
            rt,
            shared,
            handle,
            kept_receipts,
            job,
            ..
        } = self;
        work_piece(rt, alloc, shared, handle, kept_receipts, job, number as u32)
    }

    fn held_back() -> PieceEnd {
        PieceEnd::Held
    }

    fn undrawn() -> PieceEnd {
        PieceEnd::Memory
    }
}
