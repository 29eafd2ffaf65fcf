//! What the lock answered, as what an attempt comes to: an act, `None` if another was first, or a
//! refusal.
ghost use Rattle.std.specs.Prelude.{◌≡◌};
ghost use Rattle.shared_rollout.specs.inner.Attempts.{of_begin, of_publish, of_look, of_read, of_commit};

use crate::fault::OperatorFault;
use locked_store::SharedFault;
use locked_store::rollout::Advanced;
use locked_store::world::{BeginFault, PieceDone, PieceFault, PublishFault, ReadFault, Receipt};
use reorganise::{PreparedPiece, ViewFault};
use std::alloc::AllocError;

/// What a begin came to.
pub(crate) fn of_begin(
    element: u32,
    answer: Result<Receipt, SharedFault<BeginFault>>,
) -> Result<Option<Advanced>, OperatorFault>
    ensures { result ≡ of_begin element answer }
{
    match answer {
        Ok(receipt) => Ok(Some(Advanced::Began { element, receipt })),
        Err(SharedFault::WentBack { seen }) => Err(OperatorFault::WentBack { seen }),
        Err(SharedFault::World(BeginFault::MomentTooLarge)) => Err(OperatorFault::MomentTooLarge),
        Err(SharedFault::World(BeginFault::Memory)) => Err(OperatorFault::Memory),
        Err(
            SharedFault::World(
                BeginFault::NotWanted
                | BeginFault::StillUsed { .. }
                | BeginFault::Begun
                | BeginFault::BadCount,
            ),
        ) => Ok(None),
    }
}

/// What a publication came to.
pub(crate) fn of_publish(
    answer: Result<(u64, Receipt), SharedFault<PublishFault>>,
) -> Result<Option<Advanced>, OperatorFault>
    ensures { result ≡ of_publish answer }
{
    match answer {
        Ok((version, receipt)) => Ok(Some(Advanced::Published { version, receipt })),
        Err(SharedFault::WentBack { seen }) => Err(OperatorFault::WentBack { seen }),
        Err(SharedFault::World(PublishFault::MomentTooLarge)) => Err(OperatorFault::MomentTooLarge),
        Err(SharedFault::World(PublishFault::VersionsSpent)) => Err(OperatorFault::VersionsSpent),
        Err(SharedFault::World(PublishFault::Memory)) => Err(OperatorFault::Memory),
        Err(
            SharedFault::World(
                PublishFault::TooEarly { .. }
                | PublishFault::Step(_)
                | PublishFault::Unfinished { .. },
            ),
        ) => Ok(None),
    }
}

/// What a look came to that did not tell what is due.
pub(crate) fn of_look(fault: SharedFault<AllocError>) -> OperatorFault
    ensures { result ≡ of_look fault }
{
    match fault {
        SharedFault::WentBack { seen } => OperatorFault::WentBack { seen },
        SharedFault::World(_) => OperatorFault::Memory,
    }
}

/// What a read came to that gave no items. The limit was tested before.
pub(crate) fn of_read(fault: SharedFault<ReadFault>) -> Result<Option<Advanced>, OperatorFault>
    ensures { result ≡ of_read fault }
{
    match fault {
        SharedFault::WentBack { seen } => Err(OperatorFault::WentBack { seen }),
        SharedFault::World(ReadFault::View(ViewFault::BadLimit | ViewFault::Memory)) => {
            Err(OperatorFault::Memory)
        }
        SharedFault::World(
            ReadFault::NotWanted | ReadFault::View(ViewFault::BadPiece | ViewFault::Spent),
        ) => Ok(None),
    }
}

/// What the commit of a piece came to.
pub(crate) fn of_commit(
    element: u32,
    answer: Result<PieceDone, (SharedFault<PieceFault>, PreparedPiece)>,
) -> Result<Option<Advanced>, OperatorFault>
    ensures { result ≡ of_commit element answer }
{
    match answer {
        Ok(done) => Ok(Some(Advanced::Worked { element, done })),
        Err((SharedFault::WentBack { seen }, _)) => Err(OperatorFault::WentBack { seen }),
        Err((SharedFault::World(PieceFault::MomentTooLarge), _)) => {
            Err(OperatorFault::MomentTooLarge)
        }
        Err((SharedFault::World(PieceFault::Memory), _)) => Err(OperatorFault::Memory),
        Err(
            (
                SharedFault::World(
                    PieceFault::NotWanted
                    | PieceFault::WrongElement
                    | PieceFault::Moved { .. }
                    | PieceFault::Conflict { .. },
                ),
                _,
            ),
        ) => Ok(None),
    }
}
