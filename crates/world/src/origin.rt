//! The checkpoint at which a log begins. It has no bytes, and only clauses read it.
ghost use Rattle.std.specs.Prelude.{◌≡◌};
ghost use Rattle.std.specs.Borrow.{ftrue};
ghost use Rattle.checkpoint_check.specs.Checkpoint.{Checkpoint as Said};
ghost use Rattle.world.specs.CheckpointCode.{checkpoint_code};

use crate::checkpoints::Checkpoint;
use std::marker::Model;

/// The checkpoint at which a log begins, as it was then.
#[derive(Drop)]
pub(crate) struct Origin {
    ghost value: { Said } by { checkpoint_code },
}

impl Model for Origin {
    ghost also_owns = { λ _. ftrue };
}

unsafe impl Send for Origin {}

unsafe impl Sync for Origin {}

impl Origin {
    /// This one.
    pub(crate) fn of(_checkpoint: &Checkpoint) -> Origin
        ensures { result.value ≡ _checkpoint.now }
    {
        Origin {}
    }
}
