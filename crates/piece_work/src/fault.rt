//! Why a reorganisation was not run to its end.
ghost use Rattle.std.specs.Prelude.{◌≡◌};
ghost use Rattle.piece_work.specs.declared.fault.WorkFault.TheVariants as work;

use thiserror::Error;
use world::{PieceFault, ReadFault};

/// Why a reorganisation was not run to its end. Of the next piece's round the first in this order
/// is reported.
#[derive(Debug, Drop, Error)]
pub enum WorkFault {
    /// The next items can't be read.
    #[error("{0}")]
    Read(ReadFault),
    /// What was read can't be committed.
    #[error("{0}")]
    Commit(PieceFault),
    /// Out of memory for what was read, or of a number for the commit or for the pieces.
    #[error("out of memory")]
    Memory,
}

impl From<ReadFault> for WorkFault {
    ghost from_gives = { λ reported fault. fault ≡ work.Read reported };

    fn from(reported: ReadFault) -> WorkFault {
        WorkFault::Read(reported)
    }
}
