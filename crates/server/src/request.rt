//! What servers are asked, and what becomes of it.
ghost use Rattle.std.specs.Prelude.{◌≡◌};

use collections::ArcValue;
use locked_store::world::{CommitFault, Receipt};
use row_write::{PrepareFault, RowFault, RowOp, RowOps};

/// A transaction that a server is to commit.
#[derive(Drop)]
pub struct Request {
    /// The moment of its commit, and of a lease that is taken for it; the greater of it and the moment
    /// of the last entry counts.
    pub moment: u64,
    /// Its operations, at most 64. The log becomes an owner of them, too, and copies none.
    pub ops: ArcValue<RowOps>,
}

impl Request {
    /// Its operations, in order.
    pub(crate) fn as_slice(&self) -> &[RowOp]
        ensures { result.now ≡ self.now.ops }
    {
        self.ops.get().as_slice()
    }
}

/// What became of a request.
#[derive(Drop)]
pub enum Outcome {
    /// It is committed, and this is the receipt for its entry, which is in the log.
    Done(Receipt),
    /// The rows refuse it, and nothing changed.
    Row {
        /// The first operation that is refused, counted from 0.
        op: usize,
        /// Why.
        why: RowFault,
    },
    /// It could not be prepared.
    Unprepared(PrepareFault),
    /// Its lease or its commit was refused, and no further try would help.
    Rejected(CommitFault),
    /// As many tries as were allowed ended in a conflict or with the end of their lease.
    Busy {
        /// How many.
        tries: u32,
    },
    /// The gate did not let it start.
    Held,
    /// The log was shorter than the handle had seen it.
    WentBack {
        /// The length of the log.
        seen: u64,
    },
    /// Out of memory.
    Memory,
}
