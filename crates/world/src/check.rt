//! The audit of the pairs.
ghost use Rattle.std.specs.Prelude.{IfOk};
ghost use Rattle.world.specs.Calls.{IsCheck};

use crate::world::World;
use audit::{CheckReport, audit, audit_on};
use std::alloc::{AllocError, Global};
use std::thread::Threads;

impl World {
    /// Audits the pairs of the store by the newest version: how many rows there are, how many pairs
    /// are missing, and how many are there without a reason. It takes time with the pairs; behind a
    /// lock, take a snapshot and ask `Snapshot::check` instead. Refused only when out of memory.
    pub fn check(&self, alloc: Global) -> Result<CheckReport, AllocError>
        ensures { IfOk result (λ report. IsCheck self.now report) }
    {
        audit(alloc, self.newest.get(), &self.store)
    }

    /// Audits the pairs as `check` does, on up to so many threads at once. Refused only when out of
    /// memory.
    ///
    /// - `threads`: how many; with 0 or 1 the calling thread alone.
    pub fn check_on<R: Threads + Sync>(
        &self,
        rt: &R,
        alloc: Global,
        threads: usize,
    ) -> Result<CheckReport, AllocError>
        ensures { IfOk result (λ report. IsCheck self.now report) }
    {
        audit_on(rt, alloc, self.newest.get(), &self.store, threads)
    }
}
