//! Transactions in one call.
ghost use Rattle.std.specs.Prelude.{◌≡◌};
ghost use Rattle.handles.specs.Writes.{WritesUnder, WritesBy, Writes};

use crate::commit_outcome::CommitOutcome;
use crate::engine::Engine;
use crate::handle::Handle;
use std::alloc::Global;
use typed_calls::status::CLOSED;
use typed_calls::world::Committed;
use typed_calls::{BoundedWorld, TxnRefusal};

impl Handle {
    // Makes a transaction in the world, under the lease of this handle.
    fn write_under(
        &mut self,
        alloc: Global,
        bounded: &mut BoundedWorld,
        moment: u64,
        operations: &[u8],
    ) -> Result<Committed, TxnRefusal>
        ensures writes { WritesUnder bounded.old moment self.old.place.value operations.now result bounded.new }
        ensures same { self.new.place.value ≡ self.old.place.value }
    {
        let Some(engine) = self.take(alloc) else {
            return Err(TxnRefusal::of(CLOSED));
        };
        let Engine::Lease(held) = &*engine else {
            self.put(engine);
            return Err(TxnRefusal::of(CLOSED));
        };
        let answer = typed_calls::write(alloc, bounded, moment, held, operations);
        self.put(engine);
        answer
    }

    // Makes a transaction in the world of this handle, under a lease.
    fn answer_write(
        &mut self,
        alloc: Global,
        moment: u64,
        lease: &mut Handle,
        operations: &[u8],
    ) -> Result<Committed, TxnRefusal>
        ensures writes { WritesBy self.old.place.value moment lease.old.place.value operations.now result self.new.place.value }
        ensures lease_stays { lease.new.place.value ≡ lease.old.place.value }
    {
        let Some(mut engine) = self.take(alloc) else {
            return Err(TxnRefusal::of(CLOSED));
        };
        let Engine::World(bounded) = &mut *engine else {
            self.put(engine);
            return Err(TxnRefusal::of(CLOSED));
        };
        let answer = lease.write_under(alloc, bounded, moment, operations);
        self.put(engine);
        answer
    }

    /// Makes a transaction in one call, under a lease: its operations, whose code these bytes are,
    /// are read, prepared and committed in the world. `OK`, `DUPLICATE` and `NO_ROW`; else `CLOSED`
    /// (of `world`, then of `lease`), `TOO_FAR`, `BAD_CODE`, `NO_TABLE`, `NOT_PUBLIC` with the
    /// column, `WRONG_TYPE`, `TOO_MANY_OPS`, `MOMENT_TOO_LARGE`, `BAD_LEASE`, `LEASE_ENDED` with the
    /// end of the lease and the moment that counted, `WRONG_SCHEMA`, or `OUT_OF_MEMORY`, which may
    /// come in place of `BAD_CODE` and those after it. The lease stays, and nothing changes but at
    /// `OK`. Since nothing comes between the read and the commit, no pair has changed meanwhile.
    pub fn write(
        &mut self,
        alloc: Global,
        moment: u64,
        lease: &mut Handle,
        operations: &[u8],
    ) -> CommitOutcome
        ensures writes { Writes self.old.place.value moment lease.old.place.value operations.now result self.new.place.value }
        ensures lease_stays { lease.new.place.value ≡ lease.old.place.value }
    {
        let answer = self.answer_write(alloc, moment, lease, operations);
        CommitOutcome::reported(&answer)
    }
}
