//! Transactions: what their operations read, and their preparation.
ghost use Rattle.std.specs.Prelude.{◌≡◌, None};
ghost use Rattle.handles.specs.Txns.{ReadsInto, ReadsUnder, ReadsFirst, ReadsMore, ReadsOver, ReadsAgain, KeepsTxn, PreparesInto, PreparesTo};

use crate::engine::Engine;
use crate::handle::Handle;
use row_write::Prepared;
use std::alloc::Global;
use typed_calls::script_session::ServerLease;
use typed_calls::status::{ALREADY_OPEN, CLOSED, OK};
use typed_calls::world::World;
use typed_calls::{PrepareOutcome, Reads};

// Reads again, for other operations.
fn read_more(alloc: Global, world: &World, reads: &mut Reads, operations: &[u8]) -> i32
    ensures { ReadsMore world.now reads.old operations.now result reads.new }
{
    match typed_calls::read_again(alloc, world, reads, operations) {
        Ok(again) => {
            *reads = again;
            OK
        }
        Err(status) => status,
    }
}

impl Handle {
    // Fills a closed handle with what the operations read of the world.
    fn read_into(
        &mut self,
        alloc: Global,
        world: &World,
        held: &ServerLease,
        operations: &[u8],
    ) -> i32
        requires { self.old.place.value ≡ None }
        ensures { ReadsInto world.now held.now operations.now result self.new.place.value }
    {
        match typed_calls::read(alloc, world, held, operations) {
            Ok(reads) => self.fill(alloc, Engine::Reads(reads)),
            Err(status) => status,
        }
    }

    // Reads of the world under the lease of this handle.
    fn read_under(
        &mut self,
        alloc: Global,
        world: &World,
        operations: &[u8],
        reads: &mut Handle,
    ) -> i32
        requires { reads.old.place.value ≡ None }
        ensures reads { ReadsUnder world.now self.old.place.value operations.now result reads.new.place.value }
        ensures same { self.new.place.value ≡ self.old.place.value }
    {
        let Some(engine) = self.take(alloc) else {
            return CLOSED;
        };
        let Engine::Lease(held) = &*engine else {
            self.put(engine);
            return CLOSED;
        };
        let status = reads.read_into(alloc, world, held, operations);
        self.put(engine);
        status
    }

    /// Begins a transaction under a lease, into the closed handle `reads`: its operations, whose
    /// code these bytes are, and what they read of the world. `OK`; else `ALREADY_OPEN` (of
    /// `reads`), `CLOSED` (of `world`, then of `lease`), `BAD_CODE`, or `OUT_OF_MEMORY`, which may
    /// come in place of the one before it. World and lease stay, and a refusal changes nothing.
    pub fn read(
        &mut self,
        alloc: Global,
        lease: &mut Handle,
        operations: &[u8],
        reads: &mut Handle,
    ) -> i32
        ensures reads { ReadsFirst self.old.place.value lease.old.place.value operations.now reads.old.place.value result reads.new.place.value }
        ensures same { self.new.place.value ≡ self.old.place.value }
        ensures lease_stays { lease.new.place.value ≡ lease.old.place.value }
    {
        if reads.is_open {
            return ALREADY_OPEN;
        }
        let Some(engine) = self.take(alloc) else {
            return CLOSED;
        };
        let Engine::World(bounded) = &*engine else {
            self.put(engine);
            return CLOSED;
        };
        let status = lease.read_under(alloc, &bounded.world, operations, reads);
        self.put(engine);
        status
    }

    // Reads again of the world, in place of what this handle holds.
    fn read_over(&mut self, alloc: Global, world: &World, operations: &[u8]) -> i32
        ensures { ReadsOver world.now self.old.place.value operations.now result self.new.place.value }
    {
        let Some(mut engine) = self.take(alloc) else {
            return CLOSED;
        };
        let Engine::Reads(reads) = &mut *engine else {
            self.put(engine);
            return CLOSED;
        };
        let status = read_more(alloc, world, reads, operations);
        self.put(engine);
        status
    }

    /// Gives a transaction other operations, whose code these bytes are, in the handle `reads`: of
    /// the keys that it read before it keeps what it read first, reads the others of the world, and
    /// forgets keys that the new operations do not read. `OK`; else `CLOSED` (of `world`, then of
    /// `reads`), `BAD_CODE`, or `OUT_OF_MEMORY`, which may come in place of the one before it. The
    /// world stays, and a refusal leaves `reads` as it was.
    pub fn read_again(&mut self, alloc: Global, reads: &mut Handle, operations: &[u8]) -> i32
        ensures reads { ReadsAgain self.old.place.value reads.old.place.value operations.now result reads.new.place.value }
        ensures same { self.new.place.value ≡ self.old.place.value }
    {
        let Some(engine) = self.take(alloc) else {
            return CLOSED;
        };
        let Engine::World(bounded) = &*engine else {
            self.put(engine);
            return CLOSED;
        };
        let status = reads.read_over(alloc, &bounded.world, operations);
        self.put(engine);
        status
    }

    // Fills a closed handle with a prepared transaction.
    fn keep_txn(
        &mut self,
        alloc: Global,
        answer: Result<Prepared, PrepareOutcome>,
    ) -> PrepareOutcome
        requires { self.old.place.value ≡ None }
        ensures { KeepsTxn answer result self.new.place.value }
    {
        match answer {
            Ok(prepared) => PrepareOutcome::of(self.fill(alloc, Engine::Txn(prepared))),
            Err(refusal) => refusal,
        }
    }

    // Fills a closed handle with the transaction as it is prepared from what was read.
    fn prepare_into(&mut self, alloc: Global, reads: &Reads) -> PrepareOutcome
        requires { self.old.place.value ≡ None }
        ensures { PreparesInto reads.now result self.new.place.value }
    {
        let answer = typed_calls::prepare(alloc, reads);
        self.keep_txn(alloc, answer)
    }

    /// Prepares a transaction that was read, into the closed handle `txn`. `OK`; else `ALREADY_OPEN`
    /// (of `txn`), `CLOSED`, `NO_TABLE`, `NOT_PUBLIC` with the column, `WRONG_TYPE`, `TOO_MANY_OPS`,
    /// `VIEW_MISMATCH`, or `OUT_OF_MEMORY`, which may come in place of the five before it. It needs
    /// no world; what was read stays, and may be prepared again, and a refusal changes nothing.
    pub fn prepare(&mut self, alloc: Global, txn: &mut Handle) -> PrepareOutcome
        ensures prepares { PreparesTo self.old.place.value txn.old.place.value result txn.new.place.value }
        ensures same { self.new.place.value ≡ self.old.place.value }
    {
        if txn.is_open {
            return PrepareOutcome::of(ALREADY_OPEN);
        }
        let Some(engine) = self.take(alloc) else {
            return PrepareOutcome::of(CLOSED);
        };
        let Engine::Reads(reads) = &*engine else {
            self.put(engine);
            return PrepareOutcome::of(CLOSED);
        };
        let outcome = txn.prepare_into(alloc, reads);
        self.put(engine);
        outcome
    }
}
