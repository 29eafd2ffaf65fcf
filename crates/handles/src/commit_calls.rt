//! The commit of a prepared transaction.
ghost use Rattle.std.specs.Prelude.{◌≡◌};
ghost use Rattle.handles.specs.Commits.{Commits, CommitsBy, CommitsTo, CommitsEngine};

use crate::boxes::{filled, taken_out};
use crate::commit_outcome::{CommitOutcome, lay_key};
use crate::engine::Engine;
use crate::handle::Handle;
use std::alloc::Global;
use typed_calls::status::CLOSED;
use typed_calls::world::Committed;
use typed_calls::{BoundedWorld, TxnRefusal};

// What is left of an engine that was committed, if it is a transaction.
fn commit_engine(
    alloc: Global,
    bounded: &mut BoundedWorld,
    moment: u64,
    engine: Engine,
) -> (Result<Committed, TxnRefusal>, Option<Engine>)
    ensures { CommitsEngine bounded.old moment engine result.0 bounded.new result.1 }
{
    match engine {
        Engine::Txn(txn) => match typed_calls::commit(alloc, bounded, moment, txn) {
            Ok(done) => (Ok(done), None),
            Err((refusal, txn)) => (Err(refusal), Some(Engine::Txn(txn))),
        },
        other => (Err(TxnRefusal::of(CLOSED)), Some(other)),
    }
}

impl Handle {
    // Commits the transaction of this handle to the world.
    fn commit_to(
        &mut self,
        alloc: Global,
        bounded: &mut BoundedWorld,
        moment: u64,
    ) -> Result<Committed, TxnRefusal>
        ensures { CommitsTo bounded.old moment self.old.place.value result bounded.new self.new.place.value }
    {
        let Some(engine) = self.take(alloc) else {
            return Err(TxnRefusal::of(CLOSED));
        };
        let (held, room) = taken_out(alloc, engine);
        let (answer, left) = commit_engine(alloc, bounded, moment, held);
        if let Some(left) = left {
            self.put(filled(room, left));
        }
        answer
    }

    // Commits a prepared transaction to the world of this handle.
    fn answer_commit(
        &mut self,
        alloc: Global,
        moment: u64,
        txn: &mut Handle,
    ) -> Result<Committed, TxnRefusal>
        ensures { CommitsBy self.old.place.value moment txn.old.place.value result self.new.place.value txn.new.place.value }
    {
        let Some(mut engine) = self.take(alloc) else {
            return Err(TxnRefusal::of(CLOSED));
        };
        let Engine::World(bounded) = &mut *engine else {
            self.put(engine);
            return Err(TxnRefusal::of(CLOSED));
        };
        let answer = txn.commit_to(alloc, bounded, moment);
        self.put(engine);
        answer
    }

    /// Commits a prepared transaction to the world. `OK`, `DUPLICATE` and `NO_ROW`, and `txn` is
    /// closed; else `CLOSED` (of `world`, then of `txn`), `TOO_FAR`, `MOMENT_TOO_LARGE`,
    /// `BAD_LEASE`, `LEASE_ENDED`, `WRONG_SCHEMA`, `CONFLICT`, or `OUT_OF_MEMORY`, which may come in
    /// place of the one before it, and these change nothing. The rows refuse a transaction at
    /// `DUPLICATE` and `NO_ROW`, which change nothing but `txn`.
    ///
    /// At `LEASE_ENDED` it tells the end of the lease and the moment that counted, and at `CONFLICT`
    /// the least key of those that it read whose pair is not what was read, of which as much is
    /// written to `out` as fits. In all other cases `out` stays.
    pub fn commit(
        &mut self,
        alloc: Global,
        moment: u64,
        txn: &mut Handle,
        out: &mut [u8],
    ) -> CommitOutcome
        ensures { Commits self.old.place.value moment txn.old.place.value out.old result out.new self.new.place.value txn.new.place.value }
    {
        let answer = self.answer_commit(alloc, moment, txn);
        lay_key(&answer, out);
        CommitOutcome::reported(&answer)
    }
}
