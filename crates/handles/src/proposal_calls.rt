//! The entry that a commit would add to the log, in a handle of its own.
ghost use Rattle.std.specs.Prelude.{◌≡◌, None};
ghost use Rattle.handles.specs.Commits.{ProposesTxn, ProposesEngine, ProposesFor, ProposesBy, Proposes};

use crate::boxes::{filled, room, taken_out};
use crate::commit_outcome::{CommitOutcome, lay_key};
use crate::engine::Engine;
use crate::handle::Handle;
use row_write::Prepared;
use std::alloc::Global;
use typed_calls::status::{ALREADY_OPEN, CLOSED, OUT_OF_MEMORY};
use typed_calls::world::Committed;
use typed_calls::{BoundedWorld, TxnRefusal};

impl Handle {
    // Fills a closed handle with the code of the entry of a commit, and gives what is left of the
    // transaction.
    fn propose_txn(
        &mut self,
        alloc: Global,
        bounded: &BoundedWorld,
        moment: u64,
        txn: Prepared,
    ) -> (Result<Committed, TxnRefusal>, Option<Engine>)
        requires { self.old.place.value ≡ None }
        ensures { ProposesTxn bounded.now moment txn result.0 result.1 self.new.place.value }
    {
        let Ok(room) = room(alloc) else {
            return (Err(TxnRefusal::of(OUT_OF_MEMORY)), Some(Engine::Txn(txn)));
        };
        match typed_calls::txn_entry(alloc, bounded, moment, txn) {
            Ok((done, code)) => match done {
                Committed::Done(receipt) => {
                    self.put(filled(room, Engine::Bytes(code)));
                    (Ok(Committed::Done(receipt)), None)
                }
                Committed::Refused { op, why } => (Ok(Committed::Refused { op, why }), None),
            },
            Err((refusal, txn)) => (Err(refusal), Some(Engine::Txn(txn))),
        }
    }

    // The same, if the engine is a transaction.
    fn propose_engine(
        &mut self,
        alloc: Global,
        bounded: &BoundedWorld,
        moment: u64,
        engine: Engine,
    ) -> (Result<Committed, TxnRefusal>, Option<Engine>)
        requires { self.old.place.value ≡ None }
        ensures { ProposesEngine bounded.now moment engine result.0 result.1 self.new.place.value }
    {
        match engine {
            Engine::Txn(txn) => self.propose_txn(alloc, bounded, moment, txn),
            other => (Err(TxnRefusal::of(CLOSED)), Some(other)),
        }
    }

    // The same of the transaction of this handle, into a closed one.
    fn propose_for(
        &mut self,
        alloc: Global,
        bounded: &BoundedWorld,
        moment: u64,
        bytes: &mut Handle,
    ) -> Result<Committed, TxnRefusal>
        requires { bytes.old.place.value ≡ None }
        ensures { ProposesFor bounded.now moment self.old.place.value result self.new.place.value bytes.new.place.value }
    {
        let Some(engine) = self.take(alloc) else {
            return Err(TxnRefusal::of(CLOSED));
        };
        let (held, room) = taken_out(alloc, engine);
        let (answer, left) = bytes.propose_engine(alloc, bounded, moment, held);
        if let Some(left) = left {
            self.put(filled(room, left));
        }
        answer
    }

    // The same in the world of this handle.
    fn answer_entry(
        &mut self,
        alloc: Global,
        moment: u64,
        txn: &mut Handle,
        bytes: &mut Handle,
    ) -> Result<Committed, TxnRefusal>
        ensures proposes { ProposesBy self.old.place.value moment txn.old.place.value bytes.old.place.value result txn.new.place.value bytes.new.place.value }
        ensures same { self.new.place.value ≡ self.old.place.value }
    {
        if bytes.is_open {
            return Err(TxnRefusal::of(ALREADY_OPEN));
        }
        let Some(engine) = self.take(alloc) else {
            return Err(TxnRefusal::of(CLOSED));
        };
        let Engine::World(bounded) = &*engine else {
            self.put(engine);
            return Err(TxnRefusal::of(CLOSED));
        };
        let answer = txn.propose_for(alloc, bounded, moment, bytes);
        self.put(engine);
        answer
    }

    /// What `commit` would answer now, with the entry that it would add to the log: the world stays,
    /// and at `OK` the closed handle `bytes` holds the code of the entry, which `repeat` takes in a
    /// world that stands here. `ALREADY_OPEN` (of `bytes`), and then as `commit`, but that
    /// `OUT_OF_MEMORY` may come in place of `TOO_FAR` and those after it. At `OK`, `DUPLICATE` and
    /// `NO_ROW` `txn` is closed; a refusal leaves it.
    pub fn txn_entry(
        &mut self,
        alloc: Global,
        moment: u64,
        txn: &mut Handle,
        out: &mut [u8],
        bytes: &mut Handle,
    ) -> CommitOutcome
        ensures proposes { Proposes self.old.place.value moment txn.old.place.value out.old bytes.old.place.value result out.new txn.new.place.value bytes.new.place.value }
        ensures same { self.new.place.value ≡ self.old.place.value }
    {
        let answer = self.answer_entry(alloc, moment, txn, bytes);
        lay_key(&answer, out);
        CommitOutcome::reported(&answer)
    }
}
