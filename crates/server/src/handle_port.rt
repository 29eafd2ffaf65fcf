//! The port of one handle of a shared world.
ghost use Rattle.std.specs.Prelude.{◌≡◌, ◌<◌, vec_len, vec_capacity};
ghost use Rattle.server.specs.HandlePorts.{lease_and_schema, kept_with};

use crate::port::Port;
use crate::tally::{Last, Tally, last_of_commit, last_of_grant, last_of_read};
use collections::ArcValue;
use lease::Lease;
use locked_store::world::{CommitFault, Committed, Grant, GrantFault, Receipt};
use locked_store::{Handle, Shared, SharedFault, SharedLedger};
use row_map::{ReadSet, ReadView};
use row_write::Prepared;
use schema_version::Schema;
use std::alloc::{AllocError, Global};
use std::sync::Wait;

/// A server's handle, with the receipts of its leases and its tally.
#[derive(Drop)]
pub(crate) struct HandlePort<'a, L: SharedLedger, R: Wait> {
    pub(crate) rt: &'a R,
    pub(crate) shared: &'a Shared<L>,
    pub(crate) handle: Handle<L>,
    pub(crate) kept_receipts: Vec<Receipt>,
    pub(crate) tally: Tally,
}

// Keeps the receipt of a lease.
fn kept_apart(
    kept_receipts: &mut Vec<Receipt>,
    granted: Result<Grant, SharedFault<GrantFault>>,
) -> Result<(Lease, ArcValue<Schema>), SharedFault<GrantFault>>
    requires room { vec_len kept_receipts.old < vec_capacity kept_receipts.old }
    ensures lease_and_schema { result ≡ lease_and_schema granted }
    ensures kept_receipts { kept_receipts.new.items ≡ kept_with kept_receipts.old.items granted }
{
    let Grant {
        lease,
        schema,
        receipt,
    } = granted?;
    kept_receipts.push_reserved(receipt);
    Ok((lease, schema))
}

impl<'a, L: SharedLedger, R: Wait> Port for HandlePort<'a, L, R> {
    ghost use Rattle.locked_store.specs.Known.{own_of};
    ghost use Rattle.server.specs.HandlePorts.{HasSeen, SaidByCore};

    ghost id = { λ d. own_of d.handle };

    ghost tally = { λ d. d.tally };

    ghost count = { λ d. d.handle.count };

    ghost refused = { λ d. d.handle.refused };

    ghost front = { λ d. d.handle.front };

    ghost kept_receipts = { λ d. d.kept_receipts.items };

    ghost has_seen = { HasSeen L.start };

    ghost may = { SaidByCore L.start };

    #[tactic(auto, using(crate::proofs::HandlePorts::same_id, crate::proofs::HandlePorts::same_refused))]
    fn lease(
        &mut self,
        alloc: Global,
        moment: u64,
    ) -> Result<(Lease, ArcValue<Schema>), SharedFault<GrantFault>> {
        if self.kept_receipts.reserve(1).is_err() {
            self.tally.note(Last::Memory);
            return Err(SharedFault::World(GrantFault::Memory));
        }
        let granted = self.shared.lease(self.rt, alloc, &mut self.handle, moment);
        let answer = kept_apart(&mut self.kept_receipts, granted);
        self.tally.note(last_of_grant(&answer));
        answer
    }

    #[tactic(auto, using(crate::proofs::HandlePorts::same_id, crate::proofs::HandlePorts::same_refused))]
    fn read(&mut self, alloc: Global, keys: &ReadSet) -> Result<ReadView, SharedFault<AllocError>> {
        let answer = self.shared.read(self.rt, alloc, &mut self.handle, keys);
        self.tally.note(last_of_read(&answer));
        answer
    }

    #[tactic(auto, using(crate::proofs::HandlePorts::same_id_back, crate::proofs::HandlePorts::refused_back))]
    fn commit(
        &mut self,
        alloc: Global,
        moment: u64,
        prepared: Prepared,
    ) -> Result<Committed, (SharedFault<CommitFault>, Prepared)> {
        let answer = self
            .shared
            .commit(self.rt, alloc, &mut self.handle, moment, prepared);
        self.tally.note(last_of_commit(&answer));
        answer
    }

    fn tally(&self) -> Tally {
        self.tally
    }
}
