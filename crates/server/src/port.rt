//! What one server needs of a shared world.
ghost use Rattle.std.specs.Prelude.{◌≡◌, ℕ, ◌+◌, ◌<◌, ◌≤◌, ◌^◌, length};
ghost use Rattle.server.specs.Tallies.{tally as tally_of, retried, last_of_grant, last_of_read, last_of_commit};
ghost use Rattle.server.specs.Outcomes.{GrantSays, Keeps, ReadSays, CommitSays, Sees, given_by};

use crate::tally::Tally;
use collections::ArcValue;
use lease::Lease;
use locked_store::SharedFault;
use locked_store::world::{CommitFault, Committed, GrantFault};
use row_map::{ReadSet, ReadView};
use row_write::Prepared;
use schema_version::Schema;
use std::alloc::{AllocError, Global};

/// Leases, reads and commits of one server, as `Shared` answers them through a handle. A port keeps
/// the receipts of its leases, and a tally of its answers.
///
/// Each answer is of a state of the world that is no older than what the port had seen before the
/// call: the lease that it grants, the pairs that it reads, the receipt of an entry that came
/// after, and each refusal but `WentBack`, which has a length of the log below what the port had
/// seen, and `Memory`. Each answer that the tally counts is of a commit that was refused, so it is
/// not counted twice.
pub trait Port {
    ghost use Rattle.std.specs.Prelude.{ℕ, List};
    ghost use Rattle.locked_store.specs.Receipt.{Receipt};
    ghost use Rattle.server.specs.Outcomes.{Said};
    ghost use Rattle.server.specs.declared.tally.Tally.{Tally};

    // through which handle it calls, and how many entries that has taken out of the log
    ghost id: { Self → ℕ × ℕ };

    // its tally
    ghost tally: { Self → Tally };

    // how many entries its calls added
    ghost count: { Self → ℕ };

    // how many of its commits were refused
    ghost refused: { Self → ℕ };

    // the length of the log that it last saw
    ghost front: { Self → ℕ };

    // the receipts that it keeps
    ghost kept_receipts: { Self → List Receipt };

    // whether it may have this front, if at first no handle had seen more entries than so many
    ghost has_seen: { ℕ → ℕ → Type 0 };

    // what it may say of the world that it calls, after so many entries of the log, if at first no
    // handle had seen more than so many
    ghost may: { ℕ → ℕ → Said → Type 0 };

    /// Takes a lease on the newest version at `moment`, and gives it with the schema of that
    /// version. The port keeps the receipt, whose room is made first.
    ///
    /// Refused as `Shared::lease` is; `Memory` also if there is no room for the receipt.
    fn lease(
        &mut self,
        alloc: Global,
        moment: u64,
    ) -> Result<(Lease, ArcValue<Schema>), SharedFault<GrantFault>>
        requires { (tally self.old).retries < 2 ^ 63 }
        ensures tallied { tally self.new ≡ tally_of (tally self.old).retries (last_of_grant result) }
        ensures own_handle { id self.new ≡ id self.old }
        ensures refusals { refused self.old + (tally self.new).retries ≤ refused self.new + (tally self.old).retries }
        ensures rises { front self.old ≤ front self.new }
        ensures stays { (m : ℕ) → has_seen m (front self.old) → has_seen m (front self.new) }
        ensures counted { count self.new + length (kept_receipts self.old) ≡ count self.old + length (kept_receipts self.new) }
        ensures keeps { (f m : ℕ) → Sees has_seen f m (front self.old) → Keeps (may f m) (kept_receipts self.old) result (kept_receipts self.new) }
        ensures says { (f m : ℕ) → Sees has_seen f m (front self.old) → GrantSays (may f m) moment result };

    /// The pairs of these keys. Refused as `Shared::read` is.
    fn read(&mut self, alloc: Global, keys: &ReadSet) -> Result<ReadView, SharedFault<AllocError>>
        requires { (tally self.old).retries < 2 ^ 63 }
        ensures tallied { tally self.new ≡ tally_of (tally self.old).retries (last_of_read result) }
        ensures own_handle { id self.new ≡ id self.old }
        ensures refusals { refused self.old + (tally self.new).retries ≤ refused self.new + (tally self.old).retries }
        ensures same { (count self.new ≡ count self.old) × (kept_receipts self.new ≡ kept_receipts self.old) }
        ensures rises { front self.old ≤ front self.new }
        ensures stays { (m : ℕ) → has_seen m (front self.old) → has_seen m (front self.new) }
        ensures says { (f m : ℕ) → Sees has_seen f m (front self.old) → ReadSays (may f m) keys.now result };

    /// Commits a prepared transaction at `moment`: `Done` has the receipt for an entry of its
    /// operations, and `Refused` tells that the rows refuse them. The call is refused as
    /// `Shared::commit` is; what was prepared comes back with each such refusal.
    fn commit(
        &mut self,
        alloc: Global,
        moment: u64,
        prepared: Prepared,
    ) -> Result<Committed, (SharedFault<CommitFault>, Prepared)>
        requires { (tally self.old).retries < 2 ^ 63 }
        ensures tallied { tally self.new ≡ tally_of ((tally self.old).retries + retried (last_of_commit result)) (last_of_commit result) }
        ensures own_handle { id self.new ≡ id self.old }
        ensures refusals { refused self.old + (tally self.new).retries ≤ refused self.new + (tally self.old).retries }
        ensures counted { (count self.new ≡ count self.old + given_by result) × (kept_receipts self.new ≡ kept_receipts self.old) }
        ensures rises { front self.old ≤ front self.new }
        ensures stays { (m : ℕ) → has_seen m (front self.old) → has_seen m (front self.new) }
        ensures says { (f m : ℕ) → Sees has_seen f m (front self.old) → CommitSays (may f m) moment prepared.ops result };

    /// How many of its answers were a conflict or the end of a lease, and its last answer.
    fn tally(&self) -> Tally
        ensures { result ≡ tally self.now };
}
