//! What tells one shared world from another, so that no handle of one is taken for a handle of the
//! other.
ghost use Rattle.std.specs.Prelude.{◌≡◌};

use high_water::HighWater;
use std::marker::{Brand, PhantomData};
use std::sync::ledger::{Blank, Ledger};

/// Which shared world it is: how many handles it has, and the state of its world when it was
/// shared. Each call of `Shared::new` picks it. As a ledger it counts the entries that are added.
pub trait SharedLedger: Ledger {
    ghost use Rattle.std.specs.Prelude.{ℕ};
    ghost use Rattle.rollout.specs.State.{State};

    ghost handles: { ℕ };

    ghost start: { State };

    // the ledger of the entries that are taken out of the log
    ghost taken_name: { ℕ };

    // the ledger of the commits that the world refuses
    ghost refused_name: { ℕ };

    // the number that says where the log begins
    ghost cut_name: { ℕ };
}

// any values do here, since each call picks its own
impl SharedLedger for Brand {
    ghost use Rattle.std.specs.Prelude.{[]};
    ghost use Rattle.schema_version.specs.Declare.{declared};
    ghost use Rattle.checkpoint.specs.Checkpoint.{opening_checkpoint};
    ghost use Rattle.rollout.specs.State.{opened};

    ghost handles = { 0 };

    ghost start = { opened (opening_checkpoint (record { length = 0; schema = declared [] })) };

    ghost taken_name = { 0 };

    ghost refused_name = { 0 };

    ghost cut_name = { 0 };
}

/// The ledger of the entries that are taken out of the log of a shared world.
pub struct Taken<L: SharedLedger> {
    marker: PhantomData<L>,
}

impl<L: SharedLedger> Ledger for Taken<L> {
    ghost name = { L.taken_name };

    ghost parts = { L.parts };
}

/// The ledger of the commits that the world behind the lock refuses.
pub struct Refused<L: SharedLedger> {
    marker: PhantomData<L>,
}

impl<L: SharedLedger> Ledger for Refused<L> {
    ghost name = { L.refused_name };

    ghost parts = { L.parts };
}

/// What a world that is to be shared is counted by. It has no bytes.
#[derive(Drop)]
pub struct Blanks {
    /// The ledger of the entries that are added.
    pub added: Blank,
    /// The ledger of the entries that are taken out of the log.
    pub taken: Blank,
    /// The ledger of the commits that the world refuses.
    pub refused: Blank,
    /// How many entries there were before those in memory.
    pub cut: HighWater,
    ghost uncut: { cut.at ≡ 0 },
}

impl Blanks {
    /// New ones.
    ///
    /// - `handles`: how many handles the world is to have.
    pub fn new(handles: u64) -> Blanks
        ensures { (result.added.parts ≡ handles) × (result.taken.parts ≡ handles) × (result.refused.parts ≡ handles) }
    {
        Blanks {
            added: Blank::new(handles),
            taken: Blank::new(handles),
            refused: Blank::new(handles),
            cut: HighWater::new(),
        }
    }
}
