//! The right to call a shared world.
ghost use Rattle.std.specs.Prelude.{◌≡◌, ◌<◌, length};
ghost use Rattle.locked_store.specs.Known.{IsLeastFront};

use crate::rights::Rights;
use crate::shared_ledger::SharedLedger;
use high_water::Reached;
use std::marker::Model;

/// A right to call a shared world. It has a number, a front: the length of the log as it last saw it,
/// its shares of the count of entries, of those that were taken out of the log, and of refused
/// commits, and what it knows of where the log begins.
#[derive(Drop)]
pub struct Handle<L: SharedLedger> {
    pub(crate) id: u64,
    pub(crate) front: u64,
    pub(crate) rights: Rights<L>,
    pub(crate) cut: Reached,
}

impl<L: SharedLedger> Model for Handle<L> {
    ghost use Rattle.std.specs.Prelude.{◌≡◌};
    ghost use Rattle.locked_store.specs.Known.{Known};

    ghost Value = { Known };

    ghost view = { λ h. record { id = h.id; front = h.front; count = h.rights.added.amount; taken = h.rights.taken.amount; refused = h.rights.refused.amount; cut = h.cut.at } };

    ghost invariant = { λ h. (h.rights.added.parts ≡ 1) × (h.cut.name ≡ L.cut_name) };
}

impl<L: SharedLedger> Handle<L> {
    /// The length of the log as it last saw it.
    pub fn front(&self) -> u64
        ensures { result ≡ self.now.front }
    {
        self.front
    }
}

/// The least front of these handles: the length of the log that all of them have seen.
pub fn least_front<L: SharedLedger>(handles: &[Handle<L>]) -> u64
    requires { 0 < length handles.now }
    ensures { IsLeastFront handles.now result }
{
    let first = &handles[0];
    let mut least = first.front;
    for handle in handles {
        least = least.min(handle.front);
    }
    least
}
