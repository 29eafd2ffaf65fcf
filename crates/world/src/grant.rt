//! The grant of a lease.
ghost use Rattle.std.specs.Prelude.{◌≡◌};
ghost use Rattle.world.specs.Calls.{LeaseStep};
ghost use Rattle.world.specs.declared.grant.GrantFault.TheVariants.{Memory};

use crate::entry::Grant;
use crate::world::World;
use replay::{What, lemma_leases_keep};
use std::alloc::{AllocError, Global};
use thiserror::Error;

/// Why no lease was granted. Of several reasons the first in this order is reported.
#[derive(Clone, Copy, Debug, PartialEq, Eq, Error)]
pub enum GrantFault {
    /// The moment that counts is above 2^62.
    #[error("the moment is above 2^62")]
    MomentTooLarge,
    /// Out of memory.
    #[error("out of memory")]
    Memory,
}

impl From<AllocError> for GrantFault {
    ghost from_gives = { λ _ fault. fault ≡ Memory };

    fn from(_: AllocError) -> GrantFault {
        GrantFault::Memory
    }
}

impl World {
    /// Grants a lease on the newest version, from the moment that counts on: the greater of
    /// `moment` and the moment of the last entry.
    ///
    /// Refused in this order: `MomentTooLarge` if the moment that counts is above 2^62; `Memory`. A
    /// refusal changes nothing.
    pub fn lease(&mut self, alloc: Global, moment: u64) -> Result<Grant, GrantFault>
        ensures step { LeaseStep self.old moment result self.new }
    {
        let now = self.effective_moment(moment);
        let Ok(lease) = self.line.grant(now) else {
            return Err(GrantFault::MomentTooLarge);
        };
        let schema = self.newest.clone()?;
        lemma_leases_keep();
        let draft = self.log.make_ready(alloc, now, What::Lease(lease))?;
        let receipt = self.log.enter(draft);
        Ok(Grant {
            lease,
            schema,
            receipt,
        })
    }
}
