//! Leases.
ghost use Rattle.std.specs.Prelude.{◌≡◌};
ghost use Rattle.typed_calls.specs.Leases.{grant_status, held_by, LeasesWorld, LeasesIn};

use crate::bounded::BoundedWorld;
use crate::status::{MOMENT_TOO_LARGE, OUT_OF_MEMORY, TOO_FAR};
use script_session::ServerLease;
use script_session::world::{Grant, GrantFault, World};
use std::alloc::Global;

// The status of a lease that was not granted.
fn grant_status(fault: GrantFault) -> i32
    ensures { result ≡ grant_status fault }
{
    match fault {
        GrantFault::MomentTooLarge => MOMENT_TOO_LARGE,
        GrantFault::Memory => OUT_OF_MEMORY,
    }
}

// A lease on the newest version of the world.
fn lease_of(alloc: Global, world: &mut World, moment: u64) -> Result<Grant, i32>
    ensures { LeasesWorld world.old moment result world.new }
{
    match world.lease(alloc, moment) {
        Ok(grant) => Ok(grant),
        Err(fault) => Err(grant_status(fault)),
    }
}

/// Grants a lease on the newest version of a world.
///
/// - `moment`: the present moment. The one that counts is the greater of it and the moment of the
///   last entry.
///
/// Refused, in this order, and then nothing changes: `TOO_FAR` if the moment is further beyond that
/// of the last entry than the world allows; `MOMENT_TOO_LARGE` if the moment that counts is above 2^62; `OUT_OF_MEMORY`.
pub fn lease(alloc: Global, bounded: &mut BoundedWorld, moment: u64) -> Result<Grant, i32>
    ensures { LeasesIn bounded.old moment result bounded.new }
{
    if bounded.is_too_far(moment) {
        return Err(TOO_FAR);
    }
    lease_of(alloc, &mut bounded.world, moment)
}

/// The lease of a grant, with the schema of its version.
pub fn held_by(grant: Grant) -> ServerLease
    ensures { result ≡ held_by grant }
{
    ServerLease {
        lease: grant.lease,
        schema: grant.schema,
    }
}
