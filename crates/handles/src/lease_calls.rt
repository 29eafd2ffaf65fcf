//! Worlds that are opened by a code, and their leases.
ghost use Rattle.std.specs.Prelude.{◌≡◌, None};
ghost use Rattle.handles.specs.Handles.{Fills};
ghost use Rattle.handles.specs.Leases.{given, Leases, Grants, Opens};

use crate::boxes::{boxed, filled, room};
use crate::engine::Engine;
use crate::handle::Handle;
use std::alloc::Global;
use typed_calls::status::{ALREADY_OPEN, CLOSED, OK, OUT_OF_MEMORY};
use typed_calls::world::Grant;
use typed_calls::{BoundedWorld, held_by};

/// What the grant of a lease came to.
#[repr(C)]
#[derive(Clone, Copy, Drop)]
pub struct LeaseOutcome {
    /// The status. The other fields are 0 if it is not `OK`.
    pub status: i32,
    /// The number of the version.
    pub version: u64,
    /// The moment from which on the lease is in force.
    pub granted: u64,
    /// The moment at which it ends: it is in force before it.
    pub until: u64,
    /// The place of its entry in the log.
    pub place: u64,
}

impl LeaseOutcome {
    /// A status without a lease.
    pub(crate) fn of(status: i32) -> LeaseOutcome
        ensures { result ≡ record { status = status; version = 0; granted = 0; until = 0; place = 0 } }
    {
        LeaseOutcome {
            status,
            version: 0,
            granted: 0,
            until: 0,
            place: 0,
        }
    }

    // What a lease that was granted is reported as.
    fn given(grant: &Grant) -> LeaseOutcome
        ensures { result ≡ given grant.now }
    {
        LeaseOutcome {
            status: OK,
            version: grant.lease.version,
            granted: grant.lease.granted,
            until: grant.lease.until,
            place: grant.receipt.place,
        }
    }
}

// Grants a lease of the world into a closed handle.
fn lease_into(
    alloc: Global,
    bounded: &mut BoundedWorld,
    moment: u64,
    lease: &mut Handle,
) -> LeaseOutcome
    requires { lease.old.place.value ≡ None }
    ensures { Grants bounded.old moment result bounded.new lease.new.place.value }
{
    let Ok(room) = room(alloc) else {
        return LeaseOutcome::of(OUT_OF_MEMORY);
    };
    match typed_calls::lease(alloc, bounded, moment) {
        Ok(grant) => {
            let outcome = LeaseOutcome::given(&grant);
            lease.put(filled(room, Engine::Lease(held_by(grant))));
            outcome
        }
        Err(status) => LeaseOutcome::of(status),
    }
}

impl Handle {
    /// Fills a closed handle, unless memory runs out.
    pub fn fill(&mut self, alloc: Global, engine: Engine) -> i32
        requires { self.old.place.value ≡ None }
        ensures { Fills engine result self.new.place.value }
    {
        let Ok(engine) = boxed(alloc, engine) else {
            return OUT_OF_MEMORY;
        };
        self.put(engine);
        OK
    }

    /// Opens a world by the code of its opening, as `entry_code::opening_bytes` gives it, into this
    /// closed handle.
    ///
    /// - `furthest`: how far a call's moment may be beyond that of the last entry, in moments;
    ///   `ANY_JUMP` if none is too far.
    ///
    /// `OK`; else `ALREADY_OPEN`, `BAD_CODE`, `BAD_TABLE`, `BAD_LENGTH`, or `OUT_OF_MEMORY`, which
    /// may come in place of `BAD_CODE`. A refusal changes nothing.
    pub fn open(&mut self, alloc: Global, opening: &[u8], furthest: u64) -> i32
        ensures { Opens self.old.place.value opening.now furthest result self.new.place.value }
    {
        if self.is_open {
            return ALREADY_OPEN;
        }
        match typed_calls::open(alloc, opening, furthest) {
            Ok(bounded) => self.fill(alloc, Engine::World(bounded)),
            Err(status) => status,
        }
    }

    /// Grants a lease on the newest version of the world, into the closed handle `lease`. `OK`; else
    /// `ALREADY_OPEN` (of `lease`), `CLOSED`, `TOO_FAR`, `MOMENT_TOO_LARGE`, or `OUT_OF_MEMORY`,
    /// which may come in place of the two before it. A refusal changes nothing.
    pub fn lease(&mut self, alloc: Global, moment: u64, lease: &mut Handle) -> LeaseOutcome
        ensures { Leases self.old.place.value moment lease.old.place.value result self.new.place.value lease.new.place.value }
    {
        if lease.is_open {
            return LeaseOutcome::of(ALREADY_OPEN);
        }
        let Some(mut engine) = self.take(alloc) else {
            return LeaseOutcome::of(CLOSED);
        };
        let Engine::World(bounded) = &mut *engine else {
            self.put(engine);
            return LeaseOutcome::of(CLOSED);
        };
        let outcome = lease_into(alloc, bounded, moment, lease);
        self.put(engine);
        outcome
    }
}
