//! One round: servers serve its requests, and the index may come or go beside them.

use crate::fault::SoakFault;
use crate::index::change_index;
use server::{FreeGate, Outcome, Request, ServeFault, Served, serve};
use shared_rollout::locked_store::{Handle, Shared, SharedLedger};
use std::alloc::Global;
use std::mem::replace;
use std::sync::Wait;
use std::thread::{Threads, join};

/// How often a request is tried.
const TRIES: u32 = 1_000;

/// All handles of the shared world.
#[derive(Drop)]
pub(crate) struct Handles<L: SharedLedger> {
    /// Those of the servers.
    pub(crate) servers: Vec<Handle<L>>,
    /// That of the operator, who changes the index and cuts the log.
    pub(crate) operator: Handle<L>,
}

impl<L: SharedLedger> Handles<L> {
    /// All of them in one list.
    pub(crate) fn into_vec(self) -> Result<Vec<Handle<L>>, SoakFault> {
        let Handles {
            mut servers,
            operator,
        } = self;
        match servers.push(operator) {
            Ok(()) => Ok(servers),
            Err(_) => Err(SoakFault::Memory),
        }
    }
}

// Whether each request is committed; out of memory is reported before another end.
fn check_done(outcomes: &[(usize, Outcome)]) -> Result<(), SoakFault> {
    let mut all = Ok(());
    for (_, outcome) in outcomes {
        match outcome {
            Outcome::Done(_) => {}
            Outcome::Memory => return Err(SoakFault::Memory),
            _ => all = Err(SoakFault::Refused),
        }
    }
    all
}

/// Has the servers commit all requests. The receipts are dropped.
pub(crate) fn serve_all<L: SharedLedger + Send + Sync, R: Threads + Wait + Sync>(
    rt: &R,
    alloc: Global,
    shared: &Shared<L>,
    servers: &mut Vec<Handle<L>>,
    requests: &[Request],
) -> Result<(), SoakFault> {
    let handles = replace(servers, Vec::new(alloc));
    match serve(rt, alloc, shared, handles, requests, TRIES, &FreeGate) {
        Ok(
            Served {
                outcomes,
                handles,
                ..
            },
        ) => {
            *servers = handles;
            check_done(outcomes.as_slice())
        }
        Err((ServeFault::Memory, _)) => Err(SoakFault::Memory),
        Err((ServeFault::BadCount, _)) => Err(SoakFault::Refused),
    }
}

/// The same while the operator makes the change of this number, from this moment on.
pub(crate) fn serve_beside<L: SharedLedger + Send + Sync, R: Threads + Wait + Sync>(
    rt: &R,
    alloc: Global,
    shared: &Shared<L>,
    handles: &mut Handles<L>,
    requests: &[Request],
    change: u32,
    moment: u64,
) -> Result<(), SoakFault> {
    let Handles { servers, operator } = handles;
    let (served, changed) = join(
        rt,
        move || serve_all(rt, alloc, shared, servers, requests),
        move || change_index(rt, alloc, shared, operator, change, moment),
    );
    // out of memory is reported before another fault
    if changed == Err(SoakFault::Memory) {
        return changed;
    }
    served?;
    changed
}
