//! What came of the requests of a load.

use crate::fault::LoadFault;
use collections::List;
use server::locked_store::{Handle, SharedLedger};
use server::world::Receipt;
use server::{Outcome, ServeFault, Served};

// What became of a request, with its receipt kept.
fn settle(outcome: Outcome, receipts: &mut Vec<Receipt>) -> Result<(), LoadFault> {
    match outcome {
        Outcome::Done(receipt) => Ok(receipts.push(receipt)?),
        Outcome::Memory => Err(LoadFault::Memory),
        _ => Err(LoadFault::Refused),
    }
}

// All of them; out of memory is reported before another refusal.
fn settle_all(
    outcomes: Vec<(usize, Outcome)>,
    receipts: &mut Vec<Receipt>,
) -> Result<(), LoadFault> {
    let mut all = Ok(());
    for (_, outcome) in outcomes {
        match settle(outcome, receipts) {
            Ok(()) => {}
            Err(LoadFault::Memory) => return Err(LoadFault::Memory),
            Err(fault) => all = Err(fault),
        }
    }
    all
}

/// The receipts of all lists.
pub(crate) fn gather(
    lists: Vec<List<Receipt>>,
    receipts: &mut Vec<Receipt>,
) -> Result<(), LoadFault> {
    for list in lists {
        let mut list = list.into_vec();
        receipts.append(&mut list)?;
    }
    Ok(())
}

/// The worse of two outcomes: out of memory before a line that was not written, and that before a
/// refusal.
pub(crate) fn worse(
    one: Result<(), LoadFault>,
    other: Result<(), LoadFault>,
) -> Result<(), LoadFault> {
    match (one, other) {
        (Err(LoadFault::Memory), _) | (_, Err(LoadFault::Memory)) => Err(LoadFault::Memory),
        (Err(LoadFault::Unwritten), _) | (_, Err(LoadFault::Unwritten)) => {
            Err(LoadFault::Unwritten)
        }
        (Err(LoadFault::Refused), _) | (_, Err(LoadFault::Refused)) => Err(LoadFault::Refused),
        (Ok(()), Ok(())) => Ok(()),
    }
}

/// The handles of the servers, with their receipts kept, and whether all went well.
pub(crate) fn settle_served<L: SharedLedger>(
    served: Result<Served<L>, (ServeFault, Vec<Handle<L>>)>,
    receipts: &mut Vec<Receipt>,
) -> (Vec<Handle<L>>, Result<(), LoadFault>) {
    match served {
        Ok(
            Served {
                outcomes,
                handles,
                receipts: leases,
            },
        ) => {
            let gathered = gather(leases, receipts);
            (handles, worse(settle_all(outcomes, receipts), gathered))
        }
        Err((ServeFault::Memory, handles)) => (handles, Err(LoadFault::Memory)),
        Err((ServeFault::BadCount, handles)) => (handles, Err(LoadFault::Refused)),
    }
}
