//! The entry that a commit would add to the log, for replicas that agree on it first.
ghost use Rattle.std.specs.Prelude.{◌≡◌, IfOk};
ghost use Rattle.entry_code.specs.Code.{entry_code};
ghost use Rattle.replay.specs.declared.entry.What.TheVariants.{Txn};
ghost use Rattle.typed_calls.specs.Proposals.{CodesEntry, ProposesWorld, ProposesIn};

use crate::bounded::BoundedWorld;
use crate::commits::commit_to;
use crate::refusals::TxnRefusal;
use crate::status::{OUT_OF_MEMORY, TOO_FAR};
use collections::{ArcValue, List};
use entry_code::entry_bytes;
use replay::{Entry, What};
use row_write::Prepared;
use script_session::world::{Committed, World};
use std::alloc::{AllocError, Global};

/// The code of an entry of a log. Refused only by `OUT_OF_MEMORY`.
pub fn entry_coded(alloc: Global, entry: &Entry) -> Result<List<u8>, i32>
    ensures { CodesEntry entry.now result }
{
    match entry_bytes(alloc, entry) {
        Ok(code) => Ok(List::new(code)),
        Err(_) => Err(OUT_OF_MEMORY),
    }
}

// The code of the entry of a prepared transaction at this moment.
fn entry_at(alloc: Global, moment: u64, prepared: &Prepared) -> Result<List<u8>, AllocError>
    ensures { IfOk result (λ code. code ≡ entry_code (record { moment = moment; what = Txn prepared.now.lease prepared.now.ops })) }
{
    let what = What::Txn(*prepared.lease(), prepared.ops_shared()?);
    let what = ArcValue::new(alloc, what)?;
    let code = entry_bytes(alloc, &Entry { moment, what })?;
    Ok(List::new(code))
}

// What a world that goes on from here answers to the commit, with the code of its entry.
fn propose(
    alloc: Global,
    world: &World,
    moment: u64,
    prepared: Prepared,
) -> Result<(Committed, List<u8>), (TxnRefusal, Prepared)>
    ensures { ProposesWorld world.now moment prepared result }
{
    let Ok(checkpoint) = world.checkpoint() else {
        return Err((TxnRefusal::of(OUT_OF_MEMORY), prepared));
    };
    let Ok(code) = entry_at(alloc, moment.max(world.moment()), &prepared) else {
        return Err((TxnRefusal::of(OUT_OF_MEMORY), prepared));
    };
    let mut fork = World::open_at(alloc, checkpoint);
    match commit_to(alloc, &mut fork, moment, prepared) {
        Ok(done) => Ok((done, code)),
        Err(refusal) => Err(refusal),
    }
}

/// What `commit` would answer now, with the code of the entry that it would add to the log. The world
/// does not change. A world that stands here and repeats that entry is then where the commit would
/// have led it.
///
/// - `moment`: as for `commit`.
///
/// Of a transaction that the rows refuse there is no entry, and the code says nothing. Refused: as
/// `commit`, but that `OUT_OF_MEMORY` may come in place of any after `TOO_FAR`; the transaction then
/// comes back.
pub fn txn_entry(
    alloc: Global,
    bounded: &BoundedWorld,
    moment: u64,
    prepared: Prepared,
) -> Result<(Committed, List<u8>), (TxnRefusal, Prepared)>
    ensures { ProposesIn bounded.now moment prepared result }
{
    if bounded.is_too_far(moment) {
        return Err((TxnRefusal::of(TOO_FAR), prepared));
    }
    propose(alloc, &bounded.world, moment, prepared)
}
