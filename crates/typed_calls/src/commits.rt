//! A prepared transaction is committed.
ghost use Rattle.typed_calls.specs.Commit.{CommitsWorld, CommitsIn};

use crate::bounded::BoundedWorld;
use crate::refusals::TxnRefusal;
use crate::status::TOO_FAR;
use row_write::Prepared;
use script_session::world::{Committed, World};
use std::alloc::Global;

/// A prepared transaction is committed to a world.
pub(crate) fn commit_to(
    alloc: Global,
    world: &mut World,
    moment: u64,
    prepared: Prepared,
) -> Result<Committed, (TxnRefusal, Prepared)>
    ensures { CommitsWorld world.old moment prepared result world.new }
{
    match world.commit(alloc, moment, prepared) {
        Ok(done) => Ok(done),
        Err((fault, prepared)) => Err((TxnRefusal::Commit(fault), prepared)),
    }
}

/// Commits a prepared transaction to a world: it is logged and written, or the rows refuse it.
///
/// - `moment`: the present moment. The one that counts is the greater of it and the moment of the
///   last entry.
///
/// Refused, in this order, and then nothing changes and the transaction comes back: `TOO_FAR`;
/// `MOMENT_TOO_LARGE`, `BAD_LEASE`, `LEASE_ENDED`, `WRONG_SCHEMA` and `CONFLICT` as `World::commit`
/// refuses, by its fault; `OUT_OF_MEMORY`, which may come in place of `CONFLICT`.
pub fn commit(
    alloc: Global,
    bounded: &mut BoundedWorld,
    moment: u64,
    prepared: Prepared,
) -> Result<Committed, (TxnRefusal, Prepared)>
    ensures { CommitsIn bounded.old moment prepared result bounded.new }
{
    if bounded.is_too_far(moment) {
        return Err((TxnRefusal::of(TOO_FAR), prepared));
    }
    commit_to(alloc, &mut bounded.world, moment, prepared)
}
