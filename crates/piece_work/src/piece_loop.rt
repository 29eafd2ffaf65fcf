//! The rounds of a reorganisation.
ghost use Rattle.std.specs.Prelude.{◌≡◌, IfErr, OnOk, OnErr, Ok};
ghost use Rattle.world.specs.declared.entry.PieceDone.{PieceDone as Done};
ghost use Rattle.world.specs.Piece.{PieceStep};
ghost use Rattle.piece_work.specs.WorkOff.{WorkStep};
ghost use Rattle.piece_work.specs.inner.Steps.{IsUncommitted};

use crate::fault::WorkFault;
use crate::next_piece::next_view;
use reorganise::{PieceView, prepare_piece};
use std::alloc::Global;
use world::World;

/// What was read of a piece is prepared and committed.
fn commit(alloc: Global, world: &mut World, moment: u64, view: PieceView) -> Result<(), WorkFault>
    ensures done { OnOk result ((done : Done) × PieceStep world.old moment view (Ok done) world.new) }
    ensures refused { IfErr result (λ fault. IsUncommitted world.old moment view fault) }
    ensures same { OnErr result (world.new ≡ world.old) }
{
    let Ok(prepared) = prepare_piece(alloc, view) else {
        return Err(WorkFault::Memory);
    };
    match world.commit_piece(alloc, moment, prepared) {
        Ok(_) => Ok(()),
        Err((fault, _)) => Err(WorkFault::Commit(fault)),
    }
}

/// Works a begun reorganisation off: its pieces in order, each read, prepared and committed, at
/// most `limit` items at a time, until it has ended. Answers the number of commits.
///
/// - `element`: the number of the element whose reorganisation it is.
/// - `moment`: the moment of each commit; the greater of it and the moment of the last entry
///   counts.
/// - `limit`: how many items each commit may have, 1 to 1,000.
///
/// It ends at the first refusal, and what was committed before stands. Refused in this order of a
/// round: `Read` with `NotWanted` if nothing is begun, else with what `World::read_piece` refuses
/// of the first piece whose cursor is below its end; `Commit` with what `World::commit_piece`
/// refuses; `Memory` if what was read can't be prepared or counted. That a piece has ended is no
/// refusal, so a reorganisation whose pieces have all ended answers 0 whatever the limit.
pub fn work_off(
    alloc: Global,
    world: &mut World,
    element: u32,
    moment: u64,
    limit: u32,
) -> Result<u64, WorkFault>
    ensures step { WorkStep world.old element moment limit result world.new }
{
    let mut commits = 0u64;
    while let Some(view) = next_view(alloc, world, element, limit)? {
        let Some(more) = commits.checked_add(1) else {
            return Err(WorkFault::Memory);
        };
        commit(alloc, world, moment, view)?;
        commits = more;
    }
    Ok(commits)
}
