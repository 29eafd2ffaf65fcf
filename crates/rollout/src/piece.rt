//! The next piece of a fill or a clear.
ghost use Rattle.std.specs.Prelude.{◌≡◌, ℕ, ◌≤◌, IfOk, OnErr, OnOk};
ghost use Rattle.lease.specs.Timeline.{max_moment};
ghost use Rattle.world.specs.Calls.{effective_moment};
ghost use Rattle.world.specs.State.{facts_of};
ghost use Rattle.piece_work.specs.WorkOff.{HasEnded, Rounds, WasRead};
ghost use Rattle.rollout.specs.Due.{IsOpen};
ghost use Rattle.rollout.specs.Advance.{IsLimit, WorksPiece};

use piece_work::{next_view, work_off};
use reorganise::{PieceView, prepare_piece};
use std::alloc::{AllocError, Global};
use world::{PieceDone, World};

/// The next items of the first piece that has not ended: there is one.
fn open_view(
    alloc: Global,
    world: &World,
    element: u32,
    limit: u32,
) -> Result<PieceView, AllocError>
    requires open { IsOpen (facts_of world.now) element }
    requires limit { IsLimit limit }
    ensures { IfOk result (λ view. (piece : ℕ) × WasRead world.now element limit piece view) }
{
    match next_view(alloc, world, element, limit) {
        Ok(Some(view)) => Ok(view),
        Ok(None) => unreachable!(),
        Err(_) => Err(AllocError),
    }
}

/// Works the next items of an open reorganisation.
pub(crate) fn work_piece(
    alloc: Global,
    world: &mut World,
    element: u32,
    moment: u64,
    limit: u32,
) -> Result<PieceDone, AllocError>
    requires open { IsOpen (facts_of world.old) element }
    requires limit { IsLimit limit }
    requires moment { effective_moment world.old moment ≤ max_moment }
    ensures done { IfOk result (λ done. WorksPiece world.old element moment limit done world.new) }
    ensures same { OnErr result (world.new ≡ world.old) }
{
    let view = open_view(alloc, world, element, limit)?;
    let Ok(prepared) = prepare_piece(alloc, view) else {
        return Err(AllocError);
    };
    match world.commit_piece(alloc, moment, prepared) {
        Ok(done) => Ok(done),
        Err(_) => Err(AllocError),
    }
}

/// Works an open reorganisation to its end. If it is refused, the pieces that were worked before
/// stay so.
pub(crate) fn work_all(
    alloc: Global,
    world: &mut World,
    element: u32,
    moment: u64,
    limit: u32,
) -> Result<(), AllocError>
    ensures rounds { (commits : ℕ) × Rounds commits world.old element moment limit world.new }
    ensures ended { OnOk result (HasEnded world.new element) }
{
    match work_off(alloc, world, element, moment, limit) {
        Ok(_) => Ok(()),
        Err(_) => Err(AllocError),
    }
}
