//! That what is saved of a world comes back.
ghost use Rattle.checkpoint.specs.Checkpoint.{checkpoint_of, IsWhole};
ghost use Rattle.world.specs.State.{facts_of, entry_count};

use checkpoint::lemma_checkpoints_keep;
use world::World;

/// A world may open from the checkpoint of any world: that is what `save_head` and `load` ask of a
/// checkpoint, so that what was saved is refused only when out of memory. It does nothing and takes
/// no memory.
pub fn lemma_worlds_come_back(world: &World)
    ensures { IsWhole (checkpoint_of (entry_count world.now) (facts_of world.now)) }
{
    lemma_checkpoints_keep();
    world.lemma_agrees();
}
