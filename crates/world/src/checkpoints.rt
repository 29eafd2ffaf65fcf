//! Checkpoints: from which a log may go on in the place of all entries before.
ghost use Rattle.std.specs.Prelude.{◌≡◌, IfOk};
ghost use Rattle.checkpoint_check.specs.Checkpoint.{checkpoint_of};
ghost use Rattle.world.specs.State.{facts_of, entry_count, opened};

use crate::log::Log;
use crate::origin::Origin;
use crate::world::World;
use checkpoint_check::checkpoint::lemma_checkpoints_keep;
use collections::ArcValue;
use lease::Timeline;
use reorganise::Progress;
use schema_version::Schema;
use std::alloc::{AllocError, Global};
use std::marker::Model;
use txn_store::Store;

/// All that a later call needs of the log up to here: how many entries came before, the moment of the
/// last one, the timeline, the versions in use, the begun reorganisations and the pairs. Its memory
/// is that of the data and of the publications, whatever else happened before.
pub struct Checkpoint {
    /// How many entries came before.
    pub(crate) place: u64,
    /// The moment of the last of them.
    pub(crate) moment: u64,
    pub(crate) line: Timeline,
    pub(crate) newest: ArcValue<Schema>,
    /// The version before the newest.
    pub(crate) before: Option<ArcValue<Schema>>,
    /// The reorganisations that have begun and are not over.
    pub(crate) begun: Vec<Progress>,
    pub(crate) store: Store,
}

// By hand, so that a caller's proof sees one call and not each field's.
impl Drop for Checkpoint {
    fn drop(self) {
        let Checkpoint {
            place: _,
            moment: _,
            line: _,
            newest: _,
            before: _,
            begun: _,
            store: _,
        } = self;
    }
}

impl Model for Checkpoint {
    ghost use Rattle.checkpoint_check.specs.Checkpoint.{Checkpoint as Said};
    ghost use Rattle.world.specs.CheckpointCode.{checkpoint_code};

    ghost Value = { Said };

    ghost coded = { checkpoint_code };

    ghost use Rattle.world.specs.Checkpoints.{said, IsWholeInside};

    ghost view = { said };

    ghost invariant = { IsWholeInside };
}

fn copy_line(line: &Timeline) -> Result<Timeline, AllocError>
    ensures { IfOk result (λ copy. copy ≡ line.now) }
{
    line.clone()
}

fn copy_version(version: &ArcValue<Schema>) -> Result<ArcValue<Schema>, AllocError>
    ensures { IfOk result (λ copy. copy ≡ version.now) }
{
    version.clone()
}

fn copy_before(before: &Option<ArcValue<Schema>>) -> Result<Option<ArcValue<Schema>>, AllocError>
    ensures { IfOk result (λ copy. copy ≡ before.now) }
{
    match before {
        Some(version) => Ok(Some(copy_version(version)?)),
        None => Ok(None),
    }
}

fn copy_progress(progress: &Progress) -> Result<Progress, AllocError>
    ensures { IfOk result (λ copy. copy ≡ progress.now) }
{
    progress.clone()
}

fn copy_begun(begun: &[Progress], alloc: Global) -> Result<Vec<Progress>, AllocError>
    ensures { IfOk result (λ copy. copy.items ≡ begun.now) }
{
    let mut copy = Vec::with_capacity(alloc, begun.len())?;
    for progress in begun {
        copy.push(copy_progress(progress)?)?;
    }
    Ok(copy)
}

impl Checkpoint {
    // The world of `World::open_at`.
    fn into_world(self, alloc: Global) -> World
        ensures { result ≡ opened self }
    {
        let from = Origin::of(&self);
        let Checkpoint {
            place,
            moment,
            line,
            newest,
            before,
            begun,
            store,
        } = self;
        World {
            before,
            newest,
            line,
            begun,
            store,
            log: Log::new(alloc, from, place, moment),
        }
    }
}

impl World {
    /// A world that goes on from a checkpoint: each later call may answer there what it may answer
    /// in the world of which that is the checkpoint. Its log begins after the entries before the
    /// checkpoint.
    pub fn open_at(alloc: Global, checkpoint: Checkpoint) -> World
        ensures { result ≡ opened checkpoint }
    {
        checkpoint.into_world(alloc)
    }

    /// The checkpoint of this world, which goes on. The pairs are shared, as a snapshot's, and none is
    /// copied: it takes time with the versions that were published and the pieces of begun
    /// reorganisations, and counts one more owner of each chunk of pages. Refused only when out of
    /// memory.
    pub fn checkpoint(&self) -> Result<Checkpoint, AllocError>
        ensures { IfOk result (λ c. c ≡ checkpoint_of (entry_count self.now) (facts_of self.now)) }
    {
        lemma_checkpoints_keep();
        let line = copy_line(&self.line)?;
        let newest = copy_version(&self.newest)?;
        let before = copy_before(&self.before)?;
        let begun = copy_begun(self.begun.as_slice(), *self.begun.allocator())?;
        let store = self.store.share()?;
        Ok(Checkpoint {
            place: self.log.count(),
            moment: self.log.moment(),
            line,
            newest,
            before,
            begun,
            store,
        })
    }
}
