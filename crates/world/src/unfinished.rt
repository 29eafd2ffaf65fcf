//! What a step still waits for.
ghost use Rattle.std.specs.Bool.{Decides};
ghost use Rattle.std.specs.Prelude.{◌≡◌, ◌<◌, IfErr, OnOk, MatchOption};
ghost use Rattle.lease.specs.Timeline.{newest as newest_number};
ghost use Rattle.replay.specs.Laws.{IsDone, AreFinished};
ghost use Rattle.world.specs.Publish.{IsReady, Lacks, IsUnfinished, IsUnready, max_versions};
ghost use Rattle.world.specs.State.{facts_of};

use crate::publish::PublishFault;
use crate::world::World;
use reorganise::Work;
use schema_version::{Move, needed_work};

/// The greatest number of a version.
const MAX_VERSIONS: u64 = 1_000_000;

impl World {
    // Whether this work on an element has begun and is finished.
    fn is_done(&self, element: u32, work: Work) -> bool
        ensures { Decides result (IsDone (facts_of self.now) element work) }
    {
        match self.begun_of(element) {
            Some(progress) => progress.is_done(work),
            None => false,
        }
    }

    // The element of a move that lacks what it needs.
    fn first_lacking(&self, change: &Move) -> Option<u32>
        ensures { MatchOption result (IsReady (facts_of self.now) change.now) (λ number. Lacks (facts_of self.now) change.now number) }
    {
        let Move::Go { element, to } = change else {
            return None;
        };
        let found = self.newest.get().element(*element)?;
        let work = needed_work(&found.kind, *to)?;
        if self.is_done(*element, work) {
            None
        } else {
            Some(*element)
        }
    }

    // The first element of a step that lacks what it needs.
    fn first_unfinished(&self, step: &[Move]) -> Option<u32>
        ensures { MatchOption result (AreFinished (facts_of self.now) step.now) (λ number. IsUnfinished (facts_of self.now) step.now number) }
    {
        for change in step {
            if let Some(number) = self.first_lacking(change) {
                return Some(number);
            }
        }
        None
    }

    // Whether an allowed step may be published as to what it waits for, and as to the number of
    // versions.
    pub(crate) fn ready(&self, step: &[Move]) -> Result<(), PublishFault>
        ensures finished { OnOk result (AreFinished (facts_of self.now) step.now) }
        ensures room { OnOk result (newest_number (facts_of self.now).line < max_versions) }
        ensures refused { IfErr result (λ fault. IsUnready (facts_of self.now) step.now fault) }
    {
        if let Some(element) = self.first_unfinished(step) {
            return Err(PublishFault::Unfinished { element });
        }
        if self.line.newest() >= MAX_VERSIONS {
            return Err(PublishFault::VersionsSpent);
        }
        Ok(())
    }
}
