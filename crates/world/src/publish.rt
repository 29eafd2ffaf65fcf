//! The publication of a version.
ghost use Rattle.std.specs.Prelude.{◌≡◌, ◌≤◌, filter, IfOk, IfErr, OnOk};
ghost use Rattle.collections.specs.Refusal.{IsRefusal};
ghost use Rattle.replay.specs.Replay.{stays};
ghost use Rattle.schema_version.specs.Moves.{after_step};
ghost use Rattle.world.specs.declared.publish.PublishFault.TheVariants.{Memory, TooEarly as EarlyFault};
ghost use Rattle.world.specs.Publish.{PublishStep, PublishAt, MayPublish, PublishCondition, publish_rank};
ghost use Rattle.world.specs.State.{facts_of};

use crate::entry::Receipt;
use crate::world::World;
use collections::ArcValue;
use lease::{MAX_MOMENT, TooEarly};
use reorganise::Progress;
use replay::{What, lemma_publications_keep};
use schema_version::{Move, Schema, Step, StepFault, moves_element};
use std::alloc::{AllocError, Global};
use std::mem;
use thiserror::Error;

/// Why no version was published. Of several reasons the first in this order is reported.
#[derive(Clone, Copy, Debug, PartialEq, Eq, Error)]
pub enum PublishFault {
    /// The moment that counts is above 2^62.
    #[error("the moment is above 2^62")]
    MomentTooLarge,
    /// The newest version has not stood for the lease length yet.
    #[error("no version may be published before {earliest}")]
    TooEarly {
        /// The first moment at which one may be.
        earliest: u64,
    },
    /// The step isn't allowed.
    #[error("{0}")]
    Step(StepFault),
    /// A move needs a fill or a clear that is not finished.
    #[error("the reorganisation of the element {element} is not finished")]
    Unfinished {
        /// The first such element in the step's order.
        element: u32,
    },
    /// There are 1,000,000 versions.
    #[error("no version is left")]
    VersionsSpent,
    /// Out of memory.
    #[error("out of memory")]
    Memory,
}

impl From<AllocError> for PublishFault {
    ghost from_gives = { λ _ fault. fault ≡ Memory };

    fn from(_: AllocError) -> PublishFault {
        PublishFault::Memory
    }
}

impl From<TooEarly> for PublishFault {
    ghost from_gives = { λ early fault. fault ≡ EarlyFault early.earliest };

    fn from(early: TooEarly) -> PublishFault {
        PublishFault::TooEarly {
            earliest: early.earliest,
        }
    }
}

// The reorganisations of the elements that a step moves are over.
fn keep_unmoved(begun: &mut Vec<Progress>, step: &[Move])
    ensures { begun.new.items ≡ filter (stays step.now) begun.old.items }
{
    begun.retain(|p| !moves_element(step, p.element.number));
}

impl World {
    /// Publishes the version that a step gives, and answers its number. From then on leases are
    /// granted on it, and a reorganisation of an element that the step moves is over.
    ///
    /// The moment that counts is the greater of `moment` and the moment of the last entry. Refused
    /// in this order, and then nothing changes: `MomentTooLarge` if the moment that counts is above
    /// 2^62; `TooEarly` if the newest version has not stood for the lease length, with the first
    /// moment at which it has, so that at most two versions are in use, as in the F1 paper; `Step`
    /// with why the step is not allowed; `Unfinished` with the first element, in the step's order,
    /// whose fill (an index's step to public) or clear (every step to absent) is not finished;
    /// `VersionsSpent` if there are 1,000,000 versions; `Memory`.
    pub fn publish(
        &mut self,
        alloc: Global,
        moment: u64,
        step: &Step,
    ) -> Result<(u64, Receipt), PublishFault>
        ensures step { PublishStep self.old moment step.now result self.new }
    {
        let now = self.effective_moment(moment);
        let next = self.next_version(now, step)?;
        self.enter(alloc, now, step, next)
    }

    // The version that a step gives, if it may be published at the moment that counts.
    fn next_version(&self, now: u64, step: &Step) -> Result<Schema, PublishFault>
        ensures version { IfOk result (λ next. next ≡ after_step (facts_of self.now).newest step.now) }
        ensures may { OnOk result (MayPublish (facts_of self.now) now step.now) }
        ensures refused { IfErr result (λ fault. IsRefusal publish_rank (PublishCondition self.now now step.now) Memory fault) }
    {
        if now > MAX_MOMENT {
            return Err(PublishFault::MomentTooLarge);
        }
        self.line.may_publish(now)?;
        match self.newest.get().apply(step) {
            Ok(next) => {
                self.ready(step.as_slice())?;
                Ok(next)
            }
            Err(StepFault::Memory) => {
                self.ready(step.as_slice())?;
                Err(PublishFault::Memory)
            }
            Err(fault) => Err(PublishFault::Step(fault)),
        }
    }

    // The version becomes the newest.
    fn enter(
        &mut self,
        alloc: Global,
        now: u64,
        step: &Step,
        next: Schema,
    ) -> Result<(u64, Receipt), PublishFault>
        requires later { (facts_of self.old).moment ≤ now }
        requires may { MayPublish (facts_of self.old) now step.now }
        requires version { next ≡ after_step (facts_of self.old).newest step.now }
        ensures step { PublishAt self.old now step.now result self.new }
    {
        lemma_publications_keep();
        let next = ArcValue::new(alloc, next)?;
        let what = What::Publish(step.clone()?);
        let draft = self.log.make_ready(alloc, now, what)?;
        let version = self.line.publish(now)?;
        self.before = Some(mem::replace(&mut self.newest, next));
        keep_unmoved(&mut self.begun, step.as_slice());
        let receipt = self.log.enter(draft);
        Ok((version, receipt))
    }
}
