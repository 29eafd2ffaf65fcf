//! The begin of a reorganisation.
ghost use Rattle.std.specs.Bool.{Decides};
ghost use Rattle.std.specs.Prelude.{◌≡◌, ◌≤◌, IfOk, IfErr, MatchOption, Some, None};
ghost use Rattle.collections.specs.Refusal.{IsRefusal};
ghost use Rattle.schema_version.specs.Edges.{wanted_work as wanted_by};
ghost use Rattle.schema_version.specs.Version.{element_at};
ghost use Rattle.world.specs.declared.begin_reorg.BeginFault.TheVariants.{Memory};
ghost use Rattle.world.specs.BeginReorg.{BeginStep, BeginAt, BeginCondition, Begins, IsSettled, begin_rank, wanted_at};
ghost use Rattle.world.specs.State.{facts_of};

use crate::entry::Receipt;
use crate::world::World;
use lease::MAX_MOMENT;
use reorganise::{Progress, Work};
use replay::{What, lemma_begins_keep, lemma_items_stand};
use schema_version::ElementDef;
use std::alloc::{AllocError, AllocFailed, Global};
use thiserror::Error;

/// Why no reorganisation began. Of several reasons the first in this order is reported.
#[derive(Clone, Copy, Debug, PartialEq, Eq, Error)]
pub enum BeginFault {
    /// The moment that counts is above 2^62.
    #[error("the moment is above 2^62")]
    MomentTooLarge,
    /// No live element has the number, or it wants neither a fill nor a clear.
    #[error("the element wants no reorganisation")]
    NotWanted,
    /// A lease may still be in force on the version before the newest, in which the element has
    /// another state.
    #[error("the version before has the element in another state, and may be used until {until}")]
    StillUsed {
        /// The first moment at which no such lease is in force.
        until: u64,
    },
    /// The element's reorganisation has begun.
    #[error("the reorganisation has begun")]
    Begun,
    /// The number of pieces is not from 1 to 64.
    #[error("the number of pieces is not from 1 to 64")]
    BadCount,
    /// Out of memory.
    #[error("out of memory")]
    Memory,
}

impl From<AllocError> for BeginFault {
    ghost from_gives = { λ _ fault. fault ≡ Memory };

    fn from(_: AllocError) -> BeginFault {
        BeginFault::Memory
    }
}

impl<T: Drop> From<AllocFailed<T>> for BeginFault {
    ghost from_gives = { λ _ fault. fault ≡ Memory };

    fn from(_: AllocFailed<T>) -> BeginFault {
        BeginFault::Memory
    }
}

/// The greatest number of pieces.
const MAX_PIECES: u32 = 64;

/// A copy of a definition.
fn element_copied(element: &ElementDef) -> Result<ElementDef, AllocError>
    ensures { IfOk result (λ copy. copy ≡ element.now) }
{
    element.clone()
}

impl World {
    /// Begins the fill or the clear that an element wants, in so many pieces.
    ///
    /// The pieces are fixed by the items that are present, and from then on `read_piece` and
    /// `commit_piece` work them off in any order, beside the transactions. The moment that counts
    /// is the greater of `moment` and the moment of the last entry. Refused in this order, and then
    /// nothing changes: `MomentTooLarge` if the moment that counts is above 2^62; `NotWanted` if no
    /// live element has the number, or it wants no reorganisation; `StillUsed` if a lease may be in
    /// force on a version that has the element in another state, with the moment from which on none
    /// is; `Begun` if the element's reorganisation has begun; `BadCount` if `pieces` is not from 1
    /// to 64; `Memory`.
    pub fn begin_reorg(
        &mut self,
        alloc: Global,
        moment: u64,
        element: u32,
        pieces: u32,
    ) -> Result<Receipt, BeginFault>
        ensures step { BeginStep self.old moment element pieces result self.new }
    {
        let now = self.effective_moment(moment);
        let progress = self.prepare_begin(alloc, now, element, pieces)?;
        self.add_begun(alloc, now, element, pieces, progress)
    }

    // The live element of this number, and what it wants.
    fn find_wanted(&self, number: u32) -> Option<(&ElementDef, Work)>
        ensures found { MatchOption result (wanted_at (facts_of self.now) number ≡ None) (λ x. element_at (facts_of self.now).newest number ≡ Some x.0.now) }
        ensures wants { MatchOption result (wanted_at (facts_of self.now) number ≡ None) (λ x. wanted_by x.0.now ≡ Some x.1) }
    {
        let found = self.newest.get().element(number)?;
        let work = found.wanted_work()?;
        Some((found, work))
    }

    /// Whether each version that a lease may use at the moment that counts has the element in the
    /// same state, so that its reorganisation may begin.
    ///
    /// - `now`: the moment that counts.
    /// - `number`: the number of the element.
    pub fn is_settled(&self, now: u64, number: u32) -> bool
        ensures { Decides result (IsSettled (facts_of self.now) now number) }
    {
        if now >= self.line.earliest() {
            return true;
        }
        match &self.before {
            Some(before) => before.get().state(number) == self.newest.get().state(number),
            None => true,
        }
    }

    // The reorganisation as it stands at its begin, if it may begin.
    fn prepare_begin(
        &self,
        alloc: Global,
        now: u64,
        number: u32,
        pieces: u32,
    ) -> Result<Progress, BeginFault>
        ensures begins { IfOk result (λ progress. Begins (facts_of self.now) now number pieces progress) }
        ensures refused { IfErr result (λ fault. IsRefusal begin_rank (BeginCondition self.now now number pieces) Memory fault) }
    {
        if now > MAX_MOMENT {
            return Err(BeginFault::MomentTooLarge);
        }
        let Some((found, work)) = self.find_wanted(number) else {
            return Err(BeginFault::NotWanted);
        };
        if !self.is_settled(now, number) {
            return Err(BeginFault::StillUsed {
                until: self.line.earliest(),
            });
        }
        if self.begun_of(number).is_some() {
            return Err(BeginFault::Begun);
        }
        if pieces < 1 || pieces > MAX_PIECES {
            return Err(BeginFault::BadCount);
        }
        lemma_items_stand();
        let element = element_copied(found)?;
        Ok(Progress::begin_ranked(alloc, element, work, &self.store, pieces)?)
    }

    // The reorganisation has begun.
    #[tactic(auto, using(crate::proofs::Begins::begin_follows))]
    fn add_begun(
        &mut self,
        alloc: Global,
        now: u64,
        element: u32,
        pieces: u32,
        progress: Progress,
    ) -> Result<Receipt, BeginFault>
        requires later { (facts_of self.old).moment ≤ now }
        requires begins { Begins (facts_of self.old) now element pieces progress }
        ensures step { BeginAt self.old now element pieces result self.new }
    {
        lemma_begins_keep();
        let what = What::Begin { element, pieces };
        let draft = self.log.make_ready(alloc, now, what)?;
        self.begun.push(progress)?;
        Ok(self.log.enter(draft))
    }
}
