//! The calls through the lock. Each answers what the world answers in one critical section, and is
//! refused before it with `WentBack` if the log is shorter than the handle's front. The front then
//! stays; else it is the length of the log after the call, also if the world refuses.
ghost use Rattle.std.specs.Prelude.{◌≡◌, IfOk};
ghost use Rattle.locked_store.specs.Answers.{Answers, AnswersBack, Finds, reported, to_fault, no_place, grant_place, commit_place, publish_place, receipt_place, piece_place};
ghost use Rattle.rollout.specs.BeginReorg.{BeginStep};
ghost use Rattle.rollout.specs.WorkOff.{NextStep};
ghost use Rattle.rollout.specs.Due.{IsDue};
ghost use Rattle.rollout.specs.Calls.{LeaseStep, CommitStep, given_back, IsReadView, IsCheck, effective_moment};
ghost use Rattle.rollout.specs.Piece.{PieceStep, ReadStep, standing_at, piece_standing_at};
ghost use Rattle.rollout.specs.Publish.{PublishStep};
ghost use Rattle.rollout.specs.Query.{QueryStep};
ghost use Rattle.rollout.specs.Snapshot.{SnapshotStep};
ghost use Rattle.checkpoint.specs.Checkpoint.{checkpoint_of};
ghost use Rattle.rollout.specs.State.{entry_count, facts_of, recent};

use crate::fault::{SharedFault, WentBack};
use crate::handle::Handle;
use crate::shared::Shared;
use crate::shared_ledger::SharedLedger;
use collections::{ArcValue, List};
use lease::Lease;
use reorganise::{PieceView, PreparedPiece, Work};
use rollout::Act;
use rollout::world::{
    BeginFault, CheckReport, Checkpoint, CommitFault, Committed, Grant, GrantFault, PieceDone,
    PieceFault, PublishFault, QueryRefusal, ReadFault, Receipt, Snapshot, SnapshotFault,
};
use row_map::{ReadSet, ReadView, Row};
use row_query::Query;
use row_write::Prepared;
use schema_version::{Schema, Step};
use std::alloc::{AllocError, Global};
use std::sync::Wait;

// What the world answered.
fn through<T, E>(answer: Result<T, E>) -> Result<T, SharedFault<E>>
    ensures { result ≡ reported answer }
{
    match answer {
        Ok(value) => Ok(value),
        Err(fault) => Err(SharedFault::World(fault)),
    }
}

// What the world answered, with what it gives back.
fn through_back<T, E, P>(answer: Result<T, (E, P)>) -> Result<T, (SharedFault<E>, P)>
    ensures { result ≡ to_fault answer }
{
    match answer {
        Ok(value) => Ok(value),
        Err((fault, back)) => Err((SharedFault::World(fault), back)),
    }
}

// The same, of a world that leaves what was prepared with its caller.
fn with_prepared<T, E, P: Drop>(answer: Result<T, E>, prepared: P) -> Result<T, (SharedFault<E>, P)>
    ensures { result ≡ to_fault (given_back prepared answer) }
{
    match answer {
        Ok(value) => Ok(value),
        Err(fault) => Err((SharedFault::World(fault), prepared)),
    }
}

impl<L: SharedLedger> Shared<L> {
    /// Grants a lease on the newest version, as `World::lease` does.
    ///
    /// Refused in this order: `WentBack` if the log is shorter than the handle's front; `World`
    /// with what `World::lease` refuses.
    #[tactic(auto, using(crate::proofs::Through::answers))]
    pub fn lease(
        &self,
        rt: &impl Wait,
        alloc: Global,
        me: &mut Handle<L>,
        moment: u64,
    ) -> Result<Grant, SharedFault<GrantFault>>
        ensures { Answers L.start me.old result me.new (λ c r d. LeaseStep c moment r d) grant_place }
    {
        let mut locked = self.enter(rt);
        locked.check_front(me)?;
        through(locked.lease(alloc, me, moment))
    }

    /// The schema of the newest version or of the one before, by its number, as `World::schema`
    /// gives it; None for any other number. It is an owner of its own, so that it outlives the
    /// critical section.
    ///
    /// Refused in this order: `WentBack` if the log is shorter than the handle's front; `World`
    /// when out of memory.
    #[tactic(auto, using(crate::proofs::Through::answers))]
    pub fn schema(
        &self,
        rt: &impl Wait,
        me: &mut Handle<L>,
        version: u64,
    ) -> Result<Option<ArcValue<Schema>>, SharedFault<AllocError>>
        ensures { Answers L.start me.old result me.new (λ c r d. IfOk r (λ s. s ≡ recent (facts_of c) version) × (d ≡ c)) no_place }
    {
        let locked = self.enter(rt);
        locked.check_front(me)?;
        through(locked.schema(me, version))
    }

    /// The pairs of these keys, as `World::read` gives them.
    ///
    /// Refused in this order: `WentBack` if the log is shorter than the handle's front; `World`
    /// with what `World::read` refuses.
    #[tactic(auto, using(crate::proofs::Through::answers))]
    pub fn read(
        &self,
        rt: &impl Wait,
        alloc: Global,
        me: &mut Handle<L>,
        keys: &ReadSet,
    ) -> Result<ReadView, SharedFault<AllocError>>
        ensures { Answers L.start me.old result me.new (λ c r d. IfOk r (λ view. IsReadView c keys.now view) × (d ≡ c)) no_place }
    {
        let locked = self.enter(rt);
        locked.check_front(me)?;
        through(locked.read(alloc, me, keys))
    }

    /// Commits a prepared transaction, as `World::commit` does.
    ///
    /// Refused in this order: `WentBack` if the log is shorter than the handle's front; `World`
    /// with what `World::commit` refuses. What was prepared comes back with each refusal.
    #[tactic(auto, using(crate::proofs::Through::answers_back))]
    pub fn commit(
        &self,
        rt: &impl Wait,
        alloc: Global,
        me: &mut Handle<L>,
        moment: u64,
        prepared: Prepared,
    ) -> Result<Committed, (SharedFault<CommitFault>, Prepared)>
        ensures { AnswersBack L.start me.old prepared result me.new (λ c r d. CommitStep c moment prepared r d) commit_place }
    {
        let mut locked = self.enter(rt);
        if let Err(WentBack { seen }) = locked.check_front(me) {
            return Err((SharedFault::WentBack { seen }, prepared));
        }
        let answer = locked.commit(alloc, me, moment, &prepared);
        // what was prepared is let go outside of the lock
        drop(locked);
        with_prepared(answer, prepared)
    }

    /// The rows that a query asks for, as `World::query` gives them.
    ///
    /// Refused in this order: `WentBack` if the log is shorter than the handle's front; `World`
    /// with what `World::query` refuses.
    #[tactic(auto, using(crate::proofs::Through::answers))]
    pub fn query(
        &self,
        rt: &impl Wait,
        alloc: Global,
        me: &mut Handle<L>,
        moment: u64,
        lease: &Lease,
        query: &Query,
    ) -> Result<List<Row>, SharedFault<QueryRefusal>>
        ensures { Answers L.start me.old result me.new (λ c r d. QueryStep c moment lease.now query.now r × (d ≡ c)) no_place }
    {
        let locked = self.enter(rt);
        locked.check_front(me)?;
        through(locked.query(alloc, me, moment, lease, query))
    }

    /// A snapshot of what is committed, as `World::snapshot` gives it. It is an owner of its own:
    /// it outlives the critical section, and its queries take no lock.
    ///
    /// Refused in this order: `WentBack` if the log is shorter than the handle's front; `World`
    /// with what `World::snapshot` refuses.
    #[tactic(auto, using(crate::proofs::Through::answers))]
    pub fn snapshot(
        &self,
        rt: &impl Wait,
        me: &mut Handle<L>,
        moment: u64,
        lease: &Lease,
    ) -> Result<Snapshot, SharedFault<SnapshotFault>>
        ensures { Answers L.start me.old result me.new (λ c r d. SnapshotStep c moment lease.now r × (d ≡ c)) no_place }
    {
        let locked = self.enter(rt);
        locked.check_front(me)?;
        through(locked.snapshot(me, moment, lease))
    }

    /// Publishes the version that a step gives, as `World::publish` does.
    ///
    /// Refused in this order: `WentBack` if the log is shorter than the handle's front; `World`
    /// with what `World::publish` refuses.
    #[tactic(auto, using(crate::proofs::Through::answers))]
    pub fn publish(
        &self,
        rt: &impl Wait,
        alloc: Global,
        me: &mut Handle<L>,
        moment: u64,
        step: &Step,
    ) -> Result<(u64, Receipt), SharedFault<PublishFault>>
        ensures { Answers L.start me.old result me.new (λ c r d. PublishStep c moment step.now r d) publish_place }
    {
        let mut locked = self.enter(rt);
        locked.check_front(me)?;
        through(locked.publish(alloc, me, moment, step))
    }

    /// Begins a reorganisation, as `World::begin_reorg` does.
    ///
    /// Refused in this order: `WentBack` if the log is shorter than the handle's front; `World`
    /// with what `World::begin_reorg` refuses.
    #[tactic(auto, using(crate::proofs::Through::answers))]
    pub fn begin_reorg(
        &self,
        rt: &impl Wait,
        alloc: Global,
        me: &mut Handle<L>,
        moment: u64,
        element: u32,
        pieces: u32,
    ) -> Result<Receipt, SharedFault<BeginFault>>
        ensures { Answers L.start me.old result me.new (λ c r d. BeginStep c moment element pieces r d) receipt_place }
    {
        let mut locked = self.enter(rt);
        locked.check_front(me)?;
        through(locked.begin_reorg(alloc, me, moment, element, pieces))
    }

    /// What is due at a moment, as `rollout::due` tells it of the world.
    ///
    /// Refused in this order: `WentBack` if the log is shorter than the handle's front; `World`
    /// when out of memory.
    #[tactic(auto, using(crate::proofs::Through::answers))]
    pub fn due(
        &self,
        rt: &impl Wait,
        alloc: Global,
        me: &mut Handle<L>,
        moment: u64,
    ) -> Result<Act, SharedFault<AllocError>>
        ensures { Answers L.start me.old result me.new (λ c r d. IfOk r (λ act. IsDue (facts_of c) (effective_moment c moment) act) × (d ≡ c)) no_place }
    {
        let locked = self.enter(rt);
        locked.check_front(me)?;
        through(locked.due(alloc, me, moment))
    }

    /// The checkpoint of the world, as `World::checkpoint` makes it. The pairs are shared, and none
    /// is copied.
    ///
    /// Refused in this order: `WentBack` if the log is shorter than the handle's front; `World`
    /// when out of memory.
    #[tactic(auto, using(crate::proofs::Through::answers))]
    pub fn checkpoint(
        &self,
        rt: &impl Wait,
        me: &mut Handle<L>,
    ) -> Result<Checkpoint, SharedFault<AllocError>>
        ensures { Answers L.start me.old result me.new (λ c r d. IfOk r (λ cp. cp ≡ checkpoint_of (entry_count c) (facts_of c)) × (d ≡ c)) no_place }
    {
        let locked = self.enter(rt);
        locked.check_front(me)?;
        through(locked.checkpoint(me))
    }

    /// How the begun reorganisation of an element stands, as `World::progress` tells it. Refused
    /// with `WentBack` alone, if the log is shorter than the handle's front.
    #[tactic(auto, using(crate::proofs::Through::finds))]
    pub fn progress(
        &self,
        rt: &impl Wait,
        me: &mut Handle<L>,
        element: u32,
    ) -> Result<Option<(Work, usize, bool)>, WentBack>
        ensures { Finds L.start me.old result me.new (λ c x. x ≡ standing_at (facts_of c) element) }
    {
        let locked = self.enter(rt);
        locked.check_front(me)?;
        Ok(locked.progress(me, element))
    }

    /// How one piece of the begun reorganisation of an element stands, as `World::piece_progress`
    /// tells it. Refused with `WentBack` alone, if the log is shorter than the handle's front.
    #[tactic(auto, using(crate::proofs::Through::finds))]
    pub fn piece_progress(
        &self,
        rt: &impl Wait,
        me: &mut Handle<L>,
        element: u32,
        piece: u32,
    ) -> Result<Option<(Work, bool)>, WentBack>
        ensures { Finds L.start me.old result me.new (λ c x. x ≡ piece_standing_at (facts_of c) element piece) }
    {
        let locked = self.enter(rt);
        locked.check_front(me)?;
        Ok(locked.piece_progress(me, element, piece))
    }

    /// Reads the next items of a piece, as `World::read_piece` does.
    ///
    /// Refused in this order: `WentBack` if the log is shorter than the handle's front; `World`
    /// with what `World::read_piece` refuses.
    #[tactic(auto, using(crate::proofs::Through::answers))]
    pub fn read_piece(
        &self,
        rt: &impl Wait,
        alloc: Global,
        me: &mut Handle<L>,
        element: u32,
        piece: u32,
        limit: u32,
    ) -> Result<PieceView, SharedFault<ReadFault>>
        ensures { Answers L.start me.old result me.new (λ c r d. ReadStep c element piece limit r × (d ≡ c)) no_place }
    {
        let locked = self.enter(rt);
        locked.check_front(me)?;
        through(locked.read_piece(alloc, me, element, piece, limit))
    }

    /// Reads the next items of the first piece that has not ended, as `piece_work::next_view` does.
    ///
    /// Refused in this order: `WentBack` if the log is shorter than the handle's front; `World`
    /// with what `piece_work::next_view` refuses.
    #[tactic(auto, using(crate::proofs::Through::answers))]
    pub fn next_view(
        &self,
        rt: &impl Wait,
        alloc: Global,
        me: &mut Handle<L>,
        element: u32,
        limit: u32,
    ) -> Result<Option<PieceView>, SharedFault<ReadFault>>
        ensures { Answers L.start me.old result me.new (λ c r d. NextStep c element limit r × (d ≡ c)) no_place }
    {
        let locked = self.enter(rt);
        locked.check_front(me)?;
        through(locked.next_view(alloc, me, element, limit))
    }

    /// Commits a prepared piece, as `World::commit_piece` does.
    ///
    /// Refused in this order: `WentBack` if the log is shorter than the handle's front; `World`
    /// with what `World::commit_piece` refuses. What was prepared comes back with each refusal.
    #[tactic(auto, using(crate::proofs::Through::answers_back))]
    pub fn commit_piece(
        &self,
        rt: &impl Wait,
        alloc: Global,
        me: &mut Handle<L>,
        moment: u64,
        prepared: PreparedPiece,
    ) -> Result<PieceDone, (SharedFault<PieceFault>, PreparedPiece)>
        ensures { AnswersBack L.start me.old prepared result me.new (λ c r d. PieceStep c moment prepared r d) piece_place }
    {
        let mut locked = self.enter(rt);
        if let Err(WentBack { seen }) = locked.check_front(me) {
            return Err((SharedFault::WentBack { seen }, prepared));
        }
        through_back(locked.commit_piece(alloc, me, moment, prepared))
    }

    /// Audits the pairs by the newest version, as `World::check` does.
    ///
    /// Refused in this order: `WentBack` if the log is shorter than the handle's front; `World`
    /// with what `World::check` refuses.
    #[tactic(auto, using(crate::proofs::Through::answers))]
    pub fn check(
        &self,
        rt: &impl Wait,
        alloc: Global,
        me: &mut Handle<L>,
    ) -> Result<CheckReport, SharedFault<AllocError>>
        ensures { Answers L.start me.old result me.new (λ c r d. IfOk r (λ report. IsCheck c report) × (d ≡ c)) no_place }
    {
        let locked = self.enter(rt);
        locked.check_front(me)?;
        through(locked.check(alloc, me))
    }
}
