//! What lies behind the lock, and the calls of one critical section: each is one call of the world.
ghost use Rattle.std.specs.Prelude.{◌≡◌, ◌+◌, ◌<◌, ◌≤◌, length, IfOk, IfErr, None, OnOk, option_map};
ghost use Rattle.locked_store.specs.Answers.{Counts, Takes, TakesBack, TakesOut, Found, no_place, grant_place, commit_place, publish_place, receipt_place, piece_place};
ghost use Rattle.locked_store.specs.Cores.{IsCore, WasLength};
ghost use Rattle.rollout.specs.BeginReorg.{BeginStep};
ghost use Rattle.rollout.specs.WorkOff.{NextStep};
ghost use Rattle.rollout.specs.Due.{IsDue};
ghost use Rattle.rollout.specs.Calls.{LeaseStep, CommitStep, given_back, IsReadView, IsCheck, effective_moment};
ghost use Rattle.rollout.specs.Piece.{PieceStep, ReadStep, standing_at, piece_standing_at};
ghost use Rattle.rollout.specs.Publish.{PublishStep};
ghost use Rattle.rollout.specs.Query.{QueryStep};
ghost use Rattle.rollout.specs.Snapshot.{SnapshotStep};
ghost use Rattle.checkpoint.specs.Checkpoint.{checkpoint_of};
ghost use Rattle.rollout.specs.State.{cut_here, entries_before, entries_kept, entry_count, facts_of, recent};

use crate::counted::{commit_counted, log_len, piece_counted};
use crate::fault::WentBack;
use crate::handle::Handle;
use crate::rights::Books;
use crate::shared_ledger::SharedLedger;
use collections::{ArcValue, List};
use lease::Lease;
use reorganise::{PieceView, PreparedPiece, Work};
use rollout::piece_work::next_view;
use rollout::world::{
    BeginFault, CheckReport, Checkpoint, CommitFault, Committed, Entry, Grant, GrantFault,
    PieceDone, PieceFault, PublishFault, QueryRefusal, ReadFault, Receipt, Snapshot, SnapshotFault,
    World,
};
use rollout::{Act, due};
use row_map::{ReadSet, ReadView, Row};
use row_query::Query;
use row_write::Prepared;
use schema_version::{Schema, Step};
use std::alloc::{AllocError, Global};
use std::marker::Model;

/// The world, how many handles it has, and how many entries its calls added since it was shared.
/// Contracts see it as the state of the world.
///
/// Whenever the lock is free, the pairs are the replay of the log and agree with the rows for every
/// version that a lease may still use, and the handles' shares add up to the entries that were
/// added, and to those that were taken out of the log, which begins where they end.
#[derive(Drop)]
pub(crate) struct Locked<L: SharedLedger> {
    pub(crate) world: World,
    /// How many handles there are.
    pub(crate) handles: u64,
    pub(crate) added: u64,
    pub(crate) books: Books<L>,
}

impl<L: SharedLedger> Model for Locked<L> {
    ghost use Rattle.std.specs.Prelude.{◌≡◌, ◌+◌, ◌<◌};
    ghost use Rattle.rollout.specs.State.{State, entries_before, entry_count};
    ghost use Rattle.rollout.specs.Code.{state_code};
    ghost use Rattle.locked_store.specs.Cores.{IsCore};

    ghost Value = { State };

    ghost coded = { state_code };

    ghost view = { λ l. l.world };

    ghost invariant = { λ l. IsCore L.start l.world × (entry_count l.world ≡ entry_count L.start + l.added) × (l.books.added.total ≡ l.added) × (L.handles ≡ L.parts) × (entries_before l.world ≡ entries_before L.start + l.books.taken.total) × (l.books.cut.at ≡ entries_before l.world) × (l.books.cut.name ≡ L.cut_name) × (l.handles ≡ L.handles) × (0 < l.handles) };
}

// An owner more of a schema.
fn same(schema: Option<&ArcValue<Schema>>) -> Result<Option<ArcValue<Schema>>, AllocError>
    ensures { IfOk result (λ s. s ≡ option_map (λ r. r.now) schema.entry) }
{
    match schema {
        Some(schema) => Ok(Some(schema.clone()?)),
        None => Ok(None),
    }
}

impl<L: SharedLedger> Locked<L> {
    // Refuses if the log is shorter than the handle's front.
    pub(crate) fn check_front(&self, me: &Handle<L>) -> Result<(), WentBack>
        ensures ok { OnOk result (me.now.front ≤ entry_count self.now) }
        ensures back { IfErr result (λ back. (back.seen < me.now.front) × WasLength L.start back.seen) }
    {
        let seen = log_len(&self.world);
        if seen < me.front {
            return Err(WentBack { seen });
        }
        Ok(())
    }

    // Tells that the world is a core.
    fn lemma_is_core(&self)
        ensures { IsCore L.start self.now }
    {
        let _world = &self.world;
    }

    // Moves the front to the length of the log.
    fn look(&self, me: &mut Handle<L>)
        ensures core { IsCore L.start self.now }
        ensures front { me.new.front ≡ entry_count self.now }
        ensures same { Counts me.old None me.new }
    {
        me.front = log_len(&self.world);
        self.lemma_is_core();
    }

    #[tactic(auto, using(crate::proofs::Growing::lease, crate::proofs::Growing::lease_before))]
    pub(crate) fn lease(
        &mut self,
        alloc: Global,
        me: &mut Handle<L>,
        moment: u64,
    ) -> Result<Grant, GrantFault>
        requires { me.old.front ≤ entry_count self.old }
        ensures { Takes L.start me.old self.old result self.new me.new (λ c r d. LeaseStep c moment r d) grant_place }
    {
        self.lemma_is_core();
        let Locked {
            world,
            handles: _,
            added,
            books,
        } = self;
        let result = world.lease(alloc, moment);
        let len = log_len(world);
        if result.is_ok() {
            books.added.add(&mut me.rights.added, 1);
            *added += 1;
        }
        me.front = len;
        world.lemma_agrees();
        result
    }

    pub(crate) fn schema(
        &self,
        me: &mut Handle<L>,
        version: u64,
    ) -> Result<Option<ArcValue<Schema>>, AllocError>
        requires { me.old.front ≤ entry_count self.now }
        ensures { Takes L.start me.old self.now result self.now me.new (λ c r d. IfOk r (λ s. s ≡ recent (facts_of c) version) × (d ≡ c)) no_place }
    {
        self.look(me);
        same(self.world.schema(version))
    }

    pub(crate) fn read(
        &self,
        alloc: Global,
        me: &mut Handle<L>,
        keys: &ReadSet,
    ) -> Result<ReadView, AllocError>
        requires { me.old.front ≤ entry_count self.now }
        ensures { Takes L.start me.old self.now result self.now me.new (λ c r d. IfOk r (λ view. IsReadView c keys.now view) × (d ≡ c)) no_place }
    {
        self.look(me);
        self.world.read(alloc, keys)
    }

    pub(crate) fn commit(
        &mut self,
        alloc: Global,
        me: &mut Handle<L>,
        moment: u64,
        prepared: &Prepared,
    ) -> Result<Committed, CommitFault>
        requires { me.old.front ≤ entry_count self.old }
        ensures { TakesBack L.start me.old self.old result self.new me.new (λ c r d. CommitStep c moment prepared.now (given_back prepared.now r) d) commit_place }
    {
        self.lemma_is_core();
        let Locked {
            world,
            handles: _,
            added,
            books,
        } = self;
        let result = commit_counted(alloc, world, added, books, me, moment, prepared);
        world.lemma_agrees();
        result
    }

    pub(crate) fn query(
        &self,
        alloc: Global,
        me: &mut Handle<L>,
        moment: u64,
        lease: &Lease,
        query: &Query,
    ) -> Result<List<Row>, QueryRefusal>
        requires { me.old.front ≤ entry_count self.now }
        ensures { Takes L.start me.old self.now result self.now me.new (λ c r d. QueryStep c moment lease.now query.now r × (d ≡ c)) no_place }
    {
        self.look(me);
        self.world.query(alloc, moment, lease, query)
    }

    pub(crate) fn snapshot(
        &self,
        me: &mut Handle<L>,
        moment: u64,
        lease: &Lease,
    ) -> Result<Snapshot, SnapshotFault>
        requires { me.old.front ≤ entry_count self.now }
        ensures { Takes L.start me.old self.now result self.now me.new (λ c r d. SnapshotStep c moment lease.now r × (d ≡ c)) no_place }
    {
        self.look(me);
        self.world.snapshot(moment, lease)
    }

    #[tactic(auto, using(crate::proofs::Growing::publish, crate::proofs::Growing::publish_before))]
    pub(crate) fn publish(
        &mut self,
        alloc: Global,
        me: &mut Handle<L>,
        moment: u64,
        step: &Step,
    ) -> Result<(u64, Receipt), PublishFault>
        requires { me.old.front ≤ entry_count self.old }
        ensures { Takes L.start me.old self.old result self.new me.new (λ c r d. PublishStep c moment step.now r d) publish_place }
    {
        self.lemma_is_core();
        let Locked {
            world,
            handles: _,
            added,
            books,
        } = self;
        let result = world.publish(alloc, moment, step);
        let len = log_len(world);
        if result.is_ok() {
            books.added.add(&mut me.rights.added, 1);
            *added += 1;
        }
        me.front = len;
        world.lemma_agrees();
        result
    }

    #[tactic(auto, using(crate::proofs::Growing::begin, crate::proofs::Growing::begin_before))]
    pub(crate) fn begin_reorg(
        &mut self,
        alloc: Global,
        me: &mut Handle<L>,
        moment: u64,
        element: u32,
        pieces: u32,
    ) -> Result<Receipt, BeginFault>
        requires { me.old.front ≤ entry_count self.old }
        ensures { Takes L.start me.old self.old result self.new me.new (λ c r d. BeginStep c moment element pieces r d) receipt_place }
    {
        self.lemma_is_core();
        let Locked {
            world,
            handles: _,
            added,
            books,
        } = self;
        let result = world.begin_reorg(alloc, moment, element, pieces);
        let len = log_len(world);
        if result.is_ok() {
            books.added.add(&mut me.rights.added, 1);
            *added += 1;
        }
        me.front = len;
        world.lemma_agrees();
        result
    }

    pub(crate) fn due(
        &self,
        alloc: Global,
        me: &mut Handle<L>,
        moment: u64,
    ) -> Result<Act, AllocError>
        requires { me.old.front ≤ entry_count self.now }
        ensures { Takes L.start me.old self.now result self.now me.new (λ c r d. IfOk r (λ act. IsDue (facts_of c) (effective_moment c moment) act) × (d ≡ c)) no_place }
    {
        self.look(me);
        due(alloc, &self.world, moment)
    }

    pub(crate) fn checkpoint(&self, me: &mut Handle<L>) -> Result<Checkpoint, AllocError>
        requires { me.old.front ≤ entry_count self.now }
        ensures { Takes L.start me.old self.now result self.now me.new (λ c r d. IfOk r (λ cp. cp ≡ checkpoint_of (entry_count c) (facts_of c)) × (d ≡ c)) no_place }
    {
        self.look(me);
        self.world.checkpoint()
    }

    #[tactic(auto, using(crate::proofs::Growing::taken))]
    pub(crate) fn take_log(&mut self, me: &mut Handle<L>) -> (u64, Vec<Entry>)
        requires { me.old.front ≤ entry_count self.old }
        ensures found { TakesOut L.start me.old self.old result me.new (λ c x. (x.0 ≡ entries_before c) × (x.1.items ≡ entries_kept c)) }
        ensures state { self.new ≡ cut_here self.old }
    {
        self.look(me);
        let Locked {
            world,
            handles: _,
            added: _,
            books,
        } = self;
        books.cut.compare(&mut me.cut);
        let start = world.log_start();
        let end = world.log_len();
        let entries = world.take_log();
        books.taken.add(&mut me.rights.taken, entries.len() as u64);
        books.cut.raise(end);
        me.cut = books.cut.reached();
        world.lemma_agrees();
        (start, entries)
    }

    pub(crate) fn progress(&self, me: &mut Handle<L>, element: u32) -> Option<(Work, usize, bool)>
        requires { me.old.front ≤ entry_count self.now }
        ensures { Found L.start me.old self.now result me.new (λ c x. x ≡ standing_at (facts_of c) element) }
    {
        self.look(me);
        self.world.progress(element)
    }

    pub(crate) fn piece_progress(
        &self,
        me: &mut Handle<L>,
        element: u32,
        piece: u32,
    ) -> Option<(Work, bool)>
        requires { me.old.front ≤ entry_count self.now }
        ensures { Found L.start me.old self.now result me.new (λ c x. x ≡ piece_standing_at (facts_of c) element piece) }
    {
        self.look(me);
        self.world.piece_progress(element, piece)
    }

    pub(crate) fn next_view(
        &self,
        alloc: Global,
        me: &mut Handle<L>,
        element: u32,
        limit: u32,
    ) -> Result<Option<PieceView>, ReadFault>
        requires { me.old.front ≤ entry_count self.now }
        ensures { Takes L.start me.old self.now result self.now me.new (λ c r d. NextStep c element limit r × (d ≡ c)) no_place }
    {
        self.look(me);
        next_view(alloc, &self.world, element, limit)
    }

    pub(crate) fn read_piece(
        &self,
        alloc: Global,
        me: &mut Handle<L>,
        element: u32,
        piece: u32,
        limit: u32,
    ) -> Result<PieceView, ReadFault>
        requires { me.old.front ≤ entry_count self.now }
        ensures { Takes L.start me.old self.now result self.now me.new (λ c r d. ReadStep c element piece limit r × (d ≡ c)) no_place }
    {
        self.look(me);
        self.world.read_piece(alloc, element, piece, limit)
    }

    pub(crate) fn commit_piece(
        &mut self,
        alloc: Global,
        me: &mut Handle<L>,
        moment: u64,
        prepared: PreparedPiece,
    ) -> Result<PieceDone, (PieceFault, PreparedPiece)>
        requires { me.old.front ≤ entry_count self.old }
        ensures { TakesBack L.start me.old self.old result self.new me.new (λ c r d. PieceStep c moment prepared r d) piece_place }
    {
        self.lemma_is_core();
        let Locked {
            world,
            handles: _,
            added,
            books,
        } = self;
        let result = piece_counted(alloc, world, added, books, me, moment, prepared);
        world.lemma_agrees();
        result
    }

    pub(crate) fn check(&self, alloc: Global, me: &mut Handle<L>) -> Result<CheckReport, AllocError>
        requires { me.old.front ≤ entry_count self.now }
        ensures { Takes L.start me.old self.now result self.now me.new (λ c r d. IfOk r (λ report. IsCheck c report) × (d ≡ c)) no_place }
    {
        self.look(me);
        self.world.check(alloc)
    }
}
