//! The index is added, step by step, while servers write.

use crate::bar::Bar;
use crate::fault::LoadFault;
use crate::index_step::IndexStep;
use crate::meter::Meter;
use crate::table::{INDEX, index_step, state_step};
use collections::List;
use command_line::LoadSize;
use reorganise_workers::{PieceEnd, ReorganiseFault, Reorganised, reorganise_all};
use schema_version::{ElementState, Step};
use server::locked_store::{Handle, Shared, SharedFault, SharedLedger};
use server::world::{BeginFault, GrantFault, PublishFault, Receipt};
use std::alloc::Global;
use std::sync::Wait;
use std::thread::Threads;
use std::time::Clock;

/// What became of the index, and all that it was added with.
#[derive(Drop)]
pub(crate) struct Added<L: SharedLedger> {
    /// The handle of the steps.
    pub(crate) me: Handle<L>,
    /// The handles of the workers.
    pub(crate) fill_handles: Vec<Handle<L>>,
    /// The receipts of the steps.
    pub(crate) receipts: Vec<Receipt>,
    /// The receipts of the pieces.
    pub(crate) pieces: Vec<List<Receipt>>,
    /// Whether all went well; after a step that did not the later ones are left out.
    pub(crate) outcome: Result<(), LoadFault>,
}

// A lease at this moment.
fn lease<L: SharedLedger, R: Wait>(
    rt: &R,
    alloc: Global,
    shared: &Shared<L>,
    me: &mut Handle<L>,
    moment: u64,
) -> Result<Receipt, LoadFault> {
    match shared.lease(rt, alloc, me, moment) {
        Ok(grant) => Ok(grant.receipt),
        Err(SharedFault::World(GrantFault::Memory)) => Err(LoadFault::Memory),
        Err(_) => Err(LoadFault::Refused),
    }
}

// A version published by this step at this moment; its number comes back with the receipt.
fn publish<L: SharedLedger, R: Wait>(
    rt: &R,
    alloc: Global,
    shared: &Shared<L>,
    me: &mut Handle<L>,
    moment: u64,
    step: &Step,
) -> Result<(u64, Receipt), LoadFault> {
    match shared.publish(rt, alloc, me, moment, step) {
        Ok(published) => Ok(published),
        Err(SharedFault::World(PublishFault::Memory)) => Err(LoadFault::Memory),
        Err(_) => Err(LoadFault::Refused),
    }
}

// The fill begins.
fn begin<L: SharedLedger, R: Wait>(
    rt: &R,
    alloc: Global,
    shared: &Shared<L>,
    me: &mut Handle<L>,
    moment: u64,
    pieces: u32,
) -> Result<Receipt, LoadFault> {
    match shared.begin_reorg(rt, alloc, me, moment, INDEX, pieces) {
        Ok(receipt) => Ok(receipt),
        Err(SharedFault::World(BeginFault::Memory)) => Err(LoadFault::Memory),
        Err(_) => Err(LoadFault::Refused),
    }
}

// The steps before the fill: how many eighths of the rows are due then, and the moment of the lease
// that is taken before it.
const FIRST_STEPS: [(u64, u64, IndexStep); 3] = [
    (2, 9, IndexStep::Enter),
    (3, 19, IndexStep::Write),
    (4, 29, IndexStep::Begin),
];

// The number of the write at which a step is due.
fn number_at(eighths: u64, rows: u32) -> usize {
    (u64::from(rows).saturating_mul(eighths) / 8) as usize
}

// One step that is not the fill: the version that it publishes, 0 if it publishes none, and its
// receipt.
fn perform<L: SharedLedger, R: Wait>(
    rt: &R,
    alloc: Global,
    shared: &Shared<L>,
    me: &mut Handle<L>,
    step: IndexStep,
    pieces: u32,
) -> Result<(u64, Receipt), LoadFault> {
    let moment = step.moment();
    let moves = match step {
        IndexStep::Enter => index_step(alloc)?,
        IndexStep::Write => state_step(alloc, ElementState::WriteOnly)?,
        IndexStep::Open => state_step(alloc, ElementState::Public)?,
        IndexStep::Begin | IndexStep::Fill => {
            return Ok((0, begin(rt, alloc, shared, me, moment, pieces)?));
        }
    };
    publish(rt, alloc, shared, me, moment, &moves)
}

// One step that is not the fill, whose receipt is kept and whose time is noted.
fn perform_noted<L: SharedLedger, R: Wait + Clock>(
    rt: &R,
    alloc: Global,
    shared: &Shared<L>,
    me: &mut Handle<L>,
    step: IndexStep,
    pieces: u32,
    meter: &Meter,
    receipts: &mut Vec<Receipt>,
) -> Result<(), LoadFault> {
    let (version, receipt) = perform(rt, alloc, shared, me, step, pieces)?;
    meter.note_step(rt, step, version);
    Ok(receipts.push(receipt)?)
}

// The steps up to the begin of the fill, each when it is due.
fn enter<L: SharedLedger, R: Wait + Clock>(
    rt: &R,
    alloc: Global,
    shared: &Shared<L>,
    me: &mut Handle<L>,
    size: LoadSize,
    meter: &Meter,
    receipts: &mut Vec<Receipt>,
) -> Result<(), LoadFault> {
    for (eighths, before, step) in FIRST_STEPS {
        meter.wait_until_due(rt, number_at(eighths, size.rows));
        receipts.push(lease(rt, alloc, shared, me, before)?)?;
        perform_noted(rt, alloc, shared, me, step, size.pieces, meter, receipts)?;
    }
    Ok(())
}

// The index goes public, now that its fill is finished.
fn open_up<L: SharedLedger, R: Wait + Clock>(
    rt: &R,
    alloc: Global,
    shared: &Shared<L>,
    me: &mut Handle<L>,
    size: LoadSize,
    meter: &Meter,
    receipts: &mut Vec<Receipt>,
) -> Result<(), LoadFault> {
    meter.note_step(rt, IndexStep::Fill, 0);
    let step = IndexStep::Open;
    perform_noted(rt, alloc, shared, me, step, size.pieces, meter, receipts)
}

// Whether every piece is finished.
fn check_finished(ends: &[(usize, PieceEnd)]) -> Result<(), LoadFault> {
    let mut outcome = Ok(());
    for (_, end) in ends {
        match end {
            PieceEnd::Finished => {}
            PieceEnd::Memory => return Err(LoadFault::Memory),
            _ => outcome = Err(LoadFault::Refused),
        }
    }
    outcome
}

// All pieces of the fill, run to its end by the workers.
fn fill<L: SharedLedger + Send + Sync, R: Threads + Wait + Eprint + Sync>(
    rt: &R,
    alloc: Global,
    shared: &Shared<L>,
    fill_handles: Vec<Handle<L>>,
    size: LoadSize,
    is_shown: bool,
) -> (Vec<Handle<L>>, Vec<List<Receipt>>, Result<(), LoadFault>) {
    let (limit, tries) = (size.limit, size.rows.saturating_add(1));
    let bar = Bar {
        rt,
        what: "pieces",
        total: size.pieces,
        is_shown,
    };
    match reorganise_all(
        rt,
        alloc,
        shared,
        fill_handles,
        30,
        INDEX,
        limit,
        tries,
        &bar,
    ) {
        Ok(
            Reorganised {
                ends,
                handles,
                receipts,
            },
        ) => {
            let outcome = check_finished(ends.as_slice());
            (handles, receipts, outcome)
        }
        Err((ReorganiseFault::Memory, handles)) => {
            (handles, Vec::new(alloc), Err(LoadFault::Memory))
        }
        Err((_, handles)) => (handles, Vec::new(alloc), Err(LoadFault::Refused)),
    }
}

/// Adds the index while others write, each step when it is due.
pub(crate) fn add_index<L: SharedLedger + Send + Sync, R: Threads + Wait + Eprint + Clock + Sync>(
    rt: &R,
    alloc: Global,
    shared: &Shared<L>,
    me: Handle<L>,
    fill_handles: Vec<Handle<L>>,
    size: LoadSize,
    is_shown: bool,
    meter: &Meter,
) -> Added<L> {
    let mut me = me;
    let mut receipts = Vec::new(alloc);
    let (fill_handles, pieces, filled) = match enter(
        rt,
        alloc,
        shared,
        &mut me,
        size,
        meter,
        &mut receipts,
    ) {
        Ok(()) => fill(rt, alloc, shared, fill_handles, size, is_shown),
        Err(fault) => (fill_handles, Vec::new(alloc), Err(fault)),
    };
    let outcome = match filled {
        Ok(()) => open_up(rt, alloc, shared, &mut me, size, meter, &mut receipts),
        Err(fault) => Err(fault),
    };
    Added {
        me,
        fill_handles,
        receipts,
        pieces,
        outcome,
    }
}
