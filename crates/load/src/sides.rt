//! The two sides of a load, servers that write and workers that fill, and what came back of both.
use crate::add_index::Added;
use crate::fault::LoadFault;
use crate::settle::{gather, settle_served, worse};
use server::locked_store::{Handle, SharedLedger};
use server::world::Receipt;
use server::{ServeFault, Served};
use std::alloc::Global;
use std::time::Instant;

// What became of both sides, and when each had ended.
#[derive(Drop)]
pub(crate) struct Sides<L: SharedLedger> {
    pub(crate) served: Result<Served<L>, (ServeFault, Vec<Handle<L>>)>,
    pub(crate) added: Added<L>,
    pub(crate) inserted: Option<Instant>,
    pub(crate) filled: Option<Instant>,
}

// What came back of both sides: all handles, all receipts, whether all went well, and when the sides
// had ended.
#[derive(Drop)]
pub(crate) struct Done<L: SharedLedger> {
    pub(crate) handles: Vec<Handle<L>>,
    pub(crate) receipts: Vec<Receipt>,
    pub(crate) outcome: Result<(), LoadFault>,
    pub(crate) inserted: Option<Instant>,
    pub(crate) filled: Option<Instant>,
}

// The first handles for the servers, then one for the steps of the schema, and the last ones for
// the workers.
pub(crate) fn split_handles<L: SharedLedger>(
    alloc: Global,
    handles: &mut Vec<Handle<L>>,
    workers: u32,
) -> Result<(Handle<L>, Vec<Handle<L>>), LoadFault> {
    let mut fill_handles = Vec::new(alloc);
    for _ in 0..workers {
        if let Some(handle) = handles.pop() {
            fill_handles.push(handle)?;
        }
    }
    match handles.pop() {
        Some(me) => Ok((me, fill_handles)),
        None => Err(LoadFault::Refused),
    }
}

// All handles in one list.
fn all_handles<L: SharedLedger>(
    servers: Vec<Handle<L>>,
    me: Handle<L>,
    fill_handles: Vec<Handle<L>>,
) -> Result<Vec<Handle<L>>, LoadFault> {
    let (mut handles, mut fill_handles) = (servers, fill_handles);
    handles.push(me)?;
    handles.append(&mut fill_handles)?;
    Ok(handles)
}

// Both sides put together.
pub(crate) fn join_handles<L: SharedLedger>(sides: Sides<L>) -> Result<Done<L>, LoadFault> {
    let Sides {
        served,
        added,
        inserted,
        filled,
    } = sides;
    let Added {
        me,
        fill_handles,
        mut receipts,
        pieces,
        outcome,
    } = added;
    let (servers, settled) = settle_served(served, &mut receipts);
    let gathered = gather(pieces, &mut receipts);
    Ok(Done {
        handles: all_handles(servers, me, fill_handles)?,
        receipts,
        outcome: worse(worse(settled, gathered), outcome),
        inserted,
        filled,
    })
}
