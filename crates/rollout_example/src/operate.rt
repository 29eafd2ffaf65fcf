//! The operator: it does what is due, and reports each act.

use crate::table::{BEGIN, name_of};
use replay::What;
use schema_version::{ElementState, Move};
use shared_rollout::advance;
use shared_rollout::locked_store::{Handle, Shared, SharedLedger};
use shared_rollout::rollout::Advanced;
use shared_rollout::world::Receipt;
use std::alloc::Global;
use std::sync::Wait;

/// In how many pieces a fill or a clear begins.
const PIECES: u32 = 8;

/// How many items of a piece are worked at most.
const LIMIT: u32 = 100;

/// How often the servers may be first.
const TRIES: u32 = 1_000;

/// More acts than the example takes.
const MOST_ACTS: u32 = 100_000;

fn state_name(state: ElementState) -> &'static str {
    match state {
        ElementState::Absent => "absent",
        ElementState::DeleteOnly => "delete_only",
        ElementState::WriteOnly => "write_only",
        ElementState::Public => "public",
    }
}

// What one move does, after the others of its step.
fn report_move(out: &mut String, mark: &str, moved: &Move) -> Option<()> {
    match moved {
        Move::Enter { fresh, to } => {
            let state = state_name(*to);
            write!(out, "{mark} people.{} {state}", fresh.name.as_str()).ok()
        }
        Move::Go { element, to } => {
            let (name, state) = (name_of(*element), state_name(*to));
            write!(out, "{mark} {name} {state}").ok()
        }
        Move::Turn { element } => write!(out, "{mark} {} turns", name_of(*element)).ok(),
    }
}

/// Reports a publication, by its receipt.
pub(crate) fn report_step(out: &mut String, version: u64, receipt: &Receipt) -> Option<()> {
    let moment = receipt.entry.moment;
    write!(out, "at {moment} published version {version}").ok()?;
    if let What::Publish(step) = receipt.entry.what.get() {
        let mut mark = ":";
        for moved in step.as_slice() {
            report_move(out, mark, moved)?;
            mark = ",";
        }
    }
    out.push_str("\n").ok()
}

// How far the work on an element is: the element, and how many of its pieces have ended.
type Work = (u32, u32);

// Reports that a piece ended, and counts it.
fn report_piece(out: &mut String, work: &mut Work, element: u32) -> Option<()> {
    let ended = if work.0 == element { work.1 } else { 0 };
    *work = (element, ended.saturating_add(1));
    write!(out, "{}: {} of {PIECES} pieces\n", name_of(element), work.1).ok()
}

// Reports what was done, and gives the moment of the next act; none if no change is under way.
fn report_act(
    out: &mut String,
    work: &mut Work,
    moment: u64,
    done: &Advanced,
) -> Option<Option<u64>> {
    match done {
        Advanced::Began { element, .. } => {
            write!(out, "at {moment} began the work on {}\n", name_of(*element)).ok()?;
        }
        Advanced::Published { version, receipt } => report_step(out, *version, receipt)?,
        Advanced::Worked { element, done } => {
            if done.ended {
                report_piece(out, work, *element)?;
            }
        }
        Advanced::Waiting { until } => return Some(Some(*until)),
        Advanced::Finished => return Some(None),
    }
    Some(Some(moment))
}

/// Carries all changes to their end; `None` if an act was refused or could not be reported.
pub(crate) fn operate<L: SharedLedger, R: Wait>(
    rt: &R,
    alloc: Global,
    shared: &Shared<L>,
    me: Handle<L>,
    out: &mut String,
) -> Option<Handle<L>> {
    let mut me = me;
    let mut moment = BEGIN;
    let mut work = (0, 0);
    for _act in 0..MOST_ACTS {
        let done = advance(rt, alloc, shared, &mut me, moment, PIECES, LIMIT, TRIES).ok()?;
        match report_act(out, &mut work, moment, &done)? {
            Some(next) => moment = next,
            None => return Some(me),
        }
    }
    None
}
