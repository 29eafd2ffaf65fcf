//! The index that comes and goes.

use crate::fault::SoakFault;
use crate::table::{COLUMN, TABLE, text_of};
use collections::List;
use schema_version::{ElementState, Kind, Move, NewElement, Step};
use shared_rollout::locked_store::{Handle, Shared, SharedFault, SharedLedger};
use shared_rollout::world::PublishFault;
use shared_rollout::{OperatorFault, complete};
use std::alloc::{AllocError, Global};
use std::sync::Wait;

/// In how many pieces the index is filled or cleared.
const PIECES: u32 = 4;

/// How many rows or pairs of a piece are worked at a time.
const LIMIT: u32 = 50;

/// How often the servers may be first at one act: more often than they write in a round.
const TRIES: u32 = 1_000_000;

fn index_on_a(alloc: Global) -> Result<NewElement, AllocError> {
    Ok(NewElement {
        table: TABLE,
        name: text_of(alloc, "i")?,
        kind: Kind::Index(List::new(vec![in alloc; COLUMN]?)),
    })
}

// The step that begins the change of this number: the index i on (a) comes by the even ones, with
// the number after the last, and goes again by the odd ones.
fn first_step(alloc: Global, change: u32) -> Result<Step, AllocError> {
    let begin = if change % 2 == 0 {
        Move::Enter {
            fresh: index_on_a(alloc)?,
            to: ElementState::DeleteOnly,
        }
    } else {
        Move::Go {
            element: COLUMN + 1 + change / 2,
            to: ElementState::WriteOnly,
        }
    };
    Ok(List::new(vec![in alloc; begin]?))
}

/// Makes the change of this number, from its first step at this moment to its end, while others
/// write.
pub(crate) fn change_index<L: SharedLedger, R: Wait>(
    rt: &R,
    alloc: Global,
    shared: &Shared<L>,
    me: &mut Handle<L>,
    change: u32,
    moment: u64,
) -> Result<(), SoakFault> {
    let step = first_step(alloc, change)?;
    match shared.publish(rt, alloc, me, moment, &step) {
        Ok(_) => {}
        Err(SharedFault::World(PublishFault::Memory)) => return Err(SoakFault::Memory),
        Err(_) => return Err(SoakFault::Refused),
    }
    drop(step);
    let mut acts = Vec::new(alloc);
    match complete(
        rt, alloc, shared, me, &mut acts, moment, PIECES, LIMIT, TRIES,
    ) {
        Ok(_) => Ok(()),
        Err(OperatorFault::Memory) => Err(SoakFault::Memory),
        Err(_) => Err(SoakFault::Refused),
    }
}
