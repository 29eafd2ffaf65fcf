//! A world with rows, in which the fill of an index has begun, and the step that turns the index
//! back.

use crate::one_request::{Stubborn, outcome_of, port};
use crate::table::{insert, named, opened};
use collections::List;
use schema_version::{ElementState, Kind, Move, NewElement, Step};
use server::Outcome;
use server::world::World;
use std::alloc::{AllocError, Global};

// add index i on t (a): element 2, since 1 is the column
fn entering(alloc: Global) -> Result<Step, AllocError> {
    let fresh = NewElement {
        table: 1,
        name: named(alloc, "i")?,
        kind: Kind::Index(List::new(vec![in alloc; 1u32]?)),
    };
    let to = ElementState::DeleteOnly;
    Ok(List::new(vec![in alloc; Move::Enter { fresh, to }]?))
}

// move t.i to write_only
fn writing(alloc: Global) -> Result<Step, AllocError> {
    let to = ElementState::WriteOnly;
    Ok(List::new(vec![in alloc; Move::Go { element: 2, to }]?))
}

/// move t.i to delete_only
pub(crate) fn dropping(alloc: Global) -> Result<Step, AllocError> {
    let to = ElementState::DeleteOnly;
    Ok(List::new(vec![in alloc; Move::Go { element: 2, to }]?))
}

/// turn t.i
pub(crate) fn turning(alloc: Global) -> Result<Step, AllocError> {
    Ok(List::new(vec![in alloc; Move::Turn { element: 2 }]?))
}

// Whether a row is inserted.
fn is_inserted(alloc: Global, port: &mut Stubborn, id: i64) -> bool {
    let Ok(request) = insert(alloc, id) else {
        return false;
    };
    let outcome = outcome_of(alloc, port, &request, 1);
    drop(request);
    let is_done = matches!(&outcome, Some(Outcome::Done(_)));
    drop(outcome);
    is_done
}

// A world with the rows from 0 on, each after a lease of its own.
fn with_rows(alloc: Global, rows: i64) -> Option<World> {
    let mut port = port(alloc, opened(alloc).ok()?, &[]);
    for id in 0..rows {
        if !is_inserted(alloc, &mut port, id) {
            return None;
        }
    }
    Some(port.into_world())
}

// Whether a step is published.
fn is_published(
    alloc: Global,
    world: &mut World,
    moment: u64,
    step: Result<Step, AllocError>,
) -> bool {
    match step {
        Ok(step) => world.publish(alloc, moment, &step).is_ok(),
        Err(AllocError) => false,
    }
}

// Whether the index enters, and its fill begins in so many pieces.
fn begins(alloc: Global, world: &mut World, pieces: u32) -> bool {
    is_published(alloc, world, 10, entering(alloc))
        && is_published(alloc, world, 20, writing(alloc))
        && world.begin_reorg(alloc, 30, 2, pieces).is_ok()
}

/// A world with so many rows, whose index i, element 2, is write-only from 20 on and has its fill
/// begun at 30 in so many pieces: two entries for each row and three more.
pub(crate) fn filling(alloc: Global, rows: i64, pieces: u32) -> Option<World> {
    let mut world = with_rows(alloc, rows)?;
    if begins(alloc, &mut world, pieces) {
        Some(world)
    } else {
        None
    }
}
