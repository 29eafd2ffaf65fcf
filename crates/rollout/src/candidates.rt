//! The live elements, searched for what is due.
ghost use Rattle.std.specs.Bool.{Decides};
ghost use Rattle.std.specs.List.{list_any};
ghost use Rattle.std.specs.Prelude.{◌≡◌, ◌<◌, ℕ, IfOk, MatchOption, is_some};
ghost use Rattle.world.specs.State.{facts_of};
ghost use Rattle.rollout.specs.StatePath.{next_state as next_state_of};
ghost use Rattle.rollout.specs.Due.{MayBegin, IsOpen, IsUnderWay, is_ended_at, is_ready_by, move_of, ready_moves as ready_moves_of, AreMovesNow};

use crate::state_path::next_state;
use collections::List;
use schema_version::{ElementDef, ElementState, Move, Step, Work, needed_work};
use std::alloc::{AllocError, Global};
use world::World;

/// Whether the reorganisation of an element has begun and all its pieces have ended.
fn is_ended(world: &World, number: u32) -> bool
    ensures { result ≡ is_ended_at (facts_of world.now) number }
{
    match world.progress(number) {
        Some((_, _, ended)) => ended,
        None => false,
    }
}

/// Whether a move that needs this work may be made.
fn is_ready(work: Option<Work>, ended: bool) -> bool
    ensures { result ≡ is_ready_by work ended }
{
    match work {
        None => true,
        Some(_) => ended,
    }
}

/// The move of an element along its way, if it needs no work or the work is finished.
fn ready_move(world: &World, element: &ElementDef) -> Option<Move>
    ensures { result ≡ move_of (facts_of world.now) element.now }
{
    let to = next_state(element)?;
    if is_ready(
        needed_work(&element.kind, to),
        is_ended(world, element.number),
    ) {
        Some(Move::Go {
            element: element.number,
            to,
        })
    } else {
        None
    }
}

/// The moves of all elements that are ready, by rising number.
fn ready_moves(alloc: Global, world: &World) -> Result<Vec<Move>, AllocError>
    ensures { IfOk result (λ moves. moves.items ≡ ready_moves_of (facts_of world.now)) }
{
    world
        .newest()
        .get()
        .elements()
        .iter()
        .filter_map(|e| ready_move(world, e))
        .collect(alloc)
}

/// The step of these moves, if a version may be published now; else an empty one.
pub(crate) fn ready_step(alloc: Global, world: &World, now: u64) -> Result<Step, AllocError>
    ensures { IfOk result (λ step. AreMovesNow (facts_of world.now) now step) }
{
    if now < world.timeline().earliest() {
        return Ok(List::new(Vec::new(alloc)));
    }
    Ok(List::new(ready_moves(alloc, world)?))
}

/// Whether the fill or the clear of an element may begin.
fn may_begin(world: &World, now: u64, number: u32) -> bool
    ensures { Decides result (MayBegin (facts_of world.now) now number) }
{
    let Some(element) = world.newest().get().element(number) else {
        return false;
    };
    element.wanted_work().is_some()
        && world.progress(number).is_none()
        && world.is_settled(now, number)
}

/// The element of the lowest number whose fill or clear may begin, if there is one.
pub(crate) fn find_begin(world: &World, now: u64) -> Option<u32>
    ensures { MatchOption result ((number : ℕ) → ¬ (MayBegin (facts_of world.now) now number)) (λ number. MayBegin (facts_of world.now) now number × ((other : ℕ) → other < number → ¬ (MayBegin (facts_of world.now) now other))) }
{
    let schema = world.newest().get();
    schema.lemma_known();
    for element in schema.elements() {
        if may_begin(world, now, element.number) {
            return Some(element.number);
        }
    }
    None
}

/// Whether the fill or the clear of an element has begun and is not finished.
fn is_open(world: &World, number: u32) -> bool
    ensures { Decides result (IsOpen (facts_of world.now) number) }
{
    let Some(_) = world.newest().get().element(number) else {
        return false;
    };
    match world.progress(number) {
        Some((_, _, ended)) => !ended,
        None => false,
    }
}

/// The element of the lowest number whose fill or clear has begun and is not finished, if there is
/// one.
pub(crate) fn find_open(world: &World) -> Option<u32>
    ensures { MatchOption result ((number : ℕ) → ¬ (IsOpen (facts_of world.now) number)) (λ number. IsOpen (facts_of world.now) number × ((other : ℕ) → other < number → ¬ (IsOpen (facts_of world.now) other))) }
{
    let schema = world.newest().get();
    schema.lemma_known();
    for element in schema.elements() {
        if is_open(world, element.number) {
            return Some(element.number);
        }
    }
    None
}

/// Whether one of these has a state to go to.
fn is_any_moving(elements: &[ElementDef]) -> bool
    ensures { result ≡ list_any (λ e. is_some (next_state_of e)) elements.now }
{
    elements.iter().any(|e| next_state(e).is_some())
}

/// Whether the change of some element is under way.
pub(crate) fn is_under_way(world: &World) -> bool
    ensures { Decides result ((number : ℕ) × IsUnderWay (facts_of world.now) number) }
{
    let schema = world.newest().get();
    schema.lemma_known();
    is_any_moving(schema.elements())
}
