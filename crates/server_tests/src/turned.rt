//! An index is abandoned while all pieces of its fill are held: none of them is worked on, and the
//! fill is over. So it is also if the index goes on to delete-only meanwhile and its clear has
//! begun: no piece of the clear is worked on either, and a second call finishes it.
ghost use Rattle.std.specs.Prelude.{◌≡◌};

use crate::fills::{dropping, filling, turning};
use collections::List;
use reorganise::Work;
use reorganise_workers::{PieceEnd, Reorganised, reorganise_all};
use schema_version::ElementState::{DeleteOnly, WriteOnly};
use schema_version::Step;
use server::locked_store::{Blanks, Handle, Shared, SharedLedger};
use server::world::{PieceFault, Receipt, World};
use std::alloc::Global;
use std::marker::Brand;
use std::sync::{Mutex, Wait};
use std::thread::Threads;
use tasks::{FreeGate, Gate};

// What is published while the pieces are held: the turn, and if a clear is to begin, the step to
// delete-only.
#[derive(Drop)]
struct Steps {
    turn: Step,
    down: Option<Step>,
}

fn steps_of(alloc: Global, clears: bool) -> Option<Steps> {
    let turn = turning(alloc).ok()?;
    let down = if clears {
        Some(dropping(alloc).ok()?)
    } else {
        None
    };
    Some(Steps { turn, down })
}

// A handle by which they are published, and once they were, the version that the turn gave and the
// place of its entry.
#[derive(Drop)]
struct Turner<L: SharedLedger> {
    me: Handle<L>,
    given: Option<(u64, u64)>,
}

// The index goes to delete-only at 40, and its clear begins at 50 in three pieces.
fn has_begun<L: SharedLedger, R: Wait>(
    rt: &R,
    alloc: Global,
    shared: &Shared<L>,
    me: &mut Handle<L>,
    down: &Step,
) -> bool {
    shared.publish(rt, alloc, me, 40, down).is_ok()
        && shared.begin_reorg(rt, alloc, me, 50, 2, 3).is_ok()
}

// Publishes the turn at 30, and what comes after it, if it was not yet.
fn turn<L: SharedLedger, R: Wait>(
    rt: &R,
    alloc: Global,
    shared: &Shared<L>,
    turner: &mut Turner<L>,
    steps: &Steps,
) {
    if turner.given.is_some() {
        return;
    }
    let given = match shared.publish(rt, alloc, &mut turner.me, 30, &steps.turn) {
        Ok((version, receipt)) => (version, receipt.place),
        Err(_) => return,
    };
    let begun = match &steps.down {
        Some(down) => has_begun(rt, alloc, shared, &mut turner.me, down),
        None => true,
    };
    if begun {
        turner.given = Some(given);
    }
}

// Holds each piece, whoever asks first, until all is published.
#[derive(Drop)]
struct Held<'a, L: SharedLedger, R: Wait> {
    rt: &'a R,
    alloc: Global,
    shared: &'a Shared<L>,
    steps: &'a Steps,
    turner: Mutex<Turner<L>>,
}

impl<'a, L: SharedLedger, R: Wait> Gate for Held<'a, L, R> {
    fn may_start(&self, _number: usize, _turn: u64) -> bool {
        let mut turner = self.turner.lock(self.rt);
        turn(self.rt, self.alloc, self.shared, &mut *turner, self.steps);
        turner.given.is_some()
    }

    fn answered(&self, _number: usize) {}
}

// How a piece ends: after the turn, after the begin of the clear, and of the clear itself.
#[derive(Clone, Copy)]
enum Wanted {
    Unwanted,
    OfAnotherKind,
    Finished,
}

fn is_wanted(end: &PieceEnd, wanted: Wanted) -> bool {
    match (end, wanted) {
        (PieceEnd::Refused(PieceFault::NotWanted), Wanted::Unwanted) => true,
        (PieceEnd::Refused(PieceFault::WrongElement), Wanted::OfAnotherKind) => true,
        (PieceEnd::Finished, Wanted::Finished) => true,
        _ => false,
    }
}

// Each of the three pieces ended so, and both handles together gave so many receipts.
fn are_ended(
    ends: &[(usize, PieceEnd)],
    receipts: &[List<Receipt>],
    wanted: Wanted,
    given: usize,
) -> bool {
    let each = match ends {
        [(one, first), (two, second), (three, third)] => {
            (*one, *two, *three) == (0, 1, 2)
                && is_wanted(first, wanted)
                && is_wanted(second, wanted)
                && is_wanted(third, wanted)
        }
        _ => false,
    };
    match receipts {
        [first, second] => each && first.len().checked_add(second.len()) == Some(given),
        _ => false,
    }
}

// All pieces by two handles through a gate, which both come back if the pieces ended so.
fn worked<L: SharedLedger + Send + Sync, G: Gate + Sync, R: Threads + Wait + Sync>(
    rt: &R,
    alloc: Global,
    shared: &Shared<L>,
    handles: Vec<Handle<L>>,
    gate: &G,
    wanted: (Wanted, usize),
) -> Option<Vec<Handle<L>>> {
    let done = reorganise_all(rt, alloc, shared, handles, 30, 2, 10, 5, gate).ok()?;
    let Reorganised {
        ends,
        handles,
        receipts,
    } = done;
    let is_right = are_ended(ends.as_slice(), receipts.as_slice(), wanted.0, wanted.1);
    drop(ends);
    drop(receipts);
    if is_right && handles.len() == 2 {
        Some(handles)
    } else {
        None
    }
}

// The clear is as it was begun, and then a second call finishes it: one piece has all items, the
// other two had ended at the begin.
fn cleared<L: SharedLedger + Send + Sync, R: Threads + Wait + Sync>(
    rt: &R,
    alloc: Global,
    shared: &Shared<L>,
    me: &mut Handle<L>,
    handles: Vec<Handle<L>>,
) -> Option<Vec<Handle<L>>> {
    if shared.progress(rt, me, 2) != Ok(Some((Work::Clear, 3, false))) || me.front() != 12 {
        return None;
    }
    worked(rt, alloc, shared, handles, &FreeGate, (Wanted::Finished, 1))
}

// The pieces of the fill, held by a gate with the third handle: what the gate had, and the handles.
fn fill_held<'a, L: SharedLedger + Send + Sync, R: Threads + Wait + Sync>(
    rt: &'a R,
    alloc: Global,
    shared: &'a Shared<L>,
    handles: Vec<Handle<L>>,
    me: Handle<L>,
    steps: &'a Steps,
) -> (Turner<L>, Option<Vec<Handle<L>>>) {
    let wanted = if steps.down.is_some() {
        Wanted::OfAnotherKind
    } else {
        Wanted::Unwanted
    };
    let gate = Held {
        rt,
        alloc,
        shared,
        steps,
        turner: Mutex::new(Turner { me, given: None }),
    };
    let handles = worked(rt, alloc, shared, handles, &gate, (wanted, 0));
    let Held {
        rt: _,
        alloc: _,
        shared: _,
        steps: _,
        turner,
    } = gate;
    (turner.into_inner(), handles)
}

// Then the pieces of the clear, if one has begun: all three handles, and what the turn gave.
fn and_back<L: SharedLedger + Send + Sync, R: Threads + Wait + Sync>(
    rt: &R,
    alloc: Global,
    shared: &Shared<L>,
    turner: Turner<L>,
    handles: Option<Vec<Handle<L>>>,
    steps: &Steps,
) -> Option<(Vec<Handle<L>>, Option<(u64, u64)>)> {
    let Turner { mut me, given } = turner;
    let mut handles = handles?;
    if steps.down.is_some() {
        handles = cleared(rt, alloc, shared, &mut me, handles)?;
    }
    handles.push(me).ok()?;
    Some((handles, given))
}

// What the turn gave, and the world, which comes back with all three handles alone.
fn turned<L: SharedLedger + Send + Sync, R: Threads + Wait + Sync>(
    rt: &R,
    alloc: Global,
    blanks: Blanks,
    world: World,
    steps: &Steps,
) -> Option<(World, Option<(u64, u64)>)>
    requires names { (blanks.added.name ≡ L.name) × (blanks.taken.name ≡ L.taken_name) × (blanks.refused.name ≡ L.refused_name) × (blanks.cut.name ≡ L.cut_name) }
    requires parts { (blanks.added.parts ≡ L.parts) × (blanks.taken.parts ≡ L.parts) × (blanks.refused.parts ≡ L.parts) }
    requires picked { (L.handles ≡ 3) × (L.handles ≡ L.parts) × (L.start ≡ world) }
{
    let (shared, mut handles) = Shared::<L>::new(alloc, blanks, world, 3).ok()?;
    let me = handles.pop()?;
    let (turner, handles) = fill_held(rt, alloc, &shared, handles, me, steps);
    let (handles, given) = and_back(rt, alloc, &shared, turner, handles, steps)?;
    Some((shared.close(handles).ok()?, given))
}

// After nine entries and the turn: the fill is forgotten and the index keeps its state; or it is
// delete-only and its clear has ended. All three rows are there, and the index has no pair too
// much.
fn is_left(alloc: Global, world: &World, clears: bool) -> bool {
    let newest = world.newest().get();
    let Ok(found) = world.check(alloc) else {
        return false;
    };
    let how = (
        world.log().len(),
        world.timeline().newest(),
        newest.state(2),
        world.progress(2),
    );
    let wanted = if clears {
        (13, 5, DeleteOnly, Some((Work::Clear, 3, true)))
    } else {
        (10, 4, WriteOnly, None)
    };
    how == wanted && (found.rows, found.missing, found.extra) == (3, 0, 0)
}

fn turns<R: Threads + Wait + Sync>(rt: &R, alloc: Global, clears: bool) -> Option<bool> {
    let steps = steps_of(alloc, clears)?;
    let world = filling(alloc, 3, 3)?;
    let turned = turned::<Brand, R>(rt, alloc, Blanks::new(3), world, &steps);
    drop(steps);
    let (world, given) = turned?;
    Some(given == Some((4, 10)) && is_left(alloc, &world, clears))
}

#[test]
fn a_turn_ends_all_held_pieces(rt: HostRuntime) {
    assert!(rt; turns(&rt, rt.alloc(), false) == Some(true));
}

#[test]
fn a_fill_does_not_work_on_a_clear(rt: HostRuntime) {
    assert!(rt; turns(&rt, rt.alloc(), true) == Some(true));
}
