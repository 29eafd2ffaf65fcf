//! One handle: rows come and go beside a snapshot, and an index enters, is filled and becomes
//! public; then receipts of the log are altered. Each call is asked once more if memory was short.
ghost use Rattle.std.specs.Prelude.{◌≡◌};

use crate::acts::{Act, Kept, acted};
use crate::fixtures::{mark, opened};
use crate::handle_port::{HandlePort, Reported};
use Act::{
    Begin, Cut, Delete, Enter, Find, Go, Insert, Keep, Lease, Look, Piece, Save, Stand, State, Take,
};
use audit::CheckReport;
use reorganise::Work::Fill;
use schema_version::ElementState::{Absent, Public, WriteOnly};
use shared_rollout::locked_store::{
    Blanks, Handle, ReceiptFault, ShareFault, Shared, SharedFault, SharedLedger, reconcile,
};
use shared_rollout::world::{Entry, Receipt, World};
use std::alloc::{AllocError, Global};
use std::marker::Brand;
use std::sync::Wait;

// The length of the log and the number of rows.
type Seen = (u64, u64);

// What is asked in turn, and how many entries and rows there are then, while every pair has its
// reason and none is missing.
static ACTS: [(Act, Seen); 25] = [
    (Lease, (1, 0)),
    (Insert(1, 5), (2, 1)),
    (Find(&[(1, 5)]), (2, 1)),
    (Keep, (2, 1)),
    (Delete(1), (3, 0)),
    (Find(&[]), (3, 0)),
    (Look(&[(1, 5)]), (3, 0)),
    (Keep, (3, 0)),
    (Look(&[]), (3, 0)),
    (State(1, Some(Absent)), (3, 0)),
    (State(2, None), (3, 0)),
    (Insert(5, 7), (4, 1)),
    (Enter, (5, 1)),
    (Go(WriteOnly, 20), (6, 1)),
    (Stand(None), (6, 1)),
    (Begin, (7, 1)),
    (Stand(Some((Fill, 1, false))), (7, 1)),
    (Piece, (8, 1)),
    (Stand(Some((Fill, 1, true))), (8, 1)),
    (Go(Public, 30), (9, 1)),
    (Stand(None), (9, 1)),
    (State(4, Some(Public)), (9, 1)),
    (State(3, Some(WriteOnly)), (9, 1)),
    (State(2, None), (9, 1)),
    (State(5, None), (9, 1)),
];

// How many rows there are, if no pair is missing and none too much.
fn rows_of(answer: Result<CheckReport, SharedFault<AllocError>>) -> Result<u64, Reported> {
    match answer {
        Ok(found) if (found.missing, found.extra) == (0, 0) => Ok(found.rows),
        Err(SharedFault::World(AllocError)) => Err(Reported::Short),
        _ => Err(Reported::Wrong),
    }
}

// How the world stands.
fn seen_once<L: SharedLedger, R: Wait>(port: &mut HandlePort<L, R>) -> Result<Seen, Reported> {
    match rows_of(port.shared.check(port.rt, port.alloc, port.me)) {
        Ok(rows) => Ok((port.me.front(), rows)),
        Err(reported) => Err(reported),
    }
}

// The same, asked once more if memory was short.
fn seen<L: SharedLedger, R: Wait>(port: &mut HandlePort<L, R>) -> Option<Seen> {
    match seen_once(port) {
        Err(Reported::Short) => seen_once(port).ok(),
        reported => reported.ok(),
    }
}

// Whether an act is answered as it has to be, and the world then stands so. If memory was short it
// stands as before, and the act is asked once more.
fn is_right<L: SharedLedger, R: Wait>(
    port: &mut HandlePort<L, R>,
    kept: &mut Kept,
    act: &Act,
    before: Seen,
    after: Seen,
) -> bool {
    let reported = match acted(port, kept, act) {
        Reported::Short if seen(port) == Some(before) => acted(port, kept, act),
        reported => reported,
    };
    matches!(reported, Reported::Right) && seen(port) == Some(after)
}

// How many of the acts are answered as they have to be, up to the first that is not.
fn walked<L: SharedLedger, R: Wait>(
    port: &mut HandlePort<L, R>,
    kept: &mut Kept,
    rows: &[(Act, Seen)],
) -> usize {
    let mut before = (0, 0);
    for (place, (act, after)) in rows.iter().enumerate() {
        if !is_right(port, kept, act, before, *after) {
            return place;
        }
        before = *after;
    }
    rows.len()
}

// The same through the one handle.
fn handled<'a, L: SharedLedger, R: Wait>(
    rt: &'a R,
    alloc: Global,
    shared: &'a Shared<L>,
    me: &'a mut Handle<L>,
    rows: &[(Act, Seen)],
) -> usize {
    let mut port = HandlePort {
        rt,
        alloc,
        shared,
        me,
    };
    let mut kept = Kept {
        snapshot: None,
        work: None,
        piece: None,
    };
    let right = walked(&mut port, &mut kept, rows);
    // it goes here by `drop`, which is proved apart, and not at the end, which is dear to prove
    drop(kept);
    right
}

// How many are, and the world after them.
fn closed<L: SharedLedger, R: Wait>(
    rt: &R,
    alloc: Global,
    shared: Shared<L>,
    mut handles: Vec<Handle<L>>,
    rows: &[(Act, Seen)],
) -> Option<(World, usize)> {
    let mut me = handles.pop()?;
    let right = handled(rt, alloc, &shared, &mut me, rows);
    handles.push(me).ok()?;
    Some((shared.close(handles).ok()?, right))
}

// The world comes back as an error if there was no memory to share it.
fn shared<L: SharedLedger, R: Wait>(
    rt: &R,
    alloc: Global,
    blanks: Blanks,
    world: World,
    rows: &[(Act, Seen)],
) -> Result<Option<(World, usize)>, World>
    requires names { (blanks.added.name ≡ L.name) × (blanks.taken.name ≡ L.taken_name) × (blanks.refused.name ≡ L.refused_name) × (blanks.cut.name ≡ L.cut_name) }
    requires parts { (blanks.added.parts ≡ L.parts) × (blanks.taken.parts ≡ L.parts) × (blanks.refused.parts ≡ L.parts) }
    requires picked { (L.handles ≡ 1) × (L.handles ≡ L.parts) × (L.start ≡ world) }
{
    match Shared::<L>::new(alloc, blanks, world, 1) {
        Ok((shared, handles)) => Ok(closed(rt, alloc, shared, handles, rows)),
        Err((ShareFault::Memory, world)) => Err(world),
        Err(_) => Ok(None),
    }
}

fn shared_once<R: Wait>(
    rt: &R,
    alloc: Global,
    world: World,
    rows: &[(Act, Seen)],
) -> Result<Option<(World, usize)>, World> {
    shared::<Brand, R>(rt, alloc, Blanks::new(1), world, rows)
}

fn shared_twice<R: Wait>(
    rt: &R,
    alloc: Global,
    world: World,
    rows: &[(Act, Seen)],
) -> Option<(World, usize)> {
    match shared_once(rt, alloc, world, rows) {
        Ok(reported) => reported,
        Err(world) => shared_once(rt, alloc, world, rows).ok()?,
    }
}

// The world that comes back if there may not be so many handles.
fn unshared<L: SharedLedger>(
    alloc: Global,
    blanks: Blanks,
    world: World,
    count: u64,
) -> Option<World>
    requires names { (blanks.added.name ≡ L.name) × (blanks.taken.name ≡ L.taken_name) × (blanks.refused.name ≡ L.refused_name) × (blanks.cut.name ≡ L.cut_name) }
    requires parts { (blanks.added.parts ≡ L.parts) × (blanks.taken.parts ≡ L.parts) × (blanks.refused.parts ≡ L.parts) }
    requires picked { (L.handles ≡ count) × (L.handles ≡ L.parts) × (L.start ≡ world) }
{
    match Shared::<L>::new(alloc, blanks, world, count) {
        Err((ShareFault::BadCount, world)) => Some(world),
        _ => None,
    }
}

fn unshared_once(alloc: Global, world: World, count: u64) -> Option<World> {
    unshared::<Brand>(alloc, Blanks::new(count), world, count)
}

// A world is shared by 1 to 64 handles.
fn neither_shared(alloc: Global, world: World) -> Option<World> {
    let world = unshared_once(alloc, world, 0)?;
    unshared_once(alloc, world, 65)
}

// The entry at this index with a moment that is so much later, as a receipt says it of this place.
fn receipt_of(log: &[Entry], row: (u64, usize, u64)) -> Option<Receipt> {
    let (place, index, later) = row;
    let entry = log.get(index)?;
    let moment = entry.moment.checked_add(later)?;
    let what = entry.what.clone().ok()?;
    let entry = Entry { moment, what };
    Some(Receipt { place, entry })
}

// What is reported of two receipts.
fn reported(
    alloc: Global,
    world: &World,
    rows: [(u64, usize, u64); 2],
) -> Option<Result<(), ReceiptFault>> {
    let [first, second] = rows;
    let receipts = [
        receipt_of(world.log(), first)?,
        receipt_of(world.log(), second)?,
    ];
    match reconcile(alloc, world, &receipts) {
        Err(ReceiptFault::Memory) => Some(reconcile(alloc, world, &receipts)),
        reported => Some(reported),
    }
}

// Two receipts, each by its place, the index of its entry and how much later that is, and what is
// reported of them. The log has the lease at place 1 and the insert at place 2.
fn is_each_reported(alloc: Global, world: &World) -> bool {
    let rows = [
        ([(2, 1, 0), (1, 0, 0)], Ok(())),
        (
            [(1, 0, 0), (0, 1, 0)],
            Err(ReceiptFault::NoPlace { place: 0 }),
        ),
        (
            [(1, 0, 0), (10, 1, 0)],
            Err(ReceiptFault::NoPlace { place: 10 }),
        ),
        (
            [(1, 0, 0), (2, 1, 1)],
            Err(ReceiptFault::OtherEntry { place: 2 }),
        ),
        (
            [(1, 1, 0), (2, 1, 0)],
            Err(ReceiptFault::OtherEntry { place: 1 }),
        ),
        (
            [(2, 1, 0), (2, 1, 0)],
            Err(ReceiptFault::Twice { place: 2 }),
        ),
    ];
    for (receipts, answer) in rows {
        if reported(alloc, world, receipts) != Some(answer) {
            return false;
        }
    }
    world.log().len() == 9
}

#[test]
fn under_refusal_calls_through_the_lock(rt: HostRuntime) {
    let alloc = rt.alloc();
    let Ok(world) = opened(alloc, &["a"]) else {
        panic!(rt; "no world");
    };
    assert!(rt; mark(&rt));
    let Some(world) = neither_shared(alloc, world) else {
        panic!(rt; "no handles, or 65");
    };
    let Some((world, right)) = shared_twice(&rt, alloc, world, &ACTS) else {
        panic!(rt; "it was not shared");
    };
    assert!(rt; right == ACTS.len(), "act {right}");
    assert!(rt; is_each_reported(alloc, &world));
}

// Entries are handed out and given back, and places go on. A reader of the checkpoint finds as many
// entries before it as there are.
static CUTS: [(Act, Seen); 10] = [
    (Lease, (1, 0)),
    (Insert(1, 5), (2, 1)),
    (Take(0, 2), (2, 1)),
    (Take(2, 0), (2, 1)),
    (Find(&[(1, 5)]), (2, 1)),
    (Delete(1), (3, 0)),
    (Cut, (3, 0)),
    (Find(&[]), (3, 0)),
    (Save(3), (3, 0)),
    (Insert(5, 7), (4, 1)),
];

// What is reported of a receipt of the fourth entry, moved to this place.
fn reported_at(alloc: Global, world: &World, place: u64) -> Option<Result<(), ReceiptFault>> {
    reported(alloc, world, [(4, 0, 0), (place, 0, 0)])
}

// Of the four entries the last is in memory: of the others nothing can be said.
fn are_cut_off(alloc: Global, world: &World) -> bool {
    for place in 1..4u64 {
        if reported_at(alloc, world, place) != Some(Err(ReceiptFault::CutOff { place })) {
            return false;
        }
    }
    reported_at(alloc, world, 5) == Some(Err(ReceiptFault::NoPlace { place: 5 }))
        && reported_at(alloc, world, 4) == Some(Err(ReceiptFault::Twice { place: 4 }))
        && (world.log().len(), world.log_start(), world.log_len()) == (1, 3, 4)
}

#[test]
fn under_refusal_cuts_through_the_lock(rt: HostRuntime) {
    let alloc = rt.alloc();
    let Ok(world) = opened(alloc, &["a"]) else {
        panic!(rt; "no world");
    };
    assert!(rt; mark(&rt));
    let Some((world, right)) = shared_twice(&rt, alloc, world, &CUTS) else {
        panic!(rt; "it was not shared");
    };
    assert!(rt; right == CUTS.len(), "act {right}");
    assert!(rt; are_cut_off(alloc, &world));
}
