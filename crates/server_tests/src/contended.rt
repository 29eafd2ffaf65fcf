//! A piece of a fill whose rows another handle updates meanwhile: it is given up after as many
//! failed tries as are allowed, and not before.
ghost use Rattle.std.specs.Prelude.{◌≡◌};

use crate::fills::filling;
use crate::table::update;
use collections::List;
use reorganise_workers::{PieceEnd, ReorganiseFault, Reorganised, reorganise_all};
use server::locked_store::{Blanks, Handle, Shared, SharedLedger};
use server::world::{Receipt, World};
use server::{Request, Served, serve};
use std::alloc::Global;
use std::marker::Brand;
use std::sync::Wait;
use std::sync::atomic::{AtomicU64, Ordering};
use std::thread::{Threads, join};
use tasks::{FreeGate, Gate};

// Whether a row was updated, and whether the piece has its end. The piece starts after the first
// update.
#[derive(Drop)]
struct Contest {
    updated: AtomicU64,
    ended: AtomicU64,
}

impl Gate for Contest {
    fn may_start(&self, _number: usize, _turn: u64) -> bool {
        self.updated.load(Ordering::SeqCst) != 0
    }

    fn answered(&self, _number: usize) {
        self.ended.store(1, Ordering::SeqCst);
    }
}

// Updates rows, one for each request, until the piece has its end.
fn updated<L: SharedLedger + Send + Sync, R: Threads + Wait + Sync>(
    rt: &R,
    alloc: Global,
    shared: &Shared<L>,
    writer: Vec<Handle<L>>,
    requests: &[Request],
    contest: &Contest,
) -> Option<Vec<Handle<L>>> {
    let mut writer = writer;
    for one in requests.chunks(1) {
        if contest.ended.load(Ordering::SeqCst) != 0 {
            return Some(writer);
        }
        let Served { handles, .. } = serve(rt, alloc, shared, writer, one, 1_000, &FreeGate).ok()?;
        writer = handles;
        contest.updated.store(1, Ordering::SeqCst);
    }
    Some(writer)
}

// Whether the piece was given up, or finished, which takes a commit; None for any other end.
fn is_given_up(ends: &[(usize, PieceEnd)], receipts: &[List<Receipt>], tries: u32) -> Option<bool> {
    match (ends, receipts) {
        ([(_, PieceEnd::Finished)], [receipts]) if receipts.len() > 0 => Some(false),
        ([(_, PieceEnd::Busy { tries: failed })], [_]) if *failed == tries => Some(true),
        _ => None,
    }
}

// Both handles, and whether the piece was given up.
fn gathered<L: SharedLedger>(
    writer: Option<Vec<Handle<L>>>,
    done: Result<Reorganised<L>, (ReorganiseFault, Vec<Handle<L>>)>,
    tries: u32,
) -> Option<(Vec<Handle<L>>, Option<bool>)> {
    let mut handles = writer?;
    let Reorganised {
        ends,
        handles: mut last,
        receipts,
    } = done.ok()?;
    let is_busy = is_given_up(ends.as_slice(), receipts.as_slice(), tries);
    drop(ends);
    drop(receipts);
    handles.append(&mut last).ok()?;
    Some((handles, is_busy))
}

// One handle updates rows, while the other works on the piece.
fn at_once<L: SharedLedger + Send + Sync, R: Threads + Wait + Sync>(
    rt: &R,
    alloc: Global,
    shared: &Shared<L>,
    handles: (Vec<Handle<L>>, Vec<Handle<L>>),
    requests: &[Request],
    tries: u32,
) -> Option<(Vec<Handle<L>>, Option<bool>)> {
    let (writer, worker) = handles;
    let contest = Contest {
        updated: AtomicU64::new(0),
        ended: AtomicU64::new(0),
    };
    let contest = &contest;
    let (writer, done) = join(
        rt,
        move || updated(rt, alloc, shared, writer, requests, contest),
        move || reorganise_all(rt, alloc, shared, worker, 30, 2, 1_000, tries, contest),
    );
    gathered(writer, done, tries)
}

fn contended<L: SharedLedger + Send + Sync, R: Threads + Wait + Sync>(
    rt: &R,
    alloc: Global,
    blanks: Blanks,
    world: World,
    requests: &[Request],
    tries: u32,
) -> Option<(World, Option<bool>)>
    requires names { (blanks.added.name ≡ L.name) × (blanks.taken.name ≡ L.taken_name) × (blanks.refused.name ≡ L.refused_name) × (blanks.cut.name ≡ L.cut_name) }
    requires parts { (blanks.added.parts ≡ L.parts) × (blanks.taken.parts ≡ L.parts) × (blanks.refused.parts ≡ L.parts) }
    requires picked { (L.handles ≡ 2) × (L.handles ≡ L.parts) × (L.start ≡ world) }
{
    let (shared, mut writer) = Shared::<L>::new(alloc, blanks, world, 2).ok()?;
    let worker = vec![in alloc; writer.pop()?].ok()?;
    let handles = (writer, worker);
    let (handles, is_busy) = at_once(rt, alloc, &shared, handles, requests, tries)?;
    Some((shared.close(handles).ok()?, is_busy))
}

// So many updates, each of another row than the last.
fn updates_of(alloc: Global, rows: u32, updates: i64) -> Option<Vec<Request>> {
    let mut requests = Vec::new(alloc);
    for value in 0..updates {
        let id = value.wrapping_mul(7_919).checked_rem(i64::from(rows))?;
        requests.push(update(alloc, id, value).ok()?).ok()?;
    }
    Some(requests)
}

// Whether the piece was given up, if the world has its rows and one piece, and the fill has ended
// just if it was not.
fn outcome(alloc: Global, world: &World, rows: u32, is_busy: Option<bool>) -> Option<bool> {
    let is_busy = is_busy?;
    let (_, pieces, ended) = world.progress(2)?;
    let found = world.check(alloc).ok()?;
    if pieces == 1 && ended != is_busy && found.rows == u64::from(rows) && found.extra == 0 {
        Some(is_busy)
    } else {
        None
    }
}

// These updates beside the fill of a world of so many rows.
fn beside<R: Threads + Wait + Sync>(
    rt: &R,
    alloc: Global,
    rows: u32,
    requests: &[Request],
    tries: u32,
) -> Option<bool> {
    let world = filling(alloc, i64::from(rows), 1)?;
    let (world, is_busy) = contended::<Brand, R>(
        rt,
        alloc,
        Blanks::new(2),
        world,
        requests,
        tries,
    )?;
    let outcome = outcome(alloc, &world, rows, is_busy);
    drop(world);
    outcome
}

// So many updates beside a fill of so many rows in one piece: whether the piece was given up.
fn round<R: Threads + Wait + Sync>(
    rt: &R,
    alloc: Global,
    rows: u32,
    updates: i64,
    tries: u32,
) -> Option<bool> {
    let requests = updates_of(alloc, rows, updates)?;
    let is_busy = beside(rt, alloc, rows, requests.as_slice(), tries);
    drop(requests);
    is_busy
}

// Each update fails one try at most, so two of them leave a third try that does not fail.
#[test]
fn a_piece_is_not_given_up_early(rt: HostRuntime) {
    for _round in 0..5 {
        assert!(rt; round(&rt, rt.alloc(), 100, 2, 3) == Some(false));
    }
}

// A piece of many turns of a thousand rows meets updates in them, so its tries fail; if it does
// not, as on a busy machine, all is tried anew.
#[test]
fn a_piece_that_fails_in_each_try_is_given_up(rt: HostRuntime) {
    let mut is_busy = false;
    for _round in 0..20 {
        if !is_busy {
            let Some(busy) = round(&rt, rt.alloc(), 20_000, 30_000, 2) else {
                panic!(rt; "another end");
            };
            is_busy = busy;
        }
    }
    assert!(rt; is_busy);
}
