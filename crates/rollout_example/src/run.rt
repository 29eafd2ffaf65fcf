//! The servers and the operator at once, and what the world has when both are done.
ghost use Rattle.std.specs.Prelude.{◌≡◌};

use crate::operate::{operate, report_step};
use crate::table::{inserts, world_with_changes};
use server::tasks::FreeGate;
use server::{Outcome, Request, Served, serve};
use shared_rollout::locked_store::{Blanks, Handle, Shared, SharedLedger};
use shared_rollout::world::World;
use std::alloc::Global;
use std::marker::Brand;
use std::sync::Wait;
use std::thread::{Threads, join};

/// How many rows there are at first, and how many the servers add.
const ROWS: u32 = 1_000;

/// How often a request is tried.
const TRIES: u32 = 1_000;

// How many requests were committed.
fn count_done(outcomes: &[(usize, Outcome)]) -> usize {
    outcomes
        .iter()
        .filter(|(_, outcome)| matches!(outcome, Outcome::Done(_)))
        .count()
}

// Both at once: all handles, and how many requests were committed.
fn at_once<L, R>(
    rt: &R,
    alloc: Global,
    shared: &Shared<L>,
    servers: Vec<Handle<L>>,
    operator: Handle<L>,
    requests: &[Request],
    out: &mut String,
) -> Option<(Vec<Handle<L>>, usize)>
where
    L: SharedLedger + Send + Sync,
    R: Threads + Wait + Sync,
{
    let (served, operator) = join(
        rt,
        move || serve(rt, alloc, shared, servers, requests, TRIES, &FreeGate),
        move || operate(rt, alloc, shared, operator, out),
    );
    let Served {
        outcomes,
        mut handles,
        ..
    } = served.ok()?;
    handles.push(operator?).ok()?;
    Some((handles, count_done(outcomes.as_slice())))
}

// The world that comes back, and how many requests were committed.
fn share<L, R>(
    rt: &R,
    alloc: Global,
    blanks: Blanks,
    world: World,
    requests: &[Request],
    out: &mut String,
) -> Option<(World, usize)>
where
    L: SharedLedger + Send + Sync,
    R: Threads + Wait + Sync,
    requires names { (blanks.added.name ≡ L.name) × (blanks.taken.name ≡ L.taken_name) × (blanks.refused.name ≡ L.refused_name) × (blanks.cut.name ≡ L.cut_name) }
    requires parts { (blanks.added.parts ≡ L.parts) × (blanks.taken.parts ≡ L.parts) × (blanks.refused.parts ≡ L.parts) }
    requires picked { (L.handles ≡ 5) × (L.handles ≡ L.parts) × (L.start ≡ world) }
{
    let (shared, mut servers) = Shared::<L>::new(alloc, blanks, world, 5).ok()?;
    let operator = servers.pop()?;
    let (handles, done) = at_once(rt, alloc, &shared, servers, operator, requests, out)?;
    Some((shared.close(handles).ok()?, done))
}

// Lets the threads work on the world, and answers it and how many requests were committed.
fn run_threads<R>(rt: &R, alloc: Global, world: World, out: &mut String) -> Option<(World, usize)>
where
    R: Threads + Wait + Sync,
{
    let requests = inserts(alloc, ROWS, ROWS).ok()?;
    let blanks = Blanks::new(5);
    share::<Brand, R>(rt, alloc, blanks, world, requests.as_slice(), out)
}

// Reports how many requests were committed, and what the world has.
fn report_end(alloc: Global, world: &World, done: usize, out: &mut String) -> Option<()> {
    write!(out, "servers committed {done} inserts meanwhile\n").ok()?;
    let found = world.check(alloc).ok()?;
    let (rows, missing, extra) = (found.rows, found.missing, found.extra);
    write!(out, "rows {rows} missing {missing} extra {extra}\n").ok()
}

// The world in which the changes have begun, with their step reported.
fn begun(alloc: Global, out: &mut String) -> Option<World> {
    let (world, receipt) = world_with_changes(alloc, ROWS)?;
    report_step(out, 2, &receipt)?;
    Some(world)
}

// Reports all of it.
fn report<R>(rt: &R, alloc: Global, out: &mut String) -> Option<()>
where
    R: Threads + Wait + Sync,
{
    let world = begun(alloc, out)?;
    let (world, done) = run_threads(rt, alloc, world, out)?;
    report_end(alloc, &world, done, out)
}

/// Lets four servers write while one operator adds an index and a required column and drops a
/// column, and answers what the operator did, line by line, and what the world then has. It is the
/// same in every run, whatever the threads do. `None` if a call was refused, also when out of
/// memory.
///
/// - `rt`: what starts threads and waits.
pub fn rollout_report<R>(rt: &R, alloc: Global) -> Option<String>
where
    R: Threads + Wait + Sync,
{
    let mut out = String::new(alloc);
    report(rt, alloc, &mut out)?;
    Some(out)
}
