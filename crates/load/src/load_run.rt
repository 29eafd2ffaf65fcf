//! The run of a load.
ghost use Rattle.std.specs.Prelude.{◌≡◌, IfOk, None, true};
ghost use Rattle.command_line.specs.LoadSize.{IsLoadSize};
ghost use Rattle.server.specs.Receipts.{AreTheLog};
ghost use Rattle.server.specs.State.{entries_before, entries_kept};

use crate::add_index::add_index;
use crate::bar::Bar;
use crate::fault::LoadFault;
use crate::meter::Meter;
use crate::options::LoadOptions;
use crate::pace::{Pace, now};
use crate::paced_gate::PacedGate;
use crate::report::Report;
use crate::samples::{write_line, write_samples};
use crate::settle::worse;
use crate::sides::{Done, Sides, join_handles, split_handles};
use crate::table::{inserts, open_world};
use command_line::LoadSize;
use server::locked_store::{
    Blanks, Handle, ReceiptFault, Shared, SharedLedger, lemma_receipts_are_the_log, reconcile,
};
use server::world::{Receipt, World};
use server::{Request, serve};
use std::alloc::{AllocError, Global};
use std::io::Write;
use std::marker::Brand;
use std::sync::Wait;
use std::thread::{Threads, join};
use std::time::{Clock, Instant};

/// How often a request is tried.
const TRIES: u32 = 1_000;

// The lines of JSON, if they are asked for.
fn sample_load<R: Clock + Wait, W: Write>(
    rt: &R,
    alloc: Global,
    meter: &Meter,
    is_sampled: bool,
    writer: &mut W,
) -> Result<(), LoadFault> {
    if is_sampled {
        write_samples(rt, alloc, meter, writer)
    } else {
        Ok(())
    }
}

// Both sides at once.
fn both_sides<L: SharedLedger + Send + Sync, R: Threads + Wait + Eprint + Clock + Sync>(
    rt: &R,
    alloc: Global,
    shared: &Shared<L>,
    handles: Vec<Handle<L>>,
    me: Handle<L>,
    fill_handles: Vec<Handle<L>>,
    requests: &[Request],
    size: LoadSize,
    is_shown: bool,
    meter: &Meter,
) -> Sides<L> {
    let bar = Bar {
        rt,
        what: "rows",
        total: size.rows,
        is_shown,
    };
    let gate = PacedGate { rt, bar, meter };
    let ((served, inserted), (added, filled)) = join(
        rt,
        move || {
            let served = serve(rt, alloc, shared, handles, requests, TRIES, &gate);
            (served, now(rt))
        },
        move || {
            let added = add_index(rt, alloc, shared, me, fill_handles, size, is_shown, meter);
            (added, now(rt))
        },
    );
    Sides {
        served,
        added,
        inserted,
        filled,
    }
}

// Both sides at once, and beside them the lines of JSON until both have ended.
fn at_once<
    L: SharedLedger + Send + Sync,
    R: Threads + Wait + Eprint + Clock + Sync,
    W: Write + Send,
>(
    rt: &R,
    alloc: Global,
    shared: &Shared<L>,
    handles: Vec<Handle<L>>,
    requests: &[Request],
    size: LoadSize,
    options: LoadOptions,
    meter: &Meter,
    writer: &mut W,
) -> Result<Done<L>, LoadFault> {
    let mut handles = handles;
    let (me, fills) = split_handles(alloc, &mut handles, size.workers)?;
    let (is_sampled, is_shown) = (options.is_sampled, options.is_shown);
    let (sampled, sides) = join(
        rt,
        move || sample_load(rt, alloc, meter, is_sampled, writer),
        move || {
            let sides = both_sides(
                rt, alloc, shared, handles, me, fills, requests, size, is_shown, meter,
            );
            meter.finish();
            sides
        },
    );
    let mut done = join_handles(sides)?;
    done.outcome = worse(done.outcome, sampled);
    Ok(done)
}

// Whether there are as many receipts as entries, and what is wrong with them, if anything is. If
// nothing is wrong with either, the receipts are the log: each entry has its receipt, and no other.
fn compare_counts(
    alloc: Global,
    world: &World,
    receipts: &[Receipt],
) -> Result<(bool, Option<ReceiptFault>), LoadFault>
    ensures { IfOk result (λ r. r.0 ≡ true → r.1 ≡ None → AreTheLog (entries_before world.now) (entries_kept world.now) 0 receipts.now) }
{
    lemma_receipts_are_the_log();
    let is_counted = receipts.len() as u64 == world.log_len();
    match reconcile(alloc, world, receipts) {
        Ok(()) => Ok((is_counted, None)),
        Err(ReceiptFault::Memory) => Err(LoadFault::Memory),
        Err(fault) => Ok((is_counted, Some(fault))),
    }
}

// What the world has in the end, on so many threads, and beside that the receipts.
fn check_receipts<R: Threads + Clock + Sync>(
    rt: &R,
    alloc: Global,
    world: &World,
    threads: usize,
    receipts: &[Receipt],
    outcome: Result<(), LoadFault>,
    pace: Pace,
) -> Result<Report, LoadFault>
    ensures { IfOk result (λ r. r.is_counted ≡ true → r.receipts ≡ None → AreTheLog (entries_before world.now) (entries_kept world.now) 0 receipts.now) }
{
    match outcome {
        Ok(()) | Err(LoadFault::Refused) => {}
        Err(fault) => return Err(fault),
    }
    let (found, compared) = join(
        rt,
        || world.check_on(rt, alloc, threads),
        || -> Result<(bool, Option<ReceiptFault>), LoadFault>
            ensures { IfOk result (λ r. r.0 ≡ true → r.1 ≡ None → AreTheLog (entries_before world.entry.now) (entries_kept world.entry.now) 0 receipts.entry.now) }
        { compare_counts(alloc, world, receipts) },
    );
    let found = found?;
    let (is_counted, fault) = compared?;
    let mut pace = pace;
    pace.audited = now(rt);
    Ok(Report {
        rows: found.rows,
        missing: found.missing,
        extra: found.extra,
        is_counted,
        receipts: fault,
        is_done: outcome.is_ok(),
        pace,
    })
}

// The whole load over a world that is shared among so many handles.
fn load_in<
    L: SharedLedger + Send + Sync,
    R: Threads + Wait + Eprint + Clock + Sync,
    W: Write + Send,
>(
    rt: &R,
    alloc: Global,
    blanks: Blanks,
    world: World,
    count: u64,
    requests: &[Request],
    size: LoadSize,
    options: LoadOptions,
    meter: &Meter,
    writer: &mut W,
) -> Result<Report, LoadFault>
    requires names { (blanks.added.name ≡ L.name) × (blanks.taken.name ≡ L.taken_name) × (blanks.refused.name ≡ L.refused_name) × (blanks.cut.name ≡ L.cut_name) }
    requires parts { (blanks.added.parts ≡ L.parts) × (blanks.taken.parts ≡ L.parts) × (blanks.refused.parts ≡ L.parts) }
    requires picked { (L.handles ≡ count) × (L.handles ≡ L.parts) × (L.start ≡ world) }
{
    let Ok((shared, handles)) = Shared::<L>::new(alloc, blanks, world, count) else {
        return Err(LoadFault::Memory);
    };
    let Done {
        handles,
        receipts,
        outcome,
        inserted,
        filled,
    } = at_once(
        rt, alloc, &shared, handles, requests, size, options, meter, writer,
    )?;
    let Ok(world) = shared.close(handles) else {
        return Err(LoadFault::Refused);
    };
    let pace = Pace {
        begun: meter.begun,
        inserted,
        filled,
        settled: now(rt),
        audited: None,
    };
    check_receipts(
        rt,
        alloc,
        &world,
        size.servers as usize + size.workers as usize,
        receipts.as_slice(),
        outcome,
        pace,
    )
}

// What a load of this size finds.
fn load<R: Threads + Wait + Eprint + Clock + Sync, W: Write + Send>(
    rt: &R,
    alloc: Global,
    size: LoadSize,
    options: LoadOptions,
    writer: &mut W,
) -> Result<Report, LoadFault>
    requires { IsLoadSize size }
{
    let requests = inserts(alloc, size.rows)?;
    let world = open_world(alloc)?;
    let count = u64::from(size.servers + size.workers + 1);
    let blanks = Blanks::new(count);
    let requests = requests.as_slice();
    let meter = Meter::new(rt, alloc, size.rows, options)?;
    load_in::<Brand, R, W>(
        rt, alloc, blanks, world, count, requests, size, options, &meter, writer,
    )
}

// Says on standard error how long the parts took, unless there is no memory for that.
fn report_pace<R: Eprint>(rt: &R, alloc: Global, report: &Report, rows: u32) {
    if let Ok(text) = report.pace.text(alloc, rows) {
        let _ = eprintln!(rt; "{text}");
    }
}

/// Runs a load: it opens the table t (id int key, a int), has servers insert rows, each by a
/// transaction of its own, while another thread adds the index i on (a) step by step and workers
/// fill it; then it audits the store on as many threads, beside that compares all receipts with the
/// log, and writes what it found in five lines.
///
/// - `size`: how many servers, rows, pieces of the fill, workers, and rows of a piece that are
///   filled at a time.
/// - `writer`: takes the lines.
///
/// The lines `counts equal` and `receipts ok` together mean that the receipts are the log: each
/// entry has its receipt, and no other.
///
/// Answers the exit status: 0 if all is as it has to be; 6 if a difference was found, a call was
/// refused for another reason than memory, or an outcome was another than a committed row or a
/// finished piece; 4 if the lines could not be written; 5 if any call or outcome found no memory,
/// and then nothing is written. Of several the first in the order 5, 4, 6 is answered.
pub fn run_load<R: Threads + Wait + Eprint + Clock + Sync, W: Write + Send>(
    rt: &R,
    alloc: Global,
    size: LoadSize,
    writer: &mut W,
) -> u8
    requires { IsLoadSize size }
{
    let options = LoadOptions {
        rate: None,
        is_sampled: false,
        is_timed: false,
        is_shown: false,
    };
    run_load_shown(rt, alloc, size, options, writer)
}

/// Runs a load as `run_load` does, and as its options say.
///
/// - `options.rate`: with a rate of N rows a second row k is due k/N seconds after the start, and no
///   server begins with it before; and the index enters when a quarter of the rows are due, is
///   written from three eighths on, and its fill begins at a half. Without one nothing waits.
/// - `options.is_sampled`: the writer gets an object in JSON, one a line: for each step of the index,
///   about each tenth of a second for the writes that ended since, and in the end what the five lines
///   say, in their place. A write's time counts from when it was due, or without a rate from when a
///   server drew it. If a line cannot be written, no later one is, nothing waits any more until it is
///   due, and the status is 4; if memory runs out, the last object is not written.
/// - `options.is_timed`: whether standard error gets a line that says how long the inserts, the index
///   and the audit took, in milliseconds.
/// - `options.is_shown`: whether someone is to see a bar on standard error: how many rows were
///   inserted, and how many pieces of the index were filled.
pub fn run_load_shown<R: Threads + Wait + Eprint + Clock + Sync, W: Write + Send>(
    rt: &R,
    alloc: Global,
    size: LoadSize,
    options: LoadOptions,
    writer: &mut W,
) -> u8
    requires { IsLoadSize size }
{
    let report = match load(rt, alloc, size, options, writer) {
        Ok(report) => report,
        Err(LoadFault::Memory) => return 5,
        Err(LoadFault::Unwritten) => return 4,
        Err(LoadFault::Refused) => return 6,
    };
    let Ok(text) = report.text(alloc, options.is_sampled) else {
        return 5;
    };
    if write_line(writer, text.as_str()).is_err() {
        return 4;
    }
    if options.is_timed {
        report_pace(rt, alloc, &report, size.rows);
    }
    if report.is_good(size.rows) { 0 } else { 6 }
}
