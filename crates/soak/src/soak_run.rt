//! The run of a soak.
ghost use Rattle.std.specs.Prelude.{◌≡◌, ◌≤◌};
ghost use Rattle.command_line.specs.SoakSize.{IsSoakSize};

use crate::fault::SoakFault;
use crate::requests::{Verb, moment_of, requests};
use crate::round::{Handles, serve_all, serve_beside};
use crate::table::{LENGTH, open_world};
use command_line::SoakSize;
use shared_rollout::locked_store::{Blanks, Shared, SharedLedger};
use shared_rollout::world::World;
use std::alloc::Global;
use std::io::Write;
use std::marker::Brand;
use std::sync::Wait;
use std::thread::Threads;

/// How many updates a round has.
const ROUND: u32 = 10_000;

/// The index comes or goes beside the first of so many rounds.
const ROUNDS_FOR_EACH_CHANGE: u32 = 10;

// The round of this number: the updates up to so many in all, and the cut after them.
fn run_round<L: SharedLedger + Send + Sync, R: Threads + Wait + Sync>(
    rt: &R,
    alloc: Global,
    shared: &Shared<L>,
    handles: &mut Handles<L>,
    round: u32,
    to: u64,
    rows: u32,
) -> Result<(), SoakFault>
    requires { 1 ≤ rows }
{
    let from = u64::from(round) * u64::from(ROUND);
    let updates = requests(alloc, Verb::Update, from, to, rows)?;
    let updates = updates.as_slice();
    if round % ROUNDS_FOR_EACH_CHANGE == 0 {
        let change = round / ROUNDS_FOR_EACH_CHANGE;
        let moment = moment_of(from).saturating_add(LENGTH);
        serve_beside(rt, alloc, shared, handles, updates, change, moment)?;
    } else {
        serve_all(rt, alloc, shared, &mut handles.servers, updates)?;
    }
    match shared.cut(rt, &mut handles.operator) {
        Ok(()) => Ok(()),
        Err(_) => Err(SoakFault::Refused),
    }
}

// Writes the text at once, so that whoever reads it can look at the process as it is then.
fn write_text<W: Write>(writer: &mut W, text: &str) -> Result<(), SoakFault> {
    if writer.write_all(text.as_bytes()).is_err() || writer.flush().is_err() {
        return Err(SoakFault::Unwritten);
    }
    Ok(())
}

// All inserts, and all updates in rounds, with a line after each tenth of the rounds.
fn write_rows<L: SharedLedger + Send + Sync, R: Threads + Wait + Sync, W: Write>(
    rt: &R,
    alloc: Global,
    shared: &Shared<L>,
    handles: &mut Handles<L>,
    size: SoakSize,
    writer: &mut W,
) -> Result<(), SoakFault>
    requires { IsSoakSize size }
{
    let (updates, rows) = (size.updates, size.rows);
    let inserts = requests(alloc, Verb::Insert, 0, u64::from(rows), rows)?;
    serve_all(rt, alloc, shared, &mut handles.servers, inserts.as_slice())?;
    drop(inserts);
    let rounds = updates.div_ceil(ROUND);
    for round in 0..rounds {
        let done = updates.min((round + 1) * ROUND);
        run_round(rt, alloc, shared, handles, round, u64::from(done), rows)?;
        if (round + 1) * 10 / rounds > round * 10 / rounds {
            write_text(writer, format!(in alloc; "done {done}\n")?.as_str())?;
        }
    }
    Ok(())
}

// The world after the whole soak, for which it is shared among so many handles.
fn soak_in<L: SharedLedger + Send + Sync, R: Threads + Wait + Sync, W: Write>(
    rt: &R,
    alloc: Global,
    blanks: Blanks,
    world: World,
    count: u64,
    size: SoakSize,
    writer: &mut W,
) -> Result<World, SoakFault>
    requires size { IsSoakSize size }
    requires names { (blanks.added.name ≡ L.name) × (blanks.taken.name ≡ L.taken_name) × (blanks.refused.name ≡ L.refused_name) × (blanks.cut.name ≡ L.cut_name) }
    requires parts { (blanks.added.parts ≡ L.parts) × (blanks.taken.parts ≡ L.parts) × (blanks.refused.parts ≡ L.parts) }
    requires picked { (L.handles ≡ count) × (L.handles ≡ L.parts) × (L.start ≡ world) }
{
    let Ok((shared, mut servers)) = Shared::<L>::new(alloc, blanks, world, count) else {
        return Err(SoakFault::Memory);
    };
    let Some(operator) = servers.pop() else {
        return Err(SoakFault::Refused);
    };
    let mut handles = Handles { servers, operator };
    write_rows(rt, alloc, &shared, &mut handles, size, writer)?;
    match shared.close(handles.into_vec()?) {
        Ok(world) => Ok(world),
        Err(_) => Err(SoakFault::Refused),
    }
}

// Writes what the world has, and tells whether that is as it has to be: the log then had an entry
// for each insert and each update.
fn report<W: Write>(
    alloc: Global,
    world: &World,
    size: SoakSize,
    writer: &mut W,
) -> Result<bool, SoakFault> {
    let found = world.check(alloc)?;
    let (rows, missing, extra) = (found.rows, found.missing, found.extra);
    let (updates, entries) = (u64::from(size.updates), world.log_len());
    let text = format!(in alloc;
        "updates {updates}\nentries {entries}\naudit rows {rows} missing {missing} extra {extra}\n"
    )?;
    write_text(writer, text.as_str())?;
    let is_whole = rows == u64::from(size.rows) && (missing, extra) == (0, 0);
    Ok(is_whole && entries >= rows.saturating_add(updates))
}

// The whole soak, and whether what it found is as it has to be.
fn soak<R: Threads + Wait + Sync, W: Write>(
    rt: &R,
    alloc: Global,
    size: SoakSize,
    writer: &mut W,
) -> Result<bool, SoakFault>
    requires { IsSoakSize size }
{
    let world = open_world(alloc)?;
    let count = u64::from(size.servers) + 1;
    let blanks = Blanks::new(count);
    let world = soak_in::<Brand, R, W>(rt, alloc, blanks, world, count, size, writer)?;
    report(alloc, &world, size, writer)
}

/// Runs a soak: it opens the table t (id int key, a int), inserts the rows, and then has servers
/// update them for long, each by a transaction of its own, under leases that end. After each round
/// of 10,000 updates the log is cut through the lock; and beside the first of each ten rounds an
/// operator lets the index i on (a) come, or go again, from its first step to its end. So the world
/// should take the memory of its rows, however long it lives. In the end it is audited.
///
/// - `size`: how many updates, rows and servers.
/// - `writer`: takes a line after each tenth of the rounds, at once, and in the end three lines of
///   what was found.
///
/// Answers the exit status: 0 if all is as it has to be; 6 if a difference was found, a call was
/// refused for another reason than memory, or an outcome was another than a committed row; 4 if a
/// line could not be written; 5 if any call or outcome found no memory. After 5, or a call that was
/// refused, none of the three lines is written. Of several the first in the order 5, 4, 6 is
/// answered.
pub fn run_soak<R: Threads + Wait + Sync, W: Write>(
    rt: &R,
    alloc: Global,
    size: SoakSize,
    writer: &mut W,
) -> u8
    requires { IsSoakSize size }
{
    match soak(rt, alloc, size, writer) {
        Ok(true) => 0,
        Err(SoakFault::Unwritten) => 4,
        Err(SoakFault::Memory) => 5,
        Ok(false) | Err(SoakFault::Refused) => 6,
    }
}
