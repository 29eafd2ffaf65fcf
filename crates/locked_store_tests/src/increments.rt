//! Two handles increment one counter at once, each by what it read: it reads, computes the new
//! value from what it read, prepares with just that, and commits; after a conflict it reads again.
//! No increment is lost.
ghost use Rattle.std.specs.Prelude.{◌≡◌};

use crate::fixtures::{FIRST, are, opened, update, whole_table};
use crate::handle_port::{HandlePort, Read, inserted, read_for};
use keycode::Value;
use row_map::{ColumnType, ReadView, column_key, read_typed_value};
use row_write::{Prepared, prepare};
use shared_rollout::locked_store::{Blanks, Handle, Shared, SharedFault, SharedLedger};
use shared_rollout::world::{CommitFault, Committed, Receipt, World};
use std::alloc::Global;
use std::marker::Brand;
use std::sync::Wait;
use std::thread::{Threads, join};

// How often each handle increments.
const TIMES: i64 = 200;

// The counter's value, as it was read.
fn value_of(alloc: Global, view: &ReadView) -> Option<i64> {
    let key = column_key(alloc, 1, &[Value::Int(1)], 1).ok()?;
    let bytes = view.get(key.as_slice())?.as_ref()?;
    match read_typed_value(alloc, ColumnType::Int, bytes.as_slice()) {
        Ok(Some(Value::Int(value))) => Some(value),
        _ => None,
    }
}

// The value one above the one that was read, prepared with just what was read.
fn incremented(alloc: Global, read: Option<Read>) -> Option<Prepared> {
    let (schema, view) = read?;
    let next = value_of(alloc, &view)?.checked_add(1)?;
    let ops = update(alloc, 1, next).ok()?;
    prepare(alloc, schema, FIRST, ops, view).ok()
}

// The increment of what the counter has now. What is read depends on the table and the key alone,
// so it is asked for with a value that is not known yet.
fn increment<L: SharedLedger, R: Wait>(port: &mut HandlePort<L, R>) -> Option<Prepared> {
    let unknown = update(port.alloc, 1, 0).ok()?;
    let read = read_for(port, &unknown).ok();
    drop(unknown);
    incremented(port.alloc, read)
}

// Whether a commit is done, and not in conflict.
fn is_done(answer: &Result<Committed, (SharedFault<CommitFault>, Prepared)>) -> Option<bool> {
    match answer {
        Ok(Committed::Done(_)) => Some(true),
        Err((SharedFault::World(CommitFault::Conflict { key: _ }), _)) => Some(false),
        _ => None,
    }
}

// One try: whether it is committed, and not in conflict.
fn is_incremented<L: SharedLedger, R: Wait>(port: &mut HandlePort<L, R>) -> Option<bool> {
    let work = increment(port)?;
    let answer = port.shared.commit(port.rt, port.alloc, port.me, 0, work);
    let done = is_done(&answer);
    drop(answer);
    done
}

// All increments of one handle. Each conflict is with one of the other's, so there are at most
// twice as many tries.
fn increments<L: SharedLedger, R: Wait>(port: &mut HandlePort<L, R>) -> Option<i64> {
    let mut done = 0i64;
    for _try in 0..2 * TIMES {
        if done < TIMES && is_incremented(port)? {
            done = done.checked_add(1)?;
        }
    }
    Some(done)
}

// How often each of two handles increments.
type Counts = (Option<i64>, Option<i64>);

// The same through a handle that is handed in, and comes back.
fn worked<'a, L: SharedLedger, R: Wait>(
    rt: &'a R,
    alloc: Global,
    shared: &'a Shared<L>,
    me: Handle<L>,
) -> (Handle<L>, Option<i64>) {
    let mut me = me;
    let mut port = HandlePort {
        rt,
        alloc,
        shared,
        me: &mut me,
    };
    let done = increments(&mut port);
    (me, done)
}

// The row of the counter, with 0.
fn begun<'a, L: SharedLedger, R: Wait>(
    rt: &'a R,
    alloc: Global,
    shared: &'a Shared<L>,
    me: &'a mut Handle<L>,
) -> Option<Receipt> {
    let mut port = HandlePort {
        rt,
        alloc,
        shared,
        me,
    };
    inserted(&mut port, 1, 0)
}

// Both handles at once, after that row.
fn counted<L: SharedLedger + Send + Sync, R: Threads + Wait + Sync>(
    rt: &R,
    alloc: Global,
    shared: &Shared<L>,
    handles: &mut Vec<Handle<L>>,
) -> Option<Counts> {
    let mut first = handles.pop()?;
    begun(rt, alloc, shared, &mut first)?;
    let second = handles.pop()?;
    let ((first, one), (second, other)) = join(
        rt,
        move || worked(rt, alloc, shared, first),
        move || worked(rt, alloc, shared, second),
    );
    handles.push(first).ok()?;
    handles.push(second).ok()?;
    Some((one, other))
}

// How often each incremented, and the world.
fn both_at_once<L: SharedLedger + Send + Sync, R: Threads + Wait + Sync>(
    rt: &R,
    alloc: Global,
    blanks: Blanks,
    world: World,
) -> Option<(World, Option<Counts>)>
    requires names { (blanks.added.name ≡ L.name) × (blanks.taken.name ≡ L.taken_name) × (blanks.refused.name ≡ L.refused_name) × (blanks.cut.name ≡ L.cut_name) }
    requires parts { (blanks.added.parts ≡ L.parts) × (blanks.taken.parts ≡ L.parts) × (blanks.refused.parts ≡ L.parts) }
    requires picked { (L.handles ≡ 2) × (L.handles ≡ L.parts) × (L.start ≡ world) }
{
    let (shared, mut handles) = Shared::<L>::new(alloc, blanks, world, 2).ok()?;
    let counts = counted(rt, alloc, &shared, &mut handles);
    Some((shared.close(handles).ok()?, counts))
}

// One insert and all increments are in the log, and the counter has them all.
fn is_counted(alloc: Global, world: &World) -> Option<bool> {
    let query = whole_table(alloc).ok()?;
    let rows = world.query(alloc, 0, &FIRST, &query).ok()?;
    Some(world.log().len() == 401 && are(rows.as_slice(), &[(1, 400)]))
}

#[test]
fn no_increment_is_lost(rt: HostRuntime) {
    let alloc = rt.alloc();
    let Ok(world) = opened(alloc, &["a"]) else {
        panic!(rt; "no world");
    };
    let Some((world, counts)) = both_at_once::<Brand, _>(&rt, alloc, Blanks::new(2), world) else {
        panic!(rt; "a call was refused");
    };
    assert!(rt; counts == Some((Some(TIMES), Some(TIMES))));
    assert!(rt; is_counted(alloc, &world) == Some(true));
}
