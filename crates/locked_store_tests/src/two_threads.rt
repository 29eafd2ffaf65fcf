//! Two threads over one world, which keep snapshots of it; a second world then repeats its log.
ghost use Rattle.std.specs.Prelude.{◌≡◌};

use crate::fixtures::{FIRST, opened, prepared_in, whole_table};
use crate::handle_port::{HandlePort, inserted};
use shared_rollout::locked_store::{
    Blanks, Handle, Missing, ReceiptFault, Shared, SharedFault, SharedLedger, reconcile,
};
use shared_rollout::world::{Committed, Entry, Grant, GrantFault, Receipt, Snapshot, What, World};
use std::alloc::Global;
use std::marker::Brand;
use std::sync::Wait;
use std::thread::{Threads, join};

// A snapshot that a thread took, and how long the log then was.
#[derive(Drop)]
struct Seen {
    front: u64,
    snapshot: Snapshot,
}

// What threads were given and what they kept.
struct Found {
    receipts: Vec<Receipt>,
    seen: Vec<Seen>,
}

// By hand, so that a caller's proof sees one call and not each field's.
impl Drop for Found {
    fn drop(self) {
        let Found {
            receipts: _,
            seen: _,
        } = self;
    }
}

// A snapshot of what there is now.
fn look<L: SharedLedger, R: Wait>(port: &mut HandlePort<L, R>) -> Option<Seen> {
    let snapshot = port.shared.snapshot(port.rt, port.me, 0, &FIRST).ok()?;
    let front = port.me.front();
    Some(Seen { front, snapshot })
}

// Keeps the receipt of a lease.
fn keep_lease(found: &mut Found, answer: Result<Grant, SharedFault<GrantFault>>) -> Option<()> {
    let Grant {
        lease: _,
        schema: _,
        receipt,
    } = answer.ok()?;
    found.receipts.push(receipt).ok()
}

// Keeps the receipt of an insert, and a snapshot of what there then is.
fn keep(found: &mut Found, receipt: Option<Receipt>, seen: Option<Seen>) -> Option<()> {
    found.receipts.push(receipt?).ok()?;
    found.seen.push(seen?).ok()
}

// A lease, and a hundred inserts from this key on.
fn inserts<L: SharedLedger, R: Wait>(
    port: &mut HandlePort<L, R>,
    found: &mut Found,
    keys: (i64, i64),
) -> Option<()> {
    let lease = port.shared.lease(port.rt, port.alloc, port.me, 0);
    keep_lease(found, lease)?;
    for id in keys.0..keys.1 {
        let receipt = inserted(port, id, 7);
        keep(found, receipt, look(port))?;
    }
    Some(())
}

// The same through a handle that is handed in, and comes back.
fn worked<'a, L: SharedLedger, R: Wait>(
    rt: &'a R,
    alloc: Global,
    shared: &'a Shared<L>,
    me: Handle<L>,
    keys: (i64, i64),
) -> (Handle<L>, Option<Found>) {
    let mut me = me;
    let mut port = HandlePort {
        rt,
        alloc,
        shared,
        me: &mut me,
    };
    let mut found = Found {
        receipts: Vec::new(alloc),
        seen: Vec::new(alloc),
    };
    let found = match inserts(&mut port, &mut found, keys) {
        Some(()) => Some(found),
        None => None,
    };
    (me, found)
}

// Puts what the other found after what this one did.
fn unite(found: &mut Found, other: &mut Found) -> bool {
    found.receipts.append(&mut other.receipts).is_ok() && found.seen.append(&mut other.seen).is_ok()
}

// All that both found.
fn both(first: Option<Found>, second: Option<Found>) -> Option<Found> {
    let mut found = first?;
    let mut other = second?;
    if unite(&mut found, &mut other) {
        Some(found)
    } else {
        None
    }
}

// The world comes back only with both handles.
fn closed<L: SharedLedger>(shared: Shared<L>, mut handles: Vec<Handle<L>>) -> Option<World> {
    let last = handles.pop()?;
    let Err((missing, shared, mut handles)) = shared.close(handles) else {
        return None;
    };
    if missing != (Missing { held: 1, want: 2 }) {
        return None;
    }
    handles.push(last).ok()?;
    shared.close(handles).ok()
}

// What two threads find at once, through a handle each.
fn at_once<L: SharedLedger + Send + Sync, R: Threads + Wait + Sync>(
    rt: &R,
    alloc: Global,
    shared: &Shared<L>,
    handles: &mut Vec<Handle<L>>,
) -> Option<Found> {
    let first = handles.pop()?;
    let second = handles.pop()?;
    let ((first, a), (second, b)) = join(
        rt,
        move || worked(rt, alloc, shared, first, (0, 100)),
        move || worked(rt, alloc, shared, second, (100, 200)),
    );
    let found = both(a, b);
    handles.push(first).ok()?;
    handles.push(second).ok()?;
    found
}

fn two_at_once<L: SharedLedger + Send + Sync, R: Threads + Wait + Sync>(
    rt: &R,
    alloc: Global,
    blanks: Blanks,
    world: World,
) -> Option<(World, Found)>
    requires names { (blanks.added.name ≡ L.name) × (blanks.taken.name ≡ L.taken_name) × (blanks.refused.name ≡ L.refused_name) × (blanks.cut.name ≡ L.cut_name) }
    requires parts { (blanks.added.parts ≡ L.parts) × (blanks.taken.parts ≡ L.parts) × (blanks.refused.parts ≡ L.parts) }
    requires picked { (L.handles ≡ 2) × (L.handles ≡ L.parts) × (L.start ≡ world) }
{
    let (shared, mut handles) = Shared::<L>::new(alloc, blanks, world, 2).ok()?;
    let found = at_once(rt, alloc, &shared, &mut handles);
    let world = closed(shared, handles)?;
    Some((world, found?))
}

// Whether the call of an entry is accepted again.
fn is_repeated(alloc: Global, world: &mut World, entry: &Entry) -> bool {
    match entry.what.get() {
        What::Lease(_) => world.lease(alloc, entry.moment).is_ok(),
        What::Txn(lease, ops) => match prepared_in(alloc, world, *lease, ops.get()) {
            Some(work) => matches!(
                world.commit(alloc, entry.moment, work),
                Ok(Committed::Done(_))
            ),
            None => false,
        },
        _ => false,
    }
}

// Whether what a snapshot at the log's length has is what the world answers now.
fn is_seen_again(alloc: Global, world: &World, one: &Seen) -> Option<bool> {
    if one.front != world.log().len() as u64 {
        return Some(true);
    }
    let query = whole_table(alloc).ok()?;
    let rows = world.query(alloc, 0, &FIRST, &query).ok()?;
    let kept = one.snapshot.query(alloc, &query).ok()?;
    Some(rows == kept)
}

fn are_seen_again(alloc: Global, world: &World, seen: &[Seen]) -> bool {
    for one in seen {
        if is_seen_again(alloc, world, one) != Some(true) {
            return false;
        }
    }
    true
}

// A second world repeats the log entry by entry, and answers at each front what the snapshot that
// was taken there does, after all commits of both threads.
fn repeats(alloc: Global, again: &mut World, log: &[Entry], seen: &[Seen]) -> bool {
    for entry in log {
        if !is_repeated(alloc, again, entry) || !are_seen_again(alloc, again, seen) {
            return false;
        }
    }
    true
}

// The receipts are the whole of both logs: 202 entries, each with its receipt.
fn is_same_log(alloc: Global, world: &World, again: &World, receipts: &[Receipt]) -> bool {
    (world.log().len(), again.log().len(), receipts.len()) == (202, 202, 202)
        && reconcile(alloc, world, receipts) == Ok(())
        && reconcile(alloc, again, receipts) == Ok(())
}

// Receipt 7 once more, with its place and its moment so much later.
fn altered(receipts: &[Receipt], places: u64, moments: u64) -> Option<Receipt> {
    let Receipt { place, entry } = receipts.get(7)?;
    let moment = entry.moment.checked_add(moments)?;
    let what = entry.what.clone().ok()?;
    Some(Receipt {
        place: place.checked_add(places)?,
        entry: Entry { moment, what },
    })
}

// What is wrong with the receipts of both threads and this one more.
fn fault_of(
    alloc: Global,
    world: &World,
    receipts: &mut Vec<Receipt>,
    more: Receipt,
) -> Option<ReceiptFault> {
    receipts.push(more).ok()?;
    let fault = reconcile(alloc, world, receipts.as_slice()).err();
    drop(receipts.pop());
    fault
}

// One receipt given twice, one of another entry, and one of no place of the log are distinguished.
fn are_faults_found(alloc: Global, world: &World, receipts: &mut Vec<Receipt>) -> Option<bool> {
    let place = receipts.get(7)?.place;
    let past = place.checked_add(202)?;
    for (places, moments, fault) in [
        (0, 0, ReceiptFault::Twice { place }),
        (0, 1, ReceiptFault::OtherEntry { place }),
        (202, 0, ReceiptFault::NoPlace { place: past }),
    ] {
        let more = altered(receipts.as_slice(), places, moments)?;
        if fault_of(alloc, world, receipts, more) != Some(fault) {
            return Some(false);
        }
    }
    Some(true)
}

fn agrees(alloc: Global, world: &World, found: &Found) -> bool {
    match opened(alloc, &["a"]) {
        Ok(mut again) => {
            repeats(alloc, &mut again, world.log(), found.seen.as_slice())
                && found.seen.len() == 200
                && is_same_log(alloc, world, &again, found.receipts.as_slice())
        }
        Err(_) => false,
    }
}

#[test]
fn a_second_world_repeats_two_threads(rt: HostRuntime) {
    let alloc = rt.alloc();
    let Ok(world) = opened(alloc, &["a"]) else {
        panic!(rt; "no world");
    };
    let Some((world, mut found)) = two_at_once::<Brand, _>(&rt, alloc, Blanks::new(2), world) else {
        panic!(rt; "a call was refused");
    };
    assert!(rt; agrees(alloc, &world, &found));
    assert!(rt; are_faults_found(alloc, &world, &mut found.receipts) == Some(true));
}
