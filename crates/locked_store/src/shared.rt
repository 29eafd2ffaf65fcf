//! The lock: how a world is shared, and how it comes back.
ghost use Rattle.std.specs.Prelude.{◌≡◌, ◌+◌, ◌<◌, ◌≤◌, All, length, IfOk, IfErr, MatchOption, vec_len, []};
ghost use Rattle.locked_store.specs.Cores.{IsCore};
ghost use Rattle.locked_store.specs.Known.{total_count, total_taken, AreFresh};
ghost use Rattle.locked_store.specs.Sharing.{IsCount, IsRefused};
ghost use Rattle.rollout.specs.State.{entries_before, entry_count};

use crate::counted::log_len;
use crate::fault::{Missing, ShareFault};
use crate::handle::Handle;
use crate::locked::Locked;
use crate::rights::{Rights, open_books};
use crate::shared_ledger::{Blanks, SharedLedger};
use high_water::HighWater;
use rollout::world::World;
use std::alloc::Global;
use std::hint::spin_loop;
use std::sync::{Mutex, MutexGuard, Wait};

/// The greatest number of handles.
const MAX_HANDLES: u64 = 64;

/// How often a thread asks for the lock before it sleeps, some 0.1 milliseconds. It only affects
/// speed.
const TRIES: u32 = 1000;

/// A world that threads share by one lock. Each call is one critical section, and in it one call of
/// the world.
#[derive(Drop)]
pub struct Shared<L: SharedLedger> {
    pub(crate) locked: Mutex<Locked<L>>,
}

impl<L: SharedLedger> Shared<L> {
    // Takes the lock. The kit's lock is handed to a thread that sleeps, which wakes slowly while all
    // others wait, and most calls are shorter than that: so a thread asks for a while before it sleeps.
    pub(crate) fn enter(&self, rt: &impl Wait) -> MutexGuard<'_, Locked<L>> {
        for _ in 0..TRIES {
            if let Some(guard) = self.locked.try_lock() {
                return guard;
            }
            spin_loop();
        }
        self.locked.lock(rt)
    }

    /// Shares a world among `count` handles, numbered from 0.
    ///
    /// Refused in this order, and then the world comes back: `BadCount` if the number is not from 1
    /// to 64; `Memory`.
    #[tactic(auto, using(crate::proofs::Growing::at_start))]
    pub fn new(
        alloc: Global,
        blanks: Blanks,
        world: World,
        count: u64,
    ) -> Result<(Shared<L>, Vec<Handle<L>>), (ShareFault, World)>
        requires names { (blanks.added.name ≡ L.name) × (blanks.taken.name ≡ L.taken_name) × (blanks.refused.name ≡ L.refused_name) × (blanks.cut.name ≡ L.cut_name) }
        requires parts { (blanks.added.parts ≡ L.parts) × (blanks.taken.parts ≡ L.parts) × (blanks.refused.parts ≡ L.parts) }
        requires picked { (L.handles ≡ count) × (L.handles ≡ L.parts) × (L.start ≡ world) }
        ensures fresh { IfOk result (λ r. IsCount count × AreFresh count (entry_count world) (entries_before world) r.1.items) }
        ensures refused { IfErr result (λ r. IsRefused count r.0) }
        ensures back { IfErr result (λ r. r.1 ≡ world) }
    {
        if count == 0 || count > MAX_HANDLES {
            return Err((ShareFault::BadCount, world));
        }
        let Ok(mut handles) = Vec::with_capacity(alloc, count as usize) else {
            return Err((ShareFault::Memory, world));
        };
        let (mut books, mut rights) = open_books::<L>(blanks, world.log_start());
        let since = log_len(&world);
        for id in 0..count {
            let rights = rights.split_one();
            let cut = books.cut.reached();
            handles.push_reserved(Handle {
                id,
                front: since,
                rights,
                cut,
            });
        }
        world.lemma_agrees();
        let locked = Locked {
            world,
            handles: count,
            added: 0,
            books,
        };
        let shared = Shared {
            locked: Mutex::new(locked),
        };
        Ok((shared, handles))
    }

    /// Takes the world back once all handles are handed in. Their shares then add up to the entries
    /// since it was shared, and to those that were taken out of the log since then; and the log begins
    /// no earlier than any of them has cut it.
    ///
    /// Refused with `Missing` if handles are short, with how many were handed in and how many there
    /// are; the handles and the lock then come back.
    pub fn close(
        self,
        handles: Vec<Handle<L>>,
    ) -> Result<World, (Missing, Shared<L>, Vec<Handle<L>>)>
        ensures core { IfOk result (λ w. IsCore L.start w) }
        ensures counted { IfOk result (λ w. entry_count w ≡ entry_count L.start + total_count handles.items) }
        ensures taken { IfOk result (λ w. entries_before w ≡ entries_before L.start + total_taken handles.items) }
        ensures cut { IfOk result (λ w. All (λ h. h.cut ≤ entries_before w) handles.items) }
        ensures all { IfOk result (λ _. L.handles ≤ vec_len handles) }
        ensures short { IfErr result (λ r. (r.0.held ≡ vec_len handles) × (r.0.want ≡ L.handles) × (r.0.held < r.0.want)) }
        ensures back { IfErr result (λ r. r.2.items ≡ handles.items) }
    {
        let held = handles.len() as u64;
        let Shared { locked } = self;
        let inner = locked.into_inner();
        let want = inner.handles;
        if held < want {
            let locked = Mutex::new(inner);
            return Err((Missing { held, want }, Shared { locked }, handles));
        }
        let Locked {
            world,
            handles: _,
            added: _,
            mut books,
        } = inner;
        let Some(mut all) = merge_rights(&mut books.cut, handles) else {
            unreachable!()
        };
        books.added.audit(&mut all.added);
        books.taken.audit(&mut all.taken);
        world.lemma_agrees();
        Ok(world)
    }
}

// All shares of the handles as one. None of them has cut the log after its beginning.
fn merge_rights<L: SharedLedger>(
    cut: &mut HighWater,
    mut handles: Vec<Handle<L>>,
) -> Option<Rights<L>>
    requires named { cut.old.name ≡ L.cut_name }
    ensures same { cut.new ≡ cut.old }
    ensures cut { All (λ h. h.cut ≤ cut.old.at) handles.items }
    ensures all { MatchOption result (handles.items ≡ []) (λ r. (r.added.parts ≡ vec_len handles) × (r.added.parts ≤ L.parts) × (r.added.amount ≡ total_count handles.items) × (r.taken.amount ≡ total_taken handles.items)) }
{
    let Handle {
        id: _,
        front: _,
        rights: mut first,
        cut: mut known,
    } = handles.pop()?;
    cut.compare(&mut known);
    let mut all = first.empty();
    all.merge(first);
    while let Some(handle) = handles.pop() {
        let Handle {
            id: _,
            front: _,
            rights,
            cut: mut known,
        } = handle;
        cut.compare(&mut known);
        all.merge(rights);
    }
    Some(all)
}
