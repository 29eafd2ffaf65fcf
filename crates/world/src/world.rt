//! The core: what it keeps, and what it tells of itself.
ghost use Rattle.std.specs.Option.{option_copied};
ghost use Rattle.std.specs.Prelude.{◌≡◌, ◌≤◌, ◌+◌, length, max, option_map, Some};
ghost use Rattle.lease.specs.Refusals.{Serves};
ghost use Rattle.lease.specs.Timeline.{IsValid, last_publication};
ghost use Rattle.replay.specs.Kept.{AreInPieces, IsKept};
ghost use Rattle.replay.specs.Replay.{progress_of, version_at};
ghost use Rattle.schema_version.specs.Sound.{IsSoundVersion};
ghost use Rattle.world.specs.Calls.{effective_moment};
ghost use Rattle.world.specs.State.{facts_of, recent, entry_count, entries_before, entries_kept, cut_but, cut_here, IsReplayed, Agrees};

use crate::log::Log;
use collections::ArcValue;
use lease::{Lease, Timeline};
use reorganise::Progress;
use replay::{Entry, lemma_kept_agrees};
use row_map::{Near, PairView, RankedView, Walk};
use schema_version::Schema;
use std::alloc::Global;
use std::marker::Model;
use txn_store::Store;

/// The core: the schema versions in use, the store of pairs, and the log of all accepted calls.
/// Contracts see it as its state: the checkpoint that it opened at, its whole log, how much of that
/// is no longer in memory, and its pairs.
pub struct World {
    /// The version before the newest.
    pub(crate) before: Option<ArcValue<Schema>>,
    pub(crate) newest: ArcValue<Schema>,
    pub(crate) line: Timeline,
    /// The reorganisations that have begun and are not over.
    pub(crate) begun: Vec<Progress>,
    pub(crate) store: Store,
    pub(crate) log: Log,
}

// By hand, so that a caller's proof sees one call and not each field's.
impl Drop for World {
    fn drop(self) {
        let World {
            before: _,
            newest: _,
            line: _,
            begun: _,
            store: _,
            log: _,
        } = self;
    }
}

impl Model for World {
    ghost use Rattle.world.specs.State.{State};
    ghost use Rattle.world.specs.Code.{state_code};

    ghost Value = { State };

    ghost coded = { state_code };

    ghost use Rattle.world.specs.Inside.{state_of, IsHeld};

    ghost view = { state_of };

    ghost invariant = { IsHeld };
}

impl World {
    /// The schema of the newest version or of the one before, by its number; None for any other
    /// number.
    pub fn schema(&self, version: u64) -> Option<&ArcValue<Schema>>
        ensures { option_map (λ s. s.now) result ≡ recent (facts_of self.now) version }
    {
        let newest = self.line.newest();
        if version == newest {
            return Some(&self.newest);
        }
        if version < newest && version + 1 == newest {
            return self.before.as_ref();
        }
        None
    }

    // The schema of the version of a lease that serves.
    pub(crate) fn under(&self, lease: &Lease, now: u64) -> &ArcValue<Schema>
        requires later { (facts_of self.now).moment ≤ now }
        requires serves { Serves (facts_of self.now).line lease.now now }
        ensures { version_at (facts_of self.now) lease.now.version ≡ Some result.now }
    {
        if lease.version == self.line.newest() {
            return &self.newest;
        }
        match &self.before {
            Some(before) => before,
            None => &self.newest,
        }
    }

    /// The schema of the newest version.
    pub fn newest(&self) -> &ArcValue<Schema>
        ensures { result.now ≡ (facts_of self.now).newest }
    {
        &self.newest
    }

    /// When each version was published, and for how long a lease is granted. The newest version was
    /// published at the moment of the last entry or before.
    pub fn timeline(&self) -> &Timeline
        ensures value { result.now ≡ (facts_of self.now).line }
        ensures valid { IsValid result.now }
        ensures past { last_publication result.now ≤ (facts_of self.now).moment }
    {
        &self.line
    }

    /// The moment of the last entry, 0 before the first.
    pub fn moment(&self) -> u64
        ensures { result ≡ (facts_of self.now).moment }
    {
        // the field alone answers the same, since no moment is below 0
        self.effective_moment(0)
    }

    // The moment that counts if this one is handed in: moments never go back.
    pub(crate) fn effective_moment(&self, moment: u64) -> u64
        ensures { result ≡ effective_moment self.now moment }
    {
        moment.max(self.log.moment())
    }

    /// The entries that are in memory, the first one first: all since the last cut, or since the
    /// opening. The place of the first of them is one above `log_start`.
    pub fn log(&self) -> &[Entry]
        ensures { result.now ≡ entries_kept self.now }
    {
        self.log.entries()
    }

    /// How many entries there were before those of `log`.
    pub fn log_start(&self) -> u64
        ensures { result ≡ entries_before self.now }
    {
        self.log.start()
    }

    /// How many entries there were ever: also those that were cut off, and those before the
    /// checkpoint at which this world opened. The place of a receipt counts them from 1.
    pub fn log_len(&self) -> u64
        ensures count { result ≡ entry_count self.now }
        ensures kept { result ≡ entries_before self.now + length (entries_kept self.now) }
    {
        self.log.count()
    }

    /// Hands out the entries that are in memory, the first one first, so that they may be stored, and
    /// freed outside of a lock. No later answer depends on them, but for those of `log` and
    /// `log_start`. It takes no memory, and the same time whatever there is.
    pub fn take_log(&mut self) -> Vec<Entry>
        ensures entries { result.items ≡ entries_kept self.old }
        ensures state { self.new ≡ cut_here self.old }
    {
        self.log.take()
    }

    /// Gives the memory of all entries back, as `take_log` whose answer is dropped. It takes time
    /// with the entries since the last cut.
    pub fn cut(&mut self)
        ensures { self.new ≡ cut_here self.old }
    {
        let _taken = self.take_log();
    }

    /// Gives the memory of the entries back that are in memory, but for the last `keep` of them. It
    /// takes no memory, and time with the entries that were in memory: some are freed, and the others
    /// move to the front.
    pub fn cut_but(&mut self, keep: usize)
        ensures { self.new ≡ cut_but keep self.old }
    {
        self.log.cut_but(keep);
    }

    // The begun reorganisation of an element.
    pub(crate) fn begun_of(&self, element: u32) -> Option<&Progress>
        ensures { option_copied result ≡ progress_of (facts_of self.now).progress element }
    {
        self.begun.iter().find(|p| p.element.number == element)
    }

    /// Tells that the pairs are those that the log gives, and that they agree with the rows of the
    /// log for every version that a lease may still use: whatever was called before, in whatever
    /// order. The timeline is valid, its last publication is not after the moment of the last
    /// entry, and the newest version is sound. Begun reorganisations have at most 64 pieces, and no
    /// cursor is past its piece's end. All that the theorem rests on is kept, for instance that
    /// what is begun is what its element wants.
    pub fn lemma_agrees(&self)
        ensures replayed { IsReplayed self.now }
        ensures agrees { Agrees self.now }
        ensures in_pieces { AreInPieces (facts_of self.now).progress }
        ensures valid { IsValid (facts_of self.now).line }
        ensures past { last_publication (facts_of self.now).line ≤ (facts_of self.now).moment }
        ensures sound { IsSoundVersion (facts_of self.now).newest }
        ensures kept { IsKept (facts_of self.now) }
    {
        lemma_kept_agrees();
        let _log = &self.log;
    }
}

/// The pairs of the store.
impl PairView for World {
    ghost pairs = { λ w. w.pairs };

    fn get(&self, key: &[u8]) -> Option<&[u8]> {
        self.store.get(key)
    }

    fn get_near(&self, key: &[u8], near: &mut Near) -> Option<&[u8]> {
        self.store.get_near(key, near)
    }

    fn next_at(&self, key: &[u8]) -> Option<(&[u8], &[u8])> {
        self.store.next_at(key)
    }

    fn walk(&self) -> Walk<'_> {
        self.store.walk()
    }

    fn walk_within<'a>(&'a self, low: &[u8], high: &'a [u8]) -> Walk<'a> {
        self.store.walk_within(low, high)
    }
}

impl RankedView for World {
    fn count_empty(&self, low: &[u8], high: &[u8]) -> usize {
        self.store.count_empty(low, high)
    }

    fn nth_empty(&self, low: &[u8], high: &[u8], n: usize) -> Option<&[u8]> {
        self.store.nth_empty(low, high, n)
    }
}
