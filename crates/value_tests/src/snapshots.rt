//! Five snapshots of a store, and a store that another shares its pages with, which come and go between
//! random batches, each beside a sorted list of what it has to hold.
use crate::batches::{Changes, Numbers, Pairs, changed, count_below, is_key, key, random};
use crate::fixtures::byte;
use byte_map::{Bytes, KeyMap};
use row_map::{Batch, Expect, PairView, RankedView, ReadView};
use std::alloc::{AllocError, Global};
use std::mem::replace;
use txn_store::{PairSnapshot, Store};

/// How many snapshots are held at once.
const HELD: usize = 5;

/// Beyond 24 bytes that all keys share a page is found by whole keys alone.
const SHARED: [usize; 3] = [0, 14, 30];

/// The value of a number: an empty one for a third of them.
fn value(alloc: Global, content: u8) -> Result<Bytes, AllocError> {
    if content < 85 {
        return Bytes::new(Vec::new(alloc));
    }
    byte(alloc, content)
}

/// Whether a value is that of a number.
fn is_value(held: &[u8], content: u8) -> bool {
    match held {
        [] => content < 85,
        [own] => *own == content && content >= 85,
        _ => false,
    }
}

/// Whether a view has these pairs and no other, and counts those with an empty value.
fn holds<P: RankedView>(view: &P, shared: usize, pairs: &[(u64, u8)]) -> bool {
    let mut walk = view.walk();
    let mut empty = 0usize;
    for (number, content) in pairs {
        match walk.next() {
            Some((key, held)) if is_key(key, shared, *number) && is_value(held, *content) => {
                empty = empty.saturating_add(usize::from(held.is_empty()));
            }
            _ => return false,
        }
    }
    let last = [u8::MAX; 40];
    walk.next().is_none() && view.count_empty(&[], last.as_slice()) == empty
}

/// What is expected of the keys that changes name: that the store has what the list has.
fn expected(
    alloc: Global,
    shared: usize,
    pairs: &[(u64, u8)],
    changes: &[(u64, Option<u8>)],
) -> Result<ReadView, AllocError> {
    let mut points = KeyMap::new(alloc);
    for (number, _) in changes {
        let held = match pairs.split_at(count_below(pairs, *number)).1 {
            [(own, content), ..] if own == number => Some(value(alloc, *content)?),
            _ => None,
        };
        points.insert(Bytes::new(key(alloc, shared, *number)?)?, held)?;
    }
    Ok(points)
}

/// The changes as one batch.
fn batch_of(
    alloc: Global,
    shared: usize,
    changes: &[(u64, Option<u8>)],
) -> Result<Batch, AllocError> {
    let mut batch = Batch::new(alloc);
    for (number, change) in changes {
        let key = Bytes::new(key(alloc, shared, *number)?)?;
        match change {
            Some(content) => batch.put(key, value(alloc, *content)?)?,
            None => batch.remove(key)?,
        }
    }
    Ok(batch)
}

/// New pairs after all others, with numbers that rise one by one.
fn appended(
    alloc: Global,
    numbers: &mut Numbers,
    pairs: &[(u64, u8)],
    count: usize,
) -> Result<Changes, AllocError> {
    let mut number = match pairs.last() {
        Some((last, _)) => *last,
        None => 0,
    };
    let mut changes = Vec::new(alloc);
    for _i in 0..count {
        number = number.saturating_add(1);
        changes.push((number, Some(numbers.next().to_be_bytes()[7])))?;
    }
    Ok(changes)
}

/// A store beside what it has to hold, and the snapshots that are held.
#[derive(Drop)]
struct Run {
    numbers: Numbers,
    shared: usize,
    store: Store,
    pairs: Pairs,
    held: Vec<(PairSnapshot, Pairs)>,
    left: Option<(Store, Pairs)>,
}

impl Run {
    fn new(alloc: Global, seed: u64, shared: usize) -> Run {
        Run {
            numbers: Numbers { state: seed },
            shared,
            store: Store::new(alloc),
            pairs: Vec::new(alloc),
            held: Vec::new(alloc),
            left: None,
        }
    }

    /// Makes changes of the store and of the list, and tells whether both are the same then.
    fn apply(&mut self, alloc: Global, changes: &Changes) -> Result<bool, AllocError> {
        let expect = Expect {
            points: expected(
                alloc,
                self.shared,
                self.pairs.as_slice(),
                changes.as_slice(),
            )?,
            key_range: None,
        };
        let batch = batch_of(alloc, self.shared, changes.as_slice())?;
        let is_set = self.store.test_and_set(alloc, &expect, &batch).is_ok();
        self.pairs = changed(alloc, self.pairs.as_slice(), changes.as_slice())?;
        Ok(is_set && holds(&self.store, self.shared, self.pairs.as_slice()))
    }

    /// Takes a snapshot, into the place of any one if five are held.
    fn take(&mut self) -> Result<(), AllocError> {
        let new = (self.store.snapshot()?, self.pairs.clone()?);
        let place = self.numbers.below(HELD as u64) as usize;
        if self.held.len() >= HELD && place < self.held.len() {
            self.held[place] = new;
        } else {
            self.held.push(new)?;
        }
        Ok(())
    }

    /// Goes on with a store that shares the pages of this one, which is left as it is.
    fn go_on_shared(&mut self) -> Result<(), AllocError> {
        let pairs = self.pairs.clone()?;
        let shared = self.store.share()?;
        self.left = Some((replace(&mut self.store, shared), pairs));
        Ok(())
    }

    /// Whether the store that was left is as it was.
    fn is_left(&self) -> bool {
        match &self.left {
            Some((store, pairs)) => holds(store, self.shared, pairs.as_slice()),
            None => true,
        }
    }

    /// Whether each snapshot is as it was taken.
    fn is_kept(&self) -> bool {
        for (snapshot, pairs) in self.held.as_slice() {
            if !holds(snapshot, self.shared, pairs.as_slice()) {
                return false;
            }
        }
        true
    }

    /// A few small batches, scattered or after all pairs, and then maybe a snapshot.
    fn round(&mut self, alloc: Global) -> Result<bool, AllocError> {
        for count in [1, 3, 17] {
            let changes = match self.numbers.below(2) {
                0 => random(alloc, &mut self.numbers, count, 40)?,
                _ => appended(alloc, &mut self.numbers, self.pairs.as_slice(), count)?,
            };
            if !self.apply(alloc, &changes)? {
                return Ok(false);
            }
        }
        match self.numbers.below(3) {
            0 => self.go_on_shared()?,
            _ => self.take()?,
        }
        Ok(self.is_kept() && self.is_left())
    }
}

/// Whether rounds after a first batch leave what they have to, in the store and in its snapshots.
fn runs(alloc: Global, seed: u64, shared: usize) -> Result<bool, AllocError> {
    let mut run = Run::new(alloc, seed, shared);
    let first = random(alloc, &mut run.numbers, 300, 5)?;
    if !run.apply(alloc, &first)? {
        return Ok(false);
    }
    for _i in 0..12 {
        if !run.round(alloc)? {
            return Ok(false);
        }
    }
    Ok(true)
}

#[test]
fn five_snapshots_hold_what_their_lists_say(rt: HostRuntime) {
    for shared in SHARED {
        for seed in 0..2 {
            assert!(rt;
                runs(rt.alloc(), seed, shared) == Ok(true),
                "shared {shared}, seed {seed}"
            );
        }
    }
}
