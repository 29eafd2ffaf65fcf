//! Random batches on a store of many pages, beside a sorted list of what it has to hold.
ghost use Rattle.std.specs.Prelude.{◌≤◌, length};

use crate::fixtures::bytes;
use byte_map::{Bytes, KeyMap};
use row_map::{Batch, Expect, PairView};
use std::alloc::{AllocError, Global};
use txn_store::{PairSnapshot, Store};

/// What a store has to hold: numbers that rise, each with a value.
pub(crate) type Pairs = Vec<(u64, u8)>;

/// Changes of numbers that rise: a value, or none if the pair goes.
pub(crate) type Changes = Vec<(u64, Option<u8>)>;

/// Numbers that look random, the same ones at each run.
#[derive(Drop)]
pub(crate) struct Numbers {
    pub(crate) state: u64,
}

impl Numbers {
    pub(crate) fn next(&mut self) -> u64 {
        let state = self.state.wrapping_mul(25_214_903_917).wrapping_add(11);
        self.state = state;
        state >> 24
    }

    /// A number below a limit.
    pub(crate) fn below(&mut self, limit: u64) -> u64 {
        self.next().checked_rem(limit).unwrap_or(0)
    }
}

/// How many changes a batch has: up to 1,024 may be made in place.
fn size(choice: u64) -> usize {
    match choice {
        0 => 1,
        1 => 3,
        2 => 33,
        3 => 400,
        4 => 1024,
        _ => 1025,
    }
}

/// How far the numbers of a batch are apart at most.
fn step(choice: u64) -> u64 {
    match choice {
        0 => 1,
        1 => 20,
        _ => 1000,
    }
}

/// So many changes of numbers that are up to a step apart. Three of ten take a pair away.
pub(crate) fn random(
    alloc: Global,
    numbers: &mut Numbers,
    count: usize,
    step: u64,
) -> Result<Changes, AllocError> {
    let mut changes = Vec::new(alloc);
    let mut number = numbers.below(50_000);
    for _i in 0..count {
        number = number.saturating_add(1).saturating_add(numbers.below(step));
        let value = match numbers.below(10) {
            0..=2 => None,
            _ => Some(numbers.next().to_be_bytes()[7]),
        };
        changes.push((number, value))?;
    }
    Ok(changes)
}

/// Changes that take these pairs away.
fn removals(alloc: Global, pairs: &[(u64, u8)]) -> Result<Changes, AllocError> {
    let mut changes = Vec::new(alloc);
    for (number, _) in pairs {
        changes.push((*number, None))?;
    }
    Ok(changes)
}

/// Changes that take up to so many pairs away that stand side by side.
fn stretch(
    alloc: Global,
    numbers: &mut Numbers,
    pairs: &[(u64, u8)],
    count: usize,
) -> Result<Changes, AllocError> {
    let from = numbers.below(pairs.len() as u64) as usize;
    let left = if from < pairs.len() {
        &pairs[from..]
    } else {
        pairs
    };
    if count < left.len() {
        removals(alloc, &left[..count])
    } else {
        removals(alloc, left)
    }
}

/// The changes of one round.
fn changes(
    alloc: Global,
    numbers: &mut Numbers,
    pairs: &[(u64, u8)],
) -> Result<Changes, AllocError> {
    let count = size(numbers.below(6));
    if numbers.below(4) == 0 {
        return stretch(alloc, numbers, pairs, count);
    }
    let step = step(numbers.below(3));
    random(alloc, numbers, count, step)
}

/// How many of the pairs have a number below this one.
pub(crate) fn count_below(pairs: &[(u64, u8)], number: u64) -> usize
    ensures { result ≤ length pairs.now }
{
    for at in 0..pairs.len() {
        if pairs[at].0 >= number {
            return at;
        }
    }
    pairs.len()
}

/// The pairs after changes.
pub(crate) fn changed(
    alloc: Global,
    pairs: &[(u64, u8)],
    changes: &[(u64, Option<u8>)],
) -> Result<Pairs, AllocError> {
    let mut all = Vec::new(alloc);
    let mut rest = pairs;
    for (number, value) in changes {
        let (lower, others) = rest.split_at(count_below(rest, *number));
        all.extend_from_slice(lower)?;
        rest = match others {
            [(same, _), after @ ..] if same == number => after,
            _ => others,
        };
        if let Some(value) = value {
            all.push((*number, *value))?;
        }
    }
    all.extend_from_slice(rest)?;
    Ok(all)
}

/// The key of a number, after so many bytes that all keys share.
pub(crate) fn key(alloc: Global, shared: usize, number: u64) -> Result<Vec<u8>, AllocError> {
    let mut key = Vec::new(alloc);
    for _i in 0..shared {
        key.push(7)?;
    }
    key.extend_from_slice(number.to_be_bytes().as_slice())?;
    Ok(key)
}

/// Makes the changes of a store in one batch.
fn write(
    alloc: Global,
    store: &mut Store,
    shared: usize,
    changes: &[(u64, Option<u8>)],
) -> Result<bool, AllocError> {
    let mut batch = Batch::new(alloc);
    for (number, value) in changes {
        let key = Bytes::new(key(alloc, shared, *number)?)?;
        match value {
            Some(value) => batch.put(key, bytes(alloc, [*value].as_slice())?)?,
            None => batch.remove(key)?,
        }
    }
    let nothing = Expect {
        points: KeyMap::new(alloc),
        key_range: None,
    };
    Ok(store.test_and_set(alloc, &nothing, &batch).is_ok())
}

/// Whether a key is that of a number.
pub(crate) fn is_key(key: &[u8], shared: usize, number: u64) -> bool {
    if key.len() < shared {
        return false;
    }
    key.split_at(shared).1 == number.to_be_bytes().as_slice()
}

/// Whether a view has these pairs and no other.
fn holds<P: PairView>(view: &P, shared: usize, pairs: &[(u64, u8)]) -> bool {
    let mut walk = view.walk();
    for (number, value) in pairs {
        match walk.next() {
            Some((key, [held])) if is_key(key, shared, *number) && held == value => (),
            _ => return false,
        }
    }
    walk.next().is_none()
}

/// Whether a view finds a number, and the next one from it on, as the pairs say.
fn finds<P: PairView>(
    alloc: Global,
    view: &P,
    shared: usize,
    pairs: &[(u64, u8)],
    number: u64,
) -> Result<bool, AllocError> {
    let from = key(alloc, shared, number)?;
    let (value, next) = match pairs.split_at(count_below(pairs, number)).1 {
        [(own, value), ..] => (
            if *own == number { Some(*value) } else { None },
            Some(key(alloc, shared, *own)?),
        ),
        [] => (None, None),
    };
    let is_found = match (view.get(from.as_slice()), value) {
        (Some([held]), Some(value)) => *held == value,
        (None, None) => true,
        _ => false,
    };
    let is_next = match (view.next_at(from.as_slice()), next) {
        (Some((own, _)), Some(next)) => own == next.as_slice(),
        (None, None) => true,
        _ => false,
    };
    Ok(is_found && is_next)
}

/// A store beside what it has to hold, and snapshots of it beside what they have to hold.
#[derive(Drop)]
struct Run {
    numbers: Numbers,
    /// How many bytes all keys share.
    shared: usize,
    store: Store,
    pairs: Pairs,
    kept: Vec<(PairSnapshot, Pairs)>,
}

impl Run {
    fn new(alloc: Global, seed: u64, shared: usize) -> Run {
        Run {
            numbers: Numbers { state: seed },
            shared,
            store: Store::new(alloc),
            pairs: Vec::new(alloc),
            kept: Vec::new(alloc),
        }
    }

    /// Makes changes of the store and of the list, and tells whether both are the same then.
    fn apply(&mut self, alloc: Global, changes: &Changes) -> Result<bool, AllocError> {
        let is_written = write(alloc, &mut self.store, self.shared, changes.as_slice())?;
        self.pairs = changed(alloc, self.pairs.as_slice(), changes.as_slice())?;
        let number = self.numbers.below(100_000);
        let pairs = self.pairs.as_slice();
        Ok(
            is_written
                && self.store.len() == pairs.len()
                && holds(&self.store, self.shared, pairs)
                && finds(alloc, &self.store, self.shared, pairs, number)?,
        )
    }

    /// Takes a snapshot, and what it has to hold.
    fn keep(&mut self, alloc: Global) -> Result<(), AllocError> {
        let snapshot = self.store.snapshot()?;
        self.kept.push((snapshot, self.pairs.clone()?))?;
        Ok(())
    }

    /// Lets the last snapshot go, and tells whether it was as it was taken.
    fn let_go(&mut self) -> bool {
        match self.kept.pop() {
            Some((snapshot, pairs)) => holds(&snapshot, self.shared, pairs.as_slice()),
            None => true,
        }
    }

    /// A batch of random changes, after which a snapshot is taken or one is let go.
    fn round(&mut self, alloc: Global) -> Result<bool, AllocError> {
        let changes = changes(alloc, &mut self.numbers, self.pairs.as_slice())?;
        let is_applied = self.apply(alloc, &changes)?;
        match self.numbers.below(4) {
            0 => self.keep(alloc)?,
            1 => return Ok(self.let_go() && is_applied),
            _ => (),
        }
        Ok(is_applied)
    }

    /// A batch of so many changes that are up to a step apart.
    fn batch(&mut self, alloc: Global, count: usize, step: u64) -> Result<bool, AllocError> {
        let changes = random(alloc, &mut self.numbers, count, step)?;
        self.apply(alloc, &changes)
    }

    /// A batch that takes all pairs away and puts one after them, and all snapshots are let go.
    fn finish(&mut self, alloc: Global) -> Result<bool, AllocError> {
        let mut changes = removals(alloc, self.pairs.as_slice())?;
        changes.push((u64::MAX, Some(1)))?;
        let is_applied = self.apply(alloc, &changes)?;
        for _i in 0..self.kept.len() {
            if !self.let_go() {
                return Ok(false);
            }
        }
        Ok(is_applied)
    }
}

/// Whether so many rounds after a first batch leave what they have to.
fn runs(
    alloc: Global,
    seed: u64,
    shared: usize,
    first: usize,
    rounds: usize,
) -> Result<bool, AllocError> {
    let mut run = Run::new(alloc, seed, shared);
    if !run.batch(alloc, first, 5)? {
        return Ok(false);
    }
    for _i in 0..rounds {
        if !run.round(alloc)? {
            return Ok(false);
        }
    }
    run.finish(alloc)
}

/// Whether a large batch on many pairs, which a snapshot shares, leaves what it has to.
fn runs_large(alloc: Global, seed: u64) -> Result<bool, AllocError> {
    let mut run = Run::new(alloc, seed, 0);
    let is_begun = run.batch(alloc, 150_000, 20)?;
    run.keep(alloc)?;
    Ok(is_begun && run.batch(alloc, 150_000, 20)? && run.finish(alloc)?)
}

/// How many changes there are at first, how many rounds follow, how many bytes all keys share
/// (beyond 24 a page is found by whole keys alone), and how many seeds are tried. 150,000 changes
/// make more than one chunk.
const RUNS: &[(usize, usize, usize, u64)] = &[
    (0, 12, 0, 6),
    (400, 12, 30, 6),
    (150_000, 4, 0, 1),
    (150_000, 4, 30, 1),
];

#[test]
fn random_batches_leave_what_a_list_says(rt: HostRuntime) {
    for (first, rounds, shared, seeds) in RUNS {
        for seed in 0..*seeds {
            assert!(rt;
                runs(rt.alloc(), seed, *shared, *first, *rounds) == Ok(true),
                "first {first}, shared {shared}, seed {seed}"
            );
        }
    }
}

#[test]
fn a_batch_of_150_000_scattered_changes_is_made(rt: HostRuntime) {
    assert!(rt; runs_large(rt.alloc(), 7) == Ok(true));
}
