//! The times of a load's writes and steps, which its threads note and its sampler reads.

use crate::index_step::{IndexStep, STEP_COUNT};
use crate::options::LoadOptions;
use crate::pace::now;
use std::alloc::{AllocError, Global};
use std::sync::Wait;
use std::sync::atomic::Ordering::SeqCst;
use std::sync::atomic::{AtomicBool, AtomicU64};
use std::thread;
use std::time::{Clock, Duration, Instant};

/// How many nanoseconds a second has.
pub(crate) const SECOND: u64 = 1_000_000_000;

/// How many nanoseconds before a write is due the thread that waits for it wakes up: from then on it
/// asks the clock, as a sleep may last longer than it should.
const EARLY: u64 = 100_000;

/// The longest sleep, in nanoseconds.
const LONGEST_SLEEP: u64 = 100_000_000;

/// When a step was made.
#[derive(Drop)]
struct StepTime {
    // the version that it published; 0 if it publishes none
    version: AtomicU64,
    // as the times of a meter
    ended: AtomicU64,
}

/// What threads note while a load runs. Times are in nanoseconds since the load began; in the tables
/// each is one more than that, and 0 until it is noted.
#[derive(Drop)]
pub(crate) struct Meter {
    /// When the load began, if the clock can be read.
    pub(crate) begun: Option<Instant>,
    // how many rows a second are due
    rate: Option<u32>,
    // when each write was due, or drawn by a thread, by its number
    begins: Vec<AtomicU64>,
    // how long writes took, in the order in which they ended
    took: Vec<AtomicU64>,
    // how many writes have ended
    ended: AtomicU64,
    // the steps, each at its place
    steps: [StepTime; STEP_COUNT],
    // whether all writes and steps have ended
    is_over: AtomicBool,
    // whether nothing waits any more until it is due
    is_hurried: AtomicBool,
}

// A table of times that are not noted yet.
fn blank_times(alloc: Global, count: u32) -> Result<Vec<AtomicU64>, AllocError> {
    let mut times = Vec::new(alloc);
    for _i in 0..count {
        times.push(AtomicU64::new(0))?;
    }
    Ok(times)
}

fn blank_step() -> StepTime {
    StepTime {
        version: AtomicU64::new(0),
        ended: AtomicU64::new(0),
    }
}

/// When the write of this number is due, in nanoseconds.
fn due_at(number: usize, rate: u32) -> u64 {
    (number as u64).saturating_mul(SECOND) / u64::from(rate.max(1))
}

impl Meter {
    /// A meter of a load of so many rows, which begins now. It keeps no times unless they are asked for.
    /// Refused only when out of memory.
    pub(crate) fn new<R: Clock>(
        rt: &R,
        alloc: Global,
        rows: u32,
        options: LoadOptions,
    ) -> Result<Meter, AllocError> {
        let kept = if options.is_sampled { rows } else { 0 };
        let begins = blank_times(alloc, kept)?;
        let took = blank_times(alloc, kept)?;
        Ok(Meter {
            begun: now(rt),
            rate: options.rate,
            begins,
            took,
            ended: AtomicU64::new(0),
            steps: [
                blank_step(),
                blank_step(),
                blank_step(),
                blank_step(),
                blank_step(),
            ],
            is_over: AtomicBool::new(false),
            is_hurried: AtomicBool::new(false),
        })
    }

    /// The nanoseconds since the load began, if the clock can be read.
    pub(crate) fn elapsed<R: Clock>(&self, rt: &R) -> Option<u64> {
        let passed = now(rt)?.saturating_duration_since(self.begun?);
        let nanos = u64::from(passed.subsec_nanos());
        Some(
            passed
                .as_secs()
                .saturating_mul(SECOND)
                .saturating_add(nanos),
        )
    }

    /// Notes that a thread drew the write of this number. Its time counts from when it is due, or from
    /// now if no rate is asked for.
    pub(crate) fn note_begin<R: Clock>(&self, rt: &R, number: usize) {
        let Some(begin) = self.begins.as_slice().get(number) else {
            return;
        };
        let at = match self.rate {
            Some(rate) => due_at(number, rate),
            None => self.elapsed(rt).unwrap_or(0),
        };
        begin.store(at.saturating_add(1), SeqCst);
    }

    /// Notes that the write of this number has ended.
    pub(crate) fn note_end<R: Clock>(&self, rt: &R, number: usize) {
        let Some(begin) = self.begins.as_slice().get(number) else {
            return;
        };
        let end = self.elapsed(rt).unwrap_or(0).saturating_add(1);
        let took = end.saturating_sub(begin.load(SeqCst));
        let place = self.ended.fetch_add(1, SeqCst);
        if let Some(slot) = self.took.as_slice().get(place as usize) {
            slot.store(took.saturating_add(1), SeqCst);
        }
    }

    /// How long writes took that ended, from the one of this place in the order of their ends on.
    /// Refused only when out of memory.
    pub(crate) fn read_took(&self, from: usize, times: &mut Vec<u64>) -> Result<(), AllocError> {
        for place in from..self.took.len() {
            let Some(slot) = self.took.as_slice().get(place) else {
                return Ok(());
            };
            match slot.load(SeqCst).checked_sub(1) {
                Some(took) => times.push(took)?,
                None => return Ok(()),
            }
        }
        Ok(())
    }

    /// Whether the write of this number is due. If it is not, the thread sleeps first, until a little
    /// before it is.
    pub(crate) fn is_due<R: Clock>(&self, rt: &R, number: usize) -> bool {
        let Some(rate) = self.rate else {
            return true;
        };
        let Some(now) = self.elapsed(rt) else {
            return true;
        };
        let left = due_at(number, rate).saturating_sub(now);
        if left == 0 || self.is_hurried.load(SeqCst) {
            return true;
        }
        if left > EARLY {
            let nanos = (left - EARLY).min(LONGEST_SLEEP);
            thread::sleep(rt, Duration::from_nanos(nanos));
        }
        false
    }

    /// Waits until the write of this number is due.
    pub(crate) fn wait_until_due<R: Clock + Wait>(&self, rt: &R, number: usize) {
        for _i in rt.forever() {
            if self.is_due(rt, number) {
                return;
            }
            thread::yield_now();
        }
    }

    /// Notes that a step was made, with the version that it published; 0 if it published none.
    pub(crate) fn note_step<R: Clock>(&self, rt: &R, step: IndexStep, version: u64) {
        if let Some(time) = self.steps.get(step.place()) {
            let at = self.elapsed(rt).unwrap_or(0);
            time.version.store(version, SeqCst);
            time.ended.store(at.saturating_add(1), SeqCst);
        }
    }

    /// When the step was made, and the version that it published; `None` until it is made.
    pub(crate) fn read_step(&self, step: IndexStep) -> Option<(u64, u64)> {
        let time = self.steps.get(step.place())?;
        let at = time.ended.load(SeqCst).checked_sub(1)?;
        Some((at, time.version.load(SeqCst)))
    }

    /// Notes that all writes and steps have ended.
    pub(crate) fn finish(&self) {
        self.is_over.store(true, SeqCst);
    }

    /// Whether all writes and steps have ended.
    pub(crate) fn is_over(&self) -> bool {
        self.is_over.load(SeqCst)
    }

    /// From now on nothing waits until it is due.
    pub(crate) fn hurry(&self) {
        self.is_hurried.store(true, SeqCst);
    }
}
