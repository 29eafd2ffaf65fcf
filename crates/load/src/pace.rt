//! How long the parts of a load took.
use std::alloc::{AllocError, Global};
use std::time::{Clock, Instant};

/// When a load began, and when its parts had ended; none of them where no clock could be read.
#[derive(Clone, Copy)]
pub(crate) struct Pace {
    /// When the requests were made and the world was open.
    pub(crate) begun: Option<Instant>,
    /// When each request had its outcome.
    pub(crate) inserted: Option<Instant>,
    /// When the index was public, or its steps had stopped.
    pub(crate) filled: Option<Instant>,
    /// When the threads had ended and the audit began.
    pub(crate) settled: Option<Instant>,
    /// When the audit had ended, with the comparison of the receipts.
    pub(crate) audited: Option<Instant>,
}

/// The moment by the clock, if it can be read.
pub(crate) fn now<R: Clock>(rt: &R) -> Option<Instant> {
    Instant::now(rt).ok()
}

/// The nanoseconds from one moment to another; 0 if one of them is not known.
pub(crate) fn nanos(from: Option<Instant>, to: Option<Instant>) -> u64 {
    let (Some(from), Some(to)) = (from, to) else {
        return 0;
    };
    let took = to.saturating_duration_since(from);
    took.as_secs()
        .saturating_mul(1_000_000_000)
        .saturating_add(u64::from(took.subsec_nanos()))
}

// The milliseconds from one moment to another; 0 if one of them is not known.
fn millis(from: Option<Instant>, to: Option<Instant>) -> u64 {
    nanos(from, to) / 1_000_000
}

impl Pace {
    /// One line: how long the inserts of so many rows took, by which time the index was there, and how
    /// long the audit took. Refused only when out of memory.
    pub(crate) fn text(&self, alloc: Global, rows: u32) -> Result<String, AllocError> {
        let inserted = millis(self.begun, self.inserted);
        let filled = millis(self.begun, self.filled);
        let audited = millis(self.settled, self.audited);
        let rate = u64::from(rows).saturating_mul(1_000) / inserted.max(1);
        format!(in alloc;
            "inserted in {inserted} ms: {rate} rows a second; index public after {filled} ms; audited in {audited} ms"
        )
    }
}
