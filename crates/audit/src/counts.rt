//! What pairs count for while an audit goes over them.
ghost use Rattle.std.specs.Prelude.{◌≡◌, ◌≤◌, ◌+◌, ◌-◌, IfOk};
ghost use Rattle.audit.specs.inner.RowCounts.{added};

use crate::report::CheckReport;
use std::alloc::AllocError;

/// What pairs count for. A pair of an index is no more than counted; which of them have a reason is
/// counted from the rows, each of which is there once.
#[derive(Clone, Copy)]
pub(crate) struct Counts {
    /// The rows.
    pub(crate) rows: u64,
    /// The pairs that public indexes and required columns lack.
    pub(crate) missing: u64,
    /// The pairs that are no `exists` pair and no live column's beside one.
    pub(crate) other: u64,
    /// The pairs that live indexes have of rows.
    pub(crate) given: u64,
}

// One count and another. A count of 2^64 pairs, which no memory holds, is answered as out of
// memory.
fn sum(a: u64, b: u64) -> Result<u64, AllocError>
    ensures { IfOk result (λ sum. sum ≡ a + b) }
{
    match a.checked_add(b) {
        Some(sum) => Ok(sum),
        None => Err(AllocError),
    }
}

impl Counts {
    // The counts of both.
    pub(crate) fn and(self, more: Counts) -> Result<Counts, AllocError>
        ensures { IfOk result (λ both. both ≡ added self more) }
    {
        Ok(Counts {
            rows: sum(self.rows, more.rows)?,
            missing: sum(self.missing, more.missing)?,
            other: sum(self.other, more.other)?,
            given: sum(self.given, more.given)?,
        })
    }

    // What all pairs came to: what is neither a row's own nor given to an index is extra.
    pub(crate) fn report(self) -> CheckReport
        requires { self.given ≤ self.other }
        ensures rows { result.rows ≡ self.rows }
        ensures missing { result.missing ≡ self.missing }
        ensures extra { result.extra ≡ self.other - self.given }
    {
        CheckReport {
            rows: self.rows,
            missing: self.missing,
            extra: self.other - self.given,
        }
    }
}
