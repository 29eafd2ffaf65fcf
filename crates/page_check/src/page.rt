//! Going over a page of a store's pairs and counting the rows, what is missing and what is too much.
ghost use Rattle.std.specs.Prelude.{◌≡◌, ◌+◌, IfOk, option_map};
ghost use Rattle.page_check.specs.Page.{is_on_page as is_on_page_of, page_of, IsPageAudit};
ghost use Rattle.page_check.specs.inner.Counted.{added};

use crate::judge::judge_pair;
use audit::CheckReport;
use row_map::PairView;
use schema_version::Schema;
use std::alloc::{AllocError, Global};

// Whether a key is on the page that begins at `low` and ends below `to`, or goes on to the end.
pub(crate) fn is_on_page(key: &[u8], low: &[u8], to: Option<&[u8]>) -> bool
    ensures { result ≡ is_on_page_of low.now (option_map (λ b. b.now) to.entry) key.now }
{
    if key.cmp(low).is_lt() {
        return false;
    }
    match to {
        None => true,
        Some(to) => key.cmp(to).is_lt(),
    }
}

// One count and another. A count of 2^64, which no memory holds, is answered as out of memory.
fn sum(a: u64, b: u64) -> Result<u64, AllocError>
    ensures { IfOk result (λ sum. sum ≡ a + b) }
{
    match a.checked_add(b) {
        Some(sum) => Ok(sum),
        None => Err(AllocError),
    }
}

// What both count for.
fn add(a: CheckReport, b: CheckReport) -> Result<CheckReport, AllocError>
    ensures { IfOk result (λ both. both ≡ added a b) }
{
    Ok(CheckReport {
        rows: sum(a.rows, b.rows)?,
        missing: sum(a.missing, b.missing)?,
        extra: sum(a.extra, b.extra)?,
    })
}

/// Counts the rows on a page of a store, the pairs that the store lacks for them, and the pairs on
/// the page that it has too much, by a version of the schema: what `audit` counts of these pairs.
/// Refused only when out of memory.
///
/// - `schema`: the version by which the pairs are read.
/// - `view`: what was read of the store: the page, and what `row_ranges` and then `given_ranges` give
///   for it.
/// - `low`: the key from which on the page was read.
/// - `to`: the key below which it was read; None if it was read to the end of the store.
pub fn check_page<V: PairView>(
    alloc: Global,
    schema: &Schema,
    view: &V,
    low: &[u8],
    to: Option<&[u8]>,
) -> Result<CheckReport, AllocError>
    ensures { IfOk result (λ report. IsPageAudit schema.now (V.pairs view.now) (page_of (V.pairs view.now) low.now (option_map (λ b. b.now) to.entry)) report) }
{
    let mut report = CheckReport {
        rows: 0,
        missing: 0,
        extra: 0,
    };
    let mut walk = view.walk();
    while let Some(pair) = walk.next() {
        if is_on_page(pair.0, low, to) {
            report = add(report, judge_pair(alloc, schema, view, pair)?)?;
        }
    }
    Ok(report)
}
