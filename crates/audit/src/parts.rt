//! An audit by several threads, each of which goes over a part of the pairs.
ghost use Rattle.std.specs.Prelude.{◌≡◌, ◌<◌, ◌≤◌, IfOk, IfSome, true};
ghost use Rattle.std.specs.Thread.{IsSync};
ghost use Rattle.std.specs.Ordering.{is_le};
ghost use Rattle.keycode.specs.Order.{bytes_cmp};
ghost use Rattle.row_map.specs.Walk.{key_range};
ghost use Rattle.audit.specs.Audit.{IsAudit};
ghost use Rattle.audit.specs.Meaning.{AreByteStrings};
ghost use Rattle.audit.specs.inner.RowCounts.{AllStrings, tally};
ghost use Rattle.std.specs.FinMap as map;

use crate::counts::Counts;
use crate::report::CheckReport;
use crate::tally::{tally_all, tally_walk};
use row_map::RankedView;
use schema_version::Schema;
use std::alloc::{AllocError, Global};
use std::thread::{Threads, join};

// The keys of rows' pairs are from the first of these to below the second, and those of indexes'
// pairs are from there to below the third.
const ROWS: &[u8] = b"R";

const AFTER_ROWS: &[u8] = b"S";

const AFTER_ALL: &[u8] = b"Y";

// What the pairs of a range count for.
fn tally_range<V: RankedView>(
    alloc: Global,
    schema: &Schema,
    view: &V,
    low: &[u8],
    high: &[u8],
) -> Result<Counts, AllocError>
    ensures counts { IfOk result (λ counts. counts ≡ tally schema.now (V.pairs view.now) (key_range (V.pairs view.now) low.now high.now)) }
    ensures strings { IfOk result (λ counts. AllStrings (key_range (V.pairs view.now) low.now high.now)) }
{
    tally_walk(alloc, schema, view, view.walk_within(low, high))
}

// The key before which so many of all parts of a range stand, if that many can be told apart.
fn middle<'a, V: RankedView>(
    view: &'a V,
    low: &[u8],
    high: &[u8],
    parts: usize,
    all: usize,
) -> Option<&'a [u8]>
    requires { parts ≤ all }
    ensures parts { IfSome result (λ m. 0 < parts) }
    ensures from { IfSome result (λ m. is_le (bytes_cmp low.now m.now) ≡ true) }
    ensures to { IfSome result (λ m. is_le (bytes_cmp m.now high.now) ≡ true) }
{
    if parts == 0 {
        return None;
    }
    view.nth_empty(low, high, view.count_empty(low, high) / all * parts)
}

// The same, by so many threads.
fn tally_parts<V: RankedView + Sync, R: Threads + Sync>(
    rt: &R,
    alloc: Global,
    schema: &Schema,
    view: &V,
    low: &[u8],
    high: &[u8],
    threads: usize,
) -> Result<Counts, AllocError>
    ensures counts { IfOk result (λ counts. counts ≡ tally schema.now (V.pairs view.now) (key_range (V.pairs view.now) low.now high.now)) }
    ensures strings { IfOk result (λ counts. AllStrings (key_range (V.pairs view.now) low.now high.now)) }
{
    let half = threads / 2;
    let Some(middle) = middle(view, low, high, half, threads) else {
        return tally_range(alloc, schema, view, low, high);
    };
    let (below, above) = join(
        rt,
        || -> Result<Counts, AllocError>
            requires { IsSync R.row × IsSync V.row }
            ensures counts { IfOk result (λ counts. counts ≡ tally schema.entry.now (V.pairs view.entry.now) (key_range (V.pairs view.entry.now) low.entry.now middle.entry.now)) }
            ensures strings { IfOk result (λ counts. AllStrings (key_range (V.pairs view.entry.now) low.entry.now middle.entry.now)) }
        { tally_parts(rt, alloc, schema, view, low, middle, half) },
        || -> Result<Counts, AllocError>
            requires { IsSync R.row × IsSync V.row × half ≤ threads }
            ensures counts { IfOk result (λ counts. counts ≡ tally schema.entry.now (V.pairs view.entry.now) (key_range (V.pairs view.entry.now) middle.entry.now high.entry.now)) }
            ensures strings { IfOk result (λ counts. AllStrings (key_range (V.pairs view.entry.now) middle.entry.now high.entry.now)) }
        { tally_parts(rt, alloc, schema, view, middle, high, threads - half) },
    );
    below?.and(above?)
}

// What all pairs count for.
fn tally_on<V: RankedView + Sync, R: Threads + Sync>(
    rt: &R,
    alloc: Global,
    schema: &Schema,
    view: &V,
    threads: usize,
) -> Result<Counts, AllocError>
    ensures counts { IfOk result (λ counts. counts ≡ tally schema.now (V.pairs view.now) (map.entries (V.pairs view.now))) }
    ensures strings { IfOk result (λ counts. AreByteStrings (V.pairs view.now)) }
{
    if view.next_at(AFTER_ALL).is_some() {
        return tally_all(alloc, schema, view);
    }
    let before = tally_range(alloc, schema, view, &[], ROWS)?;
    let rows = tally_parts(rt, alloc, schema, view, ROWS, AFTER_ROWS, threads)?;
    let indexes = tally_parts(rt, alloc, schema, view, AFTER_ROWS, AFTER_ALL, threads)?;
    before.and(rows)?.and(indexes)
}

/// Audits a store as `audit` does, on up to so many threads at once.
///
/// - `threads`: how many; with 0 or 1 the calling thread alone.
///
/// The only refusal is running out of memory.
pub fn audit_on<V: RankedView + Sync, R: Threads + Sync>(
    rt: &R,
    alloc: Global,
    schema: &Schema,
    view: &V,
    threads: usize,
) -> Result<CheckReport, AllocError>
    ensures { IfOk result (λ report. IsAudit schema.now (V.pairs view.now) report) }
{
    let counts = tally_on(rt, alloc, schema, view, threads)?;
    schema.lemma_known();
    Ok(counts.report())
}
