//! The audit of a store page by page: what to read besides a page, and what the page counts for.
ghost use Rattle.std.specs.Prelude.{◌≡◌, option_map};
ghost use Rattle.layer_calls.specs.Given.{With, GivesVersion, GivesPairs};
ghost use Rattle.layer_calls.specs.PageChecks.{page_end, PageRows, PageGiven, AuditsPageGiven, AuditsPage};

use crate::audits::check_outcome;
use crate::given;
use crate::outcome::{LayerOutcome, LayerReply};
use audit::CheckReport;
use byte_map::{Bytes, KeyMap};
use entry_code::pairs_bytes;
use handles::CheckOutcome;
use page_check::{check_page as count_page, given_ranges, row_ranges};
use schema_version::Schema;
use std::alloc::Global;

// The key below which a page ends, or none if it goes on to the end of the store.
fn page_end(to: &[u8]) -> Option<&[u8]>
    ensures { option_map (λ end. end.now) result ≡ page_end to.now }
{
    if to.is_empty() {
        return None;
    }
    Some(to)
}

// The ranges of the rows that a page names.
fn page_rows(
    alloc: Global,
    schema: &Schema,
    view: &KeyMap<Bytes>,
    low: &[u8],
    to: &[u8],
) -> Result<LayerReply, LayerOutcome>
    ensures { PageRows schema.now low.now to.now view.now result }
{
    let ranges = row_ranges(alloc, schema, view, low, page_end(to))?;
    Ok(LayerReply::of(pairs_bytes(alloc, ranges.as_slice())?))
}

/// Which ranges of the store a page of a check needs besides its pairs: those of the rows that its
/// keys name, unless they are all on the page. Several pairs may name one row, whose range is then
/// given as often. The reply has the code of the ranges: pairs of a first key and of one after the
/// last.
///
/// - `version`: the record of the version by which the store is checked.
/// - `pairs`: the code of all pairs of the page, by rising key; what else there is does not matter.
/// - `low`: the key from which on the page was read.
/// - `to`: the key below which it was read; none (no byte) if it was read to the end of the store.
///
/// Refused: `BAD_CODE` if the record or the pairs are none; `OUT_OF_MEMORY`, which may come in its
/// place.
pub fn check_rows(
    alloc: Global,
    version: &[u8],
    pairs: &[u8],
    low: &[u8],
    to: &[u8],
) -> Result<LayerReply, LayerOutcome>
    ensures { With GivesVersion (λ v a. With GivesPairs (PageRows v low.now to.now) pairs.now a) version.now result }
{
    let schema = given::version(alloc, version)?;
    let view = given::pairs(alloc, pairs)?;
    page_rows(alloc, schema.get(), &view, low, to)
}

// The ranges of the pairs that the rows of a page give.
fn page_given(
    alloc: Global,
    schema: &Schema,
    view: &KeyMap<Bytes>,
    low: &[u8],
    to: &[u8],
) -> Result<LayerReply, LayerOutcome>
    ensures { PageGiven schema.now low.now to.now view.now result }
{
    let ranges = given_ranges(alloc, schema, view, low, page_end(to))?;
    Ok(LayerReply::of(pairs_bytes(alloc, ranges.as_slice())?))
}

/// Which ranges a page of a check needs after those of `check_rows`: those of the pairs that its rows
/// give indexes and required columns, unless they are on the page.
///
/// - `version`, `low`, `to`: as for `check_rows`.
/// - `pairs`: the code of all pairs of the page and of the ranges of `check_rows`, by rising key; what
///   else there is does not matter.
///
/// Refused as `check_rows` is.
pub fn check_given(
    alloc: Global,
    version: &[u8],
    pairs: &[u8],
    low: &[u8],
    to: &[u8],
) -> Result<LayerReply, LayerOutcome>
    ensures { With GivesVersion (λ v a. With GivesPairs (PageGiven v low.now to.now) pairs.now a) version.now result }
{
    let schema = given::version(alloc, version)?;
    let view = given::pairs(alloc, pairs)?;
    page_given(alloc, schema.get(), &view, low, to)
}

// What the page counts for.
fn counted(
    alloc: Global,
    version: &[u8],
    pairs: &[u8],
    low: &[u8],
    to: &[u8],
) -> Result<CheckReport, LayerOutcome>
    ensures { AuditsPageGiven version.now pairs.now low.now to.now result }
{
    let schema = given::version(alloc, version)?;
    let view = given::pairs(alloc, pairs)?;
    let report = count_page(alloc, schema.get(), &view, low, page_end(to))?;
    Ok(report)
}

/// Counts the rows on a page of a store, the pairs that the store lacks for them, and the pairs on
/// the page that it has too much, by a version. The counts of pages that follow one another from the
/// first key to the end are together those of `check`.
///
/// - `version`, `low`, `to`: as for `check_rows`.
/// - `pairs`: the code of all pairs of the page, of the ranges of `check_rows` and of those of
///   `check_given`, by rising key; what else there is does not matter.
///
/// Refused as `check_rows` is.
pub fn check_page(
    alloc: Global,
    version: &[u8],
    pairs: &[u8],
    low: &[u8],
    to: &[u8],
) -> CheckOutcome
    ensures { AuditsPage version.now pairs.now low.now to.now result }
{
    let answer = counted(alloc, version, pairs, low, to);
    check_outcome(&answer)
}
