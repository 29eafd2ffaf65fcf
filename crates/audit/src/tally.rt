//! Going over a store's pairs and counting the rows, what is missing and what is too much.
ghost use Rattle.std.specs.Prelude.{◌≡◌, IfOk, Some};
ghost use Rattle.row_map.specs.declared.key.KeyOf.TheVariants.{Exists};
ghost use Rattle.audit.specs.Audit.{IsAudit, missing_by};
ghost use Rattle.audit.specs.Meaning.{AreByteStrings};
ghost use Rattle.audit.specs.inner.RowCounts.{IsByteString, AreStrings, AllStrings, given_beside, judged as judged_of, tally};
ghost use Rattle.audit.specs.inner.Made.{AreMade};
ghost use Rattle.audit.specs.inner.Met.{ArePresent, IsThere};
ghost use Rattle.std.specs.FinMap as map;

use crate::counts::Counts;
use crate::encoded_rows::{key_of, may_be_of_row, row_at};
use crate::met::{MetRow, remember};
use crate::reason::has_plain_reason;
use crate::report::CheckReport;
use crate::wanted::{Made, Wanted, all_made, count_wanted};
use keycode::Value;
use row_map::{KeyOf, Near, PairView, Walk};
use schema_version::Schema;
use std::alloc::{AllocError, Global};

// The pairs that elements give the row of a primary key.
fn count_at<V: PairView>(
    alloc: Global,
    schema: &Schema,
    view: &V,
    near: &mut Near,
    elements: &[Made<'_>],
    table: u32,
    key: &[Value],
) -> Result<Wanted, AllocError>
    requires { AreMade schema.now elements.now }
    ensures missing { IfOk result (λ w. w.missing ≡ missing_by schema.now (V.pairs view.now) (Some (Exists table key.now))) }
    ensures given { IfOk result (λ w. w.given ≡ given_beside schema.now (V.pairs view.now) (Some (Exists table key.now))) }
{
    let row = row_at(alloc, schema, view, near, table, key)?;
    count_wanted(alloc, schema, view, elements, table, &row)
}

// The same, if a key is that of a row's `exists` pair; else there are none.
fn count_row<V: PairView>(
    alloc: Global,
    schema: &Schema,
    view: &V,
    near: &mut Near,
    elements: &[Made<'_>],
    read: &Option<KeyOf>,
) -> Result<Wanted, AllocError>
    requires { AreMade schema.now elements.now }
    ensures missing { IfOk result (λ w. w.missing ≡ missing_by schema.now (V.pairs view.now) read.now) }
    ensures given { IfOk result (λ w. w.given ≡ given_beside schema.now (V.pairs view.now) read.now) }
{
    match read {
        Some(KeyOf::Exists { table, key }) => {
            count_at(alloc, schema, view, near, elements, *table, key.as_slice())
        }
        _ => Ok(Wanted {
            missing: 0,
            given: 0,
        }),
    }
}

// What one pair counts for. The row of an `exists` pair is then the one that was met last.
fn judge_pair<V: PairView>(
    alloc: Global,
    schema: &Schema,
    view: &V,
    near: &mut Near,
    elements: &[Made<'_>],
    last: &mut Option<MetRow>,
    pair: (&[u8], &[u8]),
) -> Result<Counts, AllocError>
    requires made { AreMade schema.now elements.now }
    requires present { map.get (V.pairs view.now) pair.0.now ≡ Some pair.1.now }
    requires there { IsThere (V.pairs view.now) last.old }
    ensures counts { IfOk result (λ counts. counts ≡ judged_of schema.now (V.pairs view.now) (pair.entry.0.now, pair.entry.1.now)) }
    ensures there { IsThere (V.pairs view.now) last.new }
{
    if !may_be_of_row(pair.0) {
        return Ok(Counts {
            rows: 0,
            missing: 0,
            other: 1,
            given: 0,
        });
    }
    let read = key_of(alloc, pair.0)?;
    let wanted = count_row(alloc, schema, view, near, elements, &read)?;
    let plain = has_plain_reason(alloc, schema, view, near, elements, &read, last)?;
    let rows = u64::from(matches!(read, Some(KeyOf::Exists { .. })));
    remember(last, read);
    Ok(Counts {
        rows,
        missing: wanted.missing,
        other: u64::from(!plain),
        given: wanted.given,
    })
}

// That bytes are bytes, for the proof of a walk: calling it does nothing.
fn lemma_bytes(bytes: &[u8])
    ensures { IsByteString bytes.now }
{
    let _first = bytes.first();
}

// The same of a pair.
fn lemma_strings(pair: (&[u8], &[u8]))
    ensures { AreStrings (pair.entry.0.now, pair.entry.1.now) }
{
    lemma_bytes(pair.0);
    lemma_bytes(pair.1);
}

// What the pairs that are left to go over count for.
pub(crate) fn tally_walk<V: PairView>(
    alloc: Global,
    schema: &Schema,
    view: &V,
    ahead: Walk<'_>,
) -> Result<Counts, AllocError>
    requires { ArePresent (V.pairs view.now) ahead }
    ensures counts { IfOk result (λ counts. counts ≡ tally schema.now (V.pairs view.now) ahead.entry) }
    ensures strings { IfOk result (λ counts. AllStrings ahead.entry) }
{
    let mut counts = Counts {
        rows: 0,
        missing: 0,
        other: 0,
        given: 0,
    };
    let all = all_made(alloc, schema)?;
    let elements = all.as_slice();
    let mut last = None;
    // The pairs of a row stand side by side.
    let mut near = Near::new();
    let mut walk = ahead;
    while let Some(pair) = walk.next() {
        lemma_strings(pair);
        let more = judge_pair(alloc, schema, view, &mut near, elements, &mut last, pair)?;
        counts = counts.and(more)?;
    }
    Ok(counts)
}

// What all pairs count for.
pub(crate) fn tally_all<V: PairView>(
    alloc: Global,
    schema: &Schema,
    view: &V,
) -> Result<Counts, AllocError>
    ensures counts { IfOk result (λ counts. counts ≡ tally schema.now (V.pairs view.now) (map.entries (V.pairs view.now))) }
    ensures strings { IfOk result (λ counts. AreByteStrings (V.pairs view.now)) }
{
    tally_walk(alloc, schema, view, view.walk())
}

/// Counts the rows of a store, the pairs that it lacks and the pairs that it has too much, by a
/// version of the schema and the pairs alone.
///
/// A row is an `exists` pair. Its values are those of its table's public columns, optional and
/// required; what isn't the code of just one value of the column's type counts as none. A pair is
/// missing if a public index or required column gives it to a row and the store hasn't got it with
/// just its value. A required column's is that of the row's own value, or of the default, and an
/// index takes the default for a value that a row lacks in a required column. A pair is extra if it
/// is no `exists` pair, no pair of a live column of its table beside its row's `exists` pair, and
/// no pair that a row gives a live index.
///
/// The only refusal is running out of memory.
pub fn audit<V: PairView>(
    alloc: Global,
    schema: &Schema,
    view: &V,
) -> Result<CheckReport, AllocError>
    ensures { IfOk result (λ report. IsAudit schema.now (V.pairs view.now) report) }
{
    let counts = tally_all(alloc, schema, view)?;
    schema.lemma_known();
    Ok(counts.report())
}
