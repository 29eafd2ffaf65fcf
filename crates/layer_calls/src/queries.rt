//! Queries: which ranges of the store to read, and the rows of what was read.
ghost use Rattle.std.specs.Prelude.{◌≡◌};
ghost use Rattle.layer_calls.specs.Given.{With, GivesVersion, GivesQuery, GivesPairs};
ghost use Rattle.layer_calls.specs.Queries.{query_refusal, path_number, CodesRanges, Asks, AsksRows, Answers};

use crate::given;
use crate::outcome::{LayerOutcome, LayerReply};
use byte_map::{Bytes, KeyMap};
use collections::List;
use entry_code::{pairs_bytes, rows_bytes};
use handles::typed_calls::fault_outcome;
use row_ask::{Remaining, after_index, answer_read, begin, ranges_of};
use row_query::{Query, QueryFault};
use schema_version::Schema;
use std::alloc::Global;

// What a fault of the query is reported as.
fn query_refusal(fault: QueryFault) -> LayerOutcome
    ensures { result ≡ query_refusal fault }
{
    let outcome = fault_outcome(fault);
    LayerOutcome {
        status: outcome.status,
        column: outcome.column,
        number: 0,
        length: 0,
    }
}

// The number of the path by which a query is answered.
fn path_number(remaining: &Remaining) -> u64
    ensures { result ≡ path_number remaining.now }
{
    match remaining {
        Remaining::Rows(_) => 0,
        Remaining::Index(_) => 1,
        Remaining::Scan(_) => 2,
    }
}

// The ranges that are still to be read, with the path.
fn ranges_reply(
    alloc: Global,
    table: u32,
    remaining: &Remaining,
) -> Result<LayerReply, LayerOutcome>
    ensures { CodesRanges table remaining.now result }
{
    let ranges = ranges_of(alloc, table, remaining)?;
    let code = pairs_bytes(alloc, ranges.as_slice())?;
    Ok(LayerReply {
        code: List::new(code),
        number: path_number(remaining),
    })
}

// The ranges that a query reads first.
fn ask(alloc: Global, schema: &Schema, query: &Query) -> Result<LayerReply, LayerOutcome>
    ensures { Asks schema.now query.now result }
{
    match begin(alloc, schema, query) {
        Ok(remaining) => ranges_reply(alloc, query.table, &remaining),
        Err(fault) => Err(query_refusal(fault)),
    }
}

/// Which ranges of the store a query has to read first: the row of its key; a part of an index, whose
/// rows `row_ranges` then gives; or the rows of the table. The reply's number is 0, 1 or 2, and its
/// code that of the ranges: pairs of the first key and of one after the last.
///
/// - `version`: the record of the version under which the query runs.
/// - `query`: what `entry_code::query_bytes` gives for the query.
///
/// Refused, in this order: `BAD_CODE` if the record or the query is none; `NO_TABLE`, `NOT_PUBLIC`
/// with the column and `WRONG_TYPE` as `row_query::answer` refuses; `OUT_OF_MEMORY`, which may come
/// in place of any.
pub fn ranges(alloc: Global, version: &[u8], query: &[u8]) -> Result<LayerReply, LayerOutcome>
    ensures { With GivesVersion (λ v a. With GivesQuery (Asks v) query.now a) version.now result }
{
    let schema = given::version(alloc, version)?;
    let query = given::query(alloc, query)?;
    ask(alloc, schema.get(), &query)
}

// The ranges of the rows that stand in the part of the index that was read.
fn ask_rows(
    alloc: Global,
    schema: &Schema,
    query: &Query,
    view: &KeyMap<Bytes>,
) -> Result<LayerReply, LayerOutcome>
    ensures { AsksRows schema.now query.now view.now result }
{
    match begin(alloc, schema, query) {
        Ok(remaining) => {
            let rest = after_index(alloc, remaining, view)?;
            ranges_reply(alloc, query.table, &rest)
        }
        Err(fault) => Err(query_refusal(fault)),
    }
}

/// Which ranges of the store a query has to read after the part of its index: those of the rows that
/// stand there. A query by another path gets what `ranges` gives.
///
/// - `version`, `query`: as for `ranges`.
/// - `pairs`: the code of all pairs of that part, as they were read, by rising key.
///
/// Refused as `ranges` is, `BAD_CODE` also for the pairs.
pub fn row_ranges(
    alloc: Global,
    version: &[u8],
    query: &[u8],
    pairs: &[u8],
) -> Result<LayerReply, LayerOutcome>
    ensures { With GivesVersion (λ v a. With GivesQuery (λ q b. With GivesPairs (AsksRows v q) pairs.now b) query.now a) version.now result }
{
    let schema = given::version(alloc, version)?;
    let query = given::query(alloc, query)?;
    let view = given::pairs(alloc, pairs)?;
    ask_rows(alloc, schema.get(), &query, &view)
}

// The code of the rows of what was read.
fn answer(
    alloc: Global,
    schema: &Schema,
    query: &Query,
    view: &KeyMap<Bytes>,
) -> Result<LayerReply, LayerOutcome>
    ensures { Answers schema.now query.now view.now result }
{
    match answer_read(alloc, schema, query, view) {
        Ok(rows) => Ok(LayerReply::of(rows_bytes(alloc, &rows)?)),
        Err(fault) => Err(query_refusal(fault)),
    }
}

/// The code of the rows that a query asks for, of a store all of whose ranges were read at one moment:
/// those of `ranges`, and by an index also those of `row_ranges`. The rows are the plain answer over
/// the rows of the store, if its pairs are those that the version demands of them.
///
/// - `version`, `query`: as for `ranges`.
/// - `pairs`: the code of all pairs that were read, by rising key; what else there is does not matter.
///
/// Refused as `ranges` is, `BAD_CODE` also for the pairs.
pub fn rows(
    alloc: Global,
    version: &[u8],
    query: &[u8],
    pairs: &[u8],
) -> Result<LayerReply, LayerOutcome>
    ensures { With GivesVersion (λ v a. With GivesQuery (λ q b. With GivesPairs (Answers v q) pairs.now b) query.now a) version.now result }
{
    let schema = given::version(alloc, version)?;
    let query = given::query(alloc, query)?;
    let view = given::pairs(alloc, pairs)?;
    answer(alloc, schema.get(), &query, &view)
}
