//! The audit of pairs that were read.
ghost use Rattle.std.specs.Prelude.{◌≡◌};
ghost use Rattle.layer_calls.specs.Audits.{check_outcome, AuditsGiven, Audits};

use crate::given;
use crate::outcome::LayerOutcome;
use audit::{CheckReport, audit};
use handles::CheckOutcome;
use handles::typed_calls::status::OK;
use std::alloc::Global;

// What the audit counts.
fn counted(alloc: Global, version: &[u8], pairs: &[u8]) -> Result<CheckReport, LayerOutcome>
    ensures { AuditsGiven version.now pairs.now result }
{
    let schema = given::version(alloc, version)?;
    let view = given::pairs(alloc, pairs)?;
    let report = audit(alloc, schema.get(), &view)?;
    Ok(report)
}

// What it is reported as.
pub(crate) fn check_outcome(answer: &Result<CheckReport, LayerOutcome>) -> CheckOutcome
    ensures { result ≡ check_outcome answer.now }
{
    match answer {
        Ok(report) => CheckOutcome {
            status: OK,
            rows: report.rows,
            missing: report.missing,
            extra: report.extra,
        },
        Err(outcome) => CheckOutcome {
            status: outcome.status,
            rows: 0,
            missing: 0,
            extra: 0,
        },
    }
}

/// Counts the rows of a store that was read whole, the pairs that it lacks and those that it has too
/// much, by a version.
///
/// - `version`: its record.
/// - `pairs`: the code of all pairs of rows and indexes, by rising key.
///
/// Refused: `BAD_CODE` if the record or the pairs are none; `OUT_OF_MEMORY`, which may come in its place.
pub fn check(alloc: Global, version: &[u8], pairs: &[u8]) -> CheckOutcome
    ensures { Audits version.now pairs.now result }
{
    let answer = counted(alloc, version, pairs);
    check_outcome(&answer)
}
