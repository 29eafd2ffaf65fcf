//! Why tables may not be declared.
ghost use Rattle.std.specs.Prelude.{◌≡◌, Result};
ghost use Rattle.layer_calls.specs.Given.{With, GivesOpening};
ghost use Rattle.layer_calls.specs.declared.outcome.LayerOutcome.{LayerOutcome as Refused};
ghost use Rattle.fault_calls.specs.Outcomes.{of_table};
ghost use Rattle.fault_calls.specs.Faults.{FindsTables};
ghost use Rattle.fault_calls.specs.declared.outcome.TableOutcome.{TableOutcome as Found};

use crate::outcome::TableOutcome;
use layer_calls::{LayerOutcome, given};
use std::alloc::Global;
use table_faults::declaration_fault;

// What the search in an opening comes to.
fn find_opening(alloc: Global, opening: &[u8]) -> Result<TableOutcome, LayerOutcome>
    ensures { With GivesOpening (λ o a. FindsTables o.1 a) opening.now result }
{
    let (_, tables) = given::opening(alloc, opening)?;
    Ok(TableOutcome::found(declaration_fault(tables.as_slice())))
}

// What was found, or a status alone.
fn outcome_of(found: Result<TableOutcome, LayerOutcome>) -> TableOutcome
    ensures { result ≡ of_table found }
{
    match found {
        Ok(outcome) => outcome,
        Err(refused) => TableOutcome::of(refused.status),
    }
}

/// Why the tables of an opening may not be declared: the first fault, for which an opening with them
/// is `BAD_TABLE`, if it is. Nothing changes.
///
/// - `opening`: what `entry_code::opening_bytes` gives for the tables. Its lease length is not
///   looked at.
///
/// Refused: `BAD_CODE` if the bytes are the code of no opening; `OUT_OF_MEMORY`, which may come in
/// its place.
pub fn opening_fault(alloc: Global, opening: &[u8]) -> TableOutcome
    ensures { (found : Result Found Refused) × With GivesOpening (λ o a. FindsTables o.1 a) opening.now found × (result ≡ of_table found) }
{
    outcome_of(find_opening(alloc, opening))
}
