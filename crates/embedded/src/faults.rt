//! Which value or which declaration a refusal is for: each function is a call of `fault_calls`.
ghost use Rattle.std.specs.Prelude.{◌≡◌, Result};
ghost use Rattle.layer_calls.specs.Given.{With, GivesVersion, GivesOps, GivesQuery, GivesOpening};
ghost use Rattle.layer_calls.specs.declared.outcome.LayerOutcome.{LayerOutcome as Refused};
ghost use Rattle.fault_calls.specs.Outcomes.{of_value, of_table};
ghost use Rattle.fault_calls.specs.Faults.{FindsTxn, FindsQuery, FindsTables};
ghost use Rattle.fault_calls.specs.declared.outcome.ValueOutcome.{ValueOutcome as FoundValue};
ghost use Rattle.fault_calls.specs.declared.outcome.TableOutcome.{TableOutcome as FoundTable};

use fault_calls::{TableOutcome, ValueOutcome};
use std::alloc::Global;

/// `fault_calls::txn_fault`.
#[unsafe(no_mangle)]
pub extern "C" fn cagzhomul_txn_fault(
    alloc: Global,
    schema: &[u8],
    operations: &[u8],
) -> ValueOutcome
    ensures { (found : Result FoundValue Refused) × With GivesVersion (λ v a. With GivesOps (FindsTxn v) operations.now a) schema.now found × (result ≡ of_value found) }
{
    fault_calls::txn_fault(alloc, schema, operations)
}

/// `fault_calls::query_fault`.
#[unsafe(no_mangle)]
pub extern "C" fn cagzhomul_query_fault(alloc: Global, schema: &[u8], query: &[u8]) -> ValueOutcome
    ensures { (found : Result FoundValue Refused) × With GivesVersion (λ v a. With GivesQuery (FindsQuery v) query.now a) schema.now found × (result ≡ of_value found) }
{
    fault_calls::query_fault(alloc, schema, query)
}

/// `fault_calls::opening_fault`.
#[unsafe(no_mangle)]
pub extern "C" fn cagzhomul_opening_fault(alloc: Global, opening: &[u8]) -> TableOutcome
    ensures { (found : Result FoundTable Refused) × With GivesOpening (λ o a. FindsTables o.1 a) opening.now found × (result ≡ of_table found) }
{
    fault_calls::opening_fault(alloc, opening)
}
