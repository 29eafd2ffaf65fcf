//! Which value a transaction or a query is refused for.
ghost use Rattle.std.specs.Prelude.{◌≡◌, Result};
ghost use Rattle.layer_calls.specs.Given.{With, GivesVersion, GivesOps, GivesQuery};
ghost use Rattle.layer_calls.specs.declared.outcome.LayerOutcome.{LayerOutcome as Refused};
ghost use Rattle.fault_calls.specs.Outcomes.{of_value};
ghost use Rattle.fault_calls.specs.Faults.{FindsTxn, FindsQuery};
ghost use Rattle.fault_calls.specs.declared.outcome.ValueOutcome.{ValueOutcome as Found};

use crate::outcome::ValueOutcome;
use layer_calls::{LayerOutcome, given};
use row_query::Query;
use row_write::RowOp;
use schema_version::Schema;
use std::alloc::Global;

// What is found in operations.
fn found_in_ops(schema: &Schema, ops: &[RowOp]) -> Result<ValueOutcome, LayerOutcome>
    ensures { FindsTxn schema.now ops.now result }
{
    Ok(ValueOutcome::found(value_faults::txn_fault(schema, ops)))
}

// What is found in the operations whose code these bytes are.
fn find_txn(alloc: Global, schema: &[u8], operations: &[u8]) -> Result<ValueOutcome, LayerOutcome>
    ensures { With GivesVersion (λ v a. With GivesOps (FindsTxn v) operations.now a) schema.now result }
{
    let schema = given::version(alloc, schema)?;
    let ops = given::ops(alloc, operations)?;
    found_in_ops(schema.get(), ops.as_slice())
}

// What is found in a query.
fn found_in_query(schema: &Schema, query: &Query) -> Result<ValueOutcome, LayerOutcome>
    ensures { FindsQuery schema.now query.now result }
{
    Ok(ValueOutcome::found(value_faults::query_fault(schema, query)))
}

// What is found in the query whose code these bytes are.
fn find_query(alloc: Global, schema: &[u8], query: &[u8]) -> Result<ValueOutcome, LayerOutcome>
    ensures { With GivesVersion (λ v a. With GivesQuery (FindsQuery v) query.now a) schema.now result }
{
    let schema = given::version(alloc, schema)?;
    let query = given::query(alloc, query)?;
    found_in_query(schema.get(), &query)
}

// What was found, or a status alone.
fn outcome_of(found: Result<ValueOutcome, LayerOutcome>) -> ValueOutcome
    ensures { result ≡ of_value found }
{
    match found {
        Ok(outcome) => outcome,
        Err(refused) => ValueOutcome::of(refused.status),
    }
}

/// Which value of a transaction is wrong: the first one for which its preparation under a version is
/// `WRONG_TYPE`, if it is. Nothing changes, and nothing is read.
///
/// - `schema`: the code of the version, as `typed_calls::schema` gives it; the record of a version
///   of the layer is the same.
/// - `operations`: what `entry_code::ops_bytes` gives for the operations.
///
/// Refused: `BAD_CODE` if the schema or the operations are none, also by a text of more than 1,024
/// bytes; `OUT_OF_MEMORY`, which may come in its place.
pub fn txn_fault(alloc: Global, schema: &[u8], operations: &[u8]) -> ValueOutcome
    ensures { (found : Result Found Refused) × With GivesVersion (λ v a. With GivesOps (FindsTxn v) operations.now a) schema.now found × (result ≡ of_value found) }
{
    outcome_of(find_txn(alloc, schema, operations))
}

/// Which value of a query is wrong: the first one for which the query under a version is
/// `WRONG_TYPE`, if it is. Nothing changes, and nothing is read.
///
/// - `schema`: as for `txn_fault`.
/// - `query`: what `entry_code::query_bytes` gives for the query.
///
/// Refused as `txn_fault`.
pub fn query_fault(alloc: Global, schema: &[u8], query: &[u8]) -> ValueOutcome
    ensures { (found : Result Found Refused) × With GivesVersion (λ v a. With GivesQuery (FindsQuery v) query.now a) schema.now found × (result ≡ of_value found) }
{
    outcome_of(find_query(alloc, schema, query))
}
