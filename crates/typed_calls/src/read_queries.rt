//! Queries of the rows that a transaction read.
ghost use Rattle.std.specs.Prelude.{◌≡◌, ◌↔◌, ◌∷◌, [], ◌⊎◌, IfOk, IfErr, OnOk, IsTrue, Some, is_some, option_map};
ghost use Rattle.std.specs.List.{list_all};
ghost use Rattle.std.specs.FinMap as map;
ghost use Rattle.entry_code.specs.Known.{IsQuery};
ghost use Rattle.keycode.specs.Valid.{IsStorable};
ghost use Rattle.row_map.specs.Rows.{Bytes as ByteString};
ghost use Rattle.row_query.specs.Answer.{is_named};
ghost use Rattle.row_query.specs.declared.fault.QueryFault.TheVariants.{Memory};
ghost use Rattle.row_query.specs.Refused.{IsRefused, IsSound};
ghost use Rattle.row_write.specs.Reads.{IsRead};
ghost use Rattle.row_write.specs.declared.op.RowOp.TheVariants.{Delete};
ghost use Rattle.schema_version.specs.Version.{live};
ghost use Rattle.typed_calls.specs.Queries.{AnswersCode};
ghost use Rattle.typed_calls.specs.ReadQueries.{only_key, IsRowRead, AnswersRow, QueriesRow};
ghost use Rattle.typed_calls.specs.inner.ReadRows.{cell_read, is_wanted, named_cell, cells_read, was_there, rows_read};

use crate::queries::{QueryOutcome, fault_outcome};
use crate::reads::Reads;
use crate::status::{BAD_CODE, OUT_OF_MEMORY, VIEW_MISMATCH};
use byte_map::{Bytes, KeyMap};
use collections::List;
use entry_code::{CodeFault, query_of, rows_bytes};
use keycode::{Value, Values};
use row_map::{ReadSet, ReadView, Row, column_key, exists_key, read_only_value};
use row_query::{Cond, Query, QueryFault, answer};
use row_write::{RowOp, reads_of};
use schema_version::{ElementDef, Schema};
use std::alloc::{AllocError, Global};
use std::slice::from_ref;

// The key that is the query's only condition.
fn only_key(query: &Query) -> Option<&Values>
    ensures { option_map (λ k. k.now) result ≡ only_key query.now.conditions }
{
    match query.conditions.as_slice() {
        [Cond::Key(key)] => Some(key),
        _ => None,
    }
}

// Looks for the query's fault: of no pairs `answer` reads nothing, once it has found none.
fn check_query(alloc: Global, schema: &Schema, query: &Query) -> Result<(), QueryFault>
    ensures refused { IfErr result (λ fault. ((fault ≡ Memory) × IsSound schema.now query.now) ⊎ IsRefused schema.now query.now fault) }
    ensures sound { OnOk result (IsSound schema.now query.now) }
{
    let nothing: KeyMap<Bytes> = KeyMap::new(alloc);
    answer(alloc, schema, &nothing, query)?;
    Ok(())
}

// The keys of a row's pairs, which an operation on it reads.
fn row_keys(alloc: Global, schema: &Schema, table: u32, key: &Values) -> Result<ReadSet, AllocError>
    ensures { IfOk result (λ keys. (name : ByteString) → (map.get keys name ≡ Some tt) ↔ IsRead schema.now (Delete table key.now ∷ []) name) }
{
    let key = key.clone()?;
    let op = RowOp::Delete { table, key };
    reads_of(alloc, schema, from_ref(&op))
}

// Whether all of the keys were read.
fn are_read(view: &ReadView, keys: &[(Bytes, ())]) -> bool
    ensures { result ≡ list_all (λ e. is_some (map.get view.now e.0)) keys.now }
{
    keys.iter().all(|e| view.get(e.0.as_slice()).is_some())
}

// Whether a row of the schema's table was read.
fn is_row_read(
    alloc: Global,
    schema: &Schema,
    view: &ReadView,
    query: &Query,
    key: &Values,
) -> Result<bool, AllocError>
    requires { IsSound schema.now query.now }
    ensures { IfOk result (λ read. IsTrue read ↔ IsRowRead schema.now view.now query.now.table key.now) }
{
    let keys = row_keys(alloc, schema, query.table, key)?;
    Ok(are_read(view, keys.entries()))
}

// The value of a row in a column, as it was read.
fn cell_read(
    alloc: Global,
    view: &ReadView,
    table: u32,
    key: &[Value],
    column: u32,
) -> Result<Option<Value>, AllocError>
    ensures { IfOk result (λ cell. cell ≡ cell_read view.now table key.now column) }
{
    let name = column_key(alloc, table, key, column)?;
    match view.get(name.as_slice()) {
        Some(Some(bytes)) => read_only_value(alloc, bytes.as_slice()),
        Some(None) => Ok(None),
        None => Ok(None),
    }
}

// Whether a number is among these.
fn is_named(columns: &[u32], number: u32) -> bool
    ensures { result ≡ is_named columns.now number }
{
    columns.iter().any(|c| number == *c)
}

// Whether a query names this element, a public column.
fn is_wanted(query: &Query, element: &ElementDef) -> bool
    ensures { result ≡ is_wanted query.now element.now }
{
    element.is_public_column(query.table) && is_named(query.columns.as_slice(), element.number)
}

// The row's cell in an element, as it was read, if the query names it.
fn named_cell(
    alloc: Global,
    view: &ReadView,
    query: &Query,
    key: &[Value],
    element: &ElementDef,
) -> Result<Option<(u32, Value)>, AllocError>
    ensures { IfOk result (λ cell. cell ≡ named_cell view.now query.now key.now element.now) }
{
    if !is_wanted(query, element) {
        return Ok(None);
    }
    let value = cell_read(alloc, view, query.table, key, element.number)?;
    Ok(value.map(|v| (element.number, v)))
}

// The row's cells in the columns that the query names, as they were read.
fn cells_read(
    alloc: Global,
    view: &ReadView,
    query: &Query,
    key: &[Value],
    elements: &[ElementDef],
) -> Result<List<(u32, Value)>, AllocError>
    ensures { IfOk result (λ cells. cells ≡ cells_read view.now query.now key.now elements.now) }
{
    let mut cells = Vec::new(alloc);
    for element in elements {
        if let Some(cell) = named_cell(alloc, view, query, key, element)? {
            cells.push(cell)?;
        }
    }
    Ok(List::new(cells))
}

// Whether the row was there when it was read.
fn was_there(alloc: Global, view: &ReadView, table: u32, key: &[Value]) -> Result<bool, AllocError>
    ensures { IfOk result (λ there. there ≡ was_there view.now table key.now) }
{
    let name = exists_key(alloc, table, key)?;
    Ok(matches!(view.get(name.as_slice()), Some(Some(_))))
}

// The row, if it was there, as it was read.
fn rows_read(
    alloc: Global,
    schema: &Schema,
    view: &ReadView,
    query: &Query,
    key: &Values,
) -> Result<List<Row>, AllocError>
    ensures { IfOk result (λ rows. rows ≡ rows_read view.now query.now key.now (live schema.now)) }
{
    let mut rows = Vec::new(alloc);
    if was_there(alloc, view, query.table, key.as_slice())? {
        let cells = cells_read(alloc, view, query, key.as_slice(), schema.elements())?;
        let key = key.clone()?;
        rows.push(Row { key, cells })?;
    }
    Ok(List::new(rows))
}

// The row of a query that has no fault, if the transaction read it.
fn answer_sound(
    alloc: Global,
    schema: &Schema,
    view: &ReadView,
    query: &Query,
    key: &Values,
) -> Result<List<Row>, QueryOutcome>
    requires coded { IsQuery IsStorable query.now }
    requires named { only_key query.now.conditions ≡ Some key.now }
    requires sound { IsSound schema.now query.now }
    ensures { AnswersRow schema.now view.now query.now key.now result }
{
    schema.lemma_known();
    match is_row_read(alloc, schema, view, query, key) {
        Ok(true) => match rows_read(alloc, schema, view, query, key) {
            Ok(rows) => Ok(rows),
            Err(_) => Err(QueryOutcome::of(OUT_OF_MEMORY)),
        },
        Ok(false) => Err(QueryOutcome::of(VIEW_MISMATCH)),
        Err(_) => Err(QueryOutcome::of(OUT_OF_MEMORY)),
    }
}

// The row of a query of one key.
fn answer_row(
    alloc: Global,
    schema: &Schema,
    view: &ReadView,
    query: &Query,
    key: &Values,
) -> Result<List<Row>, QueryOutcome>
    requires coded { IsQuery IsStorable query.now }
    requires named { only_key query.now.conditions ≡ Some key.now }
    ensures { AnswersRow schema.now view.now query.now key.now result }
{
    match check_query(alloc, schema, query) {
        Ok(()) => answer_sound(alloc, schema, view, query, key),
        Err(fault) => Err(fault_outcome(fault)),
    }
}

// The code of the row.
fn query_row(
    alloc: Global,
    schema: &Schema,
    view: &ReadView,
    query: &Query,
) -> Result<List<u8>, QueryOutcome>
    requires { IsQuery IsStorable query.now }
    ensures { QueriesRow schema.now view.now query.now result }
{
    let Some(key) = only_key(query) else {
        return Err(QueryOutcome::of(BAD_CODE));
    };
    match answer_row(alloc, schema, view, query, key) {
        Ok(rows) => match rows_bytes(alloc, &rows) {
            Ok(code) => Ok(List::new(code)),
            Err(_) => Err(QueryOutcome::of(OUT_OF_MEMORY)),
        },
        Err(outcome) => Err(outcome),
    }
}

// The same of the query whose code these bytes are.
fn query_view(
    alloc: Global,
    schema: &Schema,
    view: &ReadView,
    code: &[u8],
) -> Result<List<u8>, QueryOutcome>
    ensures { AnswersCode (QueriesRow schema.now view.now) code.now result }
{
    match query_of(alloc, code) {
        Ok(query) => query_row(alloc, schema, view, &query),
        Err(CodeFault::Memory) => Err(QueryOutcome::of(OUT_OF_MEMORY)),
        Err(_) => Err(QueryOutcome::of(BAD_CODE)),
    }
}

/// The code of the rows that a query asks for, of what a transaction read: the row of the key that
/// is the query's only condition, as it was read, or none if it was not there. Each snapshot under
/// the schema of the lease's version that holds what was read answers the same. So the world does
/// when the transaction is committed, since a commit needs that it still holds what was read.
///
/// - `code`: as for `query`.
///
/// Refused, in this order: `BAD_CODE` if the bytes are the code of no query, or of one with other
/// conditions than one key; as `Snapshot::query` refuses: `NO_TABLE`, `NOT_PUBLIC` with the column,
/// `WRONG_TYPE`; `VIEW_MISMATCH` if the transaction did not read the row; `OUT_OF_MEMORY`, which may
/// come in place of any.
pub fn query_read(alloc: Global, reads: &Reads, code: &[u8]) -> Result<List<u8>, QueryOutcome>
    ensures { AnswersCode (QueriesRow reads.now.held.schema reads.now.view) code.now result }
{
    query_view(alloc, reads.held.schema.get(), &reads.view, code)
}
