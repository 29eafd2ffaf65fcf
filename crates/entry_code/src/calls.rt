//! Entries, operations, steps, openings, queries, rows, changes and plans as bytes, and back.
ghost use Rattle.std.specs.Prelude.{◌≡◌, IfOk, OnOk};
ghost use Rattle.keycode.specs.Valid.{IsValue, IsStorable};
ghost use Rattle.entry_code.specs.Code.{entry_code, ops_code, step_code, opening_code, query_code, rows_code, changes_code, plan_code};
ghost use Rattle.entry_code.specs.Known.{IsEntry, AreOps, AreMoves, IsOpening, IsQuery, AreRows, AreChanges, IsPlan};
ghost use Rattle.entry_code.specs.Read.{IsRead, IsAccepted};

use crate::encoded::Encoded;
use crate::fault::CodeFault;
use crate::lists::push_items;
use crate::whole::{decode, encode};
use change_plan::{Change, PlanStep};
use collections::List;
use replay::Entry;
use row_map::Row;
use row_query::Query;
use row_write::RowOps;
use schema_version::{Step, TableDef};
use std::alloc::{AllocError, Global};

/// The code of an entry of a log. Refused only when out of memory.
///
/// It takes time and memory in proportion to the code's length, which is that of the entry.
pub fn entry_bytes(alloc: Global, entry: &Entry) -> Result<Vec<u8>, AllocError>
    ensures code { IfOk result (λ bytes. bytes.items ≡ entry_code entry.now) }
    // What the types say of the entry, which the law `one_code` asks for.
    ensures known { OnOk result (IsEntry IsValue entry.now) }
{
    encode(alloc, entry)
}

/// The entry whose code these `bytes` are. The code of an entry with a text of more than 1,024 bytes
/// among its values is not read; the calls of a world accept no such text.
///
/// Refused in this order: `Version` if the first byte is not 1, or there is none; `Trailing` if a
/// proper prefix of the bytes is the code of an entry; `Malformed` if neither they nor a prefix of
/// them is; `Memory` may come in place of any answer but `Version`.
///
/// It takes time in proportion to the number of bytes, however many items they announce, and
/// memory of no more than a fixed multiple of it: vectors grow as their items are read.
pub fn entry_of(alloc: Global, bytes: &[u8]) -> Result<Entry, CodeFault>
    ensures read { IsRead (IsEntry IsStorable) entry_code bytes.now result }
    ensures accepted { IsAccepted (IsEntry IsStorable) entry_code bytes.now result }
{
    decode::<Entry>(alloc, bytes)
}

/// The code of a list of operations. Refused only when out of memory.
pub fn ops_bytes(alloc: Global, ops: &RowOps) -> Result<Vec<u8>, AllocError>
    ensures code { IfOk result (λ bytes. bytes.items ≡ ops_code ops.now) }
    ensures known { OnOk result (AreOps IsValue ops.now) }
{
    encode(alloc, ops)
}

/// The operations whose code these `bytes` are. Refused, and bounded, as `entry_of` is.
pub fn ops_of(alloc: Global, bytes: &[u8]) -> Result<RowOps, CodeFault>
    ensures read { IsRead (AreOps IsStorable) ops_code bytes.now result }
    ensures accepted { IsAccepted (AreOps IsStorable) ops_code bytes.now result }
{
    decode::<RowOps>(alloc, bytes)
}

/// The code of a step of the schema. Refused only when out of memory.
pub fn step_bytes(alloc: Global, step: &Step) -> Result<Vec<u8>, AllocError>
    ensures code { IfOk result (λ bytes. bytes.items ≡ step_code step.now) }
    ensures known { OnOk result (AreMoves IsValue step.now) }
{
    encode(alloc, step)
}

/// The step whose code these `bytes` are. Refused, and bounded, as `entry_of` is.
pub fn step_of(alloc: Global, bytes: &[u8]) -> Result<Step, CodeFault>
    ensures read { IsRead (AreMoves IsStorable) step_code bytes.now result }
    ensures accepted { IsAccepted (AreMoves IsStorable) step_code bytes.now result }
{
    decode::<Step>(alloc, bytes)
}

/// The code of an opening: `length` is for how many moments a lease is granted, and `tables` are
/// those of version 1 in the order of their numbers. Refused only when out of memory.
pub fn opening_bytes(
    alloc: Global,
    length: u64,
    tables: &List<TableDef>,
) -> Result<Vec<u8>, AllocError>
    ensures code { IfOk result (λ bytes. bytes.items ≡ opening_code (length, tables.now)) }
    ensures known { OnOk result (IsOpening (length, tables.now)) }
{
    let mut out = Vec::new(alloc);
    out.push(1)?;
    length.push(&mut out)?;
    tables.push(&mut out)?;
    Ok(out)
}

/// The opening whose code these `bytes` are: the length of leases and the tables. Refused, and
/// bounded, as `entry_of` is.
pub fn opening_of(alloc: Global, bytes: &[u8]) -> Result<(u64, List<TableDef>), CodeFault>
    ensures read { IsRead IsOpening opening_code bytes.now result }
    ensures accepted { IsAccepted IsOpening opening_code bytes.now result }
{
    decode::<(u64, List<TableDef>)>(alloc, bytes)
}

/// The code of a query. Refused only when out of memory.
pub fn query_bytes(alloc: Global, query: &Query) -> Result<Vec<u8>, AllocError>
    ensures code { IfOk result (λ bytes. bytes.items ≡ query_code query.now) }
    ensures known { OnOk result (IsQuery IsValue query.now) }
{
    encode(alloc, query)
}

/// The query whose code these `bytes` are. Refused, and bounded, as `entry_of` is.
pub fn query_of(alloc: Global, bytes: &[u8]) -> Result<Query, CodeFault>
    ensures read { IsRead (IsQuery IsStorable) query_code bytes.now result }
    ensures accepted { IsAccepted (IsQuery IsStorable) query_code bytes.now result }
{
    decode::<Query>(alloc, bytes)
}

/// The code of a list of rows, as a query answers it. Refused only when out of memory.
pub fn rows_bytes(alloc: Global, rows: &List<Row>) -> Result<Vec<u8>, AllocError>
    ensures code { IfOk result (λ bytes. bytes.items ≡ rows_code rows.now) }
    ensures known { OnOk result (AreRows IsValue rows.now) }
{
    encode(alloc, rows)
}

/// The rows whose code these `bytes` are. Refused, and bounded, as `entry_of` is.
pub fn rows_of(alloc: Global, bytes: &[u8]) -> Result<List<Row>, CodeFault>
    ensures read { IsRead (AreRows IsStorable) rows_code bytes.now result }
    ensures accepted { IsAccepted (AreRows IsStorable) rows_code bytes.now result }
{
    decode::<List<Row>>(alloc, bytes)
}

/// The code of a batch of changes. Refused only when out of memory.
pub fn changes_bytes(alloc: Global, changes: &[Change]) -> Result<Vec<u8>, AllocError>
    ensures code { IfOk result (λ bytes. bytes.items ≡ changes_code changes.now) }
    ensures known { OnOk result (AreChanges IsValue changes.now) }
{
    let mut out = Vec::new(alloc);
    out.push(1)?;
    push_items(&mut out, changes)?;
    Ok(out)
}

/// The batch of changes whose code these `bytes` are. Refused, and bounded, as `entry_of` is.
pub fn changes_of(alloc: Global, bytes: &[u8]) -> Result<List<Change>, CodeFault>
    ensures read { IsRead (AreChanges IsStorable) changes_code bytes.now result }
    ensures accepted { IsAccepted (AreChanges IsStorable) changes_code bytes.now result }
{
    decode::<List<Change>>(alloc, bytes)
}

/// The code of the steps of a plan, each with the reorganisations that must end before it. Refused
/// only when out of memory.
pub fn plan_bytes(alloc: Global, steps: &[PlanStep]) -> Result<Vec<u8>, AllocError>
    ensures code { IfOk result (λ bytes. bytes.items ≡ plan_code steps.now) }
    ensures known { OnOk result (IsPlan IsValue steps.now) }
{
    let mut out = Vec::new(alloc);
    out.push(1)?;
    push_items(&mut out, steps)?;
    Ok(out)
}

/// The steps of the plan whose code these `bytes` are. Refused, and bounded, as `entry_of` is.
pub fn plan_of(alloc: Global, bytes: &[u8]) -> Result<List<PlanStep>, CodeFault>
    ensures read { IsRead (IsPlan IsStorable) plan_code bytes.now result }
    ensures accepted { IsAccepted (IsPlan IsStorable) plan_code bytes.now result }
{
    decode::<List<PlanStep>>(alloc, bytes)
}
