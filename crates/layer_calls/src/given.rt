//! What a call of the layer is given: control records, pairs and views, by their codes.
ghost use Rattle.std.specs.Prelude.{◌≡◌, ◌≢◌, ◌⊎◌, IfOk, IfErr};
ghost use Rattle.std.specs.FinMap as map;
ghost use Rattle.byte_map.specs.Writes.{noted};
ghost use Rattle.drafts.specs.declared.record.Record.TheVariants.{Version as OfVersion, Reorg as OfReorg, Cursor as OfCursor};
ghost use Rattle.record_code.specs.Records.{kind_of};
ghost use Rattle.record_code.specs.Read.{number_of};
ghost use Rattle.record_code.specs.declared.kind.RecordKind.TheVariants.{Version as AVersion, Reorg as AReorg, Cursor as ACursor};
ghost use Rattle.handles.specs.Statuses.{out_of_memory};
ghost use Rattle.layer_calls.specs.Given.{alone, record_refusal, GivesVersion, GivesReorg, GivesOpening, GivesOps, GivesQuery, GivesStep, GivesPairs, GivesKeys, GivesCursor, GivesView, put_all, keys_in};

use crate::outcome::LayerOutcome;
use byte_map::{Bytes, KeyMap};
use checkpoint_code::{PageFault, page_of};
use collections::{ArcValue, List};
use drafts::{Record, Reorg};
use entry_code::{CodeFault, opening_of, ops_of, points_of, query_of, step_of};
use handles::typed_calls::status::{BAD_CODE, OUT_OF_MEMORY};
use record_code::{RecordFault, RecordKind, record_of};
use row_map::ReadView;
use row_query::Query;
use row_write::RowOps;
use schema_version::{Schema, Step, TableDef};
use std::alloc::{AllocError, Global};

// What bytes that are the code of no record are reported as.
fn no_record(fault: &RecordFault) -> LayerOutcome
    ensures { result ≡ record_refusal fault.now }
{
    match fault {
        RecordFault::Memory => LayerOutcome::of(OUT_OF_MEMORY),
        RecordFault::Version
        | RecordFault::Trailing
        | RecordFault::Malformed
        | RecordFault::Unsound => LayerOutcome::of(BAD_CODE),
    }
}

// The version of a record, if it is of its kind.
fn version_in(record: &Record) -> Result<ArcValue<Schema>, LayerOutcome>
    ensures whole { IfOk result (λ schema. record.now ≡ OfVersion schema) }
    ensures refused { IfErr result (λ outcome. (outcome ≡ alone out_of_memory) ⊎ (kind_of record.now ≢ number_of AVersion)) }
{
    match record {
        Record::Version(schema) => Ok(schema.clone()?),
        _ => Err(LayerOutcome::of(BAD_CODE)),
    }
}

/// The version whose record this is.
pub fn version(alloc: Global, bytes: &[u8]) -> Result<ArcValue<Schema>, LayerOutcome>
    ensures { GivesVersion bytes.now result }
{
    let read = record_of(alloc, RecordKind::Version, bytes);
    match &read {
        Ok(record) => version_in(record),
        Err(fault) => Err(no_record(fault)),
    }
}

// A further owner of what is reorganised.
fn copy_of(reorg: &Reorg) -> Result<Reorg, AllocError>
    ensures { IfOk result (λ copy. copy ≡ reorg.now) }
{
    Ok(Reorg {
        element: reorg.element.clone()?,
        work: reorg.work,
        bounds: reorg.bounds.clone()?,
    })
}

// The reorganisation of a record, if it is of its kind.
fn reorg_in(record: &Record) -> Result<Reorg, LayerOutcome>
    ensures whole { IfOk result (λ reorg. record.now ≡ OfReorg reorg) }
    ensures refused { IfErr result (λ outcome. (outcome ≡ alone out_of_memory) ⊎ (kind_of record.now ≢ number_of AReorg)) }
{
    match record {
        Record::Reorg(reorg) => Ok(copy_of(reorg)?),
        _ => Err(LayerOutcome::of(BAD_CODE)),
    }
}

/// The reorganisation whose record this is.
pub(crate) fn reorg(alloc: Global, bytes: &[u8]) -> Result<Reorg, LayerOutcome>
    ensures { GivesReorg bytes.now result }
{
    let read = record_of(alloc, RecordKind::Reorg, bytes);
    match &read {
        Ok(record) => reorg_in(record),
        Err(fault) => Err(no_record(fault)),
    }
}

/// The lease length and the tables whose code this is.
pub fn opening(alloc: Global, bytes: &[u8]) -> Result<(u64, List<TableDef>), LayerOutcome>
    ensures { GivesOpening bytes.now result }
{
    match opening_of(alloc, bytes) {
        Ok(given) => Ok(given),
        Err(CodeFault::Memory) => Err(LayerOutcome::of(OUT_OF_MEMORY)),
        Err(_) => Err(LayerOutcome::of(BAD_CODE)),
    }
}

/// The operations whose code this is.
pub fn ops(alloc: Global, bytes: &[u8]) -> Result<RowOps, LayerOutcome>
    ensures { GivesOps bytes.now result }
{
    match ops_of(alloc, bytes) {
        Ok(given) => Ok(given),
        Err(CodeFault::Memory) => Err(LayerOutcome::of(OUT_OF_MEMORY)),
        Err(_) => Err(LayerOutcome::of(BAD_CODE)),
    }
}

/// The operations whose code this is, for several owners.
pub(crate) fn shared_ops(alloc: Global, bytes: &[u8]) -> Result<ArcValue<RowOps>, LayerOutcome>
    ensures { GivesOps bytes.now result }
{
    match ops_of(alloc, bytes) {
        Ok(given) => Ok(ArcValue::new(alloc, given)?),
        Err(CodeFault::Memory) => Err(LayerOutcome::of(OUT_OF_MEMORY)),
        Err(_) => Err(LayerOutcome::of(BAD_CODE)),
    }
}

/// The query whose code this is.
pub fn query(alloc: Global, bytes: &[u8]) -> Result<Query, LayerOutcome>
    ensures { GivesQuery bytes.now result }
{
    match query_of(alloc, bytes) {
        Ok(given) => Ok(given),
        Err(CodeFault::Memory) => Err(LayerOutcome::of(OUT_OF_MEMORY)),
        Err(_) => Err(LayerOutcome::of(BAD_CODE)),
    }
}

/// The step whose code this is.
pub(crate) fn step(alloc: Global, bytes: &[u8]) -> Result<Step, LayerOutcome>
    ensures { GivesStep bytes.now result }
{
    match step_of(alloc, bytes) {
        Ok(given) => Ok(given),
        Err(CodeFault::Memory) => Err(LayerOutcome::of(OUT_OF_MEMORY)),
        Err(_) => Err(LayerOutcome::of(BAD_CODE)),
    }
}

// The pairs as a map.
fn collected(alloc: Global, pairs: &[(Bytes, Bytes)]) -> Result<KeyMap<Bytes>, AllocError>
    ensures { IfOk result (λ view. view ≡ put_all map.empty pairs.now) }
{
    let mut view = KeyMap::new(alloc);
    for pair in pairs {
        view.insert(pair.0.clone()?, pair.1.clone()?)?;
    }
    Ok(view)
}

/// The pairs whose code this is; their keys strictly rise.
pub(crate) fn pairs(alloc: Global, bytes: &[u8]) -> Result<KeyMap<Bytes>, LayerOutcome>
    ensures { GivesPairs bytes.now result }
{
    match page_of(alloc, bytes) {
        Ok(pairs) => Ok(collected(alloc, pairs.as_slice())?),
        Err(PageFault::Memory) => Err(LayerOutcome::of(OUT_OF_MEMORY)),
        Err(_) => Err(LayerOutcome::of(BAD_CODE)),
    }
}

// The keys with what was read, as a map.
fn viewed(alloc: Global, points: List<(Bytes, Option<Bytes>)>) -> Result<ReadView, AllocError>
    ensures { IfOk result (λ view. view ≡ noted map.empty points) }
{
    let mut view = KeyMap::new(alloc);
    for (key, value) in points.into_vec() {
        view.insert(key, value)?;
    }
    Ok(view)
}

// The keys alone.
fn keys_alone(alloc: Global, points: &[(Bytes, Option<Bytes>)]) -> Result<Vec<Bytes>, AllocError>
    ensures { IfOk result (λ keys. keys.items ≡ keys_in points.now) }
{
    let mut keys = Vec::new(alloc);
    for point in points {
        keys.push(point.0.clone()?)?;
    }
    Ok(keys)
}

/// The keys whose code this is; their values do not matter.
pub(crate) fn keys(alloc: Global, bytes: &[u8]) -> Result<List<Bytes>, LayerOutcome>
    ensures { GivesKeys bytes.now result }
{
    match points_of(alloc, bytes) {
        Ok(points) => Ok(List::new(keys_alone(alloc, points.as_slice())?)),
        Err(CodeFault::Memory) => Err(LayerOutcome::of(OUT_OF_MEMORY)),
        Err(_) => Err(LayerOutcome::of(BAD_CODE)),
    }
}

// The cursor of a record, if it is of its kind.
fn cursor_in(record: &Record) -> Result<Bytes, LayerOutcome>
    ensures whole { IfOk result (λ cursor. record.now ≡ OfCursor cursor) }
    ensures refused { IfErr result (λ outcome. (outcome ≡ alone out_of_memory) ⊎ (kind_of record.now ≢ number_of ACursor)) }
{
    match record {
        Record::Cursor(cursor) => Ok(cursor.clone()?),
        _ => Err(LayerOutcome::of(BAD_CODE)),
    }
}

/// The cursor whose record this is.
pub(crate) fn cursor(alloc: Global, bytes: &[u8]) -> Result<Bytes, LayerOutcome>
    ensures { GivesCursor bytes.now result }
{
    let read = record_of(alloc, RecordKind::Cursor, bytes);
    match &read {
        Ok(record) => cursor_in(record),
        Err(fault) => Err(no_record(fault)),
    }
}

/// The keys with what was read, whose code this is; of a key that comes twice the last counts.
pub(crate) fn view(alloc: Global, bytes: &[u8]) -> Result<ReadView, LayerOutcome>
    ensures { GivesView bytes.now result }
{
    match points_of(alloc, bytes) {
        Ok(points) => Ok(viewed(alloc, points)?),
        Err(CodeFault::Memory) => Err(LayerOutcome::of(OUT_OF_MEMORY)),
        Err(_) => Err(LayerOutcome::of(BAD_CODE)),
    }
}
