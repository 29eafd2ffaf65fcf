//! Control records from bytes.
ghost use Rattle.std.specs.Prelude.{◌≡◌};
ghost use Rattle.record_code.specs.Read.{IsRecordRead, IsRecordAccepted};
ghost use Rattle.record_code.specs.Restored.{reorg_with, IsRestored, to_fault as to_fault_of};
ghost use Rattle.drafts.specs.declared.record.Record.TheVariants.{Reorg as OfReorg};
ghost use Rattle.record_code.specs.declared.kind.RecordKind.TheVariants.{Version as AVersion, Reorg as AReorg, Cursor as ACursor, Mark as AMark};

use crate::fault::RecordFault;
use crate::kind::RecordKind;
use byte_map::Bytes;
use collections::ArcValue;
use drafts::{Record, Reorg};
use entry_code::{CodeFault, ReorgParts, SchemaParts, reorg_parts_of, schema_parts_of};
use schema_version::{RestoreFault, Schema};
use std::alloc::Global;

fn to_fault(fault: CodeFault) -> RecordFault
    ensures { result ≡ to_fault_of fault }
{
    match fault {
        CodeFault::Version => RecordFault::Version,
        CodeFault::Trailing => RecordFault::Trailing,
        CodeFault::Malformed => RecordFault::Malformed,
        CodeFault::Memory => RecordFault::Memory,
    }
}

/// The record of the version with these parts.
fn restored(alloc: Global, parts: &SchemaParts) -> Result<Record, RecordFault>
    ensures { IsRestored parts.now result }
{
    match Schema::restored(
        alloc,
        parts.tables.as_slice(),
        parts.elements.as_slice(),
        parts.next,
    ) {
        Ok(schema) => Ok(Record::Version(ArcValue::new(alloc, schema)?)),
        Err(RestoreFault::Unsound) => Err(RecordFault::Unsound),
        Err(RestoreFault::Memory) => Err(RecordFault::Memory),
    }
}

fn version_of(alloc: Global, bytes: &[u8]) -> Result<Record, RecordFault>
    ensures read { IsRecordRead AVersion bytes.now result }
    ensures accepted { IsRecordAccepted AVersion bytes.now result }
{
    match schema_parts_of(alloc, bytes) {
        Ok(parts) => restored(alloc, &parts),
        Err(fault) => Err(to_fault(fault)),
    }
}

/// The record of the reorganisation with these parts.
fn reorg_from(parts: ReorgParts) -> Record
    ensures { result ≡ OfReorg (reorg_with parts) }
{
    let ReorgParts {
        element,
        work,
        bounds,
    } = parts;
    Record::Reorg(Reorg {
        element,
        work,
        bounds,
    })
}

fn reorg_of(alloc: Global, bytes: &[u8]) -> Result<Record, RecordFault>
    ensures read { IsRecordRead AReorg bytes.now result }
    ensures accepted { IsRecordAccepted AReorg bytes.now result }
{
    match reorg_parts_of(alloc, bytes) {
        Ok(parts) => Ok(reorg_from(parts)),
        Err(fault) => Err(to_fault(fault)),
    }
}

fn cursor_of(alloc: Global, bytes: &[u8]) -> Result<Record, RecordFault>
    ensures read { IsRecordRead ACursor bytes.now result }
    ensures accepted { IsRecordAccepted ACursor bytes.now result }
{
    match bytes {
        [1, key @ ..] => Ok(Record::Cursor(Bytes::from_slice(alloc, key)?)),
        _ => Err(RecordFault::Version),
    }
}

fn mark_of(bytes: &[u8]) -> Result<Record, RecordFault>
    ensures read { IsRecordRead AMark bytes.now result }
    ensures accepted { IsRecordAccepted AMark bytes.now result }
{
    match bytes {
        [1] => Ok(Record::Mark),
        [1, ..] => Err(RecordFault::Trailing),
        _ => Err(RecordFault::Version),
    }
}

/// The control record of a kind whose value these `bytes` are. A version that is read is sound. The
/// value of a version or a reorganisation with a text of more than 1,024 bytes among its default
/// values is not read; no version has one.
///
/// - `kind`: that of the record's key.
/// - `bytes`: the value.
///
/// Refused in the order of `RecordFault`, and `Memory` may come in place of any answer but
/// `Version`.
///
/// It takes time in proportion to the number of bytes, however many items they announce, and memory
/// of no more than a fixed multiple of it.
pub fn record_of(alloc: Global, kind: RecordKind, bytes: &[u8]) -> Result<Record, RecordFault>
    ensures read { IsRecordRead kind bytes.now result }
    ensures accepted { IsRecordAccepted kind bytes.now result }
{
    match kind {
        RecordKind::Version => version_of(alloc, bytes),
        RecordKind::Reorg => reorg_of(alloc, bytes),
        RecordKind::Cursor => cursor_of(alloc, bytes),
        RecordKind::Mark => mark_of(bytes),
    }
}
