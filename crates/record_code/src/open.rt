//! The draft that opens a store.
ghost use Rattle.std.specs.Prelude.{◌≡◌, ◌∷◌, [], ◌⊎◌, IfOk, IfErr, OnOk, Some, None};
ghost use Rattle.schema_version.specs.Declare.{declared, IsLawful};
ghost use Rattle.schema_version.specs.declared.table.DeclareFault.TheVariants.{BadTable, Memory};
ghost use Rattle.drafts.specs.declared.record.Record.TheVariants.{Version as OfVersion};
ghost use Rattle.drafts.specs.Store.{version_key};
ghost use Rattle.record_code.specs.Drafts.{draft_code, open_draft};
ghost use Rattle.record_code.specs.Records.{HasRecord};

use crate::draft::control_bytes;
use collections::{ArcValue, List};
use drafts::{Control, Key, Points, Record};
use schema_version::{DeclareFault, Schema, TableDef};
use std::alloc::{AllocError, Global};

/// Version 1 with this value, or missing.
fn first_point(alloc: Global, first: Option<Record>) -> Result<Points, AllocError>
    ensures { IfOk result (λ points. points ≡ (version_key 1, first) ∷ []) }
{
    let mut out = Vec::new(alloc);
    out.push((Key::version(1), first))?;
    Ok(List::new(out))
}

fn bytes_with(alloc: Global, schema: Schema) -> Result<Vec<u8>, AllocError>
    ensures code { IfOk result (λ bytes. bytes.items ≡ draft_code (open_draft schema)) }
    ensures known { OnOk result (HasRecord (OfVersion schema)) }
{
    let schema = ArcValue::new(alloc, schema)?;
    let reads = first_point(alloc, None)?;
    let writes = first_point(alloc, Some(Record::Version(schema)))?;
    control_bytes(alloc, &Control { reads, writes })
}

/// The code of the draft that opens a store: version 1, with these tables, is missing, and is then
/// put. Of the pairs it compares and writes none, so whoever hands it to the store compares, in the
/// same transaction, that there is nothing at all under the prefix.
///
/// - `tables`: the tables of version 1, as `Schema::declared` takes them.
///
/// Refused as `Schema::declared` is.
pub fn open_bytes(alloc: Global, tables: &[TableDef]) -> Result<Vec<u8>, DeclareFault>
    ensures lawful { OnOk result (IsLawful tables.now) }
    ensures code { IfOk result (λ bytes. bytes.items ≡ draft_code (open_draft (declared tables.now))) }
    ensures known { OnOk result (HasRecord (OfVersion (declared tables.now))) }
    ensures refused { IfErr result (λ fault. ((fault ≡ Memory) × IsLawful tables.now) ⊎ ((fault ≡ BadTable) × (¬ (IsLawful tables.now)))) }
{
    let schema = Schema::declared(alloc, tables)?;
    Ok(bytes_with(alloc, schema)?)
}
