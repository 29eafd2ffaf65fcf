//! Control records as bytes.
ghost use Rattle.std.specs.Prelude.{◌≡◌, ◌∷◌, IfOk, OnOk};
ghost use Rattle.keycode.specs.Valid.{IsValue};
ghost use Rattle.drafts.specs.declared.record.Record.TheVariants.{Version as OfVersion};
ghost use Rattle.entry_code.specs.Records.{schema_parts_code, reorg_parts_code, IsReorgParts};
ghost use Rattle.record_code.specs.Records.{schema_parts, reorg_parts, record_code, HasRecord};

use collections::List;
use drafts::{Record, Reorg};
use entry_code::{ReorgParts, SchemaParts, reorg_parts_bytes, schema_parts_bytes};
use schema_version::{ElementDef, Schema};
use std::alloc::{AllocError, Global};

fn copy_element(element: &ElementDef) -> Result<ElementDef, AllocError>
    ensures { IfOk result (λ copy. copy ≡ element.now) }
{
    element.clone()
}

fn copy_elements(alloc: Global, elements: &[ElementDef]) -> Result<Vec<ElementDef>, AllocError>
    ensures { IfOk result (λ copy. copy.items ≡ elements.now) }
{
    let mut copy = Vec::new(alloc);
    for element in elements {
        copy.push(copy_element(element)?)?;
    }
    Ok(copy)
}

fn parts_of_schema(alloc: Global, schema: &Schema) -> Result<SchemaParts, AllocError>
    ensures { IfOk result (λ parts. parts ≡ schema_parts schema.now) }
{
    let tables = schema.tables()?;
    let elements = copy_elements(alloc, schema.elements())?;
    Ok(SchemaParts {
        tables,
        elements: List::new(elements),
        next: schema.next_number(),
    })
}

fn version_bytes(alloc: Global, schema: &Schema) -> Result<Vec<u8>, AllocError>
    ensures code { IfOk result (λ bytes. bytes.items ≡ schema_parts_code (schema_parts schema.now)) }
    ensures known { OnOk result (HasRecord (OfVersion schema.now)) }
{
    schema.lemma_known();
    let parts = parts_of_schema(alloc, schema)?;
    schema_parts_bytes(alloc, &parts)
}

fn parts_of_reorg(reorg: &Reorg) -> Result<ReorgParts, AllocError>
    ensures { IfOk result (λ parts. parts ≡ reorg_parts reorg.now) }
{
    let element = reorg.element.clone()?;
    let bounds = reorg.bounds.clone()?;
    Ok(ReorgParts {
        element,
        work: reorg.work,
        bounds,
    })
}

fn reorg_bytes(alloc: Global, reorg: &Reorg) -> Result<Vec<u8>, AllocError>
    ensures code { IfOk result (λ bytes. bytes.items ≡ reorg_parts_code (reorg_parts reorg.now)) }
    ensures known { OnOk result (IsReorgParts IsValue (reorg_parts reorg.now)) }
{
    let parts = parts_of_reorg(reorg)?;
    reorg_parts_bytes(alloc, &parts)
}

/// The version of the code, and these bytes.
fn after_version(alloc: Global, bytes: &[u8]) -> Result<Vec<u8>, AllocError>
    ensures { IfOk result (λ whole. whole.items ≡ 1 ∷ bytes.now) }
{
    let mut out = Vec::new(alloc);
    out.push(1)?;
    out.extend_from_slice(bytes)?;
    Ok(out)
}

/// The value of a control record. Of which kind it is, its key says. Refused only when out of
/// memory.
///
/// It takes time and memory in proportion to the value's length.
pub fn record_bytes(alloc: Global, record: &Record) -> Result<Vec<u8>, AllocError>
    ensures code { IfOk result (λ bytes. bytes.items ≡ record_code record.now) }
    ensures known { OnOk result (HasRecord record.now) }
{
    match record {
        Record::Version(schema) => version_bytes(alloc, schema.get()),
        Record::Reorg(reorg) => reorg_bytes(alloc, reorg),
        Record::Cursor(cursor) => after_version(alloc, cursor.as_slice()),
        Record::Mark => after_version(alloc, &[]),
    }
}
