//! The parts of a head, from its timeline and versions and back.
ghost use Rattle.std.specs.Prelude.{◌≡◌, ◌⊎◌, IfOk, IfErr, OnOk, option_map};
ghost use Rattle.lease.specs.Timeline.{IsValid};
ghost use Rattle.lease.specs.Restored.{line_of};
ghost use Rattle.checkpoint_code.specs.Head.{schema_parts, IsVersion};
ghost use Rattle.checkpoint_code.specs.Restores.{version_of, IsBefore, HasNoBefore};
ghost use Rattle.checkpoint_code.specs.declared.fault.HeadFault.TheVariants.{Memory, BadTimeline};

use crate::fault::HeadFault;
use collections::{ArcValue, List};
use entry_code::SchemaParts;
use lease::Timeline;
use schema_version::{ElementDef, RestoreFault, Schema};
use std::alloc::{AllocError, Global};

// ---- to parts

fn copy_element(element: &ElementDef) -> Result<ElementDef, AllocError>
    ensures { IfOk result (λ copy. copy ≡ element.now) }
{
    element.clone()
}

fn copy_elements(alloc: Global, elements: &[ElementDef]) -> Result<Vec<ElementDef>, AllocError>
    ensures { IfOk result (λ copy. copy.items ≡ elements.now) }
{
    let mut copy = Vec::new(alloc);
    for element in elements {
        copy.push(copy_element(element)?)?;
    }
    Ok(copy)
}

/// The parts of a version, copied. Refused only when out of memory.
pub fn parts_of_schema(alloc: Global, schema: &Schema) -> Result<SchemaParts, AllocError>
    ensures { IfOk result (λ parts. parts ≡ schema_parts schema.now) }
{
    let tables = schema.tables()?;
    let elements = copy_elements(alloc, schema.elements())?;
    Ok(SchemaParts {
        tables,
        elements: List::new(elements),
        next: schema.next_number(),
    })
}

/// The parts of the version before the newest, if there is one.
pub(crate) fn parts_of_before(
    alloc: Global,
    before: &Option<ArcValue<Schema>>,
) -> Result<Option<SchemaParts>, AllocError>
    ensures { IfOk result (λ parts. parts ≡ option_map schema_parts before.now) }
{
    match before {
        Some(version) => Ok(Some(parts_of_schema(alloc, version.get())?)),
        None => Ok(None),
    }
}

// ---- from parts

/// The timeline with these publications.
pub(crate) fn line_from(length: u64, published: List<u64>) -> Result<Timeline, HeadFault>
    ensures whole { IfOk result (λ line. line ≡ line_of length published) }
    ensures valid { OnOk result (IsValid (line_of length published)) }
    ensures refused { IfErr result (λ fault. (fault ≡ BadTimeline) × (¬ (IsValid (line_of length published)))) }
{
    match Timeline::restored(length, published.into_vec()) {
        Some(line) => Ok(line),
        None => Err(HeadFault::BadTimeline),
    }
}

/// The version with these parts, or else the fault `unsound`.
pub(crate) fn schema_from(
    alloc: Global,
    parts: &SchemaParts,
    unsound: HeadFault,
) -> Result<ArcValue<Schema>, HeadFault>
    ensures whole { IfOk result (λ version. version ≡ version_of parts.now) }
    ensures sound { OnOk result (IsVersion parts.now) }
    ensures refused { IfErr result (λ fault. (fault ≡ Memory) ⊎ ((fault ≡ unsound) × (¬ (IsVersion parts.now)))) }
{
    match Schema::restored(
        alloc,
        parts.tables.as_slice(),
        parts.elements.as_slice(),
        parts.next,
    ) {
        Ok(schema) => Ok(ArcValue::new(alloc, schema)?),
        Err(RestoreFault::Unsound) => Err(unsound),
        Err(RestoreFault::Memory) => Err(HeadFault::Memory),
    }
}

/// The version before the newest with these parts, if there are any.
pub(crate) fn before_from(
    alloc: Global,
    parts: &Option<SchemaParts>,
) -> Result<Option<ArcValue<Schema>>, HeadFault>
    ensures made { IfOk result (IsBefore parts.now) }
    ensures refused { IfErr result (HasNoBefore parts.now) }
{
    match parts {
        Some(before) => Ok(Some(schema_from(alloc, before, HeadFault::BadBefore)?)),
        None => Ok(None),
    }
}
