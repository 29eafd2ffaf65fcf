//! Control records and drafts as bytes, and back: what a store that someone else runs keeps beside its
//! pairs, and what it compares and writes.
ghost use Rattle.std.specs.Prelude.{◌≡◌, IfOk, OnOk};
ghost use Rattle.keycode.specs.Valid.{IsValue, IsStorable};
ghost use Rattle.entry_code.specs.Parts.{IsSchema};
ghost use Rattle.entry_code.specs.Read.{IsRead, IsAccepted};
ghost use Rattle.entry_code.specs.Records.{reorg_code, range_code, draft_code, schema_parts_code, reorg_parts_code, points_code, draft_parts_code, IsReorgParts, IsRange, ArePoints, IsDraft};
ghost use Rattle.entry_code.specs.inner.RecordsAt.{reorg_at, range_at, draft_at};

use crate::borrowed::room_of;
use crate::encoded::Encoded;
use crate::fault::CodeFault;
use crate::parts::{DraftParts, Points, RangeParts, ReorgParts, SchemaParts};
use crate::whole::{decode, encode, encode_within};
use byte_map::Bytes;
use collections::List;
use schema_version::{ElementDef, Work};
use std::alloc::{AllocError, Global};

impl Encoded for ReorgParts {
    ghost code = { reorg_code };

    ghost at = { reorg_at };

    ghost known = { IsReorgParts IsValue };

    fn push(&self, out: &mut Vec<u8>) -> Result<(), AllocError> {
        self.element.push(out)?;
        self.work.push(out)?;
        self.bounds.push(out)
    }

    #[tactic(auto, unfolding(crate::specs::inner::RecordsAt::reorg_at))]
    fn read(alloc: Global, bytes: &[u8]) -> Result<(ReorgParts, &[u8]), CodeFault> {
        let ((element, (work, bounds)), rest) = <(ElementDef, (Work, List<(Bytes, Bytes)>))>::read(
            alloc, bytes,
        )?;
        Ok((
            ReorgParts {
                element,
                work,
                bounds,
            },
            rest,
        ))
    }
}

impl Encoded for RangeParts {
    ghost code = { range_code };

    ghost at = { range_at };

    ghost known = { IsRange };

    fn push(&self, out: &mut Vec<u8>) -> Result<(), AllocError> {
        self.low.push(out)?;
        self.high.push(out)?;
        self.pairs.push(out)
    }

    #[tactic(auto, unfolding(crate::specs::inner::RecordsAt::range_at))]
    fn read(alloc: Global, bytes: &[u8]) -> Result<(RangeParts, &[u8]), CodeFault> {
        let ((low, (high, pairs)), rest) = <(Bytes, (Bytes, List<(Bytes, Bytes)>))>::read(
            alloc, bytes,
        )?;
        Ok((RangeParts { low, high, pairs }, rest))
    }
}

impl Encoded for DraftParts {
    ghost code = { draft_code };

    ghost at = { draft_at };

    ghost known = { IsDraft };

    fn push(&self, out: &mut Vec<u8>) -> Result<(), AllocError> {
        self.compare.push(out)?;
        self.ranges.push(out)?;
        self.write.push(out)
    }

    #[tactic(auto, unfolding(crate::specs::inner::RecordsAt::draft_at))]
    fn read(alloc: Global, bytes: &[u8]) -> Result<(DraftParts, &[u8]), CodeFault> {
        let ((compare, (ranges, write)), rest) = <(Points, (List<RangeParts>, Points))>::read(
            alloc, bytes,
        )?;
        Ok((
            DraftParts {
                compare,
                ranges,
                write,
            },
            rest,
        ))
    }
}

/// The code of the parts of a version. Refused only when out of memory.
///
/// It takes time and memory in proportion to the code's length, which is that of the parts.
pub fn schema_parts_bytes(alloc: Global, parts: &SchemaParts) -> Result<Vec<u8>, AllocError>
    ensures code { IfOk result (λ bytes. bytes.items ≡ schema_parts_code parts.now) }
    ensures known { OnOk result (IsSchema IsValue parts.now) }
{
    encode(alloc, parts)
}

/// The parts of a version whose code these `bytes` are. Refused, and bounded, as `entry_of` is.
pub fn schema_parts_of(alloc: Global, bytes: &[u8]) -> Result<SchemaParts, CodeFault>
    ensures read { IsRead (IsSchema IsStorable) schema_parts_code bytes.now result }
    ensures accepted { IsAccepted (IsSchema IsStorable) schema_parts_code bytes.now result }
{
    decode::<SchemaParts>(alloc, bytes)
}

/// The code of the parts of a begun reorganisation. Refused, and bounded, as `schema_parts_bytes`.
pub fn reorg_parts_bytes(alloc: Global, parts: &ReorgParts) -> Result<Vec<u8>, AllocError>
    ensures code { IfOk result (λ bytes. bytes.items ≡ reorg_parts_code parts.now) }
    ensures known { OnOk result (IsReorgParts IsValue parts.now) }
{
    encode(alloc, parts)
}

/// The parts of a reorganisation whose code these `bytes` are. Refused, and bounded, as `entry_of` is.
pub fn reorg_parts_of(alloc: Global, bytes: &[u8]) -> Result<ReorgParts, CodeFault>
    ensures read { IsRead (IsReorgParts IsStorable) reorg_parts_code bytes.now result }
    ensures accepted { IsAccepted (IsReorgParts IsStorable) reorg_parts_code bytes.now result }
{
    decode::<ReorgParts>(alloc, bytes)
}

/// The code of keys, each with its value or none. Refused, and bounded, as `schema_parts_bytes`.
pub fn points_bytes(alloc: Global, points: &Points) -> Result<Vec<u8>, AllocError>
    ensures code { IfOk result (λ bytes. bytes.items ≡ points_code points.now) }
    ensures known { OnOk result (ArePoints points.now) }
{
    encode(alloc, points)
}

/// The keys, each with its value or none, whose code these `bytes` are. Refused, and bounded, as
/// `entry_of` is.
pub fn points_of(alloc: Global, bytes: &[u8]) -> Result<Points, CodeFault>
    ensures read { IsRead ArePoints points_code bytes.now result }
    ensures accepted { IsAccepted ArePoints points_code bytes.now result }
{
    decode::<Points>(alloc, bytes)
}

/// The code of the parts of a draft. Refused, and bounded, as `schema_parts_bytes`.
pub fn draft_parts_bytes(alloc: Global, parts: &DraftParts) -> Result<Vec<u8>, AllocError>
    ensures code { IfOk result (λ bytes. bytes.items ≡ draft_parts_code parts.now) }
    ensures known { OnOk result (IsDraft parts.now) }
{
    let compared = room_of(parts.compare.as_slice());
    let written = room_of(parts.write.as_slice());
    let room = compared.saturating_add(written).saturating_add(25);
    encode_within(alloc, parts, room)
}

/// The parts of a draft whose code these `bytes` are. Refused, and bounded, as `entry_of` is.
pub fn draft_parts_of(alloc: Global, bytes: &[u8]) -> Result<DraftParts, CodeFault>
    ensures read { IsRead IsDraft draft_parts_code bytes.now result }
    ensures accepted { IsAccepted IsDraft draft_parts_code bytes.now result }
{
    decode::<DraftParts>(alloc, bytes)
}
