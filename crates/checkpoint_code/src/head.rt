//! The head of a checkpoint as bytes, and back.
ghost use Rattle.std.specs.Prelude.{◌≡◌, IfOk, OnOk, reverse};
ghost use Rattle.keycode.specs.Valid.{IsValue};
ghost use Rattle.entry_code.specs.Parts.{IsHead};
ghost use Rattle.checkpoint_code.specs.Head.{parts_of, head_code, IsMade, IsHeadRead, IsHeadAccepted};
ghost use Rattle.checkpoint_code.specs.Restores.{to_fault as to_fault_of};

use crate::fault::HeadFault;
use crate::restore::{before_from, line_from, parts_of_before, parts_of_schema, schema_from};
use collections::{ArcValue, List};
use entry_code::{CodeFault, HeadParts, head_parts_bytes, head_parts_of};
use lease::Timeline;
use reorganise::Progress;
use schema_version::Schema;
use std::alloc::{AllocError, Global};

/// A checkpoint without its pairs.
#[derive(Drop)]
pub struct Head {
    /// How many entries came before.
    pub place: u64,
    /// The moment of the last of them.
    pub moment: u64,
    pub line: Timeline,
    pub newest: ArcValue<Schema>,
    /// The version before the newest.
    pub before: Option<ArcValue<Schema>>,
    /// The reorganisations that have begun and are not over.
    pub begun: List<Progress>,
}

fn copy_moments(alloc: Global, moments: &[u64]) -> Result<List<u64>, AllocError>
    ensures { IfOk result (λ copy. copy ≡ moments.now) }
{
    let mut copy = Vec::with_capacity(alloc, moments.len())?;
    copy.extend_from_slice(moments)?;
    Ok(List::new(copy))
}

fn copy_published(alloc: Global, line: &Timeline) -> Result<List<u64>, AllocError>
    ensures { IfOk result (λ copy. copy ≡ reverse line.now.published) }
{
    copy_moments(alloc, line.published())
}

fn copy_begun(begun: &List<Progress>) -> Result<List<Progress>, AllocError>
    ensures { IfOk result (λ copy. copy ≡ begun.now) }
{
    begun.clone()
}

fn parts_of_head(alloc: Global, head: &Head) -> Result<HeadParts, AllocError>
    ensures { IfOk result (λ parts. parts ≡ parts_of head.now) }
{
    let published = copy_published(alloc, &head.line)?;
    let newest = parts_of_schema(alloc, head.newest.get())?;
    let before = parts_of_before(alloc, &head.before)?;
    let begun = copy_begun(&head.begun)?;
    Ok(HeadParts {
        place: head.place,
        moment: head.moment,
        length: head.line.length(),
        published,
        newest,
        before,
        begun,
    })
}

/// The code of the head of a checkpoint. Refused only when out of memory.
///
/// It takes time and memory in proportion to the code's length, which is that of the head.
pub fn head_bytes(alloc: Global, head: &Head) -> Result<Vec<u8>, AllocError>
    ensures code { IfOk result (λ bytes. bytes.items ≡ head_code head.now) }
    ensures known { OnOk result (IsHead IsValue (parts_of head.now)) }
{
    let parts = parts_of_head(alloc, head)?;
    head_parts_bytes(alloc, &parts)
}

// The head with these parts.
fn head_from(alloc: Global, parts: HeadParts) -> Result<Head, HeadFault>
    ensures { IsMade parts result }
{
    let HeadParts {
        place,
        moment,
        length,
        published,
        newest,
        before,
        begun,
    } = parts;
    let line = line_from(length, published)?;
    let newest = schema_from(alloc, &newest, HeadFault::BadNewest)?;
    let before = before_from(alloc, &before)?;
    Ok(Head {
        place,
        moment,
        line,
        newest,
        before,
        begun,
    })
}

fn to_fault(fault: CodeFault) -> HeadFault
    ensures { result ≡ to_fault_of fault }
{
    match fault {
        CodeFault::Version => HeadFault::Version,
        CodeFault::Trailing => HeadFault::Trailing,
        CodeFault::Malformed => HeadFault::Malformed,
        CodeFault::Memory => HeadFault::Memory,
    }
}

/// The head whose code these `bytes` are. The code of a head with a text of more than 1,024 bytes
/// among its default values is not read; no version has one.
///
/// Refused in the order of `HeadFault`, and `Memory` may come in place of any answer but `Version`.
///
/// It takes time in proportion to the number of bytes, however many items they announce, and memory
/// of no more than a fixed multiple of it.
pub fn head_of(alloc: Global, bytes: &[u8]) -> Result<Head, HeadFault>
    ensures read { IsHeadRead bytes.now result }
    ensures accepted { IsHeadAccepted bytes.now result }
{
    match head_parts_of(alloc, bytes) {
        Ok(parts) => head_from(alloc, parts),
        Err(fault) => Err(to_fault(fault)),
    }
}
