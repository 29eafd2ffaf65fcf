//! What a checkpoint is made of as bytes, and back: the parts of its head, and pages of its pairs.
ghost use Rattle.std.specs.Prelude.{◌≡◌, IfOk, OnOk};
ghost use Rattle.keycode.specs.Valid.{IsValue, IsStorable};
ghost use Rattle.entry_code.specs.Parts.{head_parts_code, pairs_code, IsHead, ArePairs};
ghost use Rattle.entry_code.specs.Read.{IsRead, IsAccepted};

use crate::fault::CodeFault;
use crate::lists::push_items;
use crate::parts::HeadParts;
use crate::whole::{decode, encode};
use byte_map::Bytes;
use collections::List;
use std::alloc::{AllocError, Global};

/// The code of the parts of a checkpoint's head. Refused only when out of memory.
///
/// It takes time and memory in proportion to the code's length, which is that of the parts.
pub fn head_parts_bytes(alloc: Global, parts: &HeadParts) -> Result<Vec<u8>, AllocError>
    ensures code { IfOk result (λ bytes. bytes.items ≡ head_parts_code parts.now) }
    ensures known { OnOk result (IsHead IsValue parts.now) }
{
    encode(alloc, parts)
}

/// The parts of a head whose code these `bytes` are. Refused, and bounded, as `entry_of` is.
pub fn head_parts_of(alloc: Global, bytes: &[u8]) -> Result<HeadParts, CodeFault>
    ensures read { IsRead (IsHead IsStorable) head_parts_code bytes.now result }
    ensures accepted { IsAccepted (IsHead IsStorable) head_parts_code bytes.now result }
{
    decode::<HeadParts>(alloc, bytes)
}

/// The code of a page of pairs, each a key and its value. Refused only when out of memory.
pub fn pairs_bytes(alloc: Global, pairs: &[(Bytes, Bytes)]) -> Result<Vec<u8>, AllocError>
    ensures code { IfOk result (λ bytes. bytes.items ≡ pairs_code pairs.now) }
    ensures known { OnOk result (ArePairs pairs.now) }
{
    let mut out = Vec::new(alloc);
    out.push(1)?;
    push_items(&mut out, pairs)?;
    Ok(out)
}

/// The page of pairs whose code these `bytes` are. Refused, and bounded, as `entry_of` is.
pub fn pairs_of(alloc: Global, bytes: &[u8]) -> Result<List<(Bytes, Bytes)>, CodeFault>
    ensures read { IsRead ArePairs pairs_code bytes.now result }
    ensures accepted { IsAccepted ArePairs pairs_code bytes.now result }
{
    decode::<List<(Bytes, Bytes)>>(alloc, bytes)
}
