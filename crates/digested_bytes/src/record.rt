//! Records of a log file: an entry after its place and its length, with a digest at the end.
ghost use Rattle.std.specs.Prelude.{◌≡◌, ◌↔◌, ◌++◌, ◌+◌, ◌<◌, ◌≤◌, ◌^◌, IfNone, IfOk, IfSome, IsTrue, length, OnOk};
ghost use Rattle.sha2.specs.Sha256.{sha256};
ghost use Rattle.digested_bytes.specs.Record.{BeginsWithRecord, HasNoRecord, IsRecord, u64_code, undigested};

use crate::whole::add_digest;
use sha2::{Digest, Sha256};
use std::alloc::{AllocError, Global};

/// How many bytes a record has beside its entry: 8 for the place, 8 for the length, and the digest's 32.
pub const BESIDE: usize = 48;

#[tactic(auto, unfolding(crate::specs::Record::u64_code))]
fn push_number(out: &mut Vec<u8>, number: u64) -> Result<(), AllocError>
    ensures { OnOk result (out.new.items ≡ out.old.items ++ u64_code number) }
{
    out.extend_from_slice(&number.to_be_bytes())
}

// What a record has before its digest.
fn undigested(alloc: Global, place: u64, entry: &[u8]) -> Result<Vec<u8>, AllocError>
    ensures { IfOk result (λ bytes. bytes.items ≡ undigested place entry.now) }
{
    let mut bytes = Vec::new(alloc);
    push_number(&mut bytes, place)?;
    push_number(&mut bytes, entry.len() as u64)?;
    bytes.extend_from_slice(entry)?;
    Ok(bytes)
}

/// The record of an entry. Refused only when out of memory.
///
/// - `place`: the entry's place in the log, of which the first is 1.
pub fn record_of(alloc: Global, place: u64, entry: &[u8]) -> Result<Vec<u8>, AllocError>
    ensures { IfOk result (λ whole. IsRecord place entry.now whole.items) }
{
    let mut whole = undigested(alloc, place, entry)?;
    add_digest(&mut whole)?;
    Ok(whole)
}

// The number in the first eight bytes, and the bytes after them.
#[tactic(auto, unfolding(crate::specs::Record::u64_code))]
fn number_of(bytes: &[u8]) -> Option<(u64, &[u8])>
    ensures found { IfSome result (λ p. (p.0 < 2 ^ 64) × (bytes.now ≡ u64_code p.0 ++ p.1.now)) }
    ensures none { IfNone result (length bytes.now < 8) }
{
    if bytes.len() < 8 {
        return None;
    }
    let (prefix, rest) = bytes.split_at(8);
    let number = u64::from_be_bytes([
        prefix[0], prefix[1], prefix[2], prefix[3], prefix[4], prefix[5], prefix[6], prefix[7],
    ]);
    Some((number, rest))
}

// The first so many bytes and the rest, if there are 32 more in it.
fn entry_of(bytes: &[u8], size: u64) -> Option<(&[u8], &[u8])>
    ensures found { IfSome result (λ p. (bytes.now ≡ p.0.now ++ p.1.now) × (length p.0.now ≡ size) × (32 ≤ length p.1.now)) }
    ensures none { IfNone result (length bytes.now < size + 32) }
{
    let Some(room) = bytes.len().checked_sub(32) else {
        return None;
    };
    if (room as u64) < size {
        return None;
    }
    Some(bytes.split_at(size as usize))
}

// Whether these bytes have this digest.
fn has_digest(bytes: &[u8], digest: &[u8]) -> bool
    ensures { IsTrue result ↔ (sha256 bytes.now ≡ digest.now) }
{
    Sha256::digest(bytes).as_slice() == digest
}

/// The entry of the record with which these bytes begin, if it is one of this place, and the bytes
/// after it. None if they begin with none: it is damaged or cut, or of another place.
///
/// - `place`: as for `record_of`.
///
/// It takes time in proportion to the record, and no memory.
pub fn entry_in(bytes: &[u8], place: u64) -> Option<(&[u8], &[u8])>
    ensures found { IfSome result (λ p. BeginsWithRecord place p.0.now p.1.now bytes.now) }
    ensures none { IfNone result (HasNoRecord place bytes.now) }
{
    let Some((found, rest)) = number_of(bytes) else {
        return None;
    };
    if found != place {
        return None;
    }
    let Some((size, rest)) = number_of(rest) else {
        return None;
    };
    let Some((entry, rest)) = entry_of(rest, size) else {
        return None;
    };
    let (digest, after) = rest.split_at(32);
    let before = bytes.split_at(16 + entry.len()).0;
    if has_digest(before, digest) {
        Some((entry, after))
    } else {
        None
    }
}
