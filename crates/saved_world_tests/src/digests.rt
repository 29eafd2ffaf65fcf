//! Saved bytes with their digest, which is worked out by another program.
use crate::by_hand::{
    EMPTY_DIGEST, EMPTY_HEAD, HEAD, MARKER, PAIRS, Pair, WORKED_DIGEST, many, saved_bytes, whole,
};
use crate::saved::is_saved_as;
use crate::worlds::mark;
use saved_world::{LoadedFault, load, save};
use std::alloc::Global;

fn bytes_of(alloc: Global, head: &[u8], pairs: &[Pair], digest: &[u8]) -> Option<Vec<u8>> {
    let parts = whole(alloc, head, pairs).ok()?;
    saved_bytes(alloc, parts.as_slice(), digest).ok()
}

fn worked(alloc: Global) -> Option<Vec<u8>> {
    bytes_of(alloc, HEAD, PAIRS, WORKED_DIGEST)
}

// Whether bytes are loaded, and saved as they are.
fn come_back(alloc: Global, bytes: &[u8]) -> bool {
    let Ok(checkpoint) = load(alloc, bytes) else {
        return false;
    };
    match save(alloc, &checkpoint) {
        Ok(again) => again.as_slice() == bytes,
        Err(_) => false,
    }
}

#[test]
fn saved_bytes_end_in_their_digest(rt: HostRuntime) {
    let empty = bytes_of(rt.alloc(), EMPTY_HEAD, &[], EMPTY_DIGEST);
    for bytes in [worked(rt.alloc()), empty] {
        assert!(rt; matches!(&bytes, Some(bytes) if come_back(rt.alloc(), bytes.as_slice())));
    }
}

// Whether bytes are refused for this reason.
fn is_refused(alloc: Global, bytes: &[u8], wanted: LoadedFault) -> bool {
    match load(alloc, bytes) {
        Ok(_) => false,
        Err(fault) => fault == wanted,
    }
}

// What damage at this byte is refused for: without their marker they are cut parts.
fn wanted_at(at: usize) -> LoadedFault {
    if at < MARKER.len() {
        LoadedFault::Cut
    } else {
        LoadedFault::Damaged
    }
}

// Whether no bit of this byte can be flipped; the bytes are then as before.
fn is_no_bit_flipped(alloc: Global, bytes: &mut Vec<u8>, at: usize) -> bool {
    if at >= bytes.len() {
        return false;
    }
    let before = bytes[at];
    for bit in [1u8, 2, 4, 8, 16, 32, 64, 128] {
        bytes[at] = before ^ bit;
        if !is_refused(alloc, bytes.as_slice(), wanted_at(at)) {
            return false;
        }
    }
    bytes[at] = before;
    true
}

// Whether the bytes before this place alone are refused.
fn is_cut_refused(alloc: Global, bytes: &[u8], at: usize) -> bool {
    at <= bytes.len() && is_refused(alloc, &bytes[..at], wanted_at(at))
}

fn are_damaged_refused(alloc: Global) -> bool {
    let Some(mut bytes) = worked(alloc) else {
        return false;
    };
    for at in 0..bytes.len() {
        if !is_no_bit_flipped(alloc, &mut bytes, at)
            || !is_cut_refused(alloc, bytes.as_slice(), at)
        {
            return false;
        }
    }
    bytes.push(0).is_ok() && is_refused(alloc, bytes.as_slice(), LoadedFault::Damaged)
}

#[test]
fn no_flipped_bit_no_cut_and_no_added_byte_is_loaded(rt: HostRuntime) {
    assert!(rt; are_damaged_refused(rt.alloc()));
}

// Whether a checkpoint of more than one page is saved as its parts are by hand.
fn are_many_saved<R: Print>(rt: &R, alloc: Global) -> bool {
    let Ok(parts) = many(alloc) else {
        return false;
    };
    let Ok(checkpoint) = load(alloc, parts.as_slice()) else {
        return false;
    };
    mark(rt) && is_saved_as(alloc, &checkpoint, parts.as_slice())
}

#[test]
fn under_refusal_two_pages_are_saved(rt: HostRuntime) {
    assert!(rt; are_many_saved(&rt, rt.alloc()));
}
