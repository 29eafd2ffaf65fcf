//! Parts without a digest that are cut, longer or changed: refused for a named reason, or the parts
//! of another checkpoint.
use crate::by_hand::{HEAD, PAIRS, parts_in, whole};
use checkpoint_code::{HeadFault, PageFault};
use saved_world::{LoadFault, LoadedFault, load, save};
use std::alloc::Global;
use world::CheckpointFault;

const SHORT: LoadedFault = LoadedFault::Checkpoint(CheckpointFault::Memory);

/// What is reported of some bytes: why they are refused, or whether the checkpoint that is loaded is
/// saved as these bytes again.
fn reported(alloc: Global, bytes: &[u8]) -> Result<bool, LoadedFault> {
    let checkpoint = load(alloc, bytes)?;
    match save(alloc, &checkpoint) {
        Ok(again) => Ok(parts_in(again.as_slice()) == bytes),
        Err(_) => Err(SHORT),
    }
}

fn worked(alloc: Global) -> Option<Vec<u8>> {
    whole(alloc, HEAD, PAIRS).ok()
}

fn are_cut(alloc: Global) -> bool {
    let Some(bytes) = worked(alloc) else {
        return false;
    };
    for end in 0..bytes.len() {
        if reported(alloc, &bytes[..end]) != Err(LoadedFault::Cut) {
            return false;
        }
    }
    true
}

fn reported_longer(alloc: Global, byte: u8) -> Option<Result<bool, LoadedFault>> {
    let mut bytes = worked(alloc)?;
    bytes.push(byte).ok()?;
    Some(reported(alloc, bytes.as_slice()))
}

#[test]
fn cut_bytes_are_refused_at_each_place(rt: HostRuntime) {
    assert!(rt; are_cut(rt.alloc()));
    for byte in [0, 1, 255] {
        assert!(rt; reported_longer(rt.alloc(), byte) == Some(Err(LoadedFault::Trailing)));
    }
}

// Whether a fault has its reason in the bytes, and not in a lack of memory.
fn is_reason(fault: LoadedFault) -> bool {
    !matches!(
        fault,
        LoadedFault::Head(HeadFault::Memory)
            | LoadedFault::Page(LoadFault::Memory)
            | LoadedFault::Page(LoadFault::Page(PageFault::Memory))
            | LoadedFault::Checkpoint(CheckpointFault::Memory)
    )
}

fn is_told(alloc: Global, bytes: &[u8]) -> bool {
    match reported(alloc, bytes) {
        Ok(is_same) => is_same,
        Err(fault) => is_reason(fault),
    }
}

// Whether no byte is lost that is another one at this place; the bytes are then as before.
fn is_none_lost(alloc: Global, bytes: &mut Vec<u8>, at: usize) -> bool {
    if at >= bytes.len() {
        return false;
    }
    let before = bytes[at];
    for byte in [before ^ 1, 0, 255] {
        bytes[at] = byte;
        if !is_told(alloc, bytes.as_slice()) {
            return false;
        }
    }
    bytes[at] = before;
    true
}

fn are_none_lost(alloc: Global) -> bool {
    let Some(mut bytes) = worked(alloc) else {
        return false;
    };
    for at in 0..bytes.len() {
        if !is_none_lost(alloc, &mut bytes, at) {
            return false;
        }
    }
    true
}

#[test]
fn no_changed_byte_is_lost(rt: HostRuntime) {
    assert!(rt; are_none_lost(rt.alloc()));
}

fn reported_changed(alloc: Global, at: usize, byte: u8) -> Option<Result<bool, LoadedFault>> {
    let mut bytes = worked(alloc)?;
    if at >= bytes.len() {
        return None;
    }
    bytes[at] = byte;
    Some(reported(alloc, bytes.as_slice()))
}

/// A place, the byte there, and what is reported. The head is at 8, of 390 bytes; the page at 406, of
/// 279; the empty part at 685.
static CHANGES: [(&str, usize, u8, Result<bool, LoadedFault>); 24] = [
    (
        "a head of more bytes than there are",
        0,
        1,
        Err(LoadedFault::Cut),
    ),
    (
        "a head of a byte less",
        7,
        0x85,
        Err(LoadedFault::Head(HeadFault::Malformed)),
    ),
    (
        "a head of a byte more",
        7,
        0x87,
        Err(LoadedFault::Head(HeadFault::Trailing)),
    ),
    (
        "another version of the head's code",
        8,
        2,
        Err(LoadedFault::Head(HeadFault::Version)),
    ),
    ("11 entries before", 16, 11, Ok(true)),
    (
        "before the last publication",
        24,
        30,
        Err(LoadedFault::Checkpoint(CheckpointFault::BadVersions)),
    ),
    (
        "publications that come too early",
        32,
        11,
        Err(LoadedFault::Head(HeadFault::BadTimeline)),
    ),
    (
        "element numbers that were given twice",
        194,
        3,
        Err(LoadedFault::Head(HeadFault::BadNewest)),
    ),
    (
        "the same in the version before",
        296,
        2,
        Err(LoadedFault::Head(HeadFault::BadBefore)),
    ),
    (
        "another name of the table before",
        212,
        b'u',
        Err(LoadedFault::Checkpoint(CheckpointFault::BadElements)),
    ),
    (
        "an index that was public before",
        291,
        3,
        Err(LoadedFault::Checkpoint(CheckpointFault::BadElements)),
    ),
    (
        "a clear",
        337,
        1,
        Err(LoadedFault::Checkpoint(CheckpointFault::BadReorganisations)),
    ),
    (
        "a fill that has come to row 3",
        393,
        3,
        Err(LoadedFault::Checkpoint(CheckpointFault::BadReorganisations)),
    ),
    ("a fill that has come to row 1", 393, 1, Ok(true)),
    (
        "a page of a byte less",
        405,
        0x16,
        Err(LoadedFault::Page(LoadFault::Page(PageFault::Malformed))),
    ),
    (
        "a page of a byte more",
        405,
        0x18,
        Err(LoadedFault::Page(LoadFault::Page(PageFault::Trailing))),
    ),
    (
        "another version of the page's code",
        406,
        2,
        Err(LoadedFault::Page(LoadFault::Page(PageFault::Version))),
    ),
    (
        "a page of 6 pairs",
        414,
        6,
        Err(LoadedFault::Page(LoadFault::Page(PageFault::Trailing))),
    ),
    (
        "a page of 8 pairs",
        414,
        8,
        Err(LoadedFault::Page(LoadFault::Page(PageFault::Malformed))),
    ),
    (
        "row 2 as row 0",
        513,
        0,
        Err(LoadedFault::Page(LoadFault::Page(PageFault::Unordered))),
    ),
    (
        "another value of row 1",
        491,
        6,
        Err(LoadedFault::Checkpoint(CheckpointFault::BadPairs)),
    ),
    ("another value of row 2", 568, 7, Ok(true)),
    (
        "another value in the index",
        667,
        6,
        Err(LoadedFault::Checkpoint(CheckpointFault::BadPairs)),
    ),
    ("a part after the page", 692, 1, Err(LoadedFault::Cut)),
];

#[test]
fn changed_bytes_have_their_reasons(rt: HostRuntime) {
    for (name, at, byte, wanted) in &CHANGES {
        assert!(rt;
            reported_changed(rt.alloc(), *at, *byte) == Some(*wanted),
            "{name}"
        );
    }
}
