//! A head by hand: 3 entries before it, the last at moment 120; leases of 10; versions published at
//! 0 and 100. Table 1, t, has the key `id`; column `a` is element 1, and in the newest version index
//! `i` on it, element 2, is delete-only and being added. A fill of `i` has come from X to X 01, and
//! ends at Y.
use checkpoint_code::{HeadFault, head_bytes, head_of};
use std::alloc::Global;

const HEAD: &[u8] = b"\x01\
\0\0\0\0\0\0\0\x03\0\0\0\0\0\0\0\x78\0\0\0\0\0\0\0\x0a\
\0\0\0\0\0\0\0\x02\0\0\0\0\0\0\0\0\0\0\0\0\0\0\0\x64\
\0\0\0\0\0\0\0\x01\0\0\0\0\0\0\0\x01t\0\0\0\0\0\0\0\x01\0\0\0\0\0\0\0\x02id\0\
\0\0\0\0\0\0\0\x02\
\0\0\0\x01\0\0\0\x01\0\0\0\0\0\0\0\x01a\x01\0\x03\0\
\0\0\0\x02\0\0\0\x01\0\0\0\0\0\0\0\x01i\0\0\0\0\0\0\0\0\x01\0\0\0\x01\x01\0\
\0\0\0\x03\
\x01\
\0\0\0\0\0\0\0\x01\0\0\0\0\0\0\0\x01t\0\0\0\0\0\0\0\x01\0\0\0\0\0\0\0\x02id\0\
\0\0\0\0\0\0\0\x01\
\0\0\0\x01\0\0\0\x01\0\0\0\0\0\0\0\x01a\x01\0\x03\0\
\0\0\0\x02\
\0\0\0\0\0\0\0\x01\
\0\0\0\x02\0\0\0\x01\0\0\0\0\0\0\0\x01i\0\0\0\0\0\0\0\0\x01\0\0\0\x01\x01\0\
\0\
\0\0\0\0\0\0\0\x01\
\0\0\0\0\0\0\0\x01X\0\0\0\0\0\0\0\x01Y\0\0\0\0\0\0\0\x02X\x01";

/// What is reported of some bytes: the fault of the reader, or whether the head that is read is
/// written so again.
fn reported(alloc: Global, bytes: &[u8]) -> Result<bool, HeadFault> {
    let head = head_of(alloc, bytes)?;
    let again = head_bytes(alloc, &head)?;
    Ok(again.as_slice() == bytes)
}

/// The bytes with another one at a place.
fn changed(alloc: Global, bytes: &[u8], at: usize, byte: u8) -> Result<Vec<u8>, HeadFault> {
    let mut copy = Vec::from_slice(alloc, bytes)?;
    if at < copy.len() {
        copy[at] = byte;
    }
    Ok(copy)
}

fn reported_changed(alloc: Global, at: usize, byte: u8) -> Result<bool, HeadFault> {
    let other = changed(alloc, HEAD, at, byte)?;
    reported(alloc, other.as_slice())
}

fn reported_longer(alloc: Global) -> Result<bool, HeadFault> {
    let mut longer = Vec::from_slice(alloc, HEAD)?;
    match longer.push(0) {
        Ok(()) => reported(alloc, longer.as_slice()),
        Err(_) => Err(HeadFault::Memory),
    }
}

/// What the head says, part by part.
fn says(alloc: Global) -> Result<bool, HeadFault> {
    let head = head_of(alloc, HEAD)?;
    let before = match &head.before {
        Some(version) => version.get().next_number(),
        None => 0,
    };
    Ok(
        head.place == 3
            && head.moment == 120
            && head.line.length() == 10
            && head.line.newest() == 2
            && head.line.last_publication() == 100
            && head.newest.get().next_number() == 3
            && head.newest.get().elements().len() == 2
            && before == 2
            && head.begun.len() == 1,
    )
}

#[test]
fn a_head_is_read_and_written_so(rt: HostRuntime) {
    assert!(rt; reported(rt.alloc(), HEAD) == Ok(true));
    assert!(rt; says(rt.alloc()) == Ok(true));
}

#[test]
fn a_head_that_is_cut_is_refused(rt: HostRuntime) {
    assert!(rt; reported(rt.alloc(), &[]) == Err(HeadFault::Version));
    for end in 1..HEAD.len() {
        assert!(rt;
            reported(rt.alloc(), &HEAD[..end]) == Err(HeadFault::Malformed),
            "{end}"
        );
    }
    assert!(rt; reported_longer(rt.alloc()) == Err(HeadFault::Trailing));
}

/// Whatever byte is changed, what is read is written as the bytes that were read.
#[test]
fn no_changed_byte_is_lost(rt: HostRuntime) {
    for at in 0..HEAD.len() {
        for byte in [0, 1, 2, 3, 0x41, 0x7f, 0xff] {
            assert!(rt;
                reported_changed(rt.alloc(), at, byte) != Ok(false),
                "{at} {byte}"
            );
        }
    }
}

/// The places of the lowest bytes of the second publication, of the newest version's next number, of
/// the state of its index, and of the next number before; a byte; and the fault.
const FAULTS: &[(usize, u8, HeadFault)] = &[
    (0, 2, HeadFault::Version),
    (48, 5, HeadFault::BadTimeline),
    (24, 0, HeadFault::BadTimeline),
    (149, 2, HeadFault::BadNewest),
    (144, 0, HeadFault::BadNewest),
    (219, 1, HeadFault::BadBefore),
];

#[test]
fn heads_that_no_world_has_are_refused(rt: HostRuntime) {
    for (at, byte, fault) in FAULTS {
        assert!(rt;
            reported_changed(rt.alloc(), *at, *byte) == Err(*fault),
            "{at}"
        );
    }
}
