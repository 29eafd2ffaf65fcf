//! Control records by hand: the version of the code, 01, and then the parts of a version or a
//! reorganisation, the key of a cursor, or nothing.
use RecordKind::{Cursor, Mark, Reorg, Version};
use drafts::Record;
use record_code::{RecordFault, RecordKind, record_bytes, record_of};
use std::alloc::Global;

/// What is reported of some bytes: the fault of the reader, or whether the record that is read is
/// written so again.
fn reported(alloc: Global, kind: RecordKind, bytes: &[u8]) -> Result<bool, RecordFault> {
    let record = record_of(alloc, kind, bytes)?;
    let again = record_bytes(alloc, &record)?;
    Ok(again.as_slice() == bytes)
}

/// The same, asked once more if memory was short.
fn asked(alloc: Global, kind: RecordKind, bytes: &[u8]) -> Result<bool, RecordFault> {
    match reported(alloc, kind, bytes) {
        Err(RecordFault::Memory) => reported(alloc, kind, bytes),
        reported => reported,
    }
}

/// Table t has the key `id` and the optional number `a`, element 1, which is public.
const VERSION: &[u8] = b"\x01\
\0\0\0\0\0\0\0\x01\0\0\0\0\0\0\0\x01t\0\0\0\0\0\0\0\x01\0\0\0\0\0\0\0\x02id\0\
\0\0\0\0\0\0\0\x01\
\0\0\0\x01\0\0\0\x01\0\0\0\0\0\0\0\x01a\x01\0\x03\0\
\0\0\0\x02";

/// The fill of index i on column 1, element 2, delete-only and coming, in two pieces that meet at
/// X 01.
const REORG: &[u8] = b"\x01\
\0\0\0\x02\0\0\0\x01\0\0\0\0\0\0\0\x01i\0\0\0\0\0\0\0\0\x01\0\0\0\x01\x01\0\
\0\
\0\0\0\0\0\0\0\x02\
\0\0\0\0\0\0\0\x01X\0\0\0\0\0\0\0\x02X\x01\
\0\0\0\0\0\0\0\x02X\x01\0\0\0\0\0\0\0\x01Y";

/// Kinds, bytes, and what is reported of them.
const RECORDS: &[(RecordKind, &[u8], Result<bool, RecordFault>)] = &[
    (Version, VERSION, Ok(true)),
    (Reorg, REORG, Ok(true)),
    (Cursor, b"\x01R\0", Ok(true)),
    (Cursor, b"\x01", Ok(true)),
    (Mark, b"\x01", Ok(true)),
    (Mark, b"\x01\0", Err(RecordFault::Trailing)),
    (Version, b"", Err(RecordFault::Version)),
    (Reorg, b"", Err(RecordFault::Version)),
    (Cursor, b"", Err(RecordFault::Version)),
    (Mark, b"", Err(RecordFault::Version)),
    (Cursor, b"\x02R", Err(RecordFault::Version)),
    (Mark, b"\x02", Err(RecordFault::Version)),
    // each is no record of another kind
    (Version, REORG, Err(RecordFault::Malformed)),
    (Reorg, VERSION, Err(RecordFault::Malformed)),
    (Mark, VERSION, Err(RecordFault::Trailing)),
];

#[test]
fn under_refusal_records_are_read_and_written_so(rt: HostRuntime) {
    assert!(rt; rt.println("from here on").is_ok());
    for (kind, bytes, want) in RECORDS {
        assert!(rt;
            asked(rt.alloc(), *kind, bytes) == *want,
            "{kind:?} {bytes:?}"
        );
    }
}

#[test]
fn records_that_are_cut_are_refused(rt: HostRuntime) {
    for (kind, bytes) in [(Version, VERSION), (Reorg, REORG)] {
        for end in 1..bytes.len() {
            assert!(rt;
                reported(rt.alloc(), kind, &bytes[..end]) == Err(RecordFault::Malformed),
                "{end}"
            );
        }
    }
}

/// The bytes with another one at a place.
fn reported_changed(
    alloc: Global,
    kind: RecordKind,
    bytes: &[u8],
    at: usize,
    byte: u8,
) -> Result<bool, RecordFault> {
    let mut copy = Vec::from_slice(alloc, bytes)?;
    if at < copy.len() {
        copy[at] = byte;
    }
    reported(alloc, kind, copy.as_slice())
}

/// Whatever byte is changed, what is read is written as the bytes that were read.
#[test]
fn no_changed_byte_is_lost(rt: HostRuntime) {
    for (kind, bytes) in [(Version, VERSION), (Reorg, REORG)] {
        for at in 0..bytes.len() {
            for byte in [0, 1, 2, 3, 0x41, 0x7f, 0xff] {
                assert!(rt;
                    reported_changed(rt.alloc(), kind, bytes, at, byte) != Ok(false),
                    "{at} {byte}"
                );
            }
        }
    }
}

/// The places of the lowest bytes of the next free number and of the element's state, and a byte.
#[test]
fn versions_that_are_not_sound_are_refused(rt: HostRuntime) {
    for (at, byte) in [(VERSION.len() - 1, 1), (VERSION.len() - 6, 0)] {
        assert!(rt;
            reported_changed(rt.alloc(), Version, VERSION, at, byte) == Err(RecordFault::Unsound),
            "{at}"
        );
    }
}

/// Whether a version is read with one element and the next free number 2.
fn says(alloc: Global) -> Result<bool, RecordFault> {
    let record = record_of(alloc, Version, VERSION)?;
    match &record {
        Record::Version(schema) => {
            Ok(schema.get().next_number() == 2 && schema.get().elements().len() == 1)
        }
        _ => Ok(false),
    }
}

#[test]
fn a_version_says_so(rt: HostRuntime) {
    assert!(rt; says(rt.alloc()) == Ok(true));
}
