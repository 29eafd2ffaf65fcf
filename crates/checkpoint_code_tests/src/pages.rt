//! A page by hand: the key a without a value, and b with the value x.
use byte_map::Bytes;
use checkpoint_code::{PageFault, page_bytes, page_of};
use collections::List;
use std::alloc::Global;

const PAGE: &[u8] = b"\x01\
\0\0\0\0\0\0\0\x02\
\0\0\0\0\0\0\0\x01a\0\0\0\0\0\0\0\0\
\0\0\0\0\0\0\0\x01b\0\0\0\0\0\0\0\x01x";

fn written(alloc: Global, pairs: &List<(Bytes, Bytes)>) -> Result<Vec<u8>, PageFault> {
    match page_bytes(alloc, pairs.as_slice()) {
        Ok(bytes) => Ok(bytes),
        Err(_) => Err(PageFault::Memory),
    }
}

/// What is reported of some bytes: the fault of the reader, or whether the page that is read is
/// written so again.
fn reported(alloc: Global, bytes: &[u8]) -> Result<bool, PageFault> {
    let pairs = page_of(alloc, bytes)?;
    let again = written(alloc, &pairs)?;
    Ok(again.as_slice() == bytes)
}

fn reported_changed(alloc: Global, at: usize, byte: u8) -> Result<bool, PageFault> {
    match Vec::from_slice(alloc, PAGE) {
        Ok(mut copy) => {
            if at < copy.len() {
                copy[at] = byte;
            }
            reported(alloc, copy.as_slice())
        }
        Err(_) => Err(PageFault::Memory),
    }
}

#[test]
fn a_page_is_read_and_written_so(rt: HostRuntime) {
    assert!(rt; reported(rt.alloc(), PAGE) == Ok(true));
    assert!(rt; reported(rt.alloc(), b"\x01\0\0\0\0\0\0\0\0") == Ok(true));
}

#[test]
fn a_page_that_is_cut_is_refused(rt: HostRuntime) {
    assert!(rt; reported(rt.alloc(), &[]) == Err(PageFault::Version));
    for end in 1..PAGE.len() {
        assert!(rt;
            reported(rt.alloc(), &PAGE[..end]) == Err(PageFault::Malformed),
            "{end}"
        );
    }
}

/// Whatever byte is changed, what is read is written as the bytes that were read.
#[test]
fn no_changed_byte_of_a_page_is_lost(rt: HostRuntime) {
    for at in 0..PAGE.len() {
        for byte in [0, 1, 2, 3, 0x41, 0x7f, 0xff] {
            assert!(rt;
                reported_changed(rt.alloc(), at, byte) != Ok(false),
                "{at} {byte}"
            );
        }
    }
}

/// The second key is a, or below it; the second value is announced too short.
#[test]
fn pages_out_of_order_are_refused(rt: HostRuntime) {
    assert!(rt; reported_changed(rt.alloc(), 34, b'a') == Err(PageFault::Unordered));
    assert!(rt; reported_changed(rt.alloc(), 34, b'A') == Err(PageFault::Unordered));
    assert!(rt; reported_changed(rt.alloc(), 42, 0) == Err(PageFault::Trailing));
}
