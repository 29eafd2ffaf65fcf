//! Keys by hand: the kind, and then each number in eight bytes, the highest first, or a mark's name.
use byte_map::Bytes;
use drafts::Key;
use record_code::{NoKey, key_bytes, key_of};
use std::alloc::{AllocError, Global};

/// Whether these bytes are read as a key, and written so again.
fn reported(alloc: Global, bytes: &[u8]) -> Result<bool, NoKey> {
    let key = key_of(alloc, bytes)?;
    let again = key_bytes(alloc, &key)?;
    Ok(again.as_slice() == bytes)
}

/// The same, asked once more if memory was short.
fn asked(alloc: Global, bytes: &[u8]) -> Result<bool, NoKey> {
    match reported(alloc, bytes) {
        Err(NoKey::Memory) => reported(alloc, bytes),
        reported => reported,
    }
}

const VERSION: &[u8] = b"\0\0\0\0\0\0\0\x01\x02";

const REORG: &[u8] = b"\x01\0\0\0\0\0\0\0\x02";

const CURSOR: &[u8] = b"\x02\0\0\0\0\0\0\0\x02\0\0\0\0\0\0\0\x03";

const MARK: &[u8] = b"\x03name";

/// Bytes, and what is reported of them.
const KEYS: &[(&[u8], Result<bool, NoKey>)] = &[
    (VERSION, Ok(true)),
    (REORG, Ok(true)),
    (CURSOR, Ok(true)),
    (MARK, Ok(true)),
    (b"\0\xff\xff\xff\xff\xff\xff\xff\xff", Ok(true)),
    (b"\x01\0\0\0\0\xff\xff\xff\xff", Ok(true)),
    (b"\x03", Ok(true)),
    // the number of an element has 32 bits
    (b"\x01\0\0\0\x01\0\0\0\0", Err(NoKey::Malformed)),
    (
        b"\x02\0\0\0\x01\0\0\0\0\0\0\0\0\0\0\0\0",
        Err(NoKey::Malformed),
    ),
    // other kinds, those of pairs of rows and indexes among them
    (b"", Err(NoKey::Malformed)),
    (b"\x04\0\0\0\0\0\0\0\x01", Err(NoKey::Malformed)),
    (b"R\0\0\0\x01", Err(NoKey::Malformed)),
    (b"X\0\0\0\x01", Err(NoKey::Malformed)),
    // a byte more
    (b"\0\0\0\0\0\0\0\x01\x02\0", Err(NoKey::Malformed)),
];

#[test]
fn under_refusal_keys_are_read_and_written_so(rt: HostRuntime) {
    assert!(rt; rt.println("from here on").is_ok());
    for (bytes, want) in KEYS {
        assert!(rt; asked(rt.alloc(), bytes) == *want, "{bytes:?}");
    }
}

#[test]
fn keys_that_are_cut_are_refused(rt: HostRuntime) {
    for bytes in [VERSION, REORG, CURSOR] {
        for end in 0..bytes.len() {
            assert!(rt;
                reported(rt.alloc(), &bytes[..end]) == Err(NoKey::Malformed),
                "{end}"
            );
        }
    }
}

/// Whether the key has these bytes.
fn has(alloc: Global, key: Key, bytes: &[u8]) -> Result<bool, AllocError> {
    Ok(key_bytes(alloc, &key)?.as_slice() == bytes)
}

fn mark_of(alloc: Global) -> Result<Key, AllocError> {
    Ok(Key::mark(Bytes::from_slice(alloc, b"name")?))
}

fn all_have(alloc: Global) -> Result<bool, AllocError> {
    let version = has(alloc, Key::version(258), VERSION)?;
    let reorg = has(alloc, Key::reorg(2), REORG)?;
    let cursor = has(alloc, Key::cursor(2, 3), CURSOR)?;
    let mark = has(alloc, mark_of(alloc)?, MARK)?;
    Ok(version && reorg && cursor && mark)
}

#[test]
fn keys_have_these_bytes(rt: HostRuntime) {
    assert!(rt; all_have(rt.alloc()) == Ok(true));
}
